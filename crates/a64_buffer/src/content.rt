//! The bytes of a constant.

ghost use Rattle.std.specs.Prelude.{◌≡◌, ◌==◌, ◌||◌, IsTrue, length};

/// The bytes of a constant: 4, 8 or 16.
///
/// They stand in the table of constants itself, with their number. So a constant takes no memory of
/// its own, and a load, which asks for the size alone, costs a step of the table. With a variant for
/// each size, looking up the size takes five machine instructions more.
#[derive(Clone, Copy)]
pub struct Content {
    /// How many there are.
    size: u32,
    /// The bytes, and zeros behind them.
    bytes: [u8; 16],
    ghost sized: { IsTrue (size == 4 || size == 8 || size == 16) },
    ghost whole: { length bytes ≡ 16 },
}

impl Content {
    ghost use Rattle.a64_buffer.specs.Constants.{IsConstant, content_bytes};

    /// The content of these bytes.
    pub fn new(part: &[u8]) -> Content
        requires { IsConstant part.now }
        ensures { content_bytes result ≡ part.now }
    {
        let mut bytes = [0; 16];
        bytes[..part.len()].copy_from_slice(part);
        Content {
            size: part.len() as u32,
            bytes,
        }
    }

    /// How many bytes there are.
    #[inline(always)]
    pub fn size(self) -> u32
        ensures { result ≡ length (content_bytes self) }
    {
        self.size
    }

    /// The bytes.
    pub fn as_slice(&self) -> &[u8]
        ensures { result.now ≡ content_bytes self.now }
    {
        &self.bytes[..self.size as usize]
    }
}
