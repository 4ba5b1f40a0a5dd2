//! Keys of pointer authentication.

ghost use Rattle.std.specs.Prelude.{◌≡◌};

/// A key and a modifier of pointer authentication (Cranelift's `APIKey`).
#[derive(Clone, Copy, Debug)]
pub enum APIKey {
    /// Key A with the modifier zero.
    AZ,
    /// Key A with the stack pointer.
    ASP,
    /// Key B with the modifier zero.
    BZ,
    /// Key B with the stack pointer.
    BSP,
}

impl APIKey {
    ghost use Rattle.a64_base.specs.Keys.{auti_hint};

    /// The word of the hint that authenticates the link register: `autiaz`, `autiasp`, `autibz`
    /// or `autibsp`.
    pub fn enc_auti_hint(&self) -> u32
        ensures { result ≡ auti_hint self.now }
    {
        match *self {
            APIKey::AZ => 0xd503_239f,
            APIKey::ASP => 0xd503_23bf,
            APIKey::BZ => 0xd503_23df,
            APIKey::BSP => 0xd503_23ff,
        }
    }
}
