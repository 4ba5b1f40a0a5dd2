//! Streams of jumps and their labels.

ghost use Rattle.std.specs.Prelude.{◌≡◌, ◌<◌, ◌^◌, ◌+◌, ◌*◌, IfOk, OnOk, length};

use crate::stream::{Step, Stream};
use a64_base::MachLabel;
use std::alloc::{AllocError, Global};

/// Adds a jump to the label of this number, and behind it the label.
fn add_pair(stream: &mut Stream, number: u32) -> Result<(), AllocError>
    ensures { OnOk result (length stream.new.items.items ≡ length stream.old.items.items + 2) }
{
    let label = MachLabel(number);
    stream.push(Step::jump(label))?;
    stream.push(Step::Bind(label))
}

/// So many pairs of a jump and its label, which is bound right behind it.
///
/// # Errors
///
/// Want of memory.
pub fn branches(alloc: Global, pairs: u32) -> Result<Stream, AllocError>
    requires { pairs < 2 ^ 28 }
    ensures { IfOk result (λ stream. length stream.items.items ≡ 2 * pairs) }
{
    let mut stream = Stream::with_capacity(alloc, 2 * pairs as usize)?;
    for number in 0..pairs {
        add_pair(&mut stream, number)?;
    }
    Ok(stream)
}
