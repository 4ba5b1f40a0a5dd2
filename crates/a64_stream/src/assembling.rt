//! The assembly of a stream.

ghost use Rattle.std.specs.Prelude.{◌<◌, ◌^◌, length};

use crate::stream::Stream;
use a64_assemble::assemble;
use a64_buffer::ForceVeneers;
use a64_emit::{Code, EmitError};
use std::alloc::Global;

/// The code of a stream. Islands stand only where they are needed.
///
/// # Errors
///
/// Why the items are refused, or want of memory.
// A function of its own in the machine code, so that a profiler can tell its share.
#[inline(never)]
pub fn assembled(alloc: Global, stream: &Stream) -> Result<Code, EmitError>
    requires { length stream.now.items.items < 2 ^ 32 }
{
    assemble(
        alloc,
        &stream.items,
        &stream.constants,
        &stream.info,
        &stream.frame,
        ForceVeneers::No,
    )
}
