//! Streams of each kind.

ghost use Rattle.std.specs.Prelude.{◌≡◌, ◌<◌, ◌^◌, IfOk, length};
ghost use Rattle.a64_stream.specs.Streams.{item_count};

use crate::branches::branches;
use crate::command::Kind;
use crate::mixed::mixed;
use crate::stream::Stream;
use std::alloc::{AllocError, Global};

/// A stream of so many groups, or pairs.
///
/// # Errors
///
/// Want of memory.
pub fn stream_of(alloc: Global, kind: Kind, count: u32) -> Result<Stream, AllocError>
    requires { count < 2 ^ 28 }
    ensures { IfOk result (λ stream. length stream.items.items ≡ item_count kind count) }
{
    match kind {
        Kind::Mixed => mixed(alloc, count),
        Kind::Branches => branches(alloc, count),
    }
}
