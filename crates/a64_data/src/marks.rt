//! Marks at the bytes of code.

ghost use Rattle.std.specs.Prelude.{◌≡◌, false, replicate, IfOk};
ghost use Rattle.a64_data.specs.Marks.{InBytes, Marks};

use std::alloc::{AllocError, Global};

/// So many bytes without a mark.
///
/// # Errors
///
/// Want of memory.
pub(crate) fn no_marks(alloc: Global, size: usize) -> Result<Vec<bool>, AllocError>
    ensures { IfOk result (λ marks. marks.items ≡ replicate size false) }
{
    vec![in alloc; false; size]
}

/// Marks so many bytes from a place on. Those behind the last byte have no mark.
pub(crate) fn mark(marks: &mut [bool], place: usize, size: usize)
    ensures { Marks (InBytes place size) marks.old marks.new }
{
    let begin = place.min(marks.len());
    let end = begin + size.min(marks.len() - begin);
    for k in begin..end {
        marks[k] = true;
    }
}
