//! Ranges of bytes.

ghost use Rattle.std.specs.Prelude.{IfOk};
ghost use Rattle.a64_data.specs.Marks.{AreRangesOf};

use std::alloc::{AllocError, Global};

/// A range of bytes of code that are data, by their places from the start of the code.
#[derive(Clone, Copy, Debug, PartialEq, Eq)]
pub struct DataRange {
    /// The place of the first byte.
    pub begin: usize,
    /// The place behind the last byte, which is greater.
    pub end: usize,
}

/// The ranges of the bytes that are marked, in order: each as long as it can be.
///
/// # Errors
///
/// Want of memory.
pub(crate) fn ranges_of(alloc: Global, marks: &[bool]) -> Result<Vec<DataRange>, AllocError>
    ensures { IfOk result (λ ranges. AreRangesOf marks.now ranges.items) }
{
    let mut ranges = Vec::new(alloc);
    let mut open: Option<usize> = None;
    for (place, marked) in marks.iter().enumerate() {
        match open {
            None => {
                if *marked {
                    open = Some(place);
                }
            }
            Some(begin) => {
                if !*marked {
                    ranges.push(DataRange { begin, end: place })?;
                    open = None;
                }
            }
        }
    }
    if let Some(begin) = open {
        let end = marks.len();
        ranges.push(DataRange { begin, end })?;
    }
    Ok(ranges)
}
