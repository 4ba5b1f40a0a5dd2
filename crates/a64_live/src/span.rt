//! Runs of numbers.

use std::alloc::{AllocError, Global};
use std::collections::BTreeSet;
use std::fmt;

/// The numbers from a first one to a last one.
#[derive(Clone, Copy, Debug)]
pub struct Span {
    first: usize,
    last: usize,
}

impl fmt::Display for Span {
    fn fmt<W: fmt::Write>(&self, f: &mut fmt::Formatter<W>) -> fmt::Result {
        let (first, last) = (self.first, self.last);
        if first == last {
            write!(f, "{first}")
        } else {
            write!(f, "{first}-{last}")
        }
    }
}

/// The longest spans of the numbers in a set, in order.
///
/// # Errors
///
/// Want of memory.
pub fn spans_of(alloc: Global, numbers: &BTreeSet<usize>) -> Result<Vec<Span>, AllocError> {
    let mut spans: Vec<Span> = Vec::new(alloc);
    for number in numbers {
        match spans.last_mut() {
            Some(span) if span.last.checked_add(1) == Some(*number) => span.last = *number,
            _ => spans.push(Span {
                first: *number,
                last: *number,
            })?,
        }
    }
    Ok(spans)
}
