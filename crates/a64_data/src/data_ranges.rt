//! The ranges of items that are data.

ghost use Rattle.std.specs.Prelude.{length, IfOk};
ghost use Rattle.a64_data.specs.Cells.{AreRangesWith, IsItemData};

use crate::marks::no_marks;
use crate::range::{DataRange, ranges_of};
use crate::words::mark_items;
use a64_emit::Code;
use a64_inst::{EmitInfo, FrameLayout, Item};
use std::alloc::{AllocError, Global};

/// The ranges of bytes of the code of items that are words of data of these items: words of data, jump tables, and
/// the eight bytes behind the load of a far symbol. They ascend, are apart, and are not empty. Trap words are no data,
/// since branches lead to them. What islands and the pool hold is not told. `code` is to be that of the items, with
/// the same frame and settings.
///
/// # Errors
///
/// Want of memory.
pub fn item_data_ranges(
    alloc: Global,
    items: &[Item],
    info: &EmitInfo,
    frame: &FrameLayout,
    code: &Code,
) -> Result<Vec<DataRange>, AllocError>
    ensures { IfOk result (λ ranges. AreRangesWith
        (IsItemData frame.now info.now items.now code.now.places.items)
        (length code.now.bytes.items) ranges.items) }
{
    let bytes = code.bytes.as_slice();
    let mut marks = no_marks(alloc, bytes.len())?;
    mark_items(marks.as_mut_slice(), items, &code.places, frame, info);
    ranges_of(alloc, marks.as_slice())
}
