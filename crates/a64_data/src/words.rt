//! The words of items that are data.

ghost use Rattle.std.specs.Prelude.{◌≡◌, ◌^◌, ◌<◌, ◌+◌, ◌*◌, map, length};
ghost use Rattle.a64_base.specs.declared.reg.Reg.{Reg};
ghost use Rattle.a64_cells.specs.Cells.{cells_of, inst_cells, restored_cell};
ghost use Rattle.a64_cells.specs.Shapes.{table_forms};
ghost use Rattle.a64_data.specs.Cells.{InData, IsItemData, is_data};
ghost use Rattle.a64_data.specs.Marks.{InBytes, Marks};

use crate::marks::mark;
use a64_cells::word::sequence::has_barrier;
use a64_inst::{EmitInfo, FrameLayout, Inst, Item, const_plan};

/// The bytes of a word.
const WORD_BYTES: usize = 4;

/// Marks so many words, of which the first has this index among those that stand from a place on.
fn mark_words(marks: &mut [bool], place: u32, first: usize, count: usize)
    ensures { Marks (InBytes (place + 4 * first) (4 * count)) marks.old marks.new }
{
    // What is past the numbers of 64 bits is past the last byte too.
    let begin = (place as usize).saturating_add(WORD_BYTES.saturating_mul(first));
    // No more words than there are bytes, so that the product is a number of 64 bits.
    let most = marks.len() / WORD_BYTES + 1;
    mark(marks, begin, WORD_BYTES * count.min(most));
}

/// Whether an instruction that a frame restores is a word of data.
fn is_restored_data(inst: &Inst, _frame: &FrameLayout, _info: &EmitInfo) -> bool
    ensures { result ≡ is_data (restored_cell _frame.now _info.now inst.now) }
{
    matches!(inst, Inst::Word4 { .. } | Inst::Word8 { .. })
}

/// How many words stand in front of the table of a jump through so many targets.
fn table_start(targets: usize, info: &EmitInfo) -> usize
    ensures start { (ridx rtmp1 rtmp2 : Reg)
        → result ≡ length (table_forms info.now targets ridx rtmp1 rtmp2) }
    ensures few { result < 2 ^ 32 }
{
    const_plan(targets as u64).len() + 5 + usize::from(has_barrier(info))
}

/// Marks the words of data among those that a frame restores, which stand from a place on.
fn mark_restored(marks: &mut [bool], place: u32, frame: &FrameLayout, info: &EmitInfo)
    ensures { Marks (InData (map (restored_cell frame.now info.now) frame.now.restore) place)
        marks.old marks.new }
{
    for (index, inst) in frame.restore.as_slice().iter().enumerate() {
        if is_restored_data(inst, frame, info) {
            mark_words(marks, place, index, 1);
        }
    }
}

/// Marks the words of an instruction that are data, where it stands at a place.
fn mark_inst(marks: &mut [bool], place: u32, inst: &Inst, frame: &FrameLayout, info: &EmitInfo)
    ensures { Marks (InData (inst_cells frame.now info.now inst.now) place) marks.old marks.new }
{
    match inst {
        Inst::Word4 { .. } => mark_words(marks, place, 0, 1),
        Inst::Word8 { .. } => mark_words(marks, place, 0, 2),
        Inst::LoadExtNameFar { .. } => mark_words(marks, place, 2, 2),
        Inst::JTSequence { targets, .. } => {
            let targets = targets.as_slice().len();
            mark_words(marks, place, table_start(targets, info), targets + 1);
        }
        Inst::ReturnCall { .. } => mark_restored(marks, place, frame, info),
        Inst::ReturnCallInd { .. } => mark_restored(marks, place, frame, info),
        _ => {}
    }
}

/// Marks the words of an item that are data, where it stands at a place.
fn mark_item(marks: &mut [bool], place: u32, item: &Item, frame: &FrameLayout, info: &EmitInfo)
    ensures { Marks (InData (cells_of frame.now info.now item.now) place) marks.old marks.new }
{
    match item {
        Item::Bind(_) => {}
        Item::Emit { inst, map: _ } => mark_inst(marks, place, inst, frame, info),
    }
}

/// Marks the words of items that are data, where the items stand at these places.
pub(crate) fn mark_items(
    marks: &mut [bool],
    items: &[Item],
    places: &[u32],
    frame: &FrameLayout,
    info: &EmitInfo,
)
    ensures { Marks (IsItemData frame.now info.now items.now places.now) marks.old marks.new }
{
    for (index, item) in items.iter().enumerate() {
        match places.get(index) {
            Some(place) => mark_item(marks, *place, item, frame, info),
            None => {}
        }
    }
}
