//! The assembly of whole lists of items.

ghost use Rattle.std.specs.Prelude.{ℕ, ◌≡◌, ◌^◌, ◌<◌, None, length, slice_index, IfOk, IfErr};
ghost use Rattle.a64_buffer.specs.Buffer.{new_buffer};
ghost use Rattle.a64_emit.specs.Faults.{RestoresExactly, own_fault, second_binding};
ghost use Rattle.a64_emit.specs.Reach.{out_of_reach};
ghost use Rattle.a64_assemble.specs.Assembled.{IsAssembled, IsRefusal};
ghost use Rattle.a64_assemble.specs.Found.{IsFound};
ghost use Rattle.a64_assemble.specs.Made.{IsMadeOf};

use crate::checks::{Found, bound_labels, check_items};
use crate::putting::{Putting, put_items};
use crate::reach::{check_reach, is_quiet};
use a64_buffer::{Constants, Finished, ForceVeneers, MachBuffer};
use a64_emit::{Code, EmitError, LabelUse, restores_halfwords};
use a64_inst::{EmitInfo, EmitState, FrameLayout, Item};
use std::alloc::{AllocError, Global};

/// A buffer without code, with memory for so many words and uses, and for the two words more for which a
/// buffer takes memory where its code is finished, and would else copy all words. As many uses are asked for
/// as items may have, so that a label bound last stands in the table of labels too. No clause tells how many:
/// a wrong number costs memory alone.
fn buffer_for(
    alloc: Global,
    constants: &Constants,
    words: usize,
    uses: usize,
) -> Result<MachBuffer<'_, LabelUse>, AllocError>
    ensures { IfOk result (λ buffer. buffer ≡ new_buffer constants.now) }
{
    let mut buffer = MachBuffer::new(alloc, constants);
    buffer.reserve(words.saturating_add(2), uses)?;
    Ok(buffer)
}

/// That each byte is below 256. The call does nothing else.
#[inline(always)]
fn are_bytes(bytes: &[u8])
    ensures { (k : ℕ) → slice_index bytes.now k < 256 }
{
    let _ = bytes;
}

/// The code of items that have no fault, of which this was found.
///
/// # Errors
///
/// Want of memory.
fn placed(
    alloc: Global,
    items: &[Item],
    found: Found,
    constants: &Constants,
    info: &EmitInfo,
    frame: &FrameLayout,
    force: ForceVeneers,
) -> Result<Code, AllocError>
    requires good { own_fault frame.now info.now constants.now items.now ≡ None }
    requires once { second_binding items.now ≡ None }
    requires found { IsFound frame.now info.now items.now found }
    requires near { out_of_reach frame.now info.now force items.now ≡ None }
    ensures { IfOk result (IsMadeOf frame.now info.now constants.now force items.now) }
{
    let mut state = EmitState::new(frame.try_clone(alloc)?);
    let mut buffer = buffer_for(alloc, constants, items.len(), found.users)?;
    let how = Putting {
        info,
        force,
        quiet: is_quiet(found, force),
        widest: found.widest,
    };
    let places = put_items(alloc, items, &mut buffer, &mut state, &how)?;
    let finished = buffer.finish()?;
    let code = code_of(places, finished);
    are_bytes(&code.bytes);
    Ok(code)
}

/// The code of items: each stands at its place, in order, and each use leads to its target. Islands stand
/// between them where branches, loads of constants or deferred traps would come out of reach, and at places
/// for islands where that is needed, or forced and some use waits. A return that calls has the instructions that the
/// frame restores: the frame can restore those that have no fault by themselves and are one word, which is no use and
/// no call, and no others (`restores`).
///
/// # Errors
///
/// The first fault of the items, or want of memory, which comes only where each item is right by
/// itself.
pub fn assemble(
    alloc: Global,
    items: &[Item],
    constants: &Constants,
    info: &EmitInfo,
    frame: &FrameLayout,
    force: ForceVeneers,
) -> Result<Code, EmitError>
    requires few { length items.now < 2 ^ 32 }
    ensures ok { IfOk result (IsAssembled frame.now info.now constants.now force items.now) }
    ensures err { IfErr result (IsRefusal frame.now info.now constants.now force items.now) }
    ensures restores { RestoresExactly frame.now info.now constants.now }
{
    restores_halfwords(frame);
    // What is wrong with an item by itself is told first.
    let bound = bound_labels(alloc, items);
    let found = check_items(items, bound.as_ref().ok(), constants, info, frame)?;
    bound?;
    let found = found?;
    check_reach(alloc, items, found, force, info, frame)?;
    let code = placed(alloc, items, found, constants, info, frame, force)?;
    Ok(code)
}
/// The code that a finished buffer is, with the places of its items.
fn code_of(places: Vec<u32>, finished: Finished) -> Code
    ensures { result ≡ record {
      bytes = finished.bytes;
      places = places;
      labels = finished.labels;
      islands = finished.islands;
      pool = finished.pool;
      relocs = finished.relocs;
      traps = finished.traps;
      calls = finished.calls;
      patchable = finished.patchable;
      maps = finished.maps;
    } }
{
    let Finished {
        bytes,
        labels,
        islands,
        pool,
        relocs,
        traps,
        calls,
        patchable,
        maps,
    } = finished;
    Code {
        bytes,
        places,
        labels,
        islands,
        pool,
        relocs,
        traps,
        calls,
        patchable,
        maps,
    }
}
