//! The call that assembles a text, and gives what is recorded of its code.

ghost use Rattle.std.specs.Prelude.{◌≡◌};
ghost use Rattle.a64_c.specs.Recorded.{IsRecorded, counts_of, refused_counts, rooms};

use crate::answer::Refusal;
use crate::code::{code_of, force_veneers};
use crate::record::{
    Island, LabelPlace, PatchableCall, Relocation, StackMap, Trap, put_records, put_values,
};
use a64_emit::Code;
use std::alloc::Global;

/// How much there is of code and of each kind of record, whatever room a caller had for it.
#[repr(C)]
#[derive(Clone, Copy, Debug)]
pub struct Counts {
    /// 0 where there is code; a64_c.h has a name for each status.
    pub status: i32,
    /// As of [`Answer`](crate::Answer).
    pub subject: u64,
    /// The bytes of the code.
    pub bytes: usize,
    /// The items.
    pub items: usize,
    /// The bound labels.
    pub labels: usize,
    /// The islands.
    pub islands: usize,
    /// Where the pool behind the last item begins, in bytes from the start of the code.
    pub pool: u32,
    /// The relocations.
    pub relocations: usize,
    /// The instructions that may trap.
    pub traps: usize,
    /// The calls.
    pub calls: usize,
    /// The calls that may be patched.
    pub patchable_calls: usize,
    /// The maps of the stack.
    pub stack_maps: usize,
}

impl Counts {
    /// The counts of code.
    fn of(code: &Code) -> Counts
        ensures { result ≡ counts_of code.now }
    {
        Counts {
            status: 0,
            subject: 0,
            bytes: code.bytes.len(),
            items: code.places.len(),
            labels: code.labels.len(),
            islands: code.islands.len(),
            pool: code.pool,
            relocations: code.relocs.len(),
            traps: code.traps.len(),
            calls: code.calls.len(),
            patchable_calls: code.patchable.len(),
            stack_maps: code.maps.len(),
        }
    }

    /// What is answered where there is no code.
    fn refused(refusal: Refusal) -> Counts
        ensures { result ≡ refused_counts refusal }
    {
        let answer = refusal.answer();
        Counts {
            status: answer.status,
            subject: answer.subject,
            bytes: 0,
            items: 0,
            labels: 0,
            islands: 0,
            pool: 0,
            relocations: 0,
            traps: 0,
            calls: 0,
            patchable_calls: 0,
            stack_maps: 0,
        }
    }
}

/// Assembles a text of at most 16,777,216 bytes, and puts its code and each kind of record into buffers, each
/// as far as there is room. Nothing is asked of the caller but that its memory is valid. Each buffer is as it
/// was behind what stands in it, and all of it where there is no code.
#[unsafe(no_mangle)]
pub extern "C" fn a64_assemble_records(
    alloc: Global,
    text: &[u8],
    force: bool,
    bytes: &mut [u8],
    items: &mut [u32],
    labels: &mut [LabelPlace],
    islands: &mut [Island],
    relocations: &mut [Relocation],
    traps: &mut [Trap],
    calls: &mut [u32],
    patchable_calls: &mut [PatchableCall],
    stack_maps: &mut [StackMap],
) -> Counts
    ensures { IsRecorded text.now force
        (rooms bytes.old items.old labels.old islands.old relocations.old traps.old calls.old
        patchable_calls.old stack_maps.old)
        (rooms bytes.new items.new labels.new islands.new relocations.new traps.new calls.new
        patchable_calls.new stack_maps.new)
        result }
{
    match code_of(alloc, text, force_veneers(force)) {
        Ok(code) => {
            put_values(&code.bytes, bytes);
            put_values(&code.places, items);
            put_records(&code.labels, labels);
            put_records(&code.islands, islands);
            put_records(&code.relocs, relocations);
            put_records(&code.traps, traps);
            put_values(&code.calls, calls);
            put_records(&code.patchable, patchable_calls);
            put_records(&code.maps, stack_maps);
            Counts::of(&code)
        }
        Err(refusal) => Counts::refused(refusal),
    }
}
