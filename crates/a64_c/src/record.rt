//! What is recorded of code, as structs of numbers.

ghost use Rattle.std.specs.Prelude.{◌≡◌, map};
ghost use Rattle.a64_c.specs.Records.{over, kind_of, label_place_of, island_of, relocation_of, trap_of, patchable_call_of, stack_map_of};

use a64_base::{ExternalName, MachLabel, Reloc, TrapCode, UserStackMap};

/// A record of code, as numbers.
pub trait Record: Copy {
    /// What is recorded.
    type Subject;

    /// The record of a subject.
    ghost record_of: { Self.Subject → Self };

    /// The record of a subject.
    fn of(subject: &Self::Subject) -> Self
        ensures { result ≡ record_of subject.now };
}

/// A bound label. Like all places, its place is counted in bytes from the start of the code.
#[repr(C)]
#[derive(Clone, Copy, Debug)]
pub struct LabelPlace {
    /// The number of the label.
    pub label: u32,
    /// Where it is bound.
    pub place: u32,
}

/// An island.
#[repr(C)]
#[derive(Clone, Copy, Debug)]
pub struct Island {
    /// Where it begins.
    pub begin: u32,
    /// Where it ends: the place behind its last byte.
    pub end: u32,
}

/// A relocation.
#[repr(C)]
#[derive(Clone, Copy, Debug)]
pub struct Relocation {
    /// The place of the bytes that it changes.
    pub place: u32,
    /// The number of its kind; a64_c.h has a name for each.
    pub kind: u32,
    /// The number of its symbol.
    pub symbol: u32,
    /// What is added to the symbol.
    pub addend: i64,
}

/// An instruction that may trap.
#[repr(C)]
#[derive(Clone, Copy, Debug)]
pub struct Trap {
    /// The place of the instruction.
    pub place: u32,
    /// The code of the trap.
    pub code: u32,
}

/// A call that may be patched.
#[repr(C)]
#[derive(Clone, Copy, Debug)]
pub struct PatchableCall {
    /// The place behind the call.
    pub place: u32,
    /// How many bytes the call has.
    pub length: u32,
}

/// A map of the stack at a call.
#[repr(C)]
#[derive(Clone, Copy, Debug)]
pub struct StackMap {
    /// The place behind the call.
    pub place: u32,
    /// The number of the map.
    pub map: u32,
}

impl Record for LabelPlace {
    type Subject = (MachLabel, u32);

    ghost record_of = { label_place_of };

    fn of(subject: &(MachLabel, u32)) -> LabelPlace {
        let (label, place) = subject;
        LabelPlace {
            label: label.0,
            place: *place,
        }
    }
}

impl Record for Island {
    type Subject = (u32, u32);

    ghost record_of = { island_of };

    fn of(subject: &(u32, u32)) -> Island {
        let (begin, end) = subject;
        Island {
            begin: *begin,
            end: *end,
        }
    }
}

/// The number of a kind of relocation.
fn number_of(kind: Reloc) -> u32
    ensures { result ≡ kind_of kind }
{
    match kind {
        Reloc::Arm64Call => 0,
        Reloc::Abs8 => 1,
        Reloc::Aarch64AdrGotPage21 => 2,
        Reloc::Aarch64Ld64GotLo12Nc => 3,
        Reloc::Aarch64AdrPrelPgHi21 => 4,
        Reloc::Aarch64AddAbsLo12Nc => 5,
    }
}

impl Record for Relocation {
    type Subject = (u32, Reloc, ExternalName, i64);

    ghost record_of = { relocation_of };

    fn of(subject: &(u32, Reloc, ExternalName, i64)) -> Relocation {
        let (place, kind, symbol, addend) = subject;
        Relocation {
            place: *place,
            kind: number_of(*kind),
            symbol: symbol.0,
            addend: *addend,
        }
    }
}

impl Record for Trap {
    type Subject = (u32, TrapCode);

    ghost record_of = { trap_of };

    fn of(subject: &(u32, TrapCode)) -> Trap {
        let (place, code) = subject;
        Trap {
            place: *place,
            code: u32::from(code.0),
        }
    }
}

impl Record for PatchableCall {
    type Subject = (u32, u32);

    ghost record_of = { patchable_call_of };

    fn of(subject: &(u32, u32)) -> PatchableCall {
        let (place, length) = subject;
        PatchableCall {
            place: *place,
            length: *length,
        }
    }
}

impl Record for StackMap {
    type Subject = (u32, UserStackMap);

    ghost record_of = { stack_map_of };

    fn of(subject: &(u32, UserStackMap)) -> StackMap {
        let (place, map) = subject;
        StackMap {
            place: *place,
            map: map.0,
        }
    }
}

/// Puts values at the front of a buffer, as many as it has room for.
pub fn put_values<T: Copy>(values: &[T], room: &mut [T])
    ensures { room.new ≡ over values.now room.old }
{
    let count = values.len().min(room.len());
    room[..count].copy_from_slice(&values[..count]);
}

/// Puts the records of subjects at the front of a buffer, as many as it has room for.
pub fn put_records<R: Record>(subjects: &[R::Subject], room: &mut [R])
    ensures { room.new ≡ over (map R.record_of subjects.now) room.old }
{
    let count = subjects.len().min(room.len());
    for index in 0..count {
        room[index] = R::of(&subjects[index]);
    }
}
