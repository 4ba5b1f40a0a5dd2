//! The lines of a report, one kind after another.

ghost use Rattle.std.specs.Prelude.{◌≡◌, ◌≤◌, ◌<◌, List, ℕ, drop, length};
ghost use Rattle.a64_report.specs.Report.{line_of_one, line_of_two, label_line, island_line, reloc_line, trap_line, call_line, patchable_line, map_line};

use crate::line::{LineBuffer, SIZE, put_decimal, put_signed, put_text};
use a64_base::{ExternalName, MachLabel, Reloc, TrapCode, UserStackMap};
use a64_reloc::reloc_name;

/// A kind of line.
pub trait LineKind {
    /// What a line speaks of.
    type Subject;

    /// The line of a subject.
    ghost line: { Self.Subject → List ℕ };

    /// Composes the line of a subject at the end of the buffer, which is longer than each line, and
    /// answers where it begins.
    fn compose(buffer: &mut LineBuffer, subject: &Self::Subject) -> usize
        ensures text { drop result buffer.new ≡ line subject.now }
        ensures shorter { (0 < result) × (result ≤ 128) };
}

/// Composes a line: a name and a number.
#[inline(always)]
pub fn compose_one(buffer: &mut LineBuffer, name: &[u8], number: u32) -> usize
    requires { length name.now ≤ 80 }
    ensures text { drop result buffer.new ≡ line_of_one name.now number }
    ensures shorter { (0 < result) × (result ≤ 128) }
{
    let start = put_text(buffer, SIZE, b"\n");
    let start = put_decimal(buffer, start, u64::from(number));
    let start = put_text(buffer, start, b" ");
    put_text(buffer, start, name)
}

/// Composes a line: a name and two numbers.
#[inline(always)]
pub fn compose_two(buffer: &mut LineBuffer, name: &[u8], first: u64, second: u64) -> usize
    requires { length name.now ≤ 80 }
    ensures text { drop result buffer.new ≡ line_of_two name.now first second }
    ensures shorter { (0 < result) × (result ≤ 128) }
{
    let start = put_text(buffer, SIZE, b"\n");
    let start = put_decimal(buffer, start, second);
    let start = put_text(buffer, start, b" ");
    let start = put_decimal(buffer, start, first);
    let start = put_text(buffer, start, b" ");
    put_text(buffer, start, name)
}

/// The lines of labels.
pub struct LabelLines;

impl LineKind for LabelLines {
    type Subject = (MachLabel, u32);

    ghost line = { label_line };

    fn compose(buffer: &mut LineBuffer, subject: &(MachLabel, u32)) -> usize {
        let (label, place) = subject;
        let start = put_text(buffer, SIZE, b"\n");
        let start = put_decimal(buffer, start, u64::from(*place));
        let start = put_text(buffer, start, b" ");
        let start = put_decimal(buffer, start, u64::from(label.0));
        put_text(buffer, start, b"label L")
    }
}

/// The lines of islands.
pub struct IslandLines;

impl LineKind for IslandLines {
    type Subject = (u32, u32);

    ghost line = { island_line };

    fn compose(buffer: &mut LineBuffer, subject: &(u32, u32)) -> usize {
        let (begin, end) = subject;
        compose_two(buffer, b"island", u64::from(*begin), u64::from(*end))
    }
}

/// Composes the line of a relocation.
fn compose_reloc(
    buffer: &mut LineBuffer,
    place: u32,
    kind: Reloc,
    name: ExternalName,
    addend: i64,
) -> usize
    ensures text { drop result buffer.new ≡ reloc_line (place, kind, name, addend) }
    ensures shorter { (0 < result) × (result ≤ 128) }
{
    let start = put_text(buffer, SIZE, b"\n");
    let start = put_signed(buffer, start, addend);
    let start = put_text(buffer, start, b" ");
    let start = put_decimal(buffer, start, u64::from(name.0));
    let start = put_text(buffer, start, b" userextname");
    let start = put_text(buffer, start, reloc_name(kind));
    let start = put_text(buffer, start, b" ");
    let start = put_decimal(buffer, start, u64::from(place));
    put_text(buffer, start, b"reloc ")
}

/// The lines of relocations.
pub struct RelocLines;

impl LineKind for RelocLines {
    type Subject = (u32, Reloc, ExternalName, i64);

    ghost line = { reloc_line };

    fn compose(buffer: &mut LineBuffer, subject: &(u32, Reloc, ExternalName, i64)) -> usize {
        let (place, kind, name, addend) = subject;
        compose_reloc(buffer, *place, *kind, *name, *addend)
    }
}

/// The lines of traps.
pub struct TrapLines;

impl LineKind for TrapLines {
    type Subject = (u32, TrapCode);

    ghost line = { trap_line };

    fn compose(buffer: &mut LineBuffer, subject: &(u32, TrapCode)) -> usize {
        let (place, code) = subject;
        compose_two(buffer, b"trap", u64::from(*place), u64::from(code.0))
    }
}

/// The lines of calls.
pub struct CallLines;

impl LineKind for CallLines {
    type Subject = u32;

    ghost line = { call_line };

    fn compose(buffer: &mut LineBuffer, place: &u32) -> usize {
        compose_one(buffer, b"call", *place)
    }
}

/// The lines of patchable calls.
pub struct PatchableLines;

impl LineKind for PatchableLines {
    type Subject = (u32, u32);

    ghost line = { patchable_line };

    fn compose(buffer: &mut LineBuffer, subject: &(u32, u32)) -> usize {
        let (place, len) = subject;
        compose_two(buffer, b"patchable", u64::from(*place), u64::from(*len))
    }
}

/// The lines of stack maps.
pub struct MapLines;

impl LineKind for MapLines {
    type Subject = (u32, UserStackMap);

    ghost line = { map_line };

    fn compose(buffer: &mut LineBuffer, subject: &(u32, UserStackMap)) -> usize {
        let (place, map) = subject;
        compose_two(buffer, b"map", u64::from(*place), u64::from(map.0))
    }
}
