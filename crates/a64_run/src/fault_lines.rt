//! The lines that say why a run failed, made without taking memory.

ghost use Rattle.std.specs.Prelude.{◌≡◌, ◌+◌, ◌≤◌, ◌++◌, codes, length};
ghost use Rattle.arrayvec.specs.ArrayVec.{array_vec_len};
ghost use Rattle.a64_emit.specs.ErrorTexts.{error_text};
ghost use Rattle.a64_link.specs.ErrorTexts as LinkTexts;
ghost use Rattle.a64_run.specs.Run.{fault_text, fault_line, verdict_text};
ghost use Rattle.a64_run.specs.Stages.{numbered_text, paired_text};

use crate::ran::Fault;
use a64_audit::Verdict;
use a64_emit::EmitError;
use a64_link::LinkError;
use arrayvec::ArrayVec;
use itoa::Buffer;

/// A line of at most 64 bytes.
pub type Line = ArrayVec<u8, 64>;

/// Appends a text for which there is room.
fn push(line: &mut Line, text: &[u8])
    requires { length line.old.items + length text.now ≤ 64 }
    ensures { line.new.items ≡ line.old.items ++ text.now }
{
    let _ = line.try_extend_from_slice(text);
}

/// A text.
fn plain(text: &[u8]) -> Line
    requires { length text.now ≤ 63 }
    ensures text { result.items ≡ text.now }
    ensures short { length result.items ≤ 63 }
{
    let mut line = Line::new();
    push(&mut line, text);
    line
}

/// A text, a number, and a text.
fn numbered(before: &[u8], number: u64, after: &[u8]) -> Line
    requires { length before.now + length after.now ≤ 43 }
    ensures text { result.items ≡ numbered_text before.now number after.now }
    ensures short { length result.items ≤ 63 }
{
    let mut buffer = Buffer::new();
    let mut line = Line::new();
    push(&mut line, before);
    push(&mut line, buffer.format(number).as_bytes());
    push(&mut line, after);
    line
}

/// A text, a number, a text, and a number of 32 bits.
fn paired(before: &[u8], number: u64, between: &[u8], last: u32) -> Line
    requires { length before.now + length between.now ≤ 33 }
    ensures text { result.items ≡ paired_text before.now number between.now last }
    ensures short { length result.items ≤ 63 }
{
    let mut buffer = Buffer::new();
    let mut line = Line::new();
    push(&mut line, before);
    push(&mut line, buffer.format(number).as_bytes());
    push(&mut line, between);
    push(&mut line, buffer.format(last).as_bytes());
    line
}

/// The text of a refusal.
fn text_of_error(error: EmitError) -> Line
    ensures text { result.items ≡ error_text error }
    ensures short { length result.items ≤ 63 }
{
    match error {
        EmitError::BadOperand(item) => numbered(b"item ", item as u64, b": bad operand"),
        EmitError::BadMode(item) => numbered(b"item ", item as u64, b": bad addressing mode"),
        EmitError::ScratchConflict(item) => {
            numbered(b"item ", item as u64, b": scratch register in use")
        }
        EmitError::UnknownConstant(item) => numbered(b"item ", item as u64, b": unknown constant"),
        EmitError::LabelBoundTwice(label) => {
            numbered(b"label L", u64::from(label.0), b": bound twice")
        }
        EmitError::UnboundLabel(label) => numbered(b"label L", u64::from(label.0), b": not bound"),
        EmitError::TooLarge => plain(b"code too large"),
        EmitError::OutOfReach(label) => numbered(b"label L", u64::from(label.0), b": out of reach"),
        EmitError::OutOfMemory => plain(b"out of memory"),
    }
}

/// The text of what an audit finds.
fn text_of_verdict(verdict: Verdict) -> Line
    ensures text { result.items ≡ verdict_text verdict }
    ensures short { length result.items ≤ 63 }
{
    match verdict {
        Verdict::Clean => plain(b"clean"),
        Verdict::BadRange(range) => numbered(b"range ", range as u64, b": bad"),
        Verdict::UnknownWord(place) => numbered(b"place ", u64::from(place), b": unknown word"),
        Verdict::OutOfCode(place) => {
            numbered(b"place ", u64::from(place), b": branch out of code")
        }
        Verdict::IntoData(place) => numbered(b"place ", u64::from(place), b": branch into data"),
    }
}

/// The text of a refusal to link.
fn text_of_link_error(error: LinkError) -> Line
    ensures text { result.items ≡ LinkTexts.error_text error }
    ensures short { length result.items ≤ 63 }
{
    match error {
        LinkError::BadDefine(unit, name) => paired(b"unit ", unit as u64, b": bad symbol ", name.0),
        LinkError::UnsupportedReloc(unit, place) => paired(
            b"unit ",
            unit as u64,
            b": unsupported relocation ",
            place,
        ),
        LinkError::BadSite(unit, place) => paired(b"unit ", unit as u64, b": bad site ", place),
        LinkError::DefinedTwice(name) => numbered(
            b"symbol ",
            u64::from(name.0),
            b": defined twice",
        ),
        LinkError::Undefined(name) => numbered(b"symbol ", u64::from(name.0), b": not defined"),
        LinkError::UnitTooLarge(unit) => numbered(b"unit ", unit as u64, b": too large"),
        LinkError::TooLarge => plain(b"code too large"),
        LinkError::OutOfMemory => plain(b"out of memory"),
    }
}

/// The text of a fault.
fn text_of_fault(fault: Fault) -> Line
    ensures text { result.items ≡ fault_text fault }
    ensures short { length result.items ≤ 63 }
{
    match fault {
        Fault::Usage => plain(b"usage error"),
        Fault::Read => plain(b"read fault"),
        Fault::TooLong => plain(b"input too large"),
        Fault::Line(number) => numbered(b"line ", number, b": not an entry"),
        Fault::Assembly(error) => text_of_error(error),
        Fault::Audit(verdict) => text_of_verdict(verdict),
        Fault::Link(error) => text_of_link_error(error),
        Fault::Write => plain(b"write fault"),
        Fault::Memory => plain(b"out of memory"),
    }
}

/// The line of a fault, with its line feed.
pub fn line_of_fault(fault: Fault) -> Line
    ensures { result.items ≡ fault_line fault }
{
    let mut line = text_of_fault(fault);
    push(&mut line, b"\n");
    line
}
