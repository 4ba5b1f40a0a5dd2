//! Reads what is audited.

ghost use Rattle.std.specs.Prelude.{◌≡◌, ◌≤◌, length, IfOk, OnOk};
ghost use Rattle.std.specs.Bool.{Decides};
ghost use Rattle.a64_audit.specs.Entries.{IsEntry, MayStand, Contents, contents_of, entry_line, nothing, passed_words, said, says};
ghost use Rattle.a64_audit.specs.LineParts.{AreParts, entry_parts};
ghost use Rattle.a64_lines.specs.Entries.{BeginsWith};
ghost use Rattle.a64_lines.specs.Lines.{Answers, told_by};
ghost use Rattle.a64_tokens.specs.Reads.{Reads};

use crate::entry::Entry;
use crate::file::{AuditFile, AuditFileError};
use a64_lines::{Lines, begins_with_any, read_lines};
use a64_tokens::decimal::{read_u8, read_u32};
use a64_tokens::hex::read_word;
use a64_tokens::split::cut;
use std::alloc::{AllocError, Global};

/// What the lines begin with that tell something else.
const PASSED: [&'static [u8]; 8] = [
    b"item ",
    b"label ",
    b"island ",
    b"pool ",
    b"reloc ",
    b"call ",
    b"patchable ",
    b"map ",
];

/// A line in three: all behind the second space is the second field.
#[derive(Clone, Copy)]
struct LineParts<'t> {
    /// The name.
    name: &'t [u8],
    /// The first field.
    first: &'t [u8],
    /// The second field.
    second: &'t [u8],
}

/// Whether a line means nothing here: it begins with the name of something else that reports tell.
fn is_passed(line: &[u8]) -> bool
    ensures { Decides result (BeginsWith line.now passed_words) }
{
    begins_with_any(line, &PASSED)
}

/// The parts of a line, where it has two spaces.
fn parts_of(line: &[u8]) -> Option<LineParts<'_>>
    ensures { AreParts line.now result }
{
    let (name, behind_name) = cut(line, b' ');
    let Some(fields) = behind_name else {
        return None;
    };
    let (first, behind_first) = cut(fields, b' ');
    let Some(second) = behind_first else {
        return None;
    };
    Some(LineParts {
        name,
        first,
        second,
    })
}

/// The entry of a name with these fields.
fn read_fields(name: &[u8], first: &[u8], second: &[u8]) -> Option<Entry>
    ensures { Reads IsEntry entry_parts (name.now, first.now, second.now) result }
{
    if name == b"word".as_slice() {
        let place = read_u32(first)?;
        let word = read_word(second)?;
        return Some(Entry::Word { place, word });
    }
    if name == b"trap".as_slice() {
        let place = read_u32(first)?;
        let code = read_u8(second)?;
        return Some(Entry::Trap { place, code });
    }
    if name == b"data".as_slice() {
        let begin = read_u32(first)?;
        let end = read_u32(second)?;
        return Some(Entry::Data { begin, end });
    }
    None
}

/// The entry whose line this is.
fn read_entry(line: &[u8]) -> Option<Entry>
    ensures { Reads IsEntry entry_line line.now result }
{
    let parts = parts_of(line)?;
    read_fields(parts.name, parts.first, parts.second)
}

/// Whether an entry may stand behind those of the file.
fn may_stand(file: &AuditFile, entry: Entry) -> bool
    ensures { Decides result (MayStand (contents_of file.now) entry) }
{
    match entry {
        Entry::Word { place, .. } => place % 4 == 0 && (place / 4) as usize == file.words.len(),
        Entry::Trap { place, .. } => match file.traps.last() {
            Some(before) => *before < place,
            None => true,
        },
        Entry::Data { .. } => true,
    }
}

/// Puts what an entry says into the file.
fn add_entry(file: &mut AuditFile, entry: Entry) -> Result<(), AllocError>
    ensures { OnOk result (contents_of file.new ≡ said entry (contents_of file.old)) }
{
    match entry {
        Entry::Word { word, .. } => Ok(file.words.push(word)?),
        Entry::Trap { place, .. } => Ok(file.traps.push(place)?),
        Entry::Data { begin, end } => Ok(file.ranges.push((begin, end))?),
    }
}

impl Lines for AuditFile {
    ghost Told = { Contents };

    ghost told = { contents_of };

    ghost says = { says };

    fn add_line(&mut self, line: &[u8]) -> Result<bool, AllocError> {
        if is_passed(line) {
            return Ok(true);
        }
        let Some(entry) = read_entry(line) else {
            return Ok(false);
        };
        if !may_stand(self, entry) {
            return Ok(false);
        }
        add_entry(self, entry)?;
        Ok(true)
    }
}

/// The file that the lines of a report are.
///
/// # Errors
///
/// The number of the first line that is no entry which may stand there, or want of memory.
pub fn read_audit(alloc: Global, bytes: &[u8]) -> Result<AuditFile, AuditFileError>
    ensures answers { Answers says bytes.now nothing (told_by contents_of result) }

    // A file has no more words than bytes.
    ensures few { IfOk result (λ file. length file.words.items ≤ length bytes.now) }
{
    let mut file = AuditFile {
        words: Vec::new(alloc),
        traps: Vec::new(alloc),
        ranges: Vec::new(alloc),
    };
    read_lines(&mut file, bytes)?;
    Ok(file)
}
