//! Reads what is linked.

ghost use Rattle.std.specs.Prelude.{◌≡◌, ◌<◌, ◌^◌, ◌≤◌, IfOk, OnOk};
ghost use Rattle.std.specs.List.{sum_by};
ghost use Rattle.std.specs.Bool.{Decides};
ghost use Rattle.a64_lines.specs.Entries.{BeginsWith};
ghost use Rattle.a64_link.specs.Units.{word_count};
ghost use Rattle.a64_link_file.specs.Entries.{AnswersFile, MayStand, StandsBehind, State, closed, passed_words, said, says, unit_contents, with_part, words_brought};
ghost use Rattle.a64_link_file.specs.States.{state_of};
ghost use Rattle.a64_link_file.specs.declared.entry.Entry.TheVariants as entries;

use crate::entry::{Entry, Part};
use crate::entry_line::read_entry;
use crate::file::{LinkFile, LinkFileError};
use a64_lines::{Lines, begins_with_any, read_lines};
use a64_link::Unit;
use std::alloc::{AllocError, Global};

/// What the lines begin with that tell something else.
const PASSED: [&'static [u8]; 8] = [
    b"item ",
    b"label ",
    b"island ",
    b"pool ",
    b"trap ",
    b"call ",
    b"patchable ",
    b"map ",
];

/// All units together have fewer words.
const WORDS_END: u64 = 0x2000_0000;

/// What was read so far.
#[derive(Drop)]
struct LinkLines {
    /// The base.
    base: u64,
    /// Whether a line told it.
    given: bool,
    /// The units before the one in which the lines are.
    done: Vec<Unit>,
    /// That one, where a unit has begun.
    current: Option<Unit>,
    /// The number of the words of all units.
    total: u32,
}

/// Whether a line means nothing here: it begins with the name of something else that reports tell.
fn is_passed(line: &[u8]) -> bool
    ensures { Decides result (BeginsWith line.now passed_words) }
{
    begins_with_any(line, &PASSED)
}

/// How many words an entry brings.
fn words_of(part: Part) -> u32
    ensures { result ≡ words_brought part }
{
    match part {
        Part::Word(_) => 1,
        Part::Space(count) => count,
        Part::Define(_) | Part::Reloc(_) => 0,
    }
}

/// Whether what an entry says may stand behind what was said of its unit.
fn stands_behind(unit: &Unit, part: Part) -> bool
    ensures { Decides result (StandsBehind (unit_contents unit.now) part) }
{
    match part {
        Part::Word((place, _)) => place % 4 == 0 && (place / 4) as usize == unit.words.len(),
        Part::Define(_) | Part::Space(_) | Part::Reloc(_) => true,
    }
}

/// Whether an entry may stand behind the lines so far.
fn may_stand(lines: &LinkLines, entry: Entry) -> bool
    ensures { Decides result (MayStand (state_of lines.now) entry) }
{
    match entry {
        Entry::Base(_) => !lines.given,
        Entry::Unit => true,
        Entry::Inside(part) => match &lines.current {
            Some(unit) => {
                let total = u64::from(lines.total) + u64::from(words_of(part));
                total < WORDS_END && stands_behind(unit, part)
            }
            None => false,
        },
    }
}

/// Puts what an entry says into its unit.
fn add_part(unit: &mut Unit, part: Part) -> Result<(), AllocError>
    ensures { OnOk result (unit_contents unit.new ≡ with_part part (unit_contents unit.old)) }
{
    match part {
        Part::Define(definition) => Ok(unit.defines.push(definition)?),
        Part::Word((_, word)) => Ok(unit.words.push(word)?),
        Part::Space(count) => {
            let len = unit.words.len() + count as usize;
            Ok(unit.words.resize(len, 0)?)
        }
        Part::Reloc(reloc) => Ok(unit.relocs.push(reloc)?),
    }
}

/// Puts the unit in which the lines are, where one has begun, behind those before it.
fn close_unit(lines: &mut LinkLines) -> Result<(), AllocError>
    ensures { OnOk result (state_of lines.new ≡ closed (state_of lines.old)) }
{
    if let Some(unit) = lines.current.take() {
        lines.done.push(unit)?;
    }
    Ok(())
}

/// Begins a unit.
fn begin_unit(lines: &mut LinkLines) -> Result<(), AllocError>
    ensures { OnOk result (state_of lines.new ≡ said entries.Unit (state_of lines.old)) }
{
    close_unit(lines)?;
    let alloc = *lines.done.allocator();
    lines.current = Some(Unit {
        words: Vec::new(alloc),
        defines: Vec::new(alloc),
        relocs: Vec::new(alloc),
    });
    Ok(())
}

/// Puts what an entry says behind the lines so far.
fn add_entry(lines: &mut LinkLines, entry: Entry) -> Result<(), AllocError>
    requires { MayStand (state_of lines.now) entry }
    ensures { OnOk result (state_of lines.new ≡ said entry (state_of lines.old)) }
{
    match entry {
        Entry::Base(base) => {
            lines.base = base;
            lines.given = true;
            Ok(())
        }
        Entry::Unit => begin_unit(lines),
        Entry::Inside(part) => {
            lines.total += words_of(part);
            match &mut lines.current {
                Some(unit) => add_part(unit, part),
                None => Ok(()),
            }
        }
    }
}

impl Lines for LinkLines {
    ghost Told = { State };

    ghost told = { state_of };

    ghost says = { says };

    fn add_line(&mut self, line: &[u8]) -> Result<bool, AllocError> {
        if is_passed(line) {
            return Ok(true);
        }
        let Some(entry) = read_entry(line) else {
            return Ok(false);
        };
        if !may_stand(self, entry) {
            return Ok(false);
        }
        add_entry(self, entry)?;
        Ok(true)
    }
}

/// The units that these lines tell, and the base. Empty lines, those that begin with a semicolon, and
/// the lines of a report that tell of other things mean nothing.
///
/// # Errors
///
/// The number of the first line that is no entry which may stand there, or want of memory.
pub fn read_link(alloc: Global, bytes: &[u8]) -> Result<LinkFile, LinkFileError>
    ensures answers { AnswersFile bytes.now result }

    // All units together have fewer words than 2 ^ 29.
    ensures few { IfOk result (λ file. sum_by word_count file.units.items < 2 ^ 29) }
{
    let mut lines = LinkLines {
        base: 0,
        given: false,
        done: Vec::new(alloc),
        current: None,
        total: 0,
    };
    read_lines(&mut lines, bytes)?;
    close_unit(&mut lines)?;
    Ok(LinkFile {
        base: lines.base,
        units: lines.done,
    })
}
