//! Reads files.

ghost use Rattle.std.specs.Prelude.{◌≡◌, ◌≤◌, ◌+◌, length, map, Some, IfOk, OnOk};
ghost use Rattle.a64_text.specs.States.{contents_of, said, IsSized};
ghost use Rattle.a64_text.specs.declared.name.Name.TheVariants as names;
ghost use Rattle.a64_text.specs.Names.{kinds_of, names_inst};
ghost use Rattle.a64_read.specs.Values.{kind_of};
ghost use Rattle.a64_text.specs.AddsLine.{AddsName, AddsEntry, AddsMade, AddsNamed, AddsLine, IsBehindRestore, PopsInst, RestoresLast};
ghost use Rattle.a64_text.specs.Reading.{Answers};

use crate::entry::{Entry, OnceName};
use crate::file::{File, FileError};
use crate::make::call::put_call;
use crate::make::control::put_control;
use crate::make::memory::{put_access, put_memory};
use crate::make::pair::put_pair;
use crate::make::plain::float::put_float;
use crate::make::plain::vector::{put_vector, put_vector_move};
use crate::make::plain::{put_immediate, put_register, put_system};
use crate::make::sequence::put_sequence;
use crate::make::{make_constant, make_flag, make_frame, put_bind};
use crate::name::Name;
use crate::settings::{set_emit_flag, set_frame_field};
use crate::state::{ReaderState, start_state};
use a64_inst::{Inst, Item};
use a64_read::line::read_line;
use a64_tokens::split::{cut, is_blank};
use a64_tokens::value::Value;
use arrayvec::ArrayVec;
use std::alloc::{AllocError, Global};
use std::collections::BTreeSet;

/// The fields of an entry: a name has few of them.
type Fields<'t> = ArrayVec<Value<'t>, 12>;

/// Adds the name to those that were given. False: it was given before.
#[inline(always)]
fn add_name(given: &mut BTreeSet<OnceName>, name: Option<OnceName>) -> Result<bool, AllocError>
    ensures { IfOk result (AddsName given.old given.new name) }
{
    match name {
        None => Ok(true),
        Some(name) => Ok(given.insert(name)?),
    }
}

/// Adds what the entry says to the file.
#[inline(always)]
fn add_entry(file: &mut File, entry: Entry) -> Result<(), AllocError>
    requires { IsSized entry }
    ensures { OnOk result (contents_of file.new ≡ said entry (contents_of file.old)) }
{
    match entry {
        Entry::Item(item) => Ok(file.items.push(item)?),
        Entry::Constant(addr, bytes) => {
            file.constants.insert(addr, bytes.as_slice())?;
            Ok(())
        }
        Entry::Frame(field, bytes) => {
            set_frame_field(&mut file.frame, field, bytes);
            Ok(())
        }
        Entry::Flag(flag) => {
            set_emit_flag(&mut file.info, flag);
            Ok(())
        }
        Entry::Restore(inst) => Ok(file.frame.restore.push(inst)?),
    }
}

/// Takes the entry into the state. False: its name was given before.
fn add_once(state: &mut ReaderState, entry: Entry) -> Result<bool, AllocError>
    requires { IsSized entry }
    ensures { IfOk result (AddsEntry (Some entry) state.old state.new) }
{
    if !add_name(&mut state.given, entry.once_name())? {
        return Ok(false);
    }
    add_entry(&mut state.file, entry)?;
    Ok(true)
}

/// Takes the size of the frame into the state. False: it was given before.
#[inline(never)]
fn add_frame(state: &mut ReaderState, values: &[Value]) -> Result<bool, AllocError>
    ensures { IfOk result (AddsMade names.Frame values.now state.old state.new) }
{
    add_once(state, make_frame(values))
}

/// Takes the setting into the state. False: it was given before.
#[inline(never)]
fn add_flag(state: &mut ReaderState, values: &[Value]) -> Result<bool, AllocError>
    ensures { IfOk result (AddsMade names.Flag values.now state.old state.new) }
{
    add_once(state, make_flag(values))
}

/// Takes the constant into the state. False: there is none, or its number was given before.
#[inline(never)]
fn add_constant(
    alloc: Global,
    state: &mut ReaderState,
    values: &[Value],
) -> Result<bool, AllocError>
    ensures { IfOk result (AddsMade names.Const values.now state.old state.new) }
{
    match make_constant(alloc, values)? {
        Some(entry) => add_once(state, entry),
        None => Ok(false),
    }
}

/// Takes the entry of this name with these fields into the state. False: there is none, or none that
/// may stand there.
#[inline(always)]
fn add_made(
    alloc: Global,
    state: &mut ReaderState,
    name: Name,
    values: &[Value],
) -> Result<bool, AllocError>
    ensures { IfOk result (AddsMade name values.now state.old state.new) }
{
    state.file.items.reserve(1)?;
    match name {
        Name::Immediate(name) => Ok(put_immediate(&mut state.file.items, name, values)),
        Name::Register(name) => Ok(put_register(&mut state.file.items, name, values)),
        Name::Float(name) => Ok(put_float(&mut state.file.items, name, values)),
        Name::Vector(name) => Ok(put_vector(&mut state.file.items, name, values)),
        Name::VectorMove(name) => Ok(put_vector_move(&mut state.file.items, name, values)),
        Name::System(name) => Ok(put_system(&mut state.file.items, name, values)),
        Name::Control(name) => put_control(alloc, &mut state.file.items, name, values),
        Name::Sequence(name) => put_sequence(alloc, &mut state.file.items, name, values),
        Name::Call(name) => put_call(alloc, &mut state.file.items, name, values),
        Name::Pair(name) => Ok(put_pair(&mut state.file.items, name, values)),
        Name::Memory(name) => Ok(put_memory(&mut state.file.items, name, values)),
        Name::Access(op) => Ok(put_access(&mut state.file.items, op, values)),
        Name::Bind => Ok(put_bind(&mut state.file.items, values)),
        Name::Const => add_constant(alloc, state, values),
        Name::Frame => add_frame(state, values),
        Name::Flag => add_flag(state, values),
    }
}

/// Whether the name is that of an instruction.
fn is_inst_name(name: Name) -> bool
    ensures { result ≡ names_inst name }
{
    !matches!(name, Name::Bind | Name::Const | Name::Frame | Name::Flag)
}

/// The instruction of the last item, where that has no map. The item is taken off.
fn pop_inst(items: &mut Vec<Item>) -> Option<Inst>
    ensures { PopsInst items.old.items items.new.items result }
{
    match items.pop() {
        Some(Item::Emit { inst, map: None }) => Some(inst),
        _ => None,
    }
}

/// Takes the last item off the file, and its instruction for one that is restored. False: it is no
/// instruction without a map. Then what the state says is not told.
#[inline(never)]
fn restore_last(state: &mut ReaderState) -> Result<bool, AllocError>
    ensures { IfOk result (RestoresLast state.old state.new) }
{
    let Some(inst) = pop_inst(&mut state.file.items) else {
        return Ok(false);
    };
    add_entry(&mut state.file, Entry::Restore(inst))?;
    Ok(true)
}

/// Takes the entry of this name with these fields into the state, or, where it is `restored`, the
/// instruction as one that is restored. False: there is none, or none that may stand there. Then what the
/// state says is not told. One call makes both, so that what makes entries stands in the code once.
#[inline(always)]
fn add_named(
    alloc: Global,
    state: &mut ReaderState,
    name: Name,
    values: &[Value],
    restored: bool,
) -> Result<bool, AllocError>
    requires { map kind_of values.now ≡ kinds_of name }
    ensures { IfOk result (AddsNamed restored name values.now state.old state.new) }
{
    if restored && !is_inst_name(name) {
        return Ok(false);
    }
    if !add_made(alloc, state, name, values)? {
        return Ok(false);
    }
    if restored {
        // It was put where items stand.
        return restore_last(state);
    }
    Ok(true)
}

/// The text behind the word with which lines begin whose instruction is restored. It stands out of line,
/// since few lines begin with its first letter.
#[inline(never)]
fn behind_word(text: &[u8]) -> Option<&[u8]>
    ensures { IsBehindRestore text.now result }
{
    match text {
        [b'r', b'e', b's', b't', b'o', b'r', b'e', b' ', rest @ ..] => Some(rest),
        _ => None,
    }
}

/// The text behind the word with which lines begin whose instruction is restored. Its first letter is looked
/// at here, so that most lines are passed over by one test.
#[inline(always)]
fn after_restore(text: &[u8]) -> Option<&[u8]>
    ensures { IsBehindRestore text.now result }
{
    match text {
        [b'r', ..] => behind_word(text),
        _ => None,
    }
}

/// Takes what the first line says into the state, and answers the lines behind it. None: it is no
/// entry that may stand there. `values` is room for the fields.
#[tactic(auto, using(crate::specs::Makers::few_kinds))]
#[inline(always)]
fn add_line<'t>(
    alloc: Global,
    state: &mut ReaderState,
    text: &'t [u8],
    values: &mut Fields<'t>,
) -> Result<Option<Option<&'t [u8]>>, AllocError>
    ensures { IfOk result (AddsLine state.old state.new text.now) }
{
    let behind = after_restore(text);
    let Some((name, lines)) = read_line::<Name, 12>(behind.unwrap_or(text), values) else {
        return Ok(None);
    };
    if add_named(alloc, state, name, values.as_slice(), behind.is_some())? {
        Ok(Some(lines))
    } else {
        Ok(None)
    }
}

/// The file that the bytes are.
///
/// # Errors
///
/// The number of the first line that is no entry, or want of memory.
pub fn read_file(alloc: Global, bytes: &[u8]) -> Result<File, FileError>
    ensures answers { Answers bytes.now result }

    // A file has no more items than lines.
    ensures few { IfOk result (λ file. length file.items.items ≤ length bytes.now + 1) }
{
    let mut state = start_state(alloc);
    let mut values = Fields::new();
    let mut number: u64 = 0;
    let mut rest = Some(bytes);
    while let Some(text) = rest {
        number += 1;
        if is_blank(text) {
            let (_, lines) = cut(text, b'\n');
            rest = lines;
        } else {
            let Some(lines) = add_line(alloc, &mut state, text, &mut values)? else {
                return Err(FileError::BadLine(number));
            };
            rest = lines;
        }
    }
    Ok(state.file)
}
