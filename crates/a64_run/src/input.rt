//! What a command works on: read from a source, or made.

ghost use Rattle.std.specs.Prelude.{◌≡◌, ◌+◌, ◌<◌, ◌≤◌, length, [], false, Some, IfSome, IfOk, IfErr, OnOk, OnErr};
ghost use Rattle.a64_io.specs.Streams.{HasFailed};
ghost use Rattle.a64_run.specs.declared.command.Format.TheVariants as formats;
ghost use Rattle.a64_run.specs.declared.command.Format.{Format};
ghost use Rattle.a64_run.specs.declared.ran.Fault.TheVariants as faults;
ghost use Rattle.a64_run.specs.Commands.{limit, WasRead, IsCount, IsGenFile, IsInput, HasWords, reads_source, works_on};
ghost use Rattle.a64_run.specs.Run.{Held, TakesFew, IsDueAnswer};
ghost use Rattle.a64_run.specs.Stages.{addresses_in, HasRead, TakesBehind, TakesAtMost, IsWhole, IsFew, IsInputOf, IsTextDue, IsParsed, IsReadFault, IsTextFault, IsInputFault, IsDueInput};

use crate::command::{Command, Format};
use crate::ran::Fault;
use crate::turns::gen_file;
use a64_audit::{AuditFile, AuditFileError, read_audit};
use a64_formtext::{ShownFile, ShownFileError, read_shown};
use a64_io::Source;
use a64_link_file::{LinkFile, LinkFileError, read_link};
use a64_stubs::{StubFile, StubFileError, read_stubs};
use a64_text::{File, FileError, read_file};
use std::alloc::Global;

/// What a command works on.
#[derive(Drop)]
pub enum Input {
    /// A file of items.
    Items(File),
    /// Words of code, with traps and data.
    Words(AuditFile),
    /// The words of a listing.
    Listing(ShownFile),
    /// Units.
    Units(LinkFile),
    /// The addresses of stubs.
    Addresses(StubFile),
}

impl Input {
    /// The addresses of a file of stubs; of another file there are none.
    pub fn addresses(&self) -> &[u64]
        ensures { result.now ≡ addresses_in self.now }
    {
        match self {
            Input::Addresses(file) => &file.addresses,
            _ => &[],
        }
    }
}

/// The most bytes that a file may have.
const LIMIT: usize = 16_777_216;

/// The most bytes that are asked of a source at once.
const PIECE: usize = 65_536;

/// Reads some bytes by way of a piece, and puts them behind those that were read. Answers how many;
/// 0 is the end.
fn read_piece<S: Source>(
    source: &mut S,
    piece: &mut [u8],
    bytes: &mut Vec<u8>,
) -> Result<usize, Fault>
    requires { 0 < length piece.old }
    ensures few { IfOk result (λ n. n ≤ length piece.old) }
    ensures len { IfOk result (λ n. length bytes.new.items ≡ length bytes.old.items + n) }
    ensures takes { IfOk result (λ n. IfSome (S.left source.old)
        (λ text. TakesBehind text n bytes.old.items bytes.new.items (S.left source.new))) }
    ensures taken { OnErr result (TakesAtMost (length piece.old) (S.left source.old)
        (S.left source.new)) }
    ensures rises { S.faults source.old ≤ S.faults source.new }
    ensures steady { OnOk result (S.faults source.new ≡ S.faults source.old) }
    ensures cause { IfErr result (IsReadFault (S.faults source.old) (S.faults source.new)) }
{
    let Ok(n) = source.read(piece) else {
        return Err(Fault::Read);
    };
    match bytes.extend_from_slice(&piece[..n]) {
        Ok(()) => Ok(n),
        Err(_) => Err(Fault::Memory),
    }
}

/// Reads a source to its end, but no more than one byte past the limit, piece by piece.
fn read_pieces<S: Source>(
    source: &mut S,
    piece: &mut [u8],
    bytes: &mut Vec<u8>,
) -> Result<(), Fault>
    requires some { 0 < length piece.old }
    requires empty { bytes.old.items ≡ [] }
    ensures ok { OnOk result (IfSome (S.left source.old)
        (λ text. HasRead text bytes.new.items (S.left source.new))) }
    ensures few { TakesFew (S.left source.old) (S.left source.new) }
    ensures steady { OnOk result (S.faults source.new ≡ S.faults source.old) }
    ensures cause { IfErr result (IsReadFault (S.faults source.old) (S.faults source.new)) }
{
    while bytes.len() <= LIMIT {
        let wanted = piece.len().min(LIMIT + 1 - bytes.len());
        match read_piece(source, &mut piece[..wanted], bytes) {
            Ok(0) => break,
            Ok(_) => {}
            Err(fault) => return Err(fault),
        }
    }
    Ok(())
}

/// Reads a source to its end, but no more than one byte past the limit.
fn read_all<S: Source>(alloc: Global, source: &mut S) -> Result<Vec<u8>, Fault>
    ensures ok { IfOk result (λ bytes. IfSome (S.left source.old)
        (λ text. HasRead text bytes.items (S.left source.new))) }
    ensures few { TakesFew (S.left source.old) (S.left source.new) }
    ensures steady { OnOk result (S.faults source.new ≡ S.faults source.old) }
    ensures cause { IfErr result (IsReadFault (S.faults source.old) (S.faults source.new)) }
{
    let Ok(mut piece) = vec![in alloc; 0; PIECE] else {
        return Err(Fault::Memory);
    };
    let mut bytes = Vec::new(alloc);
    match read_pieces(source, &mut piece, &mut bytes) {
        Ok(()) => Ok(bytes),
        Err(fault) => Err(fault),
    }
}

/// Reads all bytes of a source that has no more than the limit.
fn read_text<S: Source>(alloc: Global, source: &mut S) -> Result<Vec<u8>, Fault>
    ensures ok { IfOk result (λ bytes. IsWhole (S.left source.old)
        (S.left source.new) bytes.items) }
    ensures few { TakesFew (S.left source.old) (S.left source.new) }
    ensures held { IfErr result (λ fault. (format : Format)
        → Held format (S.left source.old) (Some fault)) }
    ensures steady { OnOk result (S.faults source.new ≡ S.faults source.old) }
    ensures cause { IfErr result (IsTextFault (S.faults source.old) (S.faults source.new)) }
{
    match read_all(alloc, source) {
        Ok(bytes) if bytes.len() <= LIMIT => Ok(bytes),
        Ok(_) => Err(Fault::TooLong),
        Err(fault) => Err(fault),
    }
}

/// The file of items that some bytes are.
fn parse_items(alloc: Global, bytes: &[u8]) -> Result<Input, Fault>
    requires { length bytes.now ≤ limit }
    ensures { IsParsed formats.Items bytes.now result }
{
    match read_file(alloc, bytes) {
        Ok(file) => Ok(Input::Items(file)),
        Err(FileError::BadLine(number)) => Err(Fault::Line(number)),
        Err(FileError::OutOfMemory) => Err(Fault::Memory),
    }
}

/// The words of code that some bytes are.
fn parse_words(alloc: Global, bytes: &[u8]) -> Result<Input, Fault>
    requires { length bytes.now ≤ limit }
    ensures { IsParsed formats.Words bytes.now result }
{
    match read_audit(alloc, bytes) {
        Ok(file) => Ok(Input::Words(file)),
        Err(AuditFileError::BadLine(number)) => Err(Fault::Line(number)),
        Err(AuditFileError::OutOfMemory) => Err(Fault::Memory),
    }
}

/// The words of the listing that some bytes are.
fn parse_listing(alloc: Global, bytes: &[u8]) -> Result<Input, Fault>
    requires { length bytes.now ≤ limit }
    ensures { IsParsed formats.Listing bytes.now result }
{
    match read_shown(alloc, bytes) {
        Ok(file) => Ok(Input::Listing(file)),
        Err(ShownFileError::BadLine(number)) => Err(Fault::Line(number)),
        Err(ShownFileError::OutOfMemory) => Err(Fault::Memory),
    }
}

/// The units that some bytes are.
fn parse_units(alloc: Global, bytes: &[u8]) -> Result<Input, Fault>
    requires { length bytes.now ≤ limit }
    ensures { IsParsed formats.Units bytes.now result }
{
    match read_link(alloc, bytes) {
        Ok(file) => Ok(Input::Units(file)),
        Err(LinkFileError::BadLine(number)) => Err(Fault::Line(number)),
        Err(LinkFileError::OutOfMemory) => Err(Fault::Memory),
    }
}

/// The addresses of stubs that some bytes are.
fn parse_addresses(alloc: Global, bytes: &[u8]) -> Result<Input, Fault>
    requires { length bytes.now ≤ limit }
    ensures { IsParsed formats.Addresses bytes.now result }
{
    match read_stubs(alloc, bytes) {
        Ok(file) => Ok(Input::Addresses(file)),
        Err(StubFileError::BadLine(number)) => Err(Fault::Line(number)),
        Err(StubFileError::OutOfMemory) => Err(Fault::Memory),
    }
}

/// What some bytes are in a format.
fn parse(alloc: Global, format: Format, bytes: &[u8]) -> Result<Input, Fault>
    requires { length bytes.now ≤ limit }
    ensures { IsParsed format bytes.now result }
{
    match format {
        Format::Items => parse_items(alloc, bytes),
        Format::Words => parse_words(alloc, bytes),
        Format::Listing => parse_listing(alloc, bytes),
        Format::Units => parse_units(alloc, bytes),
        Format::Addresses => parse_addresses(alloc, bytes),
    }
}

/// Reads what a source holds, to its end.
///
/// # Errors
///
/// A read failed, the source holds too much, a line is no entry, or want of memory.
fn read_input<S: Source>(alloc: Global, format: Format, source: &mut S) -> Result<Input, Fault>
    ensures ok { IfOk result (WasRead format (S.left source.old) (S.left source.new)) }
    ensures few_items { IfOk result IsFew }
    ensures few { TakesFew (S.left source.old) (S.left source.new) }
    ensures held { IfErr result (λ fault. Held format (S.left source.old) (Some fault)) }
    ensures steady { OnOk result (S.faults source.new ≡ S.faults source.old) }
    ensures cause { IfErr result (IsInputFault (S.faults source.old) (S.faults source.new)) }
    ensures due_ok { IfOk result (λ input. IfSome (S.left source.old)
        (λ text. IsInputOf format text input)) }
    ensures due_err { IfErr result (λ fault. IfSome (S.left source.old)
        (λ text. IsTextDue format text fault)) }
{
    match read_text(alloc, source) {
        Ok(bytes) => parse(alloc, format, &bytes),
        Err(fault) => Err(fault),
    }
}

/// The file that `gen` works on.
///
/// # Errors
///
/// Want of memory.
fn make_input(alloc: Global, count: u32) -> Result<Input, Fault>
    requires { IsCount count }
    ensures ok { IfOk result (IsGenFile count) }
    ensures few_items { IfOk result IsFew }
    ensures err { IfErr result (λ fault. fault ≡ faults.Memory) }
{
    match gen_file(alloc, count) {
        Ok(file) => Ok(Input::Items(file)),
        Err(_) => Err(Fault::Memory),
    }
}

/// What the command works on.
///
/// # Errors
///
/// What was read is nothing of the kind, a read failed, or want of memory.
pub fn input_of<S: Source>(alloc: Global, command: Command, source: &mut S) -> Result<Input, Fault>
    requires { HasWords command }
    ensures ok { IfOk result (IsInput command (S.left source.old) (S.left source.new)) }
    ensures few_items { IfOk result IsFew }
    ensures few { TakesFew (S.left source.old) (S.left source.new) }
    ensures unread { reads_source command ≡ false → source.new ≡ source.old }
    ensures held { IfErr result (λ fault. Held (works_on command) (S.left source.old)
        (Some fault)) }
    ensures steady { OnOk result (S.faults source.new ≡ S.faults source.old) }
    ensures cause { IfErr result (IsInputFault (S.faults source.old) (S.faults source.new)) }
    ensures due_ok { IfOk result (IsDueInput command (S.left source.old)) }
    ensures due_err { IfErr result (λ fault. IsDueAnswer command (S.left source.old)
        (Some fault)) }
{
    match command {
        Command::Gen { count, .. } => make_input(alloc, count),
        _ => read_input(alloc, command.works_on(), source),
    }
}
