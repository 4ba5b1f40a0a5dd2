//! What each command makes of what it works on, and how that is written.

ghost use Rattle.std.specs.Prelude.{◌≡◌, ◌^◌, ◌<◌, ◌≤◌, [], length, IfOk, IfErr};
ghost use Rattle.a64_run.specs.declared.command.Format.TheVariants as formats;
ghost use Rattle.a64_run.specs.declared.input.Input.TheVariants as inputs;
ghost use Rattle.std.specs.List.{sum_by};
ghost use Rattle.a64_link.specs.Units.{word_count};
ghost use Rattle.a64_report.specs.Putting.{WritesOrFails};
ghost use Rattle.a64_run.specs.Commands.{IsMade, format_of, works_on};
ghost use Rattle.a64_run.specs.Stages.{IsFew, IsMakingFault, kept_of, text_of};

use crate::assembling::assemble_file;
use crate::code_words::{audit_words, bytes_of, show_words};
use crate::command::Command;
use crate::input::Input;
use crate::linking::link_units;
use crate::listing::list_file;
use crate::product::Product;
use crate::ran::Fault;
use crate::roles::list_roles;
use a64_audit::AuditFile;
use a64_emit::Code;
use a64_formtext::ShownFile;
use a64_io::{Failed, Sink, write_all};
use a64_link::Linked;
use a64_link_file::LinkFile;
use a64_report::{Piece, write_linked, write_report, write_stubs, write_summary, write_words};
use a64_stubs::{StubFile, Stubs, make_stubs};
use a64_text::File;
use std::alloc::Global;

/// What a command makes.
#[derive(Drop)]
pub enum Made {
    /// Code, of which the report is written.
    Report(Code),
    /// Code, of which the summary is written.
    Summary {
        /// How many items the code was made of.
        items: u64,
        /// The code.
        code: Code,
    },
    /// A listing, of items, of the roles of their registers, or of words.
    Listing(String),
    /// The bytes of words, each with its least byte first, of which the lines are written.
    Words(Vec<u8>),
    /// That words are clean.
    Clean,
    /// Linked code, of which the lines are written.
    Linked(Linked),
    /// Stubs, of which the lines are written.
    Stubs(Stubs),
}

impl Made {
    /// Writes what was made of an input, by way of an empty piece. No memory is asked for.
    ///
    /// # Errors
    ///
    /// A write failed; some first bytes may have been taken, but not all.
    pub fn write<K: Sink>(
        &self,
        sink: &mut K,
        piece: &mut Piece,
        input: &Input,
    ) -> Result<(), Failed>
        requires { piece.old ≡ [] }
        ensures { WritesOrFails K.taken K.faults sink.old sink.new
            (text_of input.now self.now) result }
    {
        match self {
            Made::Report(code) => write_report(sink, piece, code),
            Made::Summary { items, code } => write_summary(sink, piece, *items, code),
            Made::Listing(text) => write_all(sink, text.as_bytes()),
            Made::Words(bytes) => write_words(sink, piece, bytes),
            Made::Clean => write_all(sink, b"clean\n"),
            Made::Linked(linked) => write_linked(
                sink,
                piece,
                &linked.starts,
                &linked.symbols,
                &linked.thunks,
                &linked.words,
            ),
            Made::Stubs(stubs) => write_stubs(
                sink,
                piece,
                input.addresses(),
                &stubs.places,
                &stubs.words,
            ),
        }
    }

    /// What is kept of it.
    pub fn into_product(self) -> Option<Product>
        ensures { result ≡ kept_of self }
    {
        match self {
            Made::Report(code) | Made::Summary { code, .. } => Some(Product::Code(code)),
            Made::Listing(_) => None,
            Made::Words(_) => None,
            Made::Clean => None,
            Made::Linked(linked) => Some(Product::Linked(linked)),
            Made::Stubs(stubs) => Some(Product::Stubs(stubs)),
        }
    }
}

/// What the command makes of a file of items.
///
/// # Errors
///
/// The first fault that the command finds in the file, or want of memory.
fn make_of_items(alloc: Global, command: Command, file: &File) -> Result<Made, Fault>
    requires kind { works_on command ≡ formats.Items }
    requires few { length file.now.items.items < 2 ^ 32 }
    ensures ok { IfOk result (λ made. IsMade command (inputs.Items file.now) (kept_of made)
        (text_of (inputs.Items file.now) made)) }
    ensures err { IfErr result (IsMakingFault command (inputs.Items file.now)) }
{
    match command {
        Command::Asm(_) => match assemble_file(alloc, command, file) {
            Ok(code) => Ok(Made::Report(code)),
            Err(fault) => Err(fault),
        },
        Command::Gen { .. } => match assemble_file(alloc, command, file) {
            Ok(code) => Ok(Made::Summary {
                items: file.items.len() as u64,
                code,
            }),
            Err(fault) => Err(fault),
        },
        Command::List => match list_file(alloc, file) {
            Ok(text) => Ok(Made::Listing(text)),
            Err(fault) => Err(fault),
        },
        Command::Roles => match list_roles(alloc, file) {
            Ok(text) => Ok(Made::Listing(text)),
            Err(fault) => Err(fault),
        },
        _ => unreachable!(),
    }
}

/// What the command makes of words of code.
///
/// # Errors
///
/// What an audit finds first, or want of memory.
fn make_of_words(alloc: Global, command: Command, file: &AuditFile) -> Result<Made, Fault>
    requires kind { works_on command ≡ formats.Words }
    requires few { length file.now.words.items < 2 ^ 29 }
    ensures ok { IfOk result (λ made. IsMade command (inputs.Words file.now) (kept_of made)
        (text_of (inputs.Words file.now) made)) }
    ensures err { IfErr result (IsMakingFault command (inputs.Words file.now)) }
{
    match command {
        Command::Audit => match audit_words(file) {
            Ok(()) => Ok(Made::Clean),
            Err(fault) => Err(fault),
        },
        Command::Dis => match show_words(alloc, file) {
            Ok(text) => Ok(Made::Listing(text)),
            Err(fault) => Err(fault),
        },
        _ => unreachable!(),
    }
}

/// What `undis` makes of a listing of words.
///
/// # Errors
///
/// Want of memory.
fn make_of_listing(alloc: Global, command: Command, file: &ShownFile) -> Result<Made, Fault>
    requires kind { works_on command ≡ formats.Listing }
    ensures ok { IfOk result (λ made. IsMade command (inputs.Listing file.now) (kept_of made)
        (text_of (inputs.Listing file.now) made)) }
    ensures err { IfErr result (IsMakingFault command (inputs.Listing file.now)) }
{
    match command {
        Command::Undis => match bytes_of(alloc, &file.words) {
            Ok(bytes) => Ok(Made::Words(bytes)),
            Err(_) => Err(Fault::Memory),
        },
        _ => unreachable!(),
    }
}

/// What `link` makes of units.
///
/// # Errors
///
/// Why they are refused, or want of memory.
fn make_of_units(alloc: Global, command: Command, file: &LinkFile) -> Result<Made, Fault>
    requires kind { works_on command ≡ formats.Units }
    requires few { sum_by word_count file.now.units.items < 2 ^ 29 }
    ensures ok { IfOk result (λ made. IsMade command (inputs.Units file.now) (kept_of made)
        (text_of (inputs.Units file.now) made)) }
    ensures err { IfErr result (IsMakingFault command (inputs.Units file.now)) }
{
    match command {
        Command::Link => match link_units(alloc, file) {
            Ok(linked) => Ok(Made::Linked(linked)),
            Err(fault) => Err(fault),
        },
        _ => unreachable!(),
    }
}

/// What `stubs` makes of addresses.
///
/// # Errors
///
/// Want of memory.
#[tactic(auto, using(crate::proofs::StepForms::same_form))]
fn make_of_addresses(alloc: Global, command: Command, file: &StubFile) -> Result<Made, Fault>
    requires kind { works_on command ≡ formats.Addresses }
    requires few { length file.now.addresses.items ≤ 100000000 }
    ensures ok { IfOk result (λ made. IsMade command (inputs.Addresses file.now) (kept_of made)
        (text_of (inputs.Addresses file.now) made)) }
    ensures err { IfErr result (IsMakingFault command (inputs.Addresses file.now)) }
{
    match command {
        Command::Stubs => match make_stubs(alloc, &file.addresses) {
            Ok(stubs) => Ok(Made::Stubs(stubs)),
            Err(_) => Err(Fault::Memory),
        },
        _ => unreachable!(),
    }
}

/// What the command makes of what it works on.
///
/// # Errors
///
/// The fault that the command finds first, or want of memory.
pub fn make(alloc: Global, command: Command, input: &Input) -> Result<Made, Fault>
    requires kind { format_of input.now ≡ works_on command }
    requires few { IsFew input.now }
    ensures ok { IfOk result (λ made. IsMade command input.now (kept_of made)
        (text_of input.now made)) }
    ensures err { IfErr result (IsMakingFault command input.now) }
{
    match input {
        Input::Items(file) => make_of_items(alloc, command, file),
        Input::Words(file) => make_of_words(alloc, command, file),
        Input::Listing(file) => make_of_listing(alloc, command, file),
        Input::Units(file) => make_of_units(alloc, command, file),
        Input::Addresses(file) => make_of_addresses(alloc, command, file),
    }
}
