//! The whole program, over any source and sinks.

ghost use Rattle.std.specs.Prelude.{◌≡◌, map, Some};
ghost use Rattle.std.specs.String.{string_bytes};
ghost use Rattle.a64_run.specs.declared.ran.Fault.TheVariants as faults;
ghost use Rattle.a64_io.specs.Streams.{HasFailed};
ghost use Rattle.a64_run.specs.Answering.{Answers, TellsFault};
ghost use Rattle.a64_run.specs.Commands.{HasWords, IsCommand, format_of, works_on};
ghost use Rattle.a64_run.specs.Run.{status_of, kept_for, kept_in, FailsOnlyAt};
ghost use Rattle.a64_run.specs.Stages.{IsFew, Ends, EndsWriting};

use crate::command::{Command, command_of};
use crate::fault_lines::line_of_fault;
use crate::input::{Input, input_of};
use crate::making::{Made, make};
use crate::ran::{Ended, Fault, Ran};
use a64_io::{Failed, Sink, Source, write_all};
use a64_report::Piece;
use std::alloc::Global;

/// Writes what was made. The memory for that is taken before the first write, and once all is made: what is refused
/// asks for none, and want of it keeps nothing of what was made.
fn write_made<K: Sink>(alloc: Global, sink: &mut K, input: Input, made: Made) -> Ended
    ensures input { result.input ≡ Some input }
    ensures ends { EndsWriting (K.taken sink.old) (K.taken sink.new) input made
        result.fault result.product }
    ensures write { result.fault ≡ Some faults.Write
        → HasFailed (K.faults sink.old) (K.faults sink.new) }
    ensures writes { FailsOnlyAt faults.Write result.fault
        (K.faults sink.old) (K.faults sink.new) }
{
    let Ok(mut piece) = Piece::new(alloc) else {
        return Ended::refused(Some(input), Fault::Memory);
    };
    let fault = match made.write(sink, &mut piece, &input) {
        Ok(()) => None,
        Err(Failed) => Some(Fault::Write),
    };
    Ended {
        input: Some(input),
        product: made.into_product(),
        fault,
    }
}

/// Makes what the command does of what it works on, and writes it.
fn run_input<K: Sink>(alloc: Global, command: Command, sink: &mut K, input: Input) -> Ended
    requires kind { format_of input ≡ works_on command }
    requires few { IsFew input }
    ensures input { result.input ≡ Some input }
    ensures ends { Ends command (K.taken sink.old)
        (K.taken sink.new) input result.fault result.product }
    ensures write { result.fault ≡ Some faults.Write
        → HasFailed (K.faults sink.old) (K.faults sink.new) }
    ensures writes { FailsOnlyAt faults.Write result.fault
        (K.faults sink.old) (K.faults sink.new) }
{
    match make(alloc, command, &input) {
        Ok(made) => write_made(alloc, sink, input, made),
        Err(fault) => Ended::refused(Some(input), fault),
    }
}

/// Runs a command: takes what it works on, and writes what it makes of it.
fn run_command<S: Source, K: Sink>(
    alloc: Global,
    command: Command,
    source: &mut S,
    sink: &mut K,
) -> Ended
    requires { HasWords command }
    ensures { Answers S.left S.faults K.taken K.faults source.old source.new sink.old sink.new
        (λ asked. command ≡ asked) (kept_for result.input result.product) result.fault }
{
    match input_of(alloc, command, source) {
        Ok(input) => run_input(alloc, command, sink, input),
        Err(fault) => Ended::refused(None, fault),
    }
}

/// Runs the command that the words are.
fn run_words<S: Source, K: Sink>(
    alloc: Global,
    words: &[String],
    source: &mut S,
    sink: &mut K,
) -> Ended
    ensures { Answers S.left S.faults K.taken K.faults source.old source.new sink.old sink.new
        (IsCommand (map string_bytes words.now))
        (kept_for result.input result.product) result.fault }
{
    match command_of(words) {
        Some(command) => run_command(alloc, command, source, sink),
        None => Ended::refused(None, Fault::Usage),
    }
}

/// Offers the line of a fault. Where that fails, nothing more is done.
pub fn tell<E: Sink>(errs: &mut E, fault: Fault)
    ensures { TellsFault E.taken E.faults errs.old errs.new (Some fault) }
{
    let line = line_of_fault(fault);
    let _ = write_all(errs, line.as_slice());
}

/// Runs the command that the words are; no word stands for `asm`. `asm` reads a file of items from the
/// source and writes the report of its code to the sink. `gen` and a number of turns from 1 to 100,000
/// makes a file of its own, and writes a summary of its code. `force` behind either forces islands. `list`
/// reads a file of items, and writes each as assembly text, where registers may be virtual. `roles` reads
/// one too, and writes for each instruction the roles of its registers and the answers to queries; it
/// refuses no item. `audit` reads the words of a report, and writes `clean` where nothing is wrong with them.
/// `dis` reads them too, and writes each as the text of its form; `undis` reads such texts, and writes the
/// words. What `undis` writes for what `dis` wrote are the same words at the same places. `link` reads units,
/// and writes their code as one, in which each call leads to the symbol that it names. `stubs` reads
/// addresses, and writes a stub to each: the shortest words of their kind that jump there, and change x16
/// alone.
///
/// The answer tells how that ended, by its fault:
///
/// - None: all was written, and nothing is offered to `errs`. What the command works on is kept, and the code
///   of `asm` and `gen`, the linked code of `link`, and the stubs of `stubs`.
/// - [`Fault::Usage`]: the words are no command. Nothing is read, and no memory is taken.
/// - [`Fault::Read`]: a read failed. It is not tried again.
/// - [`Fault::TooLong`]: the source holds more than 16,777,216 bytes, and no read failed before.
/// - [`Fault::Line`]: that line is the first that is no entry.
/// - [`Fault::Assembly`]: that is the first fault of the file's items; `roles` looks for none. The file is
///   kept.
/// - [`Fault::Audit`]: that is what `audit` finds first in the words, and not that they are clean. They are
///   kept.
/// - [`Fault::Link`]: that is the first thing that is wrong with the units. They are kept.
/// - [`Fault::Write`]: a write failed, and is not tried again. The sink has taken a proper prefix of what
///   is written of what is kept.
/// - [`Fault::Memory`]: want of memory. Where a file of items is kept, each is right by itself, or for `list`
///   may be shown; for `roles` it may be any. Where words are kept for `audit`, they are clean.
///   Of units that are kept nothing is said.
///
/// But for the first, the line of the fault is offered to `errs`. A failed write there changes nothing,
/// and is not tried again. But for the first and [`Fault::Write`], the sink has taken nothing.
pub fn run<S: Source, K: Sink, E: Sink>(
    alloc: Global,
    words: &[String],
    source: &mut S,
    sink: &mut K,
    errs: &mut E,
) -> Ran
    // Status and answer name one thing.
    ensures status { result.status ≡ status_of result.fault }

    // The headline, what is kept, the cause of each answer and when it is due, and what the source
    // and the sink gave and took.
    ensures answers { Answers S.left S.faults K.taken K.faults source.old source.new
        sink.old sink.new (IsCommand (map string_bytes words.now))
        (kept_in result) result.fault }

    // `errs` gets the line of the fault, and at status 0 nothing.
    ensures tells { TellsFault E.taken E.faults errs.old errs.new result.fault }
{
    let ran = Ran::from(run_words(alloc, words, source, sink));
    if let Some(fault) = ran.fault {
        tell(errs, fault);
    }
    ran
}
