//! The program of a process: the words that it was started with, and the status with which it ends.

ghost use Rattle.std.specs.Prelude.{◌≡◌, ◌⊎◌, IfOk, IfErr, drop};
ghost use Rattle.std.specs.Vec.Iter.{into_iter_items};
ghost use Rattle.a64_run.specs.Process.{EndsFor, EndsByError, LacksWords, asked_by};
ghost use Rattle.a64_run.specs.Answering.{TellsFault};
ghost use Rattle.a64_run.specs.Run.{status_of};

use crate::ran::Fault;
use crate::running::{run, tell};
use a64_io::{Sink, Source};
use std::alloc::{AllocError, Global};
use std::env::Args;
use std::io::{Error, ErrorKind};
use std::mem::forget;

/// The words behind the first, which is the program's name.
fn words_behind(alloc: Global, args: Args) -> Result<Vec<String>, AllocError>
    ensures { IfOk result (λ words. words.items ≡ drop 1 (into_iter_items args)) }
{
    let mut args = args;
    let mut words = Vec::new(alloc);
    let _ = args.next();
    while let Some(word) = args.next() {
        words.push(word)?;
    }
    Ok(words)
}

/// Tells the fault by which a process ends, and answers its status.
fn end_by<E: Sink>(errs: &mut E, fault: Fault) -> u8
    ensures status { result ≡ status_of (Some fault) }
    ensures tells { TellsFault E.taken E.faults errs.old errs.new (Some fault) }
{
    tell(errs, fault);
    fault.status()
}

/// Runs the program for the words behind the first, if there is memory for them.
fn run_args<S: Source, K: Sink, E: Sink>(
    alloc: Global,
    args: Args,
    source: &mut S,
    sink: &mut K,
    errs: &mut E,
) -> u8
    ensures { EndsFor S.left S.faults K.taken K.faults E.taken E.faults
        source.old source.new sink.old sink.new errs.old errs.new (asked_by args) result
        ⊎ LacksWords S.left S.faults K.taken K.faults E.taken E.faults
        source.old source.new sink.old sink.new errs.old errs.new result }
{
    match words_behind(alloc, args) {
        Ok(words) => {
            let ran = run(alloc, &words, source, sink, errs);
            let status = ran.status;
            // The memory of what was read and made goes with the process: nothing is gone over to free it.
            forget(ran);
            status
        }
        Err(AllocError) => end_by(errs, Fault::Memory),
    }
}

/// Runs the program for a process: [`run`](crate::run), for the words behind the first of those that it was
/// started with, which is its name. The answer is the status with which the process has to end.
///
/// Words that are no text are no command: their error is of the kind [`ErrorKind::InvalidData`]. Where there is
/// no memory for the words, which every other error says, the status is 5, and that is told.
pub fn run_process<S: Source, K: Sink, E: Sink>(
    alloc: Global,
    args: Result<Args, Error>,
    source: &mut S,
    sink: &mut K,
    errs: &mut E,
) -> u8
    // The words that are asked for are those behind the name, and the status is the run's.
    ensures ok { IfOk args (λ all. EndsFor S.left S.faults K.taken K.faults E.taken E.faults
        source.old source.new sink.old sink.new errs.old errs.new (asked_by all) result
        ⊎ LacksWords S.left S.faults K.taken K.faults E.taken E.faults
        source.old source.new sink.old sink.new errs.old errs.new result) }

    // No command is asked for by words that are no text.
    ensures err { IfErr args (EndsByError S.left S.faults K.taken K.faults E.taken E.faults
        source.old source.new sink.old sink.new errs.old errs.new result) }
{
    match args {
        Ok(args) => run_args(alloc, args, source, sink, errs),
        Err(error) if error.kind() == ErrorKind::InvalidData => end_by(errs, Fault::Usage),
        Err(_) => end_by(errs, Fault::Memory),
    }
}
