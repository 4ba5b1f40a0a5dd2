//! The program `stream`: makes a stream of items by the public calls of the library, assembles it,
//! and prints what came of it.
//!
//! Without words it makes a small mixed stream. `mixed N` makes N groups of eight items
//! like those of a compiler, and `branches N` makes N jumps, each before its label. A word `make` in
//! front makes the items and does not assemble them. `uses N` has no items: it puts N branches of all
//! ranges, half of them to labels behind them, straight into a buffer of code, with islands where they
//! are needed, and finishes it.
#![tactic(auto)]

ghost use Rattle.std.specs.Prelude.{◌<◌, ◌^◌};
ghost use Rattle.a64_stream.specs.Streams.{IsSmall};

mod assembling;
mod branches;
mod command;
mod fault;
mod kinds;
mod mixed;
mod stream;
mod summary;
mod uses;

use assembling::assembled;
use command::{Command, Kind, command_of};
use fault::Fault;
use kinds::stream_of;
use std::env;
use std::process::ExitCode;
use summary::word_sum;
use uses::code_of_uses;

/// Prints a line for the length of code, and one for the sum of its words.
fn print_code(rt: &HostRuntime, code: &[u8]) -> Result<(), Fault> {
    let bytes = code.len();
    let sum = word_sum(code);
    println!(rt; "bytes {bytes}")?;
    println!(rt; "sum {sum:08x}")?;
    Ok(())
}

/// Makes the items of a stream, assembles them where that is asked for, and prints what came of them.
fn make_items(rt: &HostRuntime, kind: Kind, count: u32, assembles: bool) -> Result<(), Fault>
    requires { count < 2 ^ 28 }
{
    let stream = stream_of(rt.alloc(), kind, count)?;
    let items = stream.items.len();
    println!(rt; "items {items}")?;
    if assembles {
        let code = assembled(rt.alloc(), &stream)?;
        print_code(rt, &code.bytes)?;
    }
    Ok(())
}

/// Puts so many uses into a buffer, and prints what came of them.
fn make_uses(rt: &HostRuntime, count: u32) -> Result<(), Fault>
    requires { count < 2 ^ 25 }
{
    println!(rt; "items {count}")?;
    let code = code_of_uses(rt.alloc(), count)?;
    print_code(rt, &code.bytes)
}

/// Does what a command says, and prints a line for each thing that came of it.
fn carry_out(rt: &HostRuntime, command: Command) -> Result<(), Fault>
    requires { IsSmall command }
{
    match command {
        Command::Items {
            kind,
            count,
            assembles,
        } => make_items(rt, kind, count, assembles),
        Command::Uses(count) => make_uses(rt, count),
    }
}

/// Does what the words behind the program's name say.
fn run(rt: &HostRuntime) -> Result<(), Fault> {
    let Ok(args) = env::args(rt) else {
        return Err(Fault::Usage);
    };
    let words: Vec<String> = args.skip(1).collect(rt.alloc())?;
    match command_of(&words) {
        Some(command) => carry_out(rt, command),
        None => Err(Fault::Usage),
    }
}

fn main(rt: HostRuntime) -> ExitCode {
    match run(&rt) {
        Ok(()) => ExitCode::from(0),
        Err(fault) => {
            // Nothing more can be said where the line cannot be written.
            let _ = eprintln!(&rt; "{fault}");
            ExitCode::from(fault.status())
        }
    }
}
