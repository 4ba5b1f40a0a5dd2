//! The program: a command reads the standard input, and writes what it makes of that to the standard output,
//! as `asm` the report of the code of a file of items. `gen` makes a file of its own.
#![tactic(auto)]

use a64_run::{ReadSource, WriteSink, run_process};
use std::env;
use std::process::ExitCode;

fn main(rt: HostRuntime) -> ExitCode {
    let mut source = ReadSource::new(rt.stdin());
    let mut sink = WriteSink::new(rt.stdout());
    let mut errs = WriteSink::new(rt.stderr());
    let args = env::args(&rt);
    let status = run_process(rt.alloc(), args, &mut source, &mut sink, &mut errs);
    ExitCode::from(status)
}
