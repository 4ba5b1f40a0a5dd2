//! The program `by_buffer`: makes a function by an emitter, one instruction at a time, and prints its words and its
//! relocations.
//!
//! The function sums words that stand 65,536 bytes behind where x3 points, as many as x1 says, onto a constant of 64
//! bits; calls the symbol with the number 7; loads a float from the pool; and returns. It has a loop, a branch forward,
//! and no frame.
#![tactic(auto)]

mod fault;
mod function;

use a64_assembler::Finished;
use fault::Fault;
use function::function;
use std::process::ExitCode;

/// Prints the words of code, a line for each.
fn print_words(rt: &HostRuntime, bytes: &[u8]) -> Result<(), Fault> {
    for i in 0..bytes.len() / 4 {
        let word = u32::from_le_bytes([
            bytes[4 * i],
            bytes[4 * i + 1],
            bytes[4 * i + 2],
            bytes[4 * i + 3],
        ]);
        println!(rt; "word {} {word:08x}", 4 * i)?;
    }
    Ok(())
}

/// Prints the relocations of code, a line for each.
fn print_relocs(rt: &HostRuntime, code: &Finished) -> Result<(), Fault> {
    for (place, kind, name, addend) in code.relocs.as_slice() {
        let number = name.0;
        println!(rt; "reloc {place} {kind:?} {number} {addend}")?;
    }
    Ok(())
}

/// Makes the function and prints it.
fn run(rt: &HostRuntime) -> Result<(), Fault> {
    let code = function(rt.alloc())?;
    print_words(rt, &code.bytes)?;
    print_relocs(rt, &code)
}

fn main(rt: HostRuntime) -> ExitCode {
    match run(&rt) {
        Ok(()) => ExitCode::from(0),
        Err(fault) => {
            // Nothing more can be said where the line cannot be written.
            let _ = eprintln!(&rt; "{fault}");
            ExitCode::from(fault.status())
        }
    }
}
