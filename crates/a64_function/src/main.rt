//! The program `function`: makes a function by the assembler, as a code generator does, and prints its words and its
//! relocations.
//!
//! The function sums words that stand 65,536 bytes behind where x3 points, as many as x1 says, onto a constant of 64
//! bits; calls the symbol with the number 7; loads a float from the pool; and returns. It has a loop, a branch forward,
//! and no frame.
#![tactic(auto)]

mod fault;
mod function;

use a64_assembler::Code;
use fault::Fault;
use function::function;
use std::process::ExitCode;

/// Prints the words of code, a line for each.
fn print_words(rt: &HostRuntime, code: &Code) -> Result<(), Fault> {
    let mut place: u64 = 0;
    for word in code.words() {
        println!(rt; "word {place} {word:08x}")?;
        place = place.saturating_add(4);
    }
    Ok(())
}

/// Prints the relocations of code, a line for each.
fn print_relocs(rt: &HostRuntime, code: &Code) -> Result<(), Fault> {
    for (place, kind, name, addend) in code.relocs.as_slice() {
        let number = name.0;
        println!(rt; "reloc {place} {kind:?} {number} {addend}")?;
    }
    Ok(())
}

/// Makes the function and prints it.
fn run(rt: &HostRuntime) -> Result<(), Fault> {
    let code = function(rt.alloc())?;
    print_words(rt, &code)?;
    print_relocs(rt, &code)
}

fn main(rt: HostRuntime) -> ExitCode {
    match run(&rt) {
        Ok(()) => ExitCode::from(0),
        Err(fault) => {
            // Nothing more can be said where the line cannot be written.
            let _ = eprintln!(&rt; "{fault}");
            ExitCode::from(fault.status())
        }
    }
}
