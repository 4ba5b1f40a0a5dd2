//! The program `elf_sample`: writes a relocatable object with each kind of relocation, and prints its bytes in
//! hexadecimal digits, 16 to a line.
//!
//! The function `total` adds up what `twice` makes of its argument, the word at `base`, and the word at `own`, which
//! stands behind its code. The address of `twice` stands at `pointer`.
#![tactic(auto)]

mod sample;

use a64_elf::{ElfError, write_object};
use sample::sample;
use std::fmt;
use std::process::ExitCode;

/// Why the object is not printed.
#[derive(Debug, Drop)]
enum Fault {
    /// It is not written.
    Elf(ElfError),
    /// A line could not be printed.
    Output,
}

impl fmt::Display for Fault {
    fn fmt<W: fmt::Write>(&self, f: &mut fmt::Formatter<W>) -> fmt::Result {
        match self {
            Fault::Elf(error) => write!(f, "{error}"),
            Fault::Output => f.write_str("output failed"),
        }
    }
}

impl From<ElfError> for Fault {
    fn from(error: ElfError) -> Fault {
        Fault::Elf(error)
    }
}

impl From<std::io::Error> for Fault {
    fn from(_error: std::io::Error) -> Fault {
        Fault::Output
    }
}

/// Prints bytes, 16 to a line.
fn print_bytes(rt: &HostRuntime, bytes: &[u8]) -> Result<(), Fault> {
    for (i, byte) in bytes.iter().enumerate() {
        if i % 16 == 15 {
            println!(rt; "{byte:02x}")?;
        } else {
            print!(rt; "{byte:02x}")?;
        }
    }
    Ok(println!(rt;)?)
}

/// Writes the object and prints it.
fn run(rt: &HostRuntime) -> Result<(), Fault> {
    let object = sample(rt.alloc())?;
    let bytes = write_object(rt.alloc(), object)?;
    print_bytes(rt, &bytes)
}

fn main(rt: HostRuntime) -> ExitCode {
    match run(&rt) {
        Ok(()) => ExitCode::from(0),
        Err(fault) => {
            // Nothing more can be said where the line cannot be written.
            let _ = eprintln!(&rt; "{fault}");
            ExitCode::from(1)
        }
    }
}
