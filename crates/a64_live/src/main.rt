//! The program `live`: reads a file of items from the standard input, and prints where each register is
//! live. It shows what the roles of operands are for: which registers an instruction reads and writes is
//! asked of `get_operands` alone, whatever the instruction is.
//!
//! A register is live before an item if some path from this item on comes to one that reads the register,
//! and no item before that one on the path writes it. Items have the numbers that reports give them:
//! instructions and bindings of labels, from 0 on.
//!
//! - An item reads a register by a use and by a fixed use, and writes one by a definition of any kind. It
//!   reads before it writes.
//! - It writes what it clobbers too, and of a fixed role also the second register, where that is a real one:
//!   the value is moved there before the item, or comes from there.
//! - A path goes from an item to the next one; from a branch to each label that it names instead; and nowhere
//!   from what ends the function (`Rets`, returns, returns that call) and from `Udf`. A call comes back.
//!
//! A line has the name of a register, as files write it, and the numbers of the items before which it is
//! live, as `3`, or as `3-5` for 3, 4 and 5; `-` if there are none. So a value is live from the item behind
//! the one that defines it to the last one that reads it. There is a line for each register that an item
//! reads or defines. The zero register has none, nor has one that is only clobbered, or only the second one
//! of fixed roles.
//!
//! A file is refused where a line is no entry, where a label is bound twice, or is named by a branch and not
//! bound, and where a branch goes by a distance in bytes. The status is then 1, and one line on the standard
//! error says why. 3, 4 and 5 are a read that failed, a write that failed, and want of memory.
#![tactic(auto)]

mod fault;
mod flow;
mod mentions;
mod register;
mod report;
mod span;
mod walk;

use fault::Fault;
use report::report_of;
use std::io::Read;
use std::process::ExitCode;

/// Reads the file and prints the report, which stands there whole before a line is printed.
fn run(rt: &HostRuntime) -> Result<(), Fault> {
    let mut bytes = Vec::new(rt.alloc());
    if rt.stdin().read_to_end(&mut bytes).is_err() {
        return Err(Fault::Read);
    }
    let report = report_of(rt.alloc(), &bytes)?;
    match print!(rt; "{report}") {
        Ok(()) => Ok(()),
        Err(_) => Err(Fault::Write),
    }
}

fn main(rt: HostRuntime) -> ExitCode {
    match run(&rt) {
        Ok(()) => ExitCode::from(0),
        Err(fault) => {
            // Nothing more can be said where the line cannot be written.
            let _ = eprintln!(&rt; "{fault}");
            ExitCode::from(fault.status())
        }
    }
}
