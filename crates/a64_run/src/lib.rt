//! The whole program but its `main`: a command over any source of bytes and any sinks, and its words and status.
//!
//! [`run`] reads what the command works on (a file of items, words, a listing of words, units, or addresses),
//! and writes what it makes of that, as the report of code. Its clauses carry the promise of this workspace
//! from the bytes that are read to the bytes that are written.
#![tactic(auto)]

mod adapter;
mod assembling;
mod code_words;
mod command;
mod fault_lines;
mod input;
mod linking;
mod listing;
mod making;
mod memory;
mod process;
mod product;
mod ran;
mod roles;
mod running;
mod turns;

pub use a64_io::{Failed, Sink, Source};
pub use adapter::{ReadSource, WriteSink};
pub use memory::{MemSink, MemSource, SureSink, SureSource};
pub use process::run_process;
pub use ran::{Fault, Ran};
pub use running::run;
