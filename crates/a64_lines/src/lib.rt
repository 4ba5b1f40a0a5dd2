//! Reads files line by line: what each line says, behind those before it.
#![tactic(auto)]

mod error;
mod lines;
mod passed;

pub use error::LinesError;
pub use lines::{Lines, read_lines};
pub use passed::begins_with_any;
