//! What is written of finished code: its report, and a summary of it, by way of a piece of memory to a sink.
#![tactic(auto)]

mod hundred;
mod kept;
mod line;
mod linked;
mod piece;
mod report;
mod report_lines;
mod stubs;
mod summary;
mod word_lines;

pub use linked::write_linked;
pub use piece::Piece;
pub use report::{write_report, write_words};
pub use stubs::write_stubs;
pub use summary::write_summary;
