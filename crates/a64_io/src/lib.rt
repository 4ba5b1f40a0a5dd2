//! Sources of bytes and sinks for them, which may fail, and what is said of what they give and take.
#![tactic(auto)]

mod output;
mod stream;

pub use output::write_all;
pub use stream::{Failed, Sink, Source};
