//! The words of code, as the bytes that they are in the end.
#![tactic(auto)]

mod words;

pub use words::Words;
