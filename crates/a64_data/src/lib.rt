//! Which bytes of finished code are words of data of its items: no instructions, and no trap words.
#![tactic(auto)]

mod data_ranges;
mod marks;
mod range;
mod words;

pub use data_ranges::item_data_ranges;
pub use range::DataRange;
