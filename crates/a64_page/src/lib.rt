//! The program as a static library for a page: a text goes in, and what the program writes for it stands in a
//! buffer of the page's.
#![tactic(auto)]

mod answer;
mod collector;
mod page;

pub use answer::Answer;
pub use page::a64_page_run;
