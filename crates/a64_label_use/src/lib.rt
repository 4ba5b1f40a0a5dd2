//! The kinds of label uses of A64 code, and what their words and veneers mean.
#![tactic(auto)]

mod label_use;

pub use label_use::LabelUse;
