//! A map from numbers most of which are dense, as those of labels are.
#![tactic(auto)]

mod label_map;
mod shared;

pub use label_map::LabelMap;
