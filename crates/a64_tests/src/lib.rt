//! Tests of what no clause says and no file of cases reaches: texts of small values, words of
//! encoders, a second machine's uses of labels, and refused memory.
#![tactic(auto)]

#[cfg(test)]
mod bit_runs;
#[cfg(test)]
mod distances;
#[cfg(test)]
mod encoders;
#[cfg(test)]
mod immediates;
#[cfg(test)]
mod instructions;
#[cfg(test)]
mod label_map;
#[cfg(test)]
mod load;
#[cfg(test)]
mod raw_bits;
#[cfg(test)]
mod refusal;
#[cfg(test)]
mod registers;
#[cfg(test)]
mod short_use;
