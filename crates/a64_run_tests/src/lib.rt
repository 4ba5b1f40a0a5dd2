//! Tests that no file of cases reaches: adapters of streams, streams whose calls fail, visitors that refuse
//! roles, and the texts of errors.
#![tactic(auto)]

#[cfg(test)]
mod errors;
#[cfg(test)]
mod roles;
#[cfg(test)]
mod streams;
