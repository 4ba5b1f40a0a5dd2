//! Lines of roles: what instructions do with their registers, and what queries answer of them.
#![tactic(auto)]

mod listing;
mod query;
mod register;
mod role;

pub use listing::role_listing;
