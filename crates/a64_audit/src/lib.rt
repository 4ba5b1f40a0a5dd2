//! An auditor of code: reads the words of a report, and tells the first thing that is wrong with them.
#![tactic(auto)]

mod auditing;
mod branches;
mod entry;
mod file;
mod reading;
mod verdict;

pub use auditing::audit;
pub use file::{AuditFile, AuditFileError};
pub use reading::read_audit;
pub use verdict::Verdict;
