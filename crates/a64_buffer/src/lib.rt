//! A buffer of code whose uses of labels are resolved when it is finished, for every machine whose
//! kinds of use keep the laws of [`MachInstLabelUse`].
#![tactic(auto)]

mod buffer;
mod chain;
mod class;
mod constants;
mod content;
mod copy;
mod field;
mod finish;
mod force;
mod give;
mod island;
mod label_use;
mod parts;
mod queue;
mod queues;
mod records;
mod room;
mod settle;
mod site;
mod waiting;

pub use buffer::MachBuffer;
pub use constants::Constants;
pub use field::{patch_field, with_field};
pub use finish::Finished;
pub use force::ForceVeneers;
pub use label_use::MachInstLabelUse;
pub use site::{Target, Use};
