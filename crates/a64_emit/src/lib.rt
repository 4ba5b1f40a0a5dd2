//! Emission of A64 instructions, and what lists of them are: their bounds, faults, layout and records.
#![tactic(auto)]

mod arms;
mod call;
mod call_extent;
mod code;
mod emit;
mod error;
mod extent;
mod falling;
mod near;
mod one_word;
mod room;
mod sequence;
mod shown;
mod state;
mod uses;

pub use crate::code::{Code, CodeWords};
pub use a64_cells::{Callee, Site, Table, Uses, has_halfword, restores_halfwords};
pub use a64_inst::Item;
pub use a64_label_use::LabelUse;
pub use emit::MachInstEmit;
pub use error::EmitError;
pub use extent::{Burden, Extent, Light, asked_space, burden_of, inst_light, lesser, light_of};
pub use falling::falls;
pub use near::near_label;
pub use one_word::is_one_word;
pub use room::room_for;
pub use shown::{ShownFault, constant_size, first_shown_fault, shown_fault, shown_fault_with};
pub use state::MachInstEmitState;
pub use uses::uses_in;
