//! Plans of constants: the shortest steps that leave a number in a register.
#![tactic(auto)]

mod plan;
mod step;

pub use plan::const_plan;
pub use step::ConstStep;
