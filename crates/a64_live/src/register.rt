//! Registers that can be ordered, and their names in files.

use a64_base::{Reg, RegClass, RegKind};
use std::fmt;

/// The number of the zero register, which holds no value.
const ZERO: u8 = 31;

/// The number of the stack pointer.
const STACK: u8 = 63;

/// A register that can hold a value, in the order in which the report has them.
#[derive(Clone, Copy, Debug, PartialEq, Eq, PartialOrd, Ord)]
pub enum Register {
    /// A general register with its number, or the stack pointer.
    Integer(u8),
    /// A vector register.
    Vector(u8),
    /// A virtual register that stands for a general one.
    VirtualInteger(u32),
    /// A virtual register that stands for a vector one.
    VirtualFloat(u32),
}

impl Register {
    /// The register that an operand names, unless it is the zero register.
    pub fn of(reg: Reg) -> Option<Register> {
        match reg.kind() {
            RegKind::Real(real) => match (real.class(), real.hw_enc()) {
                (RegClass::Int, ZERO) => None,
                (RegClass::Int, number) => Some(Register::Integer(number)),
                (RegClass::Float, number) => Some(Register::Vector(number)),
            },
            RegKind::Virtual { index, class } => match class {
                RegClass::Int => Some(Register::VirtualInteger(index)),
                RegClass::Float => Some(Register::VirtualFloat(index)),
            },
        }
    }
}

/// The name as files write it.
impl fmt::Display for Register {
    fn fmt<W: fmt::Write>(&self, f: &mut fmt::Formatter<W>) -> fmt::Result {
        match self {
            Register::Integer(STACK) => write!(f, "sp"),
            Register::Integer(number) => write!(f, "x{number}"),
            Register::Vector(number) => write!(f, "v{number}"),
            Register::VirtualInteger(index) => write!(f, "%i{index}"),
            Register::VirtualFloat(index) => write!(f, "%f{index}"),
        }
    }
}
