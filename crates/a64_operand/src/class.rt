//! Which registers an operand may be.

ghost use Rattle.std.specs.Prelude.{◌≡◌};
ghost use Rattle.a64_operand.specs.Operands as operands;

use crate::operand::{is_register_or_stack, is_register_or_zero, is_vector_register};
use crate::virtuals::VirtualRegisters;
use a64_base::Reg;

/// The registers that an operand may be.
#[derive(Clone, Copy, Debug)]
pub enum Class {
    /// x0 to x30, or the zero register.
    Zero,
    /// x0 to x30, or the stack pointer.
    Stack,
    /// v0 to v31.
    Vector,
    /// Those that the instruction says in a test of its own.
    Own,
}

/// Whether a register is of a class.
#[inline(always)]
pub fn is_of(virtuals: VirtualRegisters, class: Class, reg: Reg) -> bool
    ensures { result ≡ operands.is_of virtuals class reg }
{
    match class {
        Class::Zero => is_register_or_zero(virtuals, reg),
        Class::Stack => is_register_or_stack(virtuals, reg),
        Class::Vector => is_vector_register(virtuals, reg),
        Class::Own => true,
    }
}
