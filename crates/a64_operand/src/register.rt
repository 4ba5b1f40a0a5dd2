//! What must hold of operations on registers, and moves of them, beside the classes of their registers.

ghost use Rattle.std.specs.Prelude.{◌≡◌};
ghost use Rattle.a64_operand.specs.IntegerOperands as sets;

use crate::class::Class;
use crate::operand::{is_bit_of, is_register, is_register_or_zero, is_stack_pointer};
use crate::virtuals::VirtualRegisters;
use a64_base::{OperandSize, PReg, Reg, RegClass, ShiftOp, ShiftOpAndAmt};
use a64_ops::{ALUOp, ALUOp3, BitOp};

/// Whether an operator gives the high half of a product.
fn is_high_product(op: ALUOp) -> bool
    ensures { result ≡ sets.is_high_product op }
{
    matches!(op, ALUOp::SMulH | ALUOp::UMulH)
}

/// Whether an operator on two registers is there at a size.
pub fn is_product_at(op: ALUOp, size: OperandSize) -> bool
    ensures { result ≡ sets.is_product_at op size }
{
    !is_high_product(op) || size.is64()
}

/// Whether an operator gives a long product.
fn is_long_product(op: ALUOp3) -> bool
    ensures { result ≡ sets.is_long_product op }
{
    matches!(op, ALUOp3::UMAddL | ALUOp3::SMAddL)
}

/// Whether an operator on three registers is there at a size.
pub fn is_long_product_at(op: ALUOp3, size: OperandSize) -> bool
    ensures { result ≡ sets.is_long_product_at op size }
{
    !is_long_product(op) || size.is32()
}

/// Whether an operator adds or subtracts.
pub fn is_add_sub(op: ALUOp) -> bool
    ensures { result ≡ sets.is_add_sub op }
{
    matches!(op, ALUOp::Add | ALUOp::Sub | ALUOp::AddS | ALUOp::SubS)
}

/// Which registers the result of an operator that adds or subtracts may go to, where the second operand is
/// an immediate or an extended register.
pub fn add_sub_class(op: ALUOp) -> Class
    ensures { result ≡ sets.add_sub_class op }
{
    match op {
        ALUOp::Add | ALUOp::Sub => Class::Stack,
        _ => Class::Zero,
    }
}

/// Whether an extraction from two registers is written as this shift at the size.
fn is_extraction(size: OperandSize, shift: ShiftOp) -> bool
    ensures { result ≡ sets.is_extraction size shift }
{
    match size {
        OperandSize::Size32 => matches!(shift, ShiftOp::LSL),
        OperandSize::Size64 => matches!(shift, ShiftOp::LSR),
    }
}

/// Whether the operator takes this shift of its second operand.
fn takes_shift(op: ALUOp, size: OperandSize, shift: ShiftOp) -> bool
    ensures { result ≡ sets.takes_shift op size shift }
{
    match op {
        ALUOp::Add | ALUOp::Sub | ALUOp::AddS | ALUOp::SubS => !matches!(shift, ShiftOp::ROR),
        ALUOp::And
        | ALUOp::Orr
        | ALUOp::Eor
        | ALUOp::AndS
        | ALUOp::AndNot
        | ALUOp::OrrNot
        | ALUOp::EorNot => true,
        ALUOp::Extr => is_extraction(size, shift),
        _ => false,
    }
}

/// Whether the operator takes its second operand shifted so, by an amount below the size.
pub fn is_shifted(op: ALUOp, size: OperandSize, shiftop: ShiftOpAndAmt) -> bool
    ensures { result ≡ sets.is_shifted op size shiftop }
{
    takes_shift(op, size, shiftop.op()) && is_bit_of(size, shiftop.amt().value())
}

/// Whether an operation on bits is there at a size.
pub fn is_bit_op_at(op: BitOp, size: OperandSize) -> bool
    ensures { result ≡ sets.is_bit_op_at op size }
{
    !matches!(op, BitOp::Rev64) || size.is64()
}

/// Of a move at 64 bits.
fn are_move_registers(virtuals: VirtualRegisters, rd: Reg, rm: Reg) -> bool
    ensures { result ≡ sets.are_move_registers virtuals rd rm }
{
    let out_of_stack = is_register(virtuals, &rd) && is_stack_pointer(virtuals, &rm);
    let registers = is_register_or_zero(virtuals, rd) && is_register_or_zero(virtuals, rm);
    registers || out_of_stack
}

/// Of a `Mov`.
#[tactic(auto, unfolding(crate::specs::IntegerOperands::is_move))]
pub fn is_move(virtuals: VirtualRegisters, size: OperandSize, rd: Reg, rm: Reg) -> bool
    ensures { result ≡ sets.is_move virtuals size rd rm }
{
    match size {
        OperandSize::Size32 => is_register(virtuals, &rd) && is_register_or_zero(virtuals, rm),
        OperandSize::Size64 => are_move_registers(virtuals, rd, rm),
    }
}

/// Whether a register is x21, x29 or x30.
fn is_fixed_result(reg: PReg) -> bool
    ensures { result ≡ sets.is_fixed_result reg }
{
    match reg.class() {
        RegClass::Int => matches!(reg.hw_enc(), 21 | 29 | 30),
        RegClass::Float => false,
    }
}

/// Whether a register is x21, x29, x30 or the stack pointer.
fn is_fixed_operand(reg: PReg) -> bool
    ensures { result ≡ sets.is_fixed_operand reg }
{
    match reg.class() {
        RegClass::Int => matches!(reg.hw_enc(), 21 | 29 | 30 | 63),
        RegClass::Float => false,
    }
}

/// Of a `MovFromPReg`.
#[tactic(auto, unfolding(crate::specs::IntegerOperands::is_move_from))]
pub fn is_move_from(virtuals: VirtualRegisters, rd: Reg, rm: PReg) -> bool
    ensures { result ≡ sets.is_move_from virtuals rd rm }
{
    is_fixed_operand(rm) && are_move_registers(virtuals, rd, Reg::from_real_reg(rm))
}

/// Of a `MovToPReg`.
#[tactic(auto, unfolding(crate::specs::IntegerOperands::is_move_to))]
pub fn is_move_to(virtuals: VirtualRegisters, rd: PReg, rm: Reg) -> bool
    ensures { result ≡ sets.is_move_to virtuals rd rm }
{
    is_fixed_result(rd) && are_move_registers(virtuals, Reg::from_real_reg(rd), rm)
}
