//! Operations on a register and a number of any size.
//!
//! Two immediates need no scratch register, and serve the stack pointer too; longer numbers go over x16, which then
//! changes, and nothing tells a caller beforehand. A comparison has one immediate or x16, since the flags of two
//! sums are not those of one.

ghost use Rattle.std.specs.Prelude.{ℕ, ◌≡◌, ◌<◌, ◌^◌, true, false, map};
ghost use Rattle.a64_base.specs.Registers.{integer_register};
ghost use Rattle.a64_imms.specs.Imm12s.{HasImm12};
ghost use Rattle.a64_inst.specs.Constants.{step_into};
ghost use Rattle.a64_plan.specs.Plans.{plan_of};
ghost use Rattle.a64_ops.specs.declared.operator.ALUOp.TheVariants as ops;
ghost use Rattle.a64_assembler.specs.Numbers as numbers;
ghost use Rattle.a64_assembler.specs.Numbers.{IsOnHalves, IsOnImmediate, IsOnScratch, IsWithLong, IsWithNumber};

use crate::insts::{alu_rr_imm12, alu_rrr};
use a64_base::{
    OperandSize, Reg, Writable, spilltmp_reg, writable_spilltmp_reg, writable_zero_reg,
};
use a64_imms::Imm12;
use a64_inst::Inst;
use a64_ops::ALUOp;
use smallvec::SmallVec;
use std::alloc::Global;

/// Numbers below it are the sum of two immediates.
const HALVES_LIMIT: u64 = 1 << 24;

/// An operation with what has to stand before it.
#[derive(Drop)]
pub struct WithNumber {
    /// Nothing where an immediate has the number; the same operation on another part of the number; or the moves that
    /// put it into x16, the first scratch register.
    pub before: SmallVec<Inst, 4>,
    /// The operation.
    pub operation: Inst,
}

/// An operation on two numbers.
#[derive(Clone, Copy)]
struct Sum {
    /// The operation.
    op: ALUOp,
    /// The one that does the same with what the second number lacks to 0.
    inverse: ALUOp,
    /// Whether two of them do what one does with the sum of their numbers: not where flags count.
    halves: bool,
}

/// The bits of a number that count at a size.
fn at_size(size: OperandSize, number: u64) -> u64
    ensures { result ≡ numbers.at_size size number }
{
    match size {
        OperandSize::Size32 => number % (1 << 32),
        OperandSize::Size64 => number,
    }
}

/// What a number lacks to 0 at a size.
fn lacking(size: OperandSize, number: u64) -> u64
    ensures { result ≡ numbers.lacking size number }
{
    match at_size(size, number) {
        0 => 0,
        number => match size {
            OperandSize::Size32 => (1 << 32) - number,
            OperandSize::Size64 => u64::MAX - number + 1,
        },
    }
}

/// An operation on an immediate.
fn on_immediate(
    alloc: Global,
    alu_op: ALUOp,
    size: OperandSize,
    rd: Writable<Reg>,
    rn: Reg,
    imm12: Imm12,
) -> WithNumber
    ensures { (value : ℕ) → HasImm12 value imm12
        → IsOnImmediate size rd rn alu_op value result }
{
    WithNumber {
        before: SmallVec::new(alloc),
        operation: alu_rr_imm12(alu_op, size, rd, rn, imm12),
    }
}

/// The moves that put a number into x16. They have room in the answer itself, so that no memory is asked for.
fn moves_of(alloc: Global, number: u64) -> SmallVec<Inst, 4>
    ensures { result.items ≡ map (step_into (integer_register 16)) (plan_of number) }
{
    match Inst::load_constant(alloc, writable_spilltmp_reg(), number) {
        Ok(moves) => moves,
        Err(_) => unreachable!(),
    }
}

/// An operation on x16, to which moves give a number.
fn on_scratch(
    alloc: Global,
    op: ALUOp,
    size: OperandSize,
    rd: Writable<Reg>,
    rn: Reg,
    number: u64,
) -> WithNumber
    ensures { IsOnScratch size rd rn op number result }
{
    WithNumber {
        before: moves_of(alloc, at_size(size, number)),
        operation: alu_rrr(op, size, rd, rn, spilltmp_reg()),
    }
}

/// Two operations on immediates.
fn on_halves(
    alloc: Global,
    alu_op: ALUOp,
    size: OperandSize,
    rd: Writable<Reg>,
    rn: Reg,
    value: u64,
) -> WithNumber
    requires { value < 2 ^ 24 }
    ensures { IsOnHalves size rd rn alu_op value result }
{
    let high = Imm12 {
        bits: (value / 4096) as u16,
        shift12: true,
    };
    let low = Imm12 {
        bits: (value % 4096) as u16,
        shift12: false,
    };
    let mut before = SmallVec::new(alloc);
    before.push_reserved(alu_rr_imm12(alu_op, size, rd, rn, high));
    WithNumber {
        before,
        operation: alu_rr_imm12(alu_op, size, rd, rd.to_reg(), low),
    }
}

/// An operation on a register and a number that no immediate has.
fn with_long(
    alloc: Global,
    sum: Sum,
    size: OperandSize,
    rd: Writable<Reg>,
    rn: Reg,
    number: u64,
) -> WithNumber
    ensures { IsWithLong sum.op sum.inverse sum.halves size rd rn number result }
{
    let value = at_size(size, number);
    if sum.halves && value < HALVES_LIMIT {
        return on_halves(alloc, sum.op, size, rd, rn, value);
    }
    let value = lacking(size, number);
    if sum.halves && value < HALVES_LIMIT {
        return on_halves(alloc, sum.inverse, size, rd, rn, value);
    }
    on_scratch(alloc, sum.op, size, rd, rn, number)
}

/// An operation on a register and a number.
fn with_number(
    alloc: Global,
    sum: Sum,
    size: OperandSize,
    rd: Writable<Reg>,
    rn: Reg,
    number: u64,
) -> WithNumber
    ensures { IsWithNumber sum.op sum.inverse sum.halves size rd rn number result }
{
    if let Some(imm12) = Imm12::maybe_from_u64(at_size(size, number)) {
        return on_immediate(alloc, sum.op, size, rd, rn, imm12);
    }
    if let Some(imm12) = Imm12::maybe_from_u64(lacking(size, number)) {
        return on_immediate(alloc, sum.inverse, size, rd, rn, imm12);
    }
    with_long(alloc, sum, size, rd, rn, number)
}

/// `add` of a register, or of the stack pointer, and a number, of which the low 32 bits count at a size of 32: one
/// instruction where an immediate has the number or what it lacks to 0, two where either is below 2^24, and else the
/// moves that put it into x16 and an addition, which has no stack pointer.
pub fn add_number(
    alloc: Global,
    size: OperandSize,
    rd: Writable<Reg>,
    rn: Reg,
    number: u64,
) -> WithNumber
    ensures { IsWithNumber ops.Add ops.Sub true size rd rn number result }
{
    let sum = Sum {
        op: ALUOp::Add,
        inverse: ALUOp::Sub,
        halves: true,
    };
    with_number(alloc, sum, size, rd, rn, number)
}

/// `sub` of a number from a register, as [`add_number`].
pub fn sub_number(
    alloc: Global,
    size: OperandSize,
    rd: Writable<Reg>,
    rn: Reg,
    number: u64,
) -> WithNumber
    ensures { IsWithNumber ops.Sub ops.Add true size rd rn number result }
{
    let sum = Sum {
        op: ALUOp::Sub,
        inverse: ALUOp::Add,
        halves: true,
    };
    with_number(alloc, sum, size, rd, rn, number)
}

/// `cmp` of a register and a number: the flags of their difference, by one instruction or over x16. They are the flags
/// of the sum with what the number lacks to 0 too, since 0 has an immediate itself.
pub fn cmp_number(alloc: Global, size: OperandSize, rn: Reg, number: u64) -> WithNumber
    ensures { IsWithNumber ops.SubS ops.AddS false size (integer_register 31) rn number result }
{
    let sum = Sum {
        op: ALUOp::SubS,
        inverse: ALUOp::AddS,
        halves: false,
    };
    with_number(alloc, sum, size, writable_zero_reg(), rn, number)
}
