//! The function.

ghost use Rattle.std.specs.Prelude.{◌≡◌, true};
ghost use Rattle.a64_operand.specs.declared.virtuals.VirtualRegisters.TheVariants.{Refused};
ghost use Rattle.a64_operand.specs.Operands.{is_register};

use crate::fault::Fault;
use a64_assembler::{
    AMode, AccessOp, CondBrKind, Emitter, EmitterError, ExternalName, Finished, Inst, MachLabel,
    OperandSize, Reg, VCodeConstant, VCodeConstants, Writable, insts, vreg, writable_xreg, xreg,
};
use std::alloc::Global;

/// How far behind the pointer the words stand, in bytes.
const BEHIND: i64 = 65_536;

/// Emits the moves that put a value into a register.
fn emit_constant(
    alloc: Global,
    emitter: &mut Emitter<'_>,
    rd: Writable<Reg>,
    value: u64,
) -> Result<(), EmitterError>
    requires { is_register Refused rd ≡ true }
{
    let moves = Inst::load_constant(alloc, rd, value)?;
    for inst in moves.as_slice() {
        emitter.emit(inst)?;
    }
    Ok(())
}

/// Emits what the loop does in a turn: it loads a word, adds it, and goes to the next one.
fn emit_turn(emitter: &mut Emitter<'_>) -> Result<(), EmitterError> {
    let size = OperandSize::Size64;
    let word = AMode::RegOffset {
        rn: xreg(3),
        off: BEHIND,
    };
    emitter.emit(&insts::access(AccessOp::ULoad64, xreg(2), word))?;
    emitter.emit(&insts::add(size, writable_xreg(0), xreg(0), xreg(2)))?;
    emitter.emit(&insts::sub(size, writable_xreg(1), xreg(1), xreg(4)))
}

/// Emits the loop, which goes on until x1 is zero.
fn emit_loop(emitter: &mut Emitter<'_>, done: MachLabel) -> Result<(), EmitterError> {
    let (again, turn) = (emitter.new_label()?, emitter.new_label()?);
    let is_zero = CondBrKind::Zero(xreg(1), OperandSize::Size64);
    emitter.bind(again)?;
    emitter.emit(&insts::branch(is_zero, done, turn))?;
    emitter.bind(turn)?;
    emit_turn(emitter)?;
    emitter.emit(&insts::jump(again))
}

/// Emits what stands behind the loop: a call, the load of a constant, and a return.
fn emit_end(
    alloc: Global,
    emitter: &mut Emitter<'_>,
    float: VCodeConstant,
) -> Result<(), EmitterError> {
    emitter.emit(&insts::call(alloc, ExternalName(7)))?;
    let float = AMode::Const { addr: float };
    emitter.emit(&insts::access(AccessOp::FpuLoad64, vreg(0), float))?;
    emitter.emit(&insts::ret())
}

/// Emits the function, which loads this constant.
fn emit_function(
    alloc: Global,
    emitter: &mut Emitter<'_>,
    float: VCodeConstant,
) -> Result<(), EmitterError> {
    let done = emitter.new_label()?;
    emit_constant(alloc, emitter, writable_xreg(0), 0x1234_5678_9abc_def0)?;
    emit_constant(alloc, emitter, writable_xreg(4), 1)?;
    emit_loop(emitter, done)?;
    emitter.bind(done)?;
    emit_end(alloc, emitter, float)
}

/// The function.
pub fn function(alloc: Global) -> Result<Finished, Fault> {
    let mut constants = VCodeConstants::new(alloc);
    let float = constants.insert(&[0x18, 0x2d, 0x44, 0x54, 0xfb, 0x21, 0x09, 0x40])?;
    let mut emitter = Emitter::new(alloc, &constants);
    emit_function(alloc, &mut emitter, float)?;
    Ok(emitter.finish()?)
}
