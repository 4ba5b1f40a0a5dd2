//! A stream like a compiler's: mostly arithmetic and constants, with a label and a branch in eight
//! items.

ghost use Rattle.std.specs.Prelude.{◌≡◌, ◌<◌, ◌^◌, ◌+◌, ◌*◌, IfOk, OnOk, length};

use crate::stream::{Step, Stream};
use a64_base::{MachLabel, OperandSize, writable_xreg, xreg};
use a64_imms::{Imm12, MoveWideConst};
use a64_inst::{ALUOp, Inst, MoveWideOp};
use std::alloc::{AllocError, Global};

/// One of the registers x0 to x15.
fn register(number: u32) -> u8
    ensures { result < 16 }
{
    (number % 16) as u8
}

/// The operator of a group's second register operation.
fn operator(group: u32) -> ALUOp {
    match group % 4 {
        0 => ALUOp::Sub,
        1 => ALUOp::And,
        2 => ALUOp::Orr,
        _ => ALUOp::Eor,
    }
}

/// An operation on two registers.
fn register_operation(alu_op: ALUOp, group: u32) -> Inst {
    Inst::AluRRR {
        alu_op,
        size: OperandSize::Size64,
        rd: writable_xreg(register(group)),
        rn: xreg(register(group / 2)),
        rm: xreg(register(group / 4)),
    }
}

/// An addition of a small number. Where it could not be an immediate, nothing is done.
fn addition(group: u32) -> Inst {
    match Imm12::maybe_from_u64(u64::from(group % 4096)) {
        Some(imm12) => Inst::AluRRImm12 {
            alu_op: ALUOp::Add,
            size: OperandSize::Size64,
            rd: writable_xreg(register(group)),
            rn: xreg(register(group / 2)),
            imm12,
        },
        None => Inst::Nop4,
    }
}

/// The low halfword of a constant.
fn low_halfword(group: u32) -> Inst {
    Inst::MovWide {
        op: MoveWideOp::MovZ,
        rd: writable_xreg(register(group)),
        imm: MoveWideConst {
            bits: (group % 65536) as u16,
            shift: 0,
        },
        size: OperandSize::Size64,
    }
}

/// The next halfword of that constant.
fn next_halfword(group: u32) -> Inst {
    Inst::MovK {
        rd: writable_xreg(register(group)),
        rn: xreg(register(group)),
        imm: MoveWideConst {
            bits: (group / 8 % 65536) as u16,
            shift: 1,
        },
        size: OperandSize::Size64,
    }
}

/// The label of a group's jump, of so many groups: by turns that of the next group, where there is
/// one, and that of an earlier group.
fn destination(group: u32, groups: u32) -> MachLabel
    requires { group < groups }
{
    if group % 2 == 0 && groups - group > 1 {
        MachLabel(group + 1)
    } else {
        MachLabel(group - group % 16)
    }
}

/// Adds the eight items of a group: its label, and behind it seven instructions.
fn add_group(stream: &mut Stream, group: u32, groups: u32) -> Result<(), AllocError>
    requires { group < groups }
    ensures { OnOk result (length stream.new.items.items ≡ length stream.old.items.items + 8) }
{
    stream.push(Step::Bind(MachLabel(group)))?;
    stream.push(Step::Emit(low_halfword(group)))?;
    stream.push(Step::Emit(next_halfword(group)))?;
    stream.push(Step::Emit(register_operation(ALUOp::Add, group)))?;
    stream.push(Step::Emit(addition(group)))?;
    stream.push(Step::Emit(register_operation(operator(group), group)))?;
    stream.push(Step::jump(destination(group, groups)))?;
    stream.push(Step::Emit(Inst::Nop4))
}

/// A stream of so many groups of eight items, like those of a compiler.
///
/// # Errors
///
/// Want of memory.
pub fn mixed(alloc: Global, groups: u32) -> Result<Stream, AllocError>
    requires { groups < 2 ^ 28 }
    ensures { IfOk result (λ stream. length stream.items.items ≡ 8 * groups) }
{
    let mut stream = Stream::with_capacity(alloc, 8 * groups as usize)?;
    for group in 0..groups {
        add_group(&mut stream, group, groups)?;
    }
    Ok(stream)
}
