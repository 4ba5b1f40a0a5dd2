//! The function.

use crate::fault::Fault;
use a64_assembler::{
    AMode, AccessOp, Assembler, Code, ExternalName, MachLabel, OperandSize, vreg, writable_xreg,
    xreg,
};
use std::alloc::Global;

/// How far behind the pointer the words stand, in bytes.
const BEHIND: i64 = 65_536;

/// Adds what the loop does in a turn: it loads a word, adds it, and goes to the next one.
fn add_turn(asm: &mut Assembler) -> Result<(), Fault> {
    let word = AMode::RegOffset {
        rn: xreg(3),
        off: BEHIND,
    };
    asm.access(AccessOp::ULoad64, xreg(2), word)?;
    let size = OperandSize::Size64;
    asm.add(size, writable_xreg(0), xreg(0), xreg(2))?;
    Ok(asm.sub(size, writable_xreg(1), xreg(1), xreg(4))?)
}

/// Adds the loop, which goes on until x1 is zero.
fn add_loop(asm: &mut Assembler, done: MachLabel) -> Result<(), Fault> {
    let again = asm.new_label()?;
    asm.bind(again)?;
    asm.branch_if_zero(xreg(1), OperandSize::Size64, done)?;
    add_turn(asm)?;
    Ok(asm.jump(again)?)
}

/// The function.
pub fn function(alloc: Global) -> Result<Code, Fault> {
    let mut asm = Assembler::new(alloc);
    let done = asm.new_label()?;
    let pool = asm.constant(&[0x18, 0x2d, 0x44, 0x54, 0xfb, 0x21, 0x09, 0x40])?;
    asm.load_constant(writable_xreg(0), 0x1234_5678_9abc_def0)?;
    asm.load_constant(writable_xreg(4), 1)?;
    add_loop(&mut asm, done)?;
    asm.bind(done)?;
    asm.call(ExternalName(7))?;
    asm.access(AccessOp::FpuLoad64, vreg(0), AMode::Const { addr: pool })?;
    asm.ret()?;
    Ok(asm.finish()?)
}
