//! The texts of loops of atomic accesses.

ghost use Rattle.std.specs.Prelude.{◌≡◌, ◌++◌, OnOk};
ghost use Rattle.std.specs.String.{string_bytes};
ghost use Rattle.a64_operand_text.specs.SequenceTexts as texts;

use a64_base::{IrType, OperandSize, Reg, push_numbered, push_register};
use a64_ops::AtomicRMWLoopOp;
use std::alloc::AllocError;

/// Appends a register behind its name.
fn push_named(out: &mut String, name: &str, reg: Reg) -> Result<(), AllocError>
    ensures { OnOk result (string_bytes out.new
        ≡ string_bytes out.old ++ texts.named_text name.now reg) }
{
    out.push_str(name)?;
    push_register(out, OperandSize::Size64, reg)
}

/// Appends the name of a loop that changes memory by an operator.
#[tactic(auto, unfolding(a64_operand_text::specs::SequenceTexts::rmw_loop_name))]
fn push_rmw_loop_name(out: &mut String, op: AtomicRMWLoopOp, ty: IrType) -> Result<(), AllocError>
    ensures { OnOk result (string_bytes out.new
        ≡ string_bytes out.old ++ texts.rmw_loop_name op ty) }
{
    out.push_str("atomic_rmw_loop_")?;
    out.push_str(op.op_str())?;
    push_numbered(out, "_", ty.bits())
}

/// Appends the registers of a loop that changes memory by an operator.
#[tactic(auto, unfolding(a64_operand_text::specs::SequenceTexts::rmw_loop_registers_text))]
fn push_rmw_loop_registers(
    out: &mut String,
    addr: Reg,
    value: Reg,
    oldval: Reg,
    scratch1: Reg,
    scratch2: Reg,
) -> Result<(), AllocError>
    ensures { OnOk result (string_bytes out.new ≡ string_bytes out.old
        ++ texts.rmw_loop_registers_text addr value oldval scratch1 scratch2) }
{
    push_named(out, " addr=", addr)?;
    push_named(out, " operand=", value)?;
    push_named(out, " oldval=", oldval)?;
    push_named(out, " scratch1=", scratch1)?;
    push_named(out, " scratch2=", scratch2)
}

/// Appends the registers of a loop that compares memory and replaces it.
#[tactic(auto, unfolding(a64_operand_text::specs::SequenceTexts::cas_loop_registers_text))]
fn push_cas_loop_registers(
    out: &mut String,
    addr: Reg,
    expected: Reg,
    replacement: Reg,
    oldval: Reg,
    scratch: Reg,
) -> Result<(), AllocError>
    ensures { OnOk result (string_bytes out.new ≡ string_bytes out.old
        ++ texts.cas_loop_registers_text addr expected replacement oldval scratch) }
{
    push_named(out, " addr=", addr)?;
    push_named(out, ", expect=", expected)?;
    push_named(out, ", replacement=", replacement)?;
    push_named(out, ", oldval=", oldval)?;
    push_named(out, ", scratch=", scratch)
}

/// Appends the text of a loop that changes memory by an operator.
///
/// # Errors
///
/// Want of memory.
#[tactic(auto, unfolding(a64_operand_text::specs::SequenceTexts::rmw_loop_text))]
pub fn push_rmw_loop(
    out: &mut String,
    op: AtomicRMWLoopOp,
    ty: IrType,
    addr: Reg,
    value: Reg,
    oldval: Reg,
    scratch1: Reg,
    scratch2: Reg,
) -> Result<(), AllocError>
    ensures { OnOk result (string_bytes out.new ≡ string_bytes out.old
        ++ texts.rmw_loop_text op ty addr value oldval scratch1 scratch2) }
{
    push_rmw_loop_name(out, op, ty)?;
    push_rmw_loop_registers(out, addr, value, oldval, scratch1, scratch2)
}

/// Appends the text of a loop that compares memory and replaces it.
///
/// # Errors
///
/// Want of memory.
#[tactic(auto, unfolding(a64_operand_text::specs::SequenceTexts::cas_loop_text))]
pub fn push_cas_loop(
    out: &mut String,
    ty: IrType,
    addr: Reg,
    expected: Reg,
    replacement: Reg,
    oldval: Reg,
    scratch: Reg,
) -> Result<(), AllocError>
    ensures { OnOk result (string_bytes out.new ≡ string_bytes out.old
        ++ texts.cas_loop_text ty addr expected replacement oldval scratch) }
{
    push_numbered(out, "atomic_cas_loop_", ty.bits())?;
    push_cas_loop_registers(out, addr, expected, replacement, oldval, scratch)
}
