//! The texts of the steps of constants, and of sums of a base and an offset.

ghost use Rattle.std.specs.Prelude.{◌≡◌, ◌++◌, OnOk};
ghost use Rattle.std.specs.String.{string_bytes};
ghost use Rattle.a64_inst.specs.Constants.{step_into};
ghost use Rattle.a64_inst.specs.MemoryOperands as operands;
ghost use Rattle.a64_operand_text.specs.MemoryTexts as texts;
ghost use Rattle.a64_operand_text.specs.Texts.{own_text};

use crate::line::{line2, line3};
use crate::operand::Operand::{Number, Sized, Wide, X};
use a64_base::{Reg, Writable, tmp2_reg, writable_tmp2_reg, zero_reg};
use a64_inst::{ConstStep, const_plan};
use std::alloc::AllocError;

/// Appends a step of a constant into a register.
///
/// # Errors
///
/// Want of memory.
pub fn push_step(out: &mut String, rd: Writable<Reg>, step: ConstStep) -> Result<(), AllocError>
    ensures { OnOk result
        (string_bytes out.new ≡ string_bytes out.old ++ own_text (step_into rd step)) }
{
    match step {
        ConstStep::MovZ(imm, size) => line2(out, "movz", Sized(size, rd.to_reg()), Wide(imm)),
        ConstStep::MovN(imm, size) => line2(out, "movn", Sized(size, rd.to_reg()), Wide(imm)),
        ConstStep::MovK(imm, size) => {
            line3(
                out,
                "movk",
                Sized(size, rd.to_reg()),
                Sized(size, rd.to_reg()),
                Wide(imm),
            )
        }
        ConstStep::Orr(imml) => line3(
            out,
            "orr",
            Sized(imml.size, rd.to_reg()),
            Sized(imml.size, zero_reg()),
            Number(imml.value()),
        ),
    }
}

/// Appends the steps of a constant into a register, with nothing between them.
///
/// # Errors
///
/// Want of memory.
pub fn push_steps(
    out: &mut String,
    rd: Writable<Reg>,
    steps: &[ConstStep],
) -> Result<(), AllocError>
    ensures { OnOk result
        (string_bytes out.new ≡ string_bytes out.old ++ texts.steps_text rd steps.now) }
{
    for step in steps {
        push_step(out, rd, *step)?;
    }
    Ok(())
}

/// What adds an offset, or takes its amount away where it is negative.
fn sum_name<'a>(offset: i32) -> &'a str
    ensures { result.now ≡ texts.sum_name offset }
{
    if offset < 0 { "sub" } else { "add" }
}

/// Whether an addition holds a number.
fn is_addend(n: u32) -> bool
    ensures { result ≡ operands.is_addend n }
{
    n < 4096 || n < 1 << 24 && n % 4096 == 0
}

/// Appends a base and an offset, of which x17 gets the amount first.
fn push_far_sum(out: &mut String, rd: Reg, rn: Reg, offset: i32) -> Result<(), AllocError>
    ensures { OnOk result
        (string_bytes out.new ≡ string_bytes out.old ++ texts.far_sum_text rd rn offset) }
{
    let plan = const_plan(u64::from(offset.unsigned_abs()));
    push_steps(out, writable_tmp2_reg(), plan.as_slice())?;
    line3(out, sum_name(offset), X(rd), X(rn), X(tmp2_reg()))
}

/// Appends a base and an offset.
///
/// # Errors
///
/// Want of memory.
#[tactic(auto, unfolding(crate::specs::MemoryTexts::sum_text))]
pub fn push_sum(out: &mut String, rd: Reg, rn: Reg, offset: i32) -> Result<(), AllocError>
    ensures { OnOk result
        (string_bytes out.new ≡ string_bytes out.old ++ texts.sum_text rd rn offset) }
{
    let amount = offset.unsigned_abs();
    if offset == 0 {
        line2(out, "mov", X(rd), X(rn))
    } else if is_addend(amount) {
        line3(
            out,
            sum_name(offset),
            X(rd),
            X(rn),
            Number(u64::from(amount)),
        )
    } else {
        push_far_sum(out, rd, rn, offset)
    }
}
