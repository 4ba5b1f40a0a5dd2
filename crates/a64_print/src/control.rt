//! The texts of branches and returns, of accesses to the flags, of data, and of what has no word.

ghost use Rattle.std.specs.Prelude.{◌≡◌, [], ◌∷◌, ◌++◌, codes, OnOk};
ghost use Rattle.std.specs.String.{string_bytes};
ghost use Rattle.a64_base.specs.Conditions.{condition_name};
ghost use Rattle.a64_inst.specs.Groups.{group_of};
ghost use Rattle.a64_inst.specs.declared.group.Group.TheVariants as groups;
ghost use Rattle.a64_operand_text.specs.declared.operand.Operand.TheVariants as operands;
ghost use Rattle.a64_operand_text.specs.ControlTexts as texts;
ghost use Rattle.a64_operand_text.specs.Lines.{line_text, two_lines_text};
ghost use Rattle.a64_operand_text.specs.Texts.{own_text};

use crate::control_texts;
use crate::system::key_name;
use a64_base::{
    APIKey, BranchTarget, Cond, CondBrKind, Reg, TestBitAndBranchKind, TrapCode, push_numbered,
};
use a64_inst::Inst;
use a64_operand_text::Operand::{Number, Nzcv, Sized, Target, Trap, X};
use a64_operand_text::{line1, line2, push_two_lines};
use std::alloc::AllocError;

/// Appends the text of a return whose address is authenticated.
#[tactic(auto, unfolding(a64_operand_text::specs::ControlTexts::authenticated_ret_text))]
fn push_authenticated_ret(out: &mut String, key: APIKey, is_hint: bool) -> Result<(), AllocError>
    ensures { OnOk result (string_bytes out.new
        ≡ string_bytes out.old ++ texts.authenticated_ret_text key is_hint) }
{
    if is_hint {
        out.push_str("auti")?;
        out.push_str(key_name(key))?;
        out.push_str(" ; ret")
    } else {
        out.push_str("reta")?;
        out.push_str(key_name(key))
    }
}

/// Appends the text of a branch on a condition, and of one where it does not hold.
fn push_condition(
    out: &mut String,
    cond: Cond,
    taken: BranchTarget,
    not_taken: BranchTarget,
) -> Result<(), AllocError>
    ensures { OnOk result (string_bytes out.new ≡ string_bytes out.old
        ++ (codes "b." ++ two_lines_text (condition_name cond) (operands.Target taken ∷ [])
        (codes "b") (operands.Target not_taken ∷ []))) }
{
    out.push_str("b.")?;
    push_two_lines(
        out,
        cond.name(),
        &[Target(taken)],
        "b",
        &[Target(not_taken)],
    )
}

/// Appends the text of a branch where a test succeeds, and of one where it fails.
fn push_cond_br(
    out: &mut String,
    kind: CondBrKind,
    taken: BranchTarget,
    not_taken: BranchTarget,
) -> Result<(), AllocError>
    ensures { OnOk result (string_bytes out.new
        ≡ string_bytes out.old ++ texts.cond_br_text kind taken not_taken) }
{
    match kind {
        CondBrKind::Zero(reg, size) => push_two_lines(
            out,
            "cbz",
            &[Sized(size, reg), Target(taken)],
            "b",
            &[Target(not_taken)],
        ),
        CondBrKind::NotZero(reg, size) => push_two_lines(
            out,
            "cbnz",
            &[Sized(size, reg), Target(taken)],
            "b",
            &[Target(not_taken)],
        ),
        CondBrKind::Cond(cond) => push_condition(out, cond, taken, not_taken),
    }
}

/// Appends the text of a trap on a condition.
fn push_condition_trap(out: &mut String, cond: Cond, trap_code: TrapCode) -> Result<(), AllocError>
    ensures { OnOk result (string_bytes out.new ≡ string_bytes out.old
        ++ (codes "b." ++ line_text (condition_name cond) (operands.Trap trap_code ∷ []))) }
{
    out.push_str("b.")?;
    line1(out, cond.name(), Trap(trap_code))
}

/// Appends the text of a trap where a test succeeds.
fn push_trap_if(out: &mut String, kind: CondBrKind, trap_code: TrapCode) -> Result<(), AllocError>
    ensures { OnOk result (string_bytes out.new
        ≡ string_bytes out.old ++ texts.trap_if_text kind trap_code) }
{
    match kind {
        CondBrKind::Zero(reg, size) => line2(out, "cbz", Sized(size, reg), Trap(trap_code)),
        CondBrKind::NotZero(reg, size) => line2(out, "cbnz", Sized(size, reg), Trap(trap_code)),
        CondBrKind::Cond(cond) => push_condition_trap(out, cond, trap_code),
    }
}

/// The name of a branch on one bit.
fn test_bit_name(kind: TestBitAndBranchKind) -> &'static str
    ensures { result.now ≡ texts.test_bit_name kind }
{
    match kind {
        TestBitAndBranchKind::Z => "tbz",
        TestBitAndBranchKind::NZ => "tbnz",
    }
}

/// Appends the text of a branch on one bit, and of one where the bit is another.
fn push_test_bit(
    out: &mut String,
    kind: TestBitAndBranchKind,
    taken: BranchTarget,
    not_taken: BranchTarget,
    rn: Reg,
    bit: u8,
) -> Result<(), AllocError>
    ensures { OnOk result (string_bytes out.new
        ≡ string_bytes out.old ++ texts.test_bit_text kind taken not_taken rn bit) }
{
    push_two_lines(
        out,
        test_bit_name(kind),
        &[X(rn), Number(u64::from(bit)), Target(taken)],
        "b",
        &[Target(not_taken)],
    )
}

/// Appends a name and a number that no `#` stands before.
#[tactic(auto, unfolding(a64_operand_text::specs::ControlTexts::bare_number_text))]
fn push_bare_number(out: &mut String, name: &str, number: u64) -> Result<(), AllocError>
    ensures { OnOk result (string_bytes out.new
        ≡ string_bytes out.old ++ texts.bare_number_text name.now number) }
{
    out.push_str(name)?;
    push_numbered(out, " ", number)
}

/// Appends the text of an instruction of the group.
///
/// # Errors
///
/// Want of memory.
pub fn push_control(out: &mut String, inst: &Inst) -> Result<(), AllocError>
    requires { group_of inst.now ≡ groups.Control }
    ensures { OnOk result (string_bytes out.new ≡ string_bytes out.old ++ own_text inst.now) }
{
    control_texts!(out, inst)
}
