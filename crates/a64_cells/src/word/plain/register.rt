//! The words of "Data Processing -- Register": operations on registers, and moves of them.

ghost use Rattle.std.specs.Prelude.{◌≡◌, ◌<◌, true};
ghost use Rattle.a64_operand.specs.declared.virtuals.VirtualRegisters.TheVariants.{Refused};
ghost use Rattle.a64_operand.specs.Operands as operands;
ghost use Rattle.a64_operand.specs.Operands.{is_register_or_zero};
ghost use Rattle.a64_enc_int.specs.Registers.{IsReal};
ghost use Rattle.a64_rows.specs.Forms.{form_word};
ghost use Rattle.a64_cells.specs.IntegerForms as forms;

use crate::word::plain::immediate::alu_rr_imm12_word;
use crate::word::plain::operator::{alu_word, extended_word};
use a64_base::{Cond, ExtendOp, OperandSize, Reg, RegClass, RegKind, ShiftOp, Writable, zero_reg};
use a64_enc_int::{TwoRegisters, enc_csel, register_field};
use a64_imms::Imm12;
use a64_ops::ALUOp;

/// The size flag of an operation, and the numbers of its registers.
#[inline(always)]
pub fn two_registers(size: OperandSize, rd: Writable<Reg>, rn: Reg, rm: Reg) -> TwoRegisters
    requires rd { IsReal rd }
    requires rn { IsReal rn }
    requires rm { IsReal rm }
    ensures value { result ≡ forms.two_registers size rd rn rm }
    ensures below { (result.sf < 2) × (result.rm < 32) × (result.rn < 32) × (result.rd < 32) }
{
    TwoRegisters {
        sf: size.sf_bit(),
        rm: register_field(rm),
        rn: register_field(rn),
        rd: register_field(rd.to_reg()),
    }
}

/// The word of an `AluRRR`.
#[tactic(auto, unfolding(crate::specs::IntegerForms::alu_rrr_form))]
#[inline(always)]
pub fn alu_rrr_word(op: ALUOp, size: OperandSize, rd: Writable<Reg>, rn: Reg, rm: Reg) -> u32
    requires rd { IsReal rd }
    requires rn { IsReal rn }
    requires rm { IsReal rm }
    ensures { result ≡ form_word (forms.alu_rrr_form op size rd rn rm) }
{
    alu_word(op, ShiftOp::LSL, 0, two_registers(size, rd, rn, rm))
}

/// The word of an `AluRRRExtend`.
#[tactic(auto, unfolding(crate::specs::IntegerForms::alu_rrr_extend_form))]
pub fn alu_rrr_extend_word(
    op: ALUOp,
    size: OperandSize,
    rd: Writable<Reg>,
    rn: Reg,
    rm: Reg,
    extendop: ExtendOp,
) -> u32
    requires rd { IsReal rd }
    requires rn { IsReal rn }
    requires rm { IsReal rm }
    ensures { result ≡ form_word (forms.alu_rrr_extend_form op size rd rn rm extendop) }
{
    extended_word(op, extendop, two_registers(size, rd, rn, rm))
}

/// Whether a register is the stack pointer.
fn is_stack_pointer(reg: &Reg) -> bool
    ensures { result ≡ operands.is_stack_pointer Refused reg.now }
{
    match reg.kind() {
        RegKind::Real(p) => match p.class() {
            RegClass::Int => p.hw_enc() == 63,
            RegClass::Float => false,
        },
        RegKind::Virtual { .. } => false,
    }
}

/// The word of a `Mov`.
pub fn mov_word(size: OperandSize, rd: Writable<Reg>, rm: Reg) -> u32
    requires rd { IsReal rd }
    requires rm { IsReal rm }
    ensures { result ≡ form_word (forms.mov_form size rd rm) }
{
    if is_stack_pointer(&rm) {
        alu_rr_imm12_word(ALUOp::Add, OperandSize::Size64, rd, rm, Imm12::ZERO)
    } else {
        alu_rrr_word(ALUOp::Orr, size, rd, zero_reg(), rm)
    }
}

/// The word of a `CSel`.
#[tactic(auto, using(crate::proofs::Operands::general), unfolding(crate::specs::IntegerForms::csel_form))]
pub fn csel_word(rd: Writable<Reg>, rn: Reg, rm: Reg, cond: Cond) -> u32
    requires rd { is_register_or_zero Refused rd ≡ true }
    requires rn { is_register_or_zero Refused rn ≡ true }
    requires rm { is_register_or_zero Refused rm ≡ true }
    ensures { result ≡ form_word (forms.csel_form rd rn rm cond) }
{
    enc_csel(rd, rn, rm, cond, 0, 0)
}
