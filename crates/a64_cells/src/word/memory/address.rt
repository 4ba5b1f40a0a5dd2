//! The words of addresses.

ghost use Rattle.std.specs.Prelude.{◌≡◌, ◌≤◌, [], length, true, false, None, Some, MatchOption};
ghost use Rattle.std.specs.Int.RustNames.{unsigned_abs};
ghost use Rattle.a64_base.specs.declared.ir_type.IrType.TheVariants.{I8};
ghost use Rattle.a64_operand.specs.declared.virtuals.VirtualRegisters.TheVariants.{Refused};
ghost use Rattle.a64_inst.specs.Addresses.{is_numbered};
ghost use Rattle.a64_inst.specs.FinalModes as finals;
ghost use Rattle.a64_inst.specs.MemoryOperands as memory;
ghost use Rattle.a64_operand.specs.Operands as operands;
ghost use Rattle.a64_plan.specs.Plans.{plan_of};
ghost use Rattle.a64_cells.specs.Shapes.{Words, quiet, sum_shape, address_shape};
ghost use Rattle.a64_cells.specs.Cells.{shape_cells};
ghost use Rattle.a64_cells.specs.MemoryForms as forms;
ghost use Rattle.a64_cells.specs.Words.{AreSeveral};

use crate::word::memory::SeveralWords;
use crate::word::memory::step::step_words;
use crate::word::plain::immediate::alu_rr_imm12_word;
use crate::word::plain::register::{alu_rrr_extend_word, alu_rrr_word, mov_word};
use a64_base::{
    IrType, OperandSize, Reg, RegKind, Writable, tmp2_reg, writable_spilltmp_reg, writable_tmp2_reg,
};
use a64_imms::Imm12;
use a64_inst::{AMode, FrameLayout, const_plan};
use a64_mode::{final_mode, final_steps};
use a64_ops::ALUOp;
use arrayvec::ArrayVec;

/// A word alone, which does not trap.
fn alone(word: u32) -> SeveralWords
    ensures first { result.first.items ≡ [] }
    ensures last { result.last ≡ word }
    ensures site { result.site ≡ None }
    ensures trap { result.trap ≡ None }
{
    SeveralWords {
        first: ArrayVec::new(),
        last: word,
        site: None,
        trap: None,
    }
}

/// Whether two registers of the machine are one.
fn is_same_register(a: &Reg, b: &Reg) -> bool
    ensures { result ≡ operands.is_same_register a.now b.now }
{
    match a.kind() {
        RegKind::Real(p) => match b.kind() {
            RegKind::Real(q) => p.class() == q.class() && p.hw_enc() == q.hw_enc(),
            RegKind::Virtual { .. } => true,
        },
        RegKind::Virtual { .. } => true,
    }
}

/// The operator that adds an offset, or takes its amount away where it is negative.
fn sum_op(offset: i32) -> ALUOp
    ensures { result ≡ forms.sum_op offset }
{
    if offset < 0 { ALUOp::Sub } else { ALUOp::Add }
}

/// A number as the immediate of an addition, where that holds it.
pub fn addend(n: u32) -> Option<Imm12>
    ensures { MatchOption result (memory.is_addend n ≡ false)
        (λ imm. (memory.is_addend n ≡ true) × (imm ≡ forms.addend n)) }
{
    if n < 4096 {
        Some(Imm12 {
            bits: n as u16,
            shift12: false,
        })
    } else if n < 1 << 24 && n % 4096 == 0 {
        Some(Imm12 {
            bits: (n / 4096) as u16,
            shift12: true,
        })
    } else {
        None
    }
}

/// The words of a base and an offset that no addition holds.
#[tactic(auto, using(crate::proofs::Operands::numbered_real, crate::proofs::Operands::real))]
fn far_sum(rd: Writable<Reg>, rn: Reg, offset: i32) -> SeveralWords
    requires rd { operands.is_register Refused rd ≡ true }
    requires rn { operands.is_register_or_zero Refused rn ≡ true }
    ensures { AreSeveral result.first.items result.last result.site result.trap
        (quiet (forms.step_forms forms.addend_register (plan_of (unsigned_abs offset)))
        (forms.sum_form rd rn offset)) }
{
    let plan = const_plan(u64::from(offset.unsigned_abs()));
    SeveralWords {
        first: step_words(writable_tmp2_reg(), plan.as_slice()),
        last: alu_rrr_word(sum_op(offset), OperandSize::Size64, rd, rn, tmp2_reg()),
        site: None,
        trap: None,
    }
}

/// The words of a base and an offset, where there are any.
#[tactic(auto, using(crate::proofs::Operands::numbered_real, crate::proofs::Operands::stack_real))]
fn sum_words(rd: Writable<Reg>, rn: Reg, offset: i32) -> Option<SeveralWords>
    requires rd { operands.is_register Refused rd ≡ true }
    requires rn { operands.is_register_or_stack Refused rn ≡ true }
    requires far { memory.is_addend (unsigned_abs offset) ≡ false
        → is_numbered 63 rn ≡ false }
    ensures { MatchOption result (sum_shape rd rn offset ≡ Words [])
        (λ words. AreSeveral words.first.items words.last words.site words.trap
        (sum_shape rd rn offset)) }
{
    if offset == 0 {
        if is_same_register(&rd.to_reg(), &rn) {
            return None;
        }
        return Some(alone(mov_word(OperandSize::Size64, rd, rn)));
    }
    match addend(offset.unsigned_abs()) {
        Some(imm12) => Some(alone(alu_rr_imm12_word(
            sum_op(offset),
            OperandSize::Size64,
            rd,
            rn,
            imm12,
        ))),
        None => Some(far_sum(rd, rn, offset)),
    }
}

/// The words of the address of a mode, where there are any.
#[tactic(auto, unfolding(a64_inst::specs::MemoryOperands::are_address_operands))]
pub fn address_words(rd: Writable<Reg>, frame: &FrameLayout, mem: &AMode) -> Option<SeveralWords>
    requires { memory.are_address_operands frame.now Refused rd mem.now ≡ true }
    ensures { MatchOption result
        (address_shape rd (forms.step_forms forms.offset_register
        (finals.final_steps frame.now I8 mem.now)) (finals.final_mode frame.now I8 mem.now)
        ≡ Words [])
        (λ words. AreSeveral words.first.items words.last words.site words.trap
        (address_shape rd (forms.step_forms forms.offset_register
        (finals.final_steps frame.now I8 mem.now)) (finals.final_mode frame.now I8 mem.now))) }
{
    match final_mode(frame, IrType::I8, mem) {
        AMode::Unscaled { rn, simm9 } => sum_words(rd, rn, i32::from(simm9.value)),
        AMode::UnsignedOffset { rn, uimm12 } => sum_words(rd, rn, uimm12.value() as i32),
        AMode::RegExtended { rn, rm, extendop } => {
            let steps = final_steps(frame, IrType::I8, mem);
            Some(SeveralWords {
                first: step_words(writable_spilltmp_reg(), steps.as_slice()),
                last: alu_rrr_extend_word(ALUOp::Add, OperandSize::Size64, rd, rn, rm, extendop),
                site: None,
                trap: None,
            })
        }
        _ => None,
    }
}

/// How many words a base and an offset have.
fn sum_count(rd: &Reg, rn: &Reg, offset: i32) -> u64
    ensures { result ≡ length (shape_cells (sum_shape rd.now rn.now offset)) }
{
    if offset == 0 {
        return u64::from(!is_same_register(rd, rn));
    }
    match addend(offset.unsigned_abs()) {
        Some(_) => 1,
        None => const_plan(u64::from(offset.unsigned_abs())).len() as u64 + 1,
    }
}

/// How many words the address of a mode has.
pub fn address_count(rd: &Reg, frame: &FrameLayout, mem: &AMode) -> u64
    ensures { result ≡ length (shape_cells (address_shape rd.now
        (forms.step_forms forms.offset_register (finals.final_steps frame.now I8 mem.now))
        (finals.final_mode frame.now I8 mem.now))) }
{
    match final_mode(frame, IrType::I8, mem) {
        AMode::Unscaled { rn, simm9 } => sum_count(rd, &rn, i32::from(simm9.value)),
        AMode::UnsignedOffset { rn, uimm12 } => sum_count(rd, &rn, uimm12.value() as i32),
        AMode::RegExtended { .. } => final_steps(frame, IrType::I8, mem).len() as u64 + 1,
        _ => 0,
    }
}
