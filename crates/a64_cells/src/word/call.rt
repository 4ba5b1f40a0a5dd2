//! The words of calls, and of returns that call another function.

ghost use Rattle.std.specs.Prelude.{ℤ, pos, ◌≡◌, ◌+◌, ◌≤◌, ◌%◌, [], ◌∷◌, ◌++◌, length, map, true};
ghost use Rattle.std.specs.Int.RustNames.{unsigned_abs};
ghost use Rattle.a64_base.specs.declared.ir_type.IrType.TheVariants.{I64};
ghost use Rattle.a64_base.specs.declared.shift.ExtendOp.TheVariants.{UXTX};
ghost use Rattle.a64_base.specs.declared.size.OperandSize.TheVariants.{Size64};
ghost use Rattle.a64_base.specs.Registers.{integer_register};
ghost use Rattle.a64_plan.specs.Plans.{plan_of};
ghost use Rattle.a64_inst.specs.declared.mode.PairAMode.TheVariants.{SPPostIndexed};
ghost use Rattle.a64_operand.specs.declared.virtuals.VirtualRegisters.TheVariants.{Refused};
ghost use Rattle.a64_inst.specs.CallOperands.{has_return_frame};
ghost use Rattle.a64_operand.specs.Operands.{is_imm12, is_register_or_zero};
ghost use Rattle.a64_rows.specs.Forms.{form_word};
ghost use Rattle.a64_cells.specs.Cells as cells;
ghost use Rattle.a64_cells.specs.Cells.{adjust_forms, key_forms, leave_forms, pop_forms};
ghost use Rattle.a64_cells.specs.Words.{IsCalled};
ghost use Rattle.a64_cells.specs.ControlForms as forms;
ghost use Rattle.a64_cells.specs.IntegerForms.{alu_rr_imm12_form, alu_rrr_extend_form};
ghost use Rattle.a64_cells.specs.MemoryForms.{offset_register, step_forms, sum_op, is_negative, pair_form};

use crate::callee::Callee;
use crate::word::control::{indirect_br_word, jump_word};
use crate::word::memory::access::pair_word;
use crate::word::memory::address::addend;
use crate::word::memory::step::step_words;
use crate::word::plain::immediate::alu_rr_imm12_word;
use crate::word::plain::register::alu_rrr_extend_word;
use crate::word::system::auti_word;
use a64_base::{
    APIKey, BranchTarget, ExtendOp, IrType, OperandSize, Reg, fp_reg, link_reg, spilltmp_reg,
    stack_reg, writable_spilltmp_reg, writable_stack_reg,
};
use a64_enc_int::{enc_br, enc_jump26};
use a64_imms::{Imm12, SImm7Scaled};
use a64_inst::{FrameLayout, PairAMode, const_plan};
use a64_ops::ALUOp;
use arrayvec::ArrayVec;

/// The word of a branch with link, whose offset is zero as long as its symbol has no place.
#[tactic(auto, unfolding(crate::specs::ControlForms::branch_link_form))]
fn branch_link_word() -> u32
    ensures { result ≡ form_word forms.branch_link_form }
{
    enc_jump26(0b100101, 0)
}

/// The word of a call.
pub fn call_word(callee: Callee) -> u32
    requires { IsCalled callee }
    ensures { result ≡ form_word (cells.call_form callee) }
{
    match callee {
        Callee::Symbol(_) => branch_link_word(),
        Callee::Address(rn) => branch_link_register_word(rn),
    }
}

/// The word of a branch with link to the address in a register.
#[tactic(auto, using(crate::proofs::Operands::general), unfolding(crate::specs::ControlForms::branch_link_register_form))]
fn branch_link_register_word(rn: Reg) -> u32
    requires { is_register_or_zero Refused rn ≡ true }
    ensures { result ≡ form_word (forms.branch_link_register_form rn) }
{
    enc_br(rn) + (1 << 21)
}

/// The word of the branch of a return that calls.
#[tactic(auto, unfolding(a64_inst::specs::ControlOperands::are_jump_operands))]
pub fn return_word(callee: Callee) -> u32
    requires { IsCalled callee }
    ensures { result ≡ form_word (cells.return_form callee) }
{
    match callee {
        Callee::Symbol(_) => jump_word(BranchTarget::ResolvedOffset(0)),
        Callee::Address(rn) => indirect_br_word(rn),
    }
}

/// The operator that moves the stack pointer up, or down.
fn adjust_op(down: bool) -> ALUOp
    ensures { (amount : ℤ) → is_negative amount ≡ down → result ≡ sum_op amount }
{
    if down { ALUOp::Sub } else { ALUOp::Add }
}

/// The word that moves the stack pointer by an amount that an addition holds.
fn near_adjust_word(op: ALUOp, imm12: Imm12) -> u32
    requires { is_imm12 imm12 ≡ true }
    ensures { result ≡ form_word (alu_rr_imm12_form op Size64 (integer_register 63)
        (integer_register 63) imm12) }
{
    alu_rr_imm12_word(
        op,
        OperandSize::Size64,
        writable_stack_reg(),
        stack_reg(),
        imm12,
    )
}

/// The word that moves the stack pointer by the amount in x16.
fn far_adjust_word(op: ALUOp) -> u32
    ensures { result ≡ form_word (alu_rrr_extend_form op Size64 (integer_register 63)
        (integer_register 63) offset_register UXTX) }
{
    alu_rrr_extend_word(
        op,
        OperandSize::Size64,
        writable_stack_reg(),
        stack_reg(),
        spilltmp_reg(),
        ExtendOp::UXTX,
    )
}

/// Adds words.
fn push_all(words: &mut ArrayVec<u32, 8>, more: &[u32])
    requires { length words.old.items + length more.now ≤ 8 }
    ensures { words.new.items ≡ words.old.items ++ more.now }
{
    for word in more {
        words.push(*word);
    }
}

/// Adds the words that move the stack pointer by an amount that no addition holds.
fn push_far_adjust(words: &mut ArrayVec<u32, 8>, op: ALUOp, amount: u32)
    requires { length words.old.items ≤ 1 }
    ensures few { length words.new.items ≤ length words.old.items + 5 }
    ensures words { words.new.items ≡ words.old.items
        ++ map form_word (step_forms offset_register (plan_of amount)
        ++ alu_rrr_extend_form op Size64 (integer_register 63)
        (integer_register 63) offset_register UXTX ∷ []) }
{
    let plan = const_plan(u64::from(amount));
    let steps = step_words(writable_spilltmp_reg(), plan.as_slice());
    push_all(words, steps.as_slice());
    words.push(far_adjust_word(op));
}

/// Adds the words that move the stack pointer up, or down.
fn push_adjust(words: &mut ArrayVec<u32, 8>, amount: u32, down: bool)
    requires few { length words.old.items ≤ 1 }
    ensures few { length words.new.items ≤ length words.old.items + 5 }
    ensures words { (by : ℤ) → unsigned_abs by ≡ amount
        → (1 ≤ amount → is_negative by ≡ down)
        → words.new.items ≡ words.old.items ++ map form_word (adjust_forms by) }
{
    if amount == 0 {
        return;
    }
    let op = adjust_op(down);
    match addend(amount) {
        Some(imm12) => words.push(near_adjust_word(op, imm12)),
        None => push_far_adjust(words, op, amount),
    }
}

/// The words that move the stack pointer back where it was before the arguments were taken off.
pub fn pop_words(pop: u32) -> ArrayVec<u32, 8>
    ensures words { result.items ≡ map form_word (pop_forms pop) }
    ensures few { length result.items ≤ 5 }
{
    let mut words = ArrayVec::new();
    push_adjust(&mut words, pop, true);
    words
}

/// The word that restores the saved frame pointer and return address, of an area of so many bytes.
fn frame_word(setup: u32) -> u32
    requires small { setup ≤ 504 }
    requires aligned { setup % 8 ≡ 0 }
    ensures { result ≡ form_word (pair_form 1 (integer_register 29) (integer_register 30)
        (SPPostIndexed (record {
          value = pos setup;
          scale_ty = I64;
        }))) }
{
    let simm7 = SImm7Scaled {
        value: setup as i16,
        scale_ty: IrType::I64,
    };
    pair_word(1, fp_reg(), link_reg(), &PairAMode::SPPostIndexed { simm7 })
}

/// Adds the word that authenticates the return address, where a key says so, and where it was saved or all
/// return addresses are signed.
fn push_key(words: &mut ArrayVec<u32, 8>, setup: u32, key: Option<APIKey>, all: bool)
    requires { length words.old.items ≤ 7 }
    ensures { words.new.items ≡ words.old.items ++ map form_word (key_forms setup all key) }
{
    match key {
        Some(key) if setup > 0 || all => words.push(auti_word(key)),
        _ => {}
    }
}

/// The words before the branch of a return that calls, behind the restored instructions.
pub fn leave_words(
    frame: &FrameLayout,
    size: u32,
    key: Option<APIKey>,
    all: bool,
) -> ArrayVec<u32, 8>
    requires { has_return_frame frame.now size ≡ true }
    ensures words { result.items ≡ map form_word (leave_forms frame.now size key all) }
{
    let setup = frame.setup_area_size;
    let mut words = ArrayVec::new();
    if setup > 0 {
        words.push(frame_word(setup));
    }
    push_adjust(&mut words, frame.tail_args_size - size, false);
    push_key(&mut words, setup, key, all);
    words
}
