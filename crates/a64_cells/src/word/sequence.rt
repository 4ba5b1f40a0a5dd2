//! The words of sequences around tables, symbols and the stack, and of selects of vectors.

ghost use Rattle.std.specs.Prelude.{◌≡◌, ◌≤◌, ◌&&◌, [], ◌∷◌, ◌++◌, length, map, pos, true, false};
ghost use Rattle.a64_base.specs.declared.cond.Cond.TheVariants.{Lo};
ghost use Rattle.a64_base.specs.declared.size.OperandSize.TheVariants.{Size64};
ghost use Rattle.a64_base.specs.declared.target.BranchTarget.TheVariants.{ResolvedOffset};
ghost use Rattle.a64_ops.specs.declared.access.AccessOp.TheVariants.{SLoad32, ULoad64};
ghost use Rattle.a64_ops.specs.declared.operator.ALUOp.TheVariants.{Add};
ghost use Rattle.a64_operand.specs.declared.virtuals.VirtualRegisters.TheVariants.{Refused};
ghost use Rattle.a64_operand.specs.Operands.{is_register, is_register_or_zero};
ghost use Rattle.a64_inst.specs.SequenceOperands.{are_table_operands, are_probe_operands};
ghost use Rattle.a64_operand.specs.VectorOperands.{are_select_operands};
ghost use Rattle.a64_rows.specs.Forms.{form_word};
ghost use Rattle.a64_cells.specs.Shapes.{barrier_forms, table_forms, probe_forms, vector_select_forms};
ghost use Rattle.a64_cells.specs.ControlForms.{jump_form, indirect_br_form};
ghost use Rattle.a64_cells.specs.IntegerForms.{csel_form, alu_rrr_form, alu_rr_imm12_form, adr_form, adrp_form};
ghost use Rattle.a64_cells.specs.MemoryForms.{indexed_form, unsigned_form, literal_form};

use crate::word::control::{cond_br_word, indirect_br_word, jump_word};
use crate::word::memory::access::{indexed_word, literal_word, unsigned_word};
use crate::word::memory::step::step_words;
use crate::word::plain::float::move_vector_word;
use crate::word::plain::immediate::{adr_word, adrp_word, alu_rr_imm12_word};
use crate::word::plain::register::{alu_rrr_word, csel_word};
use crate::word::system::csdb_word;
use a64_base::{
    BranchTarget, Cond, CondBrKind, ExtendOp, IrType, OperandSize, Reg, Writable, stack_reg,
    writable_zero_reg, zero_reg,
};
use a64_imms::{Imm12, UImm12Scaled};
use a64_inst::{AccessOp, EmitInfo, const_plan};
use a64_ops::ALUOp;
use arrayvec::ArrayVec;

/// Whether the settings ask for a barrier behind the choice of an index.
pub fn has_barrier(info: &EmitInfo) -> bool
    ensures { result ≡ (info.now.enable_table_access_spectre_mitigation && info.now.use_csdb) }
{
    let flags = info.flags();
    flags.enable_table_access_spectre_mitigation && flags.use_csdb
}

/// The word of the choice between an index and the number of targets, which a register holds.
#[tactic(auto, using(crate::proofs::Operands::register_zero))]
fn choice_word(ridx: Reg, rtmp2: Writable<Reg>) -> u32
    requires ridx { is_register_or_zero Refused ridx ≡ true }
    requires rtmp2 { is_register Refused rtmp2 ≡ true }
    ensures { result ≡ form_word (csel_form rtmp2 ridx rtmp2 Lo) }
{
    csel_word(rtmp2, ridx, rtmp2.to_reg(), Cond::Lo)
}

/// The word of the load of an entry of a table, at an index that the entry takes the place of.
#[tactic(auto, using(crate::proofs::SequenceOperands::data_good, crate::proofs::SequenceOperands::numbered_general))]
fn entry_word(rtmp1: Writable<Reg>, rtmp2: Writable<Reg>) -> u32
    requires rtmp1 { is_register Refused rtmp1 ≡ true }
    requires rtmp2 { is_register Refused rtmp2 ≡ true }
    ensures { result ≡ form_word (indexed_form SLoad32 rtmp2 rtmp1 rtmp2 2 1) }
{
    let entry = rtmp2.to_reg();
    indexed_word(
        AccessOp::SLoad32,
        entry,
        rtmp1.to_reg(),
        rtmp2.to_reg(),
        ExtendOp::UXTW,
        true,
    )
}

/// The word of the sum of a table's address and an entry.
#[tactic(auto, using(crate::proofs::Operands::numbered_real))]
fn sum_word(rtmp1: Writable<Reg>, rtmp2: Writable<Reg>) -> u32
    requires rtmp1 { is_register Refused rtmp1 ≡ true }
    requires rtmp2 { is_register Refused rtmp2 ≡ true }
    ensures { result ≡ form_word (alu_rrr_form Add Size64 rtmp1 rtmp1 rtmp2) }
{
    alu_rrr_word(
        ALUOp::Add,
        OperandSize::Size64,
        rtmp1,
        rtmp1.to_reg(),
        rtmp2.to_reg(),
    )
}

/// The same words, with room for more.
fn widened(words: &[u32]) -> ArrayVec<u32, 10>
    requires { length words.now ≤ 4 }
    ensures { result.items ≡ words.now }
{
    let mut wide = ArrayVec::new();
    for word in words {
        wide.push(*word);
    }
    wide
}

/// Adds a barrier behind the choice of an index, where the settings ask for one.
fn push_barrier(words: &mut ArrayVec<u32, 10>, info: &EmitInfo)
    requires { length words.old.items ≤ 5 }
    ensures { words.new.items ≡ words.old.items ++ map form_word (barrier_forms info.now) }
{
    if has_barrier(info) {
        words.push(csdb_word());
    }
}

/// Adds the words that jump to the entry of a table, which stands behind them.
#[tactic(auto, using(crate::proofs::Operands::register_zero))]
fn push_jump(words: &mut ArrayVec<u32, 10>, rtmp1: Writable<Reg>, rtmp2: Writable<Reg>)
    requires few { length words.old.items ≤ 6 }
    requires rtmp1 { is_register Refused rtmp1 ≡ true }
    requires rtmp2 { is_register Refused rtmp2 ≡ true }
    ensures { words.new.items ≡ words.old.items
        ++ map form_word (adr_form rtmp1 (pos 16) ∷ indexed_form SLoad32 rtmp2 rtmp1 rtmp2 2 1
        ∷ alu_rrr_form Add Size64 rtmp1 rtmp1 rtmp2 ∷ indirect_br_form rtmp1 ∷ []) }
{
    words.push(adr_word(rtmp1, 16));
    words.push(entry_word(rtmp1, rtmp2));
    words.push(sum_word(rtmp1, rtmp2));
    words.push(indirect_br_word(rtmp1.to_reg()));
}

/// The words before a table of so many targets.
pub fn table_words(
    info: &EmitInfo,
    targets: u64,
    ridx: Reg,
    rtmp1: Writable<Reg>,
    rtmp2: Writable<Reg>,
) -> ArrayVec<u32, 10>
    requires { are_table_operands Refused ridx rtmp1 rtmp2 ≡ true }
    ensures { result.items ≡ map form_word (table_forms info.now targets ridx rtmp1 rtmp2) }
{
    let plan = const_plan(targets);
    let steps = step_words(rtmp2, plan.as_slice());
    let mut words = widened(steps.as_slice());
    words.push(choice_word(ridx, rtmp2));
    push_barrier(&mut words, info);
    push_jump(&mut words, rtmp1, rtmp2);
    words
}

/// The word of the address of a symbol's page, or of that of its entry in the global offset table, which is
/// zero as long as the symbol has no place.
#[tactic(auto, using(crate::proofs::Operands::register_zero))]
pub fn page_word(rd: Writable<Reg>) -> u32
    requires { is_register Refused rd ≡ true }
    ensures { result ≡ form_word (adrp_form rd (pos 0)) }
{
    adrp_word(rd, 0)
}

/// The word of the load of an entry of the global offset table, of which a register holds the page.
#[tactic(auto, using(crate::proofs::SequenceOperands::data_good, crate::proofs::SequenceOperands::numbered_general))]
pub fn offset_entry_word(rd: Writable<Reg>) -> u32
    requires { is_register Refused rd ≡ true }
    ensures { result ≡ form_word (unsigned_form ULoad64 rd rd 0) }
{
    let page = rd.to_reg();
    unsigned_word(
        AccessOp::ULoad64,
        rd.to_reg(),
        page,
        UImm12Scaled::zero(IrType::I64),
    )
}

/// The word of the sum of a symbol's page and its place there, which is zero as long as the symbol has none.
#[tactic(auto, using(crate::proofs::Operands::numbered_real))]
pub fn place_word(rd: Writable<Reg>) -> u32
    requires { is_register Refused rd ≡ true }
    ensures { result ≡ form_word (alu_rr_imm12_form Add Size64 rd rd (record {
      bits = 0;
      shift12 = false;
    })) }
{
    alu_rr_imm12_word(
        ALUOp::Add,
        OperandSize::Size64,
        rd,
        rd.to_reg(),
        Imm12::ZERO,
    )
}

/// The words before the eight bytes that hold the address of a symbol: their load, and a branch over them.
#[tactic(auto, using(crate::proofs::SequenceOperands::data_good), unfolding(a64_inst::specs::ControlOperands::are_jump_operands))]
pub fn far_words(rd: Writable<Reg>) -> [u32; 2]
    requires { is_register Refused rd ≡ true }
    ensures { result ≡ form_word (literal_form ULoad64 rd 2)
        ∷ form_word (jump_form (ResolvedOffset (pos 12))) ∷ [] }
{
    [
        literal_word(AccessOp::ULoad64, rd.to_reg(), 2),
        jump_word(BranchTarget::ResolvedOffset(12)),
    ]
}

/// The words of a loop that stores to the stack at each step.
#[tactic(auto, using(crate::proofs::Operands::numbered_real, crate::proofs::Operands::real, crate::proofs::SequenceOperands::numbered_general), unfolding(a64_inst::specs::ControlOperands::are_jump_operands, a64_inst::specs::SequenceOperands::are_probe_operands))]
pub fn probe_words(info: &EmitInfo, start: Writable<Reg>, end: Reg, step: Imm12) -> [u32; 5]
    requires { are_probe_operands info.now Refused start end step ≡ true }
    ensures { result ≡ map form_word (probe_forms start end step) }
{
    let loops = CondBrKind::Cond(Cond::Gt);
    [
        alu_rr_imm12_word(ALUOp::Sub, OperandSize::Size64, start, start.to_reg(), step),
        indexed_word(
            AccessOp::Store32,
            zero_reg(),
            stack_reg(),
            start.to_reg(),
            ExtendOp::UXTX,
            false,
        ),
        alu_rrr_word(
            ALUOp::AddS,
            OperandSize::Size64,
            writable_zero_reg(),
            start.to_reg(),
            end,
        ),
        cond_br_word(BranchTarget::ResolvedOffset(-12), loops),
        jump_word(BranchTarget::ResolvedOffset(4)),
    ]
}

/// The words of a select of one of two vectors.
#[tactic(auto, using(crate::proofs::Operands::vector_real), unfolding(a64_inst::specs::ControlOperands::are_jump_operands, a64_operand::specs::VectorOperands::are_select_operands))]
pub fn vector_select_words(rd: Writable<Reg>, rn: Reg, rm: Reg, cond: Cond) -> [u32; 4]
    requires { are_select_operands Refused rd rn rm ≡ true }
    ensures { result ≡ map form_word (vector_select_forms rd rn rm cond) }
{
    [
        cond_br_word(BranchTarget::ResolvedOffset(12), CondBrKind::Cond(cond)),
        move_vector_word(rd, rm),
        jump_word(BranchTarget::ResolvedOffset(8)),
        move_vector_word(rd, rn),
    ]
}
