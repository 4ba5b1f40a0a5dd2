//! The words of loads and stores.

ghost use Rattle.std.specs.Prelude.{◌≡◌, ◌≢◌, ◌<◌, ◌+◌, ◌*◌, ◌/◌, ◌%◌, ◌^◌, true};
ghost use Rattle.a64_imms.specs.Offsets.{residue, IsOffset9};
ghost use Rattle.a64_imms.specs.ScaledOffsets.{uimm12_value, uimm12_scale};
ghost use Rattle.a64_imms.specs.Scales.{type_bytes};
ghost use Rattle.a64_base.specs.declared.ir_type.IrType.TheVariants.{F64, I8X16, I64};
ghost use Rattle.a64_base.specs.Shifts.{extend_bits};
ghost use Rattle.a64_operand.specs.declared.virtuals.VirtualRegisters.TheVariants.{Refused};
ghost use Rattle.a64_inst.specs.FinalModes.{held_mode, parts_of};
ghost use Rattle.a64_inst.specs.MemoryOperands.{is_data_register, are_float_pair_operands, are_pair_operands, is_simm7_of};
ghost use Rattle.a64_operand.specs.Operands.{is_offset, is_register_or_zero};
ghost use Rattle.a64_ops.specs.AccessFields.{size_of, vector_of, opc_of};
ghost use Rattle.a64_ops.specs.Accesses.{literal_of};
ghost use Rattle.a64_rows.specs.Forms.{form_word};
ghost use Rattle.a64_rows.specs.Limits as limits;
ghost use Rattle.a64_enc_int.specs.Operators.{bit_of};
ghost use Rattle.a64_enc_int.specs.Registers.{IsGeneral};
ghost use Rattle.a64_cells.specs.MemoryForms as forms;
ghost use Rattle.a64_cells.specs.Words.{are_held_parts};

use crate::word::system::nop4_word;
use a64_base::{ExtendOp, Reg, stack_reg};
use a64_enc_int::{
    AccessFields, enc_ldst_pair, ld_literal_word, ld_st_imm9_word, ld_st_reg_word,
    ld_st_unsigned_word, register_field,
};
use a64_enc_vec::enc_ldst_vec_pair;
use a64_imms::{SImm7Scaled, SImm9, UImm12Scaled};
use a64_inst::{AMode, AccessOp, MemLabel, PairAMode};

/// The fields that the operator of an access gives.
#[inline(always)]
fn access_fields(op: AccessOp) -> AccessFields
    ensures { result ≡ record { sz = size_of op; v = vector_of op; opc = opc_of op } }
{
    AccessFields {
        sz: op.size_field(),
        v: op.vector_field(),
        opc: op.opc_field(),
    }
}

/// The word of an access with an offset of 9 bits.
#[tactic(auto, using(crate::proofs::AccessForms::data_real, crate::proofs::AccessForms::are_access_fields, crate::proofs::MemoryWords::fields_below), unfolding(crate::specs::MemoryForms::imm9_form))]
fn imm9_word(op: AccessOp, rt: Reg, mode: u32, rn: Reg, simm9: SImm9) -> u32
    requires rt { is_data_register Refused op rt ≡ true }
    requires mode { mode < 4 }
    requires not_2 { mode ≢ 2 }
    requires rn { IsGeneral rn }
    requires simm9 { IsOffset9 simm9.value }
    ensures { result ≡ form_word (forms.imm9_form op rt mode rn simm9.value) }
{
    let (rn, rt) = (register_field(rn), register_field(rt));
    ld_st_imm9_word(access_fields(op), simm9.bits(), mode, rn, rt)
}

/// The word of an access with an unsigned offset.
#[tactic(auto, using(crate::proofs::AccessForms::data_real, crate::proofs::AccessForms::are_access_fields, crate::proofs::MemoryWords::fields_below), unfolding(crate::specs::MemoryForms::unsigned_form))]
pub fn unsigned_word(op: AccessOp, rt: Reg, rn: Reg, uimm12: UImm12Scaled) -> u32
    requires rt { is_data_register Refused op rt ≡ true }
    requires rn { IsGeneral rn }
    ensures { result ≡ form_word (forms.unsigned_form op rt rn
        (uimm12_value uimm12 / type_bytes (uimm12_scale uimm12))) }
{
    let (rn, rt) = (register_field(rn), register_field(rt));
    ld_st_unsigned_word(access_fields(op), uimm12.bits(), rn, rt)
}

/// The word of an access with an index, which `UXTX` leaves as it is.
#[tactic(auto, using(crate::proofs::AccessForms::data_real, crate::proofs::AccessForms::are_access_fields, crate::proofs::MemoryWords::fields_below, crate::proofs::OneWord::extend_below), unfolding(crate::specs::MemoryForms::indexed_form))]
pub fn indexed_word(
    op: AccessOp,
    rt: Reg,
    rn: Reg,
    rm: Reg,
    extendop: ExtendOp,
    scaled: bool,
) -> u32
    requires rt { is_data_register Refused op rt ≡ true }
    requires rn { IsGeneral rn }
    requires rm { IsGeneral rm }
    requires extendop { limits.is_index_extend (extend_bits extendop) ≡ true }
    ensures { result ≡ form_word (forms.indexed_form op rt rn rm (extend_bits extendop)
        (bit_of scaled)) }
{
    let (ext, s) = (u32::from(extendop.bits()), u32::from(scaled));
    let (rm, rn, rt) = (register_field(rm), register_field(rn), register_field(rt));
    ld_st_reg_word(access_fields(op), rm, ext, s, rn, rt)
}

/// How many words a literal is ahead, modulo 2^19; none as long as it is a label's or a constant's.
fn literal_words(label: MemLabel) -> u32
    ensures is { result ≡ forms.literal_words label }
    ensures fits { result < 2 ^ 19 }
{
    match label {
        MemLabel::PCRel(offset) => offset.rem_euclid(1 << 21) as u32 / 4,
        MemLabel::Mach(_) | MemLabel::Pool(_) => 0,
    }
}

/// The word of the load of a literal.
#[tactic(auto, using(crate::proofs::AccessForms::data_real, crate::proofs::AccessForms::literal_opc, crate::proofs::MemoryWords::fields_below, crate::proofs::MemoryWords::literal_below), unfolding(crate::specs::MemoryForms::literal_form))]
#[inline(always)]
pub fn literal_word(op: AccessOp, rt: Reg, words: u32) -> u32
    requires rt { is_data_register Refused op rt ≡ true }
    requires words { words < 2 ^ 19 }
    ensures { result ≡ form_word (forms.literal_form op rt words) }
{
    let opc = op.literal_field().unwrap_or(0);
    ld_literal_word(opc, op.vector_field(), words, register_field(rt))
}

/// The word of a load or a store of one register in a mode that stands in an instruction.
#[tactic(auto, using(crate::proofs::AccessForms::index_extend))]
#[inline(never)]
pub fn held_word(op: AccessOp, rt: Reg, mode: &AMode) -> u32
    requires rt { is_data_register Refused op rt ≡ true }
    requires mode { are_held_parts op (parts_of mode.now) ≡ true }
    ensures { result ≡ form_word (forms.held_form op rt (parts_of mode.now)) }
{
    match *mode {
        AMode::Unscaled { rn, simm9 } => imm9_word(op, rt, 0, rn, simm9),
        AMode::UnsignedOffset { rn, uimm12 } => unsigned_word(op, rt, rn, uimm12),
        AMode::RegReg { rn, rm } => indexed_word(op, rt, rn, rm, ExtendOp::UXTX, false),
        AMode::RegScaled { rn, rm } => indexed_word(op, rt, rn, rm, ExtendOp::UXTX, true),
        AMode::RegExtended { rn, rm, extendop } => { indexed_word(op, rt, rn, rm, extendop, false) }
        AMode::RegScaledExtended { rn, rm, extendop } => {
            indexed_word(op, rt, rn, rm, extendop, true)
        }
        AMode::Label { label } => literal_word(op, rt, literal_words(label)),
        AMode::SPPreIndexed { simm9 } => imm9_word(op, rt, 3, stack_reg(), simm9),
        AMode::SPPostIndexed { simm9 } => imm9_word(op, rt, 1, stack_reg(), simm9),
        // No modes that stand in instructions.
        AMode::FPOffset { .. }
        | AMode::SPOffset { .. }
        | AMode::IncomingArg { .. }
        | AMode::SlotOffset { .. }
        | AMode::RegOffset { .. }
        | AMode::Const { .. } => nop4_word(),
    }
}

/// The word of a load or a store of one register in a mode without an offset of 64 bits: a constant is a
/// literal in the pool.
#[inline(always)]
pub fn in_code_word(op: AccessOp, rt: Reg, mem: &AMode) -> u32
    requires rt { is_data_register Refused op rt ≡ true }
    requires mode { are_held_parts op (parts_of (held_mode true mem.now)) ≡ true }
    ensures { result ≡ form_word (forms.held_form op rt (parts_of (held_mode true mem.now))) }
{
    match mem {
        AMode::Const { addr: _ } => literal_word(op, rt, 0),
        _ => held_word(op, rt, mem),
    }
}

/// The parts of the mode of a pair.
#[derive(Clone, Copy)]
struct PairParts {
    /// The index: 2 where the base stays, 3 where the offset is added to it before the access, 1 after it.
    index: u32,
    /// The base.
    rn: Reg,
    /// The offset.
    simm7: SImm7Scaled,
}

/// The parts of a pair's mode.
#[inline(always)]
fn pair_parts(mem: &PairAMode) -> PairParts
    ensures index { result.index ≡ forms.pair_index mem.now }
    ensures rn { result.rn ≡ forms.pair_base mem.now }
    ensures simm7 { result.simm7 ≡ forms.pair_offset mem.now }
{
    let (index, rn, simm7) = match *mem {
        PairAMode::SignedOffset { reg, simm7 } => (2, reg, simm7),
        PairAMode::SPPreIndexed { simm7 } => (3, stack_reg(), simm7),
        PairAMode::SPPostIndexed { simm7 } => (1, stack_reg(), simm7),
    };
    PairParts { index, rn, simm7 }
}

/// The word of a load (1) or a store (0) of two registers, by the index of its mode.
fn indexed_pair_word(load: u32, index: u32, rn: Reg, simm7: SImm7Scaled, rt: Reg, rt2: Reg) -> u32
    requires load { load < 2 }
    requires index { index < 4 }
    requires some { index ≢ 0 }
    requires rn { IsGeneral rn }
    requires simm7 { is_simm7_of I64 simm7 ≡ true }
    requires rt { is_register_or_zero Refused rt ≡ true }
    requires rt2 { is_register_or_zero Refused rt2 ≡ true }
    ensures { result ≡ form_word (forms.pair_word_form load index rn simm7 rt rt2) }
{
    enc_ldst_pair(0b10_10100_00_0 + (index << 1) + load, simm7, rn, rt, rt2)
}

/// The word of a load (1) or a store (0) of two registers.
#[tactic(auto, using(crate::proofs::AccessForms::base_general, crate::proofs::AccessForms::offset_good, crate::proofs::AccessForms::index_fits), unfolding(a64_inst::specs::MemoryOperands::are_pair_operands))]
pub fn pair_word(load: u32, rt: Reg, rt2: Reg, mem: &PairAMode) -> u32
    requires load { load < 2 }
    requires good { are_pair_operands Refused rt rt2 mem.now ≡ true }
    ensures { result ≡ form_word (forms.pair_form load rt rt2 mem.now) }
{
    let PairParts { index, rn, simm7 } = pair_parts(mem);
    indexed_pair_word(load, index, rn, simm7, rt, rt2)
}

/// The word of a load or a store of the lower 64 bits of two vector registers.
#[tactic(auto, using(crate::proofs::AccessForms::base_general, crate::proofs::AccessForms::offset_fits, crate::proofs::AccessForms::float_pair_is_form, crate::proofs::Operands::vector), unfolding(crate::specs::MemoryForms::float_pair_form, a64_inst::specs::MemoryOperands::are_float_pair_operands))]
pub fn pair64_word(is_load: bool, rt: Reg, rt2: Reg, mem: &PairAMode) -> u32
    requires { are_float_pair_operands Refused F64 rt rt2 mem.now ≡ true }
    ensures { result ≡ form_word (forms.float_pair_form 1 is_load rt rt2 mem.now) }
{
    let PairParts { index, rn, simm7 } = pair_parts(mem);
    enc_ldst_vec_pair(1, index, is_load, simm7, rn, rt, rt2)
}

/// The word of a load or a store of two whole vector registers.
#[tactic(auto, using(crate::proofs::AccessForms::base_general, crate::proofs::AccessForms::offset_fits, crate::proofs::AccessForms::float_pair_is_form, crate::proofs::Operands::vector), unfolding(crate::specs::MemoryForms::float_pair_form, a64_inst::specs::MemoryOperands::are_float_pair_operands))]
pub fn pair128_word(is_load: bool, rt: Reg, rt2: Reg, mem: &PairAMode) -> u32
    requires { are_float_pair_operands Refused I8X16 rt rt2 mem.now ≡ true }
    ensures { result ≡ form_word (forms.float_pair_form 2 is_load rt rt2 mem.now) }
{
    let PairParts { index, rn, simm7 } = pair_parts(mem);
    enc_ldst_vec_pair(2, index, is_load, simm7, rn, rt, rt2)
}
