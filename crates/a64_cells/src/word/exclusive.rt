//! The words of loops of atomic accesses: an exclusive load, words between, an exclusive store, and a branch back.

ghost use Rattle.std.specs.Prelude.{◌≡◌, ◌≤◌, List, ◌++◌, length, map, true};
ghost use Rattle.a64_operand.specs.declared.virtuals.VirtualRegisters.TheVariants.{Refused};
ghost use Rattle.a64_operand.specs.AtomicOperands.{is_atomic_type};
ghost use Rattle.a64_operand.specs.Operands.{is_register_or_zero};
ghost use Rattle.a64_rows.specs.Forms.{Form, form_word};
ghost use Rattle.a64_cells.specs.Shapes.{cas_loop_cells, loop_cells, rmw_loop_cells};
ghost use Rattle.a64_cells.specs.LoopForms as forms;
ghost use Rattle.a64_cells.specs.LoopForms.{address_register, failed_register, old_register};
ghost use Rattle.a64_cells.specs.Words.{AreLoop};

use crate::word::control::cond_br_word;
use crate::word::memory::SeveralWords;
use crate::word::plain::immediate::extend_word;
use crate::word::plain::register::{alu_rrr_extend_word, alu_rrr_word, csel_word};
use a64_base::{
    BranchTarget, Cond, CondBrKind, ExtendOp, IrType, OperandSize, Reg, TrapCode, writable_xreg,
    writable_zero_reg, xreg, zero_reg,
};
use a64_enc_int::{enc_ldaxr, enc_stlxr, loop_offset, loop_traps};
use a64_inst::AtomicRMWLoopOp;
use a64_ops::ALUOp;
use arrayvec::ArrayVec;

/// The register that gets whether the store failed.
const FAILED: u8 = 24;
/// The register of the address.
const ADDRESS: u8 = 25;
/// The register of the operand, or of the value that is awaited.
const OPERAND: u8 = 26;
/// The register that gets what was there before.
const OLD: u8 = 27;
/// The register of what is stored, but for an exchange.
const NEW: u8 = 28;

/// The words of a loop of atomic accesses.
#[derive(Drop)]
pub struct LoopWords {
    /// The exclusive load.
    pub load: u32,
    /// The trap that the load may cause, if it may cause one.
    pub load_trap: Option<TrapCode>,
    /// The exclusive store, and the words between.
    pub store: SeveralWords,
    /// The branch back to the load.
    pub back: u32,
}

/// The word of the exclusive load.
#[tactic(auto, using(crate::proofs::AtomicForms::access_type), unfolding(crate::specs::LoopForms::load_exclusive_form))]
fn load_word(ty: IrType) -> u32
    requires { is_atomic_type ty ≡ true }
    ensures { result ≡ form_word (forms.load_exclusive_form ty old_register address_register) }
{
    enc_ldaxr(ty, writable_xreg(OLD), xreg(ADDRESS))
}

/// The word of the exclusive store.
#[tactic(auto, using(crate::proofs::AtomicForms::access_type, crate::proofs::Operands::general), unfolding(crate::specs::LoopForms::store_exclusive_form))]
fn store_word(ty: IrType, stored: Reg) -> u32
    requires ty { is_atomic_type ty ≡ true }
    requires stored { is_register_or_zero Refused stored ≡ true }
    ensures { result ≡ form_word
        (forms.store_exclusive_form ty failed_register stored address_register) }
{
    enc_stlxr(ty, writable_xreg(FAILED), stored, xreg(ADDRESS))
}

/// The word of the branch back to the load, where so many words stand between that and the store.
fn back_word(between: usize) -> u32
    requires { between ≤ 4 }
    ensures { result ≡ form_word (forms.back_form between) }
{
    let failed = CondBrKind::NotZero(xreg(FAILED), OperandSize::Size64);
    let load = BranchTarget::ResolvedOffset(loop_offset(between));
    cond_br_word(load, failed)
}

/// The size of an operation on values of a type.
fn loop_size(ty: IrType) -> OperandSize
    ensures { result ≡ forms.loop_size ty }
{
    match ty {
        IrType::I64 => OperandSize::Size64,
        _ => OperandSize::Size32,
    }
}

/// How a value of 8 or 16 bits is extended with zeros.
fn zero_extend_of(ty: IrType) -> Option<ExtendOp>
    ensures { result ≡ forms.zero_extend_of ty }
{
    match ty {
        IrType::I8 => Some(ExtendOp::UXTB),
        IrType::I16 => Some(ExtendOp::UXTH),
        _ => None,
    }
}

/// How a value of 8 or 16 bits is extended with its sign.
fn sign_extend_of(ty: IrType) -> Option<ExtendOp>
    ensures { result ≡ forms.sign_extend_of ty }
{
    match ty {
        IrType::I8 => Some(ExtendOp::SXTB),
        IrType::I16 => Some(ExtendOp::SXTH),
        _ => None,
    }
}

/// The word of the comparison of what was there with the operand, which may be extended.
fn compared_word(size: OperandSize, extendop: Option<ExtendOp>) -> u32
    ensures { result ≡ form_word (forms.compared_form size extendop) }
{
    let (dropped, old, operand) = (writable_zero_reg(), xreg(OLD), xreg(OPERAND));
    match extendop {
        Some(extend) => alu_rrr_extend_word(ALUOp::SubS, size, dropped, old, operand, extend),
        None => alu_rrr_word(ALUOp::SubS, size, dropped, old, operand),
    }
}

/// The word of an operation on what was there and the operand.
fn operation_word(op: ALUOp, ty: IrType) -> u32
    ensures { result ≡ form_word (forms.operation_form op ty) }
{
    alu_rrr_word(
        op,
        loop_size(ty),
        writable_xreg(NEW),
        xreg(OLD),
        xreg(OPERAND),
    )
}

/// The word of the complement of what an operation gave.
fn complement_word(ty: IrType) -> u32
    ensures { result ≡ form_word (forms.complement_form ty) }
{
    alu_rrr_word(
        ALUOp::OrrNot,
        loop_size(ty),
        writable_xreg(NEW),
        zero_reg(),
        xreg(NEW),
    )
}

/// Adds the word that extends the loaded 8 or 16 bits with their sign.
#[tactic(auto, unfolding(a64_operand::specs::IntegerOperands::is_extended))]
fn push_sign(words: &mut ArrayVec<u32, 4>, ty: IrType)
    requires { length words.old.items ≤ 1 }
    ensures { words.new.items ≡ words.old.items ++ map form_word (forms.sign_forms ty) }
{
    match ty {
        IrType::I8 => words.push(extend_word(writable_xreg(OLD), xreg(OLD), true, 8, 32)),
        IrType::I16 => words.push(extend_word(writable_xreg(OLD), xreg(OLD), true, 16, 32)),
        _ => {}
    }
}

/// Adds the words that choose between what was there and the operand, by a condition on their comparison.
fn push_choice(words: &mut ArrayVec<u32, 4>, ty: IrType, extendop: Option<ExtendOp>, cond: Cond)
    requires { length words.old.items ≤ 2 }
    ensures { words.new.items
        ≡ words.old.items ++ map form_word (forms.choice_forms ty extendop cond) }
{
    words.push(compared_word(loop_size(ty), extendop));
    words.push(csel_word(writable_xreg(NEW), xreg(OLD), xreg(OPERAND), cond));
}

/// Adds the words that choose between two signed numbers.
fn push_signed_choice(words: &mut ArrayVec<u32, 4>, ty: IrType, cond: Cond)
    requires { length words.old.items ≤ 1 }
    ensures { words.new.items ≡ words.old.items ++ map form_word (forms.sign_forms ty
        ++ forms.choice_forms ty (forms.sign_extend_of ty) cond) }
{
    push_sign(words, ty);
    push_choice(words, ty, sign_extend_of(ty), cond);
}

/// The words of an operation on what was there and the operand; an exchange has none.
fn operator_words(ty: IrType, op: AtomicRMWLoopOp) -> ArrayVec<u32, 4>
    ensures { result.items ≡ map form_word (forms.operator_forms ty op) }
{
    let mut words = ArrayVec::new();
    match op {
        AtomicRMWLoopOp::Add => words.push(operation_word(ALUOp::Add, ty)),
        AtomicRMWLoopOp::Sub => words.push(operation_word(ALUOp::Sub, ty)),
        AtomicRMWLoopOp::And => words.push(operation_word(ALUOp::And, ty)),
        AtomicRMWLoopOp::Nand => {
            words.push(operation_word(ALUOp::And, ty));
            words.push(complement_word(ty));
        }
        AtomicRMWLoopOp::Eor => words.push(operation_word(ALUOp::Eor, ty)),
        AtomicRMWLoopOp::Orr => words.push(operation_word(ALUOp::Orr, ty)),
        AtomicRMWLoopOp::Smax => push_signed_choice(&mut words, ty, Cond::Gt),
        AtomicRMWLoopOp::Smin => push_signed_choice(&mut words, ty, Cond::Lt),
        AtomicRMWLoopOp::Umax => push_choice(&mut words, ty, zero_extend_of(ty), Cond::Hi),
        AtomicRMWLoopOp::Umin => push_choice(&mut words, ty, zero_extend_of(ty), Cond::Lo),
        AtomicRMWLoopOp::Xchg => {}
    }
    words
}

/// How many words these are.
pub fn operator_count(ty: IrType, op: AtomicRMWLoopOp) -> usize
    ensures { result ≡ length (forms.operator_forms ty op) }
{
    let is_narrow = matches!(ty, IrType::I8 | IrType::I16);
    match op {
        AtomicRMWLoopOp::Xchg => 0,
        AtomicRMWLoopOp::Nand | AtomicRMWLoopOp::Umax | AtomicRMWLoopOp::Umin => 2,
        AtomicRMWLoopOp::Smax | AtomicRMWLoopOp::Smin => 2 + usize::from(is_narrow),
        _ => 1,
    }
}

/// The register of what is stored: an exchange stores the operand itself.
fn stored_register(op: AtomicRMWLoopOp) -> Reg
    ensures { result ≡ forms.stored_register op }
{
    match op {
        AtomicRMWLoopOp::Xchg => xreg(OPERAND),
        _ => xreg(NEW),
    }
}

/// The words of a loop with such words between its accesses, which stores a register.
fn loop_words(
    ty: IrType,
    between: ArrayVec<u32, 4>,
    stored: Reg,
    trap: Option<TrapCode>,
) -> LoopWords
    requires ty { is_atomic_type ty ≡ true }
    requires stored { is_register_or_zero Refused stored ≡ true }
    ensures { (between' : List Form) → between.items ≡ map form_word between'
        → AreLoop result (loop_cells ty between' stored trap) }
{
    let traps = loop_traps(trap);
    LoopWords {
        load: load_word(ty),
        load_trap: traps.load,
        back: back_word(between.len()),
        store: SeveralWords {
            first: between,
            last: store_word(ty, stored),
            site: None,
            trap: traps.store,
        },
    }
}

/// The words of an `AtomicRMWLoop`.
pub fn rmw_loop_words(ty: IrType, op: AtomicRMWLoopOp, trap: Option<TrapCode>) -> LoopWords
    requires { is_atomic_type ty ≡ true }
    ensures { AreLoop result (rmw_loop_cells ty op trap) }
{
    loop_words(ty, operator_words(ty, op), stored_register(op), trap)
}

/// The words between the load and the store of a compare and swap: a comparison, and a branch out of the loop.
fn awaited_words(ty: IrType) -> ArrayVec<u32, 4>
    ensures { result.items ≡ map form_word (forms.awaited_forms ty) }
{
    let mut words = ArrayVec::new();
    words.push(compared_word(OperandSize::Size64, zero_extend_of(ty)));
    words.push(cond_br_word(BranchTarget::ResolvedOffset(12), CondBrKind::Cond(Cond::Ne)));
    words
}

/// The words of an `AtomicCASLoop`.
pub fn cas_loop_words(ty: IrType, trap: Option<TrapCode>) -> LoopWords
    requires { is_atomic_type ty ≡ true }
    ensures { AreLoop result (cas_loop_cells ty trap) }
{
    loop_words(ty, awaited_words(ty), xreg(NEW), trap)
}
