//! The words of atomic accesses.

ghost use Rattle.std.specs.Prelude.{◌≡◌, ◌<◌, true};
ghost use Rattle.a64_enc_int.specs.Operators.{access_size};
ghost use Rattle.a64_operand.specs.declared.virtuals.VirtualRegisters.TheVariants.{Refused};
ghost use Rattle.a64_operand.specs.AtomicOperands as sets;
ghost use Rattle.a64_rows.specs.Forms.{form_word};
ghost use Rattle.a64_cells.specs.AtomicForms as forms;

use a64_base::{IrType, Reg, Writable};
use a64_enc_int::{enc_acq_rel, enc_cas, enc_casp, enc_ldar, enc_stlr};
use a64_inst::{AtomicCAS128Args, AtomicRMWOp};

/// The word of an `AtomicRMW`.
#[tactic(auto, using(crate::proofs::AtomicForms::access_type, crate::proofs::AtomicForms::below_zero_register, crate::proofs::AtomicForms::register_general, crate::proofs::Operands::general, crate::proofs::Operands::stack_general), unfolding(crate::specs::AtomicForms::rmw_form, a64_operand::specs::AtomicOperands::are_rmw_operands))]
pub fn rmw_word(ty: IrType, op: AtomicRMWOp, rs: Reg, rt: Writable<Reg>, rn: Reg) -> u32
    requires { sets.are_rmw_operands Refused ty rs rt rn ≡ true }
    ensures { result ≡ form_word (forms.rmw_form ty op rs rt rn) }
{
    enc_acq_rel(ty, op, rs, rt, rn)
}

/// The field `size` of a compare and swap of a value of this type.
fn cas_size(ty: IrType) -> u32
    requires { sets.is_atomic_type ty ≡ true }
    ensures value { result ≡ access_size ty }
    ensures below { result < 4 }
{
    match ty {
        IrType::I8 => 0,
        IrType::I16 => 1,
        IrType::I32 => 2,
        IrType::I64 => 3,
        _ => unreachable!(),
    }
}

/// The word of an `AtomicCAS`.
#[tactic(auto, using(crate::proofs::Operands::general, crate::proofs::Operands::stack_general), unfolding(crate::specs::AtomicForms::cas_form, a64_operand::specs::AtomicOperands::are_cas_operands))]
pub fn cas_word(rd: Writable<Reg>, rs: Reg, rt: Reg, rn: Reg, ty: IrType) -> u32
    requires { sets.are_cas_operands Refused rd rs rt rn ty ≡ true }
    ensures { result ≡ form_word (forms.cas_form ty rd rt rn) }
{
    enc_cas(cas_size(ty), rd, rt, rn)
}

/// The word of an `AtomicCAS128`.
#[tactic(auto, using(crate::proofs::AtomicForms::first_general, crate::proofs::AtomicForms::first_even, crate::proofs::AtomicForms::cas128_is_form, crate::proofs::Operands::stack_general), unfolding(crate::specs::AtomicForms::cas128_form, a64_operand::specs::AtomicOperands::are_cas128_operands))]
pub fn cas128_word(args: &AtomicCAS128Args) -> u32
    requires { sets.are_cas128_operands Refused args.now ≡ true }
    ensures { result ≡ form_word (forms.cas128_form args.now) }
{
    enc_casp(Writable::from_reg(args.rs_lo), args.rt_lo, args.rn)
}

/// The word of a `LoadAcquire`.
#[tactic(auto, using(crate::proofs::AtomicForms::access_type, crate::proofs::Operands::general, crate::proofs::Operands::stack_general), unfolding(crate::specs::AtomicForms::load_acquire_form, a64_operand::specs::AtomicOperands::are_ordered_operands))]
pub fn load_acquire_word(ty: IrType, rt: Writable<Reg>, rn: Reg) -> u32
    requires { sets.are_ordered_operands Refused ty rt rn ≡ true }
    ensures { result ≡ form_word (forms.load_acquire_form ty rt rn) }
{
    enc_ldar(ty, rt, rn)
}

/// The word of a `StoreRelease`.
#[tactic(auto, using(crate::proofs::AtomicForms::access_type, crate::proofs::Operands::general, crate::proofs::Operands::stack_general), unfolding(crate::specs::AtomicForms::store_release_form, a64_operand::specs::AtomicOperands::are_ordered_operands))]
pub fn store_release_word(ty: IrType, rt: Reg, rn: Reg) -> u32
    requires { sets.are_ordered_operands Refused ty rt rn ≡ true }
    ensures { result ≡ form_word (forms.store_release_form ty rt rn) }
{
    enc_stlr(ty, rt, rn)
}
