//! The words of hints and of moves of the flags, of "Branches, Exception Generating and System
//! instructions".

ghost use Rattle.std.specs.Prelude.{◌≡◌, ◌<◌, true};
ghost use Rattle.a64_operand.specs.declared.virtuals.VirtualRegisters.TheVariants.{Refused};
ghost use Rattle.a64_operand.specs.Operands.{is_register_or_zero};
ghost use Rattle.a64_rows.specs.Forms.{form_word, IsFormOf};
ghost use Rattle.a64_rows.specs.Control.{hint};
ghost use Rattle.a64_cells.specs.ControlForms as forms;
ghost use Rattle.a64_cells.specs.ControlForms.{csdb_form};
ghost use Rattle.a64_cells.specs.IntegerForms.{nop4_form, mov_to_nzcv_form, mov_from_nzcv_form};

use a64_base::{APIKey, Reg, Writable};
use a64_enc_int::register_field;
use a64_ops::BranchTargetType;
use a64_rows::{Row, pack};

/// The word of a hint, whose number is `crm` and `op2` in one.
#[inline(always)]
fn hint_word(crm: u32, op2: u32) -> u32
    requires { IsFormOf (hint (record { crm = crm; op2 = op2 })) }
    ensures { result ≡ form_word (hint (record { crm = crm; op2 = op2 })) }
{
    pack(Row::Hint, &[crm, op2])
}

/// The word of a `Nop4`.
#[tactic(auto, unfolding(crate::specs::IntegerForms::nop4_form))]
pub fn nop4_word() -> u32
    ensures { result ≡ form_word nop4_form }
{
    0xd503_201f
}

/// The word of a barrier against what was guessed before it.
#[tactic(auto, unfolding(crate::specs::ControlForms::csdb_form))]
pub fn csdb_word() -> u32
    ensures { result ≡ form_word csdb_form }
{
    0xd503_229f
}

/// The word of the hint that authenticates the return address by a key.
#[tactic(auto, unfolding(crate::specs::ControlForms::auti_form))]
pub fn auti_word(key: APIKey) -> u32
    ensures { result ≡ form_word (forms.auti_form key) }
{
    key.enc_auti_hint()
}

/// The number of the hint that signs the return address by a key.
fn paci_number(key: APIKey) -> u32
    ensures value { result ≡ forms.paci_number key }
    ensures below { result < 8 }
{
    match key {
        APIKey::AZ => 0,
        APIKey::ASP => 1,
        APIKey::BZ => 2,
        APIKey::BSP => 3,
    }
}

/// The word of a `Paci`.
#[tactic(auto, unfolding(crate::specs::ControlForms::paci_form))]
pub fn paci_word(key: APIKey) -> u32
    ensures { result ≡ form_word (forms.paci_form key) }
{
    hint_word(3, paci_number(key))
}

/// The word of an `Xpaclri`.
#[tactic(auto, unfolding(crate::specs::ControlForms::xpaclri_form))]
pub fn xpaclri_word() -> u32
    ensures { result ≡ form_word forms.xpaclri_form }
{
    hint_word(0, 7)
}

/// The number of the hint that lets such branches go to a place.
fn bti_number(targets: BranchTargetType) -> u32
    ensures value { result ≡ forms.bti_number targets }
    ensures below { result < 8 }
{
    match targets {
        BranchTargetType::None => 0,
        BranchTargetType::C => 2,
        BranchTargetType::J => 4,
        BranchTargetType::JC => 6,
    }
}

/// The word of a `Bti`.
#[tactic(auto, unfolding(crate::specs::ControlForms::bti_form))]
pub fn bti_word(targets: BranchTargetType) -> u32
    ensures { result ≡ form_word (forms.bti_form targets) }
{
    hint_word(4, bti_number(targets))
}

/// The word of a `MovToNZCV`.
#[tactic(auto, using(crate::proofs::Operands::real), unfolding(crate::specs::IntegerForms::mov_to_nzcv_form))]
pub fn mov_to_nzcv_word(rn: Reg) -> u32
    requires { is_register_or_zero Refused rn ≡ true }
    ensures { result ≡ form_word (mov_to_nzcv_form rn) }
{
    0xd51b_4200 + register_field(rn)
}

/// The word of a `MovFromNZCV`.
#[tactic(auto, using(crate::proofs::Operands::real), unfolding(crate::specs::IntegerForms::mov_from_nzcv_form))]
pub fn mov_from_nzcv_word(rd: Writable<Reg>) -> u32
    requires { is_register_or_zero Refused rd ≡ true }
    ensures { result ≡ form_word (mov_from_nzcv_form rd) }
{
    0xd53b_4200 + register_field(rd.to_reg())
}
