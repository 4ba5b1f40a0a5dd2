//! The words of branches, returns and addresses of labels.

ghost use Rattle.std.specs.Prelude.{◌≡◌, ◌<◌, ◌^◌, length, map, true};
ghost use Rattle.a64_inst.specs.declared.group.Group.TheVariants.{Control};
ghost use Rattle.a64_operand.specs.declared.virtuals.VirtualRegisters.TheVariants.{Refused};
ghost use Rattle.a64_inst.specs.Groups.{group_of};
ghost use Rattle.a64_inst.specs.Faults.{has_operands};
ghost use Rattle.a64_inst.specs.ControlOperands.{are_jump_operands, is_target, is_test};
ghost use Rattle.a64_operand.specs.Operands.{is_register_or_zero};
ghost use Rattle.a64_rows.specs.Forms.{form_word};
ghost use Rattle.a64_cells.specs.Shapes.{plain};
ghost use Rattle.a64_cells.specs.Cells.{shape_of, only_word};
ghost use Rattle.a64_cells.specs.ControlForms as forms;
ghost use Rattle.a64_cells.specs.ControlForms.{ret_form, jump_form};

use crate::control_words;
use crate::word::plain::immediate::adr_word;
use crate::word::system::{auti_word, mov_from_nzcv_word, mov_to_nzcv_word, nop4_word};
use a64_base::{APIKey, BranchTarget, CondBrKind, Reg, TestBitAndBranchKind, Writable};
use a64_enc_int::{enc_br, enc_conditional_br, enc_jump26, enc_test_bit_and_branch};
use a64_inst::{EmitInfo, FrameLayout, Inst};
use a64_rows::{Row, pack};
use arrayvec::ArrayVec;

/// The data word that is no instruction, and traps.
pub const UDF_WORD: u32 = 0xc11f;

/// The word of a branch, a hint or an access to a system register, where it is one word without a use.
#[inline(always)]
pub fn only_control_word(inst: &Inst, frame: &FrameLayout, info: &EmitInfo) -> Option<u32>
    requires group { group_of inst.now ≡ Control }
    requires good { has_operands frame.now info.now Refused inst.now ≡ true }
    ensures { result ≡ only_word (shape_of frame.now info.now inst.now) }
{
    control_words!(inst)
}

/// The word of a `Ret`.
#[tactic(auto, unfolding(crate::specs::ControlForms::ret_form))]
pub fn ret_word() -> u32
    ensures { result ≡ form_word ret_form }
{
    0xd65f_03c0
}

/// The word of a return that authenticates its address by key A (0) or B (1), and the stack pointer.
#[tactic(auto, unfolding(crate::specs::ControlForms::ret_auth_form))]
fn ret_auth_word(b: u32) -> u32
    requires { b < 2 }
    ensures { result ≡ form_word (forms.ret_auth_form b) }
{
    pack(Row::RetAuth, &[b])
}

/// The words of an `AuthenticatedRet`.
pub fn authenticated_ret_words(key: APIKey, is_hint: bool) -> ArrayVec<u32, 2>
    ensures { result.items ≡ map form_word (forms.authenticated_ret_forms key is_hint) }
{
    let mut words = ArrayVec::new();
    match (key, is_hint) {
        (APIKey::ASP, false) => words.push(ret_auth_word(0)),
        (APIKey::BSP, false) => words.push(ret_auth_word(1)),
        _ => {
            words.push(auti_word(key));
            words.push(ret_word());
        }
    }
    words
}

/// How many words an `AuthenticatedRet` has.
pub fn authenticated_ret_count(key: APIKey, is_hint: bool) -> u64
    ensures { result ≡ length (map plain (forms.authenticated_ret_forms key is_hint)) }
{
    match (key, is_hint) {
        (APIKey::ASP | APIKey::BSP, false) => 1,
        _ => 2,
    }
}

/// The word of a `Jump`, whose offset is zero as long as it has a label.
#[tactic(auto, using(a64_inst::proofs::Good::jump_fits), unfolding(crate::specs::ControlForms::jump_form))]
pub fn jump_word(dest: BranchTarget) -> u32
    requires { are_jump_operands dest ≡ true }
    ensures { result ≡ form_word (jump_form dest) }
{
    enc_jump26(0b000101, dest.as_offset26_or_zero())
}

/// The word of the conditional branch of a `CondBr`, whose offset is zero as long as it has a label.
#[tactic(auto, using(a64_inst::proofs::Good::target_fits, crate::proofs::Operands::test_general), unfolding(crate::specs::ControlForms::cond_br_form))]
pub fn cond_br_word(taken: BranchTarget, kind: CondBrKind) -> u32
    requires taken { is_target (2 ^ 20) taken ≡ true }
    requires kind { is_test Refused kind ≡ true }
    ensures { result ≡ form_word (forms.cond_br_form taken kind) }
{
    enc_conditional_br(taken, kind)
}

/// The word of a `TrapIf`, whose offset is zero as long as its trap has no place.
#[tactic(auto, unfolding(crate::specs::ControlForms::trap_if_form))]
pub fn trap_if_word(kind: CondBrKind) -> u32
    requires { is_test Refused kind ≡ true }
    ensures { result ≡ form_word (forms.trap_if_form kind) }
{
    cond_br_word(BranchTarget::ResolvedOffset(0), kind)
}

/// The word of the conditional branch of a `TestBitAndBranch`, whose offset is zero as long as it has a label.
#[tactic(auto, using(a64_inst::proofs::Good::target_fits, crate::proofs::Operands::general), unfolding(crate::specs::ControlForms::test_bit_and_branch_form))]
#[inline(always)]
pub fn test_bit_and_branch_word(
    kind: TestBitAndBranchKind,
    taken: BranchTarget,
    rn: Reg,
    bit: u8,
) -> u32
    requires taken { is_target (2 ^ 15) taken ≡ true }
    requires rn { is_register_or_zero Refused rn ≡ true }
    requires bit { bit < 64 }
    ensures { result ≡ form_word (forms.test_bit_and_branch_form kind taken rn bit) }
{
    enc_test_bit_and_branch(kind, taken, rn, bit)
}

/// The word of an `IndirectBr`.
#[tactic(auto, using(crate::proofs::Operands::general), unfolding(crate::specs::ControlForms::indirect_br_form))]
pub fn indirect_br_word(rn: Reg) -> u32
    requires { is_register_or_zero Refused rn ≡ true }
    ensures { result ≡ form_word (forms.indirect_br_form rn) }
{
    enc_br(rn)
}

/// The word of a `Brk`.
#[tactic(auto, unfolding(crate::specs::ControlForms::brk_form))]
fn brk_word() -> u32
    ensures { result ≡ form_word forms.brk_form }
{
    0xd43e_0000
}

/// The word of a `LabelAddress`, whose distance is zero as long as the label has no place.
#[tactic(auto, unfolding(crate::specs::ControlForms::label_address_form))]
pub fn label_address_word(dst: Writable<Reg>) -> u32
    requires { is_register_or_zero Refused dst ≡ true }
    ensures { result ≡ form_word (forms.label_address_form dst) }
{
    adr_word(dst, 0)
}
