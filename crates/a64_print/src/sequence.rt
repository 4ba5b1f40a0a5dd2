//! The texts of sequences, and of what has no word.

mod atomic_loop;
mod pair;
mod table;

ghost use Rattle.std.specs.Prelude.{◌≡◌, ◌++◌, OnOk};
ghost use Rattle.std.specs.String.{string_bytes};
ghost use Rattle.a64_inst.specs.Groups.{group_of};
ghost use Rattle.a64_inst.specs.declared.group.Group.TheVariants as groups;
ghost use Rattle.a64_operand_text.specs.SequenceTexts as texts;
ghost use Rattle.a64_operand_text.specs.Texts.{own_text};

use crate::sequence::atomic_loop::{push_cas_loop, push_rmw_loop};
use crate::sequence::table::push_jt_sequence;
use crate::sequence_texts;
use a64_base::{Cond, Reg};
use a64_inst::{ArgPair, Inst, RetPair};
use a64_operand_text::Operand::{Bytes, Condition, Number, Symbol, SymbolOffset, X};
use a64_operand_text::{imm12_value, line1, line2, line3, line4};
pub use pair::{RegisterPair, push_pair, push_pairs};
use std::alloc::AllocError;

/// Appends the text of a choice between vectors.
#[tactic(auto, unfolding(a64_operand_text::specs::SequenceTexts::vec_csel_text))]
fn push_vec_csel(out: &mut String, rd: Reg, rn: Reg, rm: Reg, cond: Cond) -> Result<(), AllocError>
    ensures { OnOk result (string_bytes out.new
        ≡ string_bytes out.old ++ texts.vec_csel_text rd rn rm cond) }
{
    line4(
        out,
        "vcsel",
        Bytes(rd),
        Bytes(rn),
        Bytes(rm),
        Condition(cond),
    )?;
    out.push_str(" (if-then-else diamond)")
}

/// Appends the registers in which arguments come.
fn push_args(out: &mut String, args: &[ArgPair]) -> Result<(), AllocError>
    ensures { OnOk result (string_bytes out.new
        ≡ string_bytes out.old ++ texts.args_text args.now) }
{
    push_pairs(out, "args", args)
}

/// Appends the registers in which results go.
fn push_rets(out: &mut String, rets: &[RetPair]) -> Result<(), AllocError>
    ensures { OnOk result (string_bytes out.new
        ≡ string_bytes out.old ++ texts.rets_text rets.now) }
{
    push_pairs(out, "rets", rets)
}

/// Appends the text of a sequence, or of what has no word.
///
/// # Errors
///
/// Want of memory.
pub fn push_sequence(out: &mut String, inst: &Inst) -> Result<(), AllocError>
    requires { group_of inst.now ≡ groups.Sequence }
    ensures { OnOk result (string_bytes out.new ≡ string_bytes out.old ++ own_text inst.now) }
{
    sequence_texts!(out, inst)
}
