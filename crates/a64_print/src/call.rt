//! The texts of calls, and of returns that call.

ghost use Rattle.std.specs.Prelude.{◌≡◌, ◌++◌, OnOk};
ghost use Rattle.std.specs.String.{string_bytes};
ghost use Rattle.a64_inst.specs.Groups.{group_of};
ghost use Rattle.a64_inst.specs.declared.group.Group.TheVariants as groups;
ghost use Rattle.a64_operand_text.specs.CallTexts as texts;
ghost use Rattle.a64_operand_text.specs.Texts.{own_text};

use crate::call_texts;
use crate::sequence::{RegisterPair, push_pair, push_pairs};
use a64_base::push_numbered;
use a64_inst::{CallArgPair, Inst};
use a64_operand_text::Operand::{Symbol, X};
use a64_operand_text::{Operand, line1};
use std::alloc::AllocError;

impl RegisterPair for CallArgPair {
    ghost text = { texts.call_arg_text };

    fn push_text(&self, out: &mut String) -> Result<(), AllocError> {
        push_pair(out, self.vreg, self.preg)
    }
}

/// Appends what stands behind the function of a return that calls.
#[tactic(auto, unfolding(a64_operand_text::specs::CallTexts::return_part))]
fn push_return_part(out: &mut String, bytes: u32, uses: &[CallArgPair]) -> Result<(), AllocError>
    ensures { OnOk result (string_bytes out.new
        ≡ string_bytes out.old ++ texts.return_part bytes uses.now) }
{
    push_numbered(out, " new_stack_arg_size:", bytes)?;
    push_pairs(out, "", uses)
}

/// Appends a return that calls.
fn push_return_call(
    out: &mut String,
    name: &str,
    callee: Operand,
    bytes: u32,
    uses: &[CallArgPair],
) -> Result<(), AllocError>
    ensures { OnOk result (string_bytes out.new
        ≡ string_bytes out.old ++ texts.return_call_text name.now callee bytes uses.now) }
{
    line1(out, name, callee)?;
    push_return_part(out, bytes, uses)
}

/// Appends the text of a call, or of a return that calls.
///
/// # Errors
///
/// Want of memory.
pub fn push_call(out: &mut String, inst: &Inst) -> Result<(), AllocError>
    requires { group_of inst.now ≡ groups.Call }
    ensures { OnOk result (string_bytes out.new ≡ string_bytes out.old ++ own_text inst.now) }
{
    call_texts!(out, inst)
}
