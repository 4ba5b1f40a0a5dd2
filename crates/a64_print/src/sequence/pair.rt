//! The texts of pairs of registers.

ghost use Rattle.std.specs.Prelude.{◌≡◌, ◌++◌, List, ℕ, OnOk};
ghost use Rattle.std.specs.List.{flat_map};
ghost use Rattle.std.specs.String.{string_bytes};
ghost use Rattle.a64_operand_text.specs.SequenceTexts as texts;

use a64_base::{OperandSize, Reg, push_register};
use a64_inst::{ArgPair, RetPair};
use std::alloc::AllocError;

/// A register that a function knows a value by, and that in which the value is passed.
pub trait RegisterPair: Copy {
    /// Its text, as in ` x3=x0`.
    ghost text: { Self → List ℕ };

    /// Appends its text.
    ///
    /// # Errors
    ///
    /// Want of memory.
    fn push_text(&self, out: &mut String) -> Result<(), AllocError>
        ensures { OnOk result (string_bytes out.new ≡ string_bytes out.old ++ text self.now) };
}

/// Appends a register that a function knows a value by, and that in which the value is passed.
///
/// # Errors
///
/// Want of memory.
pub fn push_pair(out: &mut String, vreg: Reg, preg: Reg) -> Result<(), AllocError>
    ensures { OnOk result (string_bytes out.new
        ≡ string_bytes out.old ++ texts.pair_text vreg preg) }
{
    out.push_str(" ")?;
    push_register(out, OperandSize::Size64, vreg)?;
    out.push_str("=")?;
    push_register(out, OperandSize::Size64, preg)
}

impl RegisterPair for ArgPair {
    ghost text = { texts.arg_text };

    fn push_text(&self, out: &mut String) -> Result<(), AllocError> {
        push_pair(out, self.vreg.to_reg(), self.preg)
    }
}

impl RegisterPair for RetPair {
    ghost text = { texts.ret_text };

    fn push_text(&self, out: &mut String) -> Result<(), AllocError> {
        push_pair(out, self.vreg, self.preg)
    }
}

/// Appends a name and the pairs of registers behind it.
///
/// # Errors
///
/// Want of memory.
pub fn push_pairs<P: RegisterPair>(
    out: &mut String,
    name: &str,
    pairs: &[P],
) -> Result<(), AllocError>
    ensures { OnOk result (string_bytes out.new
        ≡ string_bytes out.old ++ (name.now ++ flat_map P.text pairs.now)) }
{
    out.push_str(name)?;
    for pair in pairs {
        pair.push_text(out)?;
    }
    Ok(())
}
