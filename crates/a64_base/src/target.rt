//! Where branches go.

ghost use Rattle.std.specs.Prelude.{◌≡◌, ◌<◌, ◌^◌, ◌++◌, ⊤, OnOk};
ghost use Rattle.std.specs.String.{string_bytes};
ghost use Rattle.std.specs.Int.{cast_unsigned, w32};
ghost use Rattle.a64_base.specs.Words.{words_of};

use crate::entity::MachLabel;
use crate::text::{PrettyPrint, Text, push_numbered};
use std::alloc::{AllocError, Global};

/// Where a branch goes (Cranelift's `BranchTarget`).
#[derive(Clone, Copy, Debug, PartialEq, Eq)]
pub enum BranchTarget {
    /// To a label.
    Label(MachLabel),
    /// To a place so many bytes behind the branch's own word, or before it where negative.
    ResolvedOffset(i32),
}

/// The whole words in a distance in bytes, rounded down, as 32 bits.
fn words_in(offset: i32) -> u32
    ensures { result ≡ cast_unsigned w32 (words_of offset) }
{
    (offset >> 2).cast_unsigned()
}

impl BranchTarget {
    ghost use Rattle.a64_base.specs.Target.{label_of, offset_field, target_text, FitsField};

    /// The label, where it goes to one.
    pub fn as_label(self) -> Option<MachLabel>
        ensures { result ≡ label_of self }
    {
        match self {
            BranchTarget::Label(label) => Some(label),
            BranchTarget::ResolvedOffset(_) => None,
        }
    }

    /// The 14 bits that say where a branch on one bit goes: the distance in words, or zero where a label is
    /// still to be resolved. The distance is at least -2^13 words, and less than 2^13.
    pub fn as_offset14_or_zero(self) -> u32
        requires { FitsField 14 self }
        ensures value { result ≡ offset_field 14 self }
        ensures below { result < 2 ^ 14 }
    {
        match self {
            BranchTarget::Label(_) => 0,
            BranchTarget::ResolvedOffset(offset) => words_in(offset) % (1 << 14),
        }
    }

    /// The 19 bits that say where a conditional branch goes: the distance in words, or zero where a label is
    /// still to be resolved. The distance is at least -2^18 words, and less than 2^18.
    pub fn as_offset19_or_zero(self) -> u32
        requires { FitsField 19 self }
        ensures value { result ≡ offset_field 19 self }
        ensures below { result < 2 ^ 19 }
    {
        match self {
            BranchTarget::Label(_) => 0,
            BranchTarget::ResolvedOffset(offset) => words_in(offset) % (1 << 19),
        }
    }

    /// The 26 bits that say where a jump goes: the distance in words, or zero where a label is
    /// still to be resolved. The distance is at least -2^25 words, and less than 2^25.
    pub fn as_offset26_or_zero(self) -> u32
        requires { FitsField 26 self }
        ensures value { result ≡ offset_field 26 self }
        ensures below { result < 2 ^ 26 }
    {
        match self {
            BranchTarget::Label(_) => 0,
            BranchTarget::ResolvedOffset(offset) => words_in(offset) % (1 << 26),
        }
    }

    /// Appends its text: `label3`, or the distance in bytes in decimal.
    ///
    /// # Errors
    ///
    /// Want of memory.
    pub fn push_text(&self, out: &mut String) -> Result<(), AllocError>
        ensures { OnOk result (string_bytes out.new
            ≡ string_bytes out.old ++ target_text self.now) }
    {
        match *self {
            BranchTarget::Label(label) => push_numbered(out, "label", label.0),
            BranchTarget::ResolvedOffset(offset) => push_numbered(out, "", offset),
        }
    }
}

impl PrettyPrint for BranchTarget {
    ghost use Rattle.a64_base.specs.Target.{target_text};

    ghost text = { λ target _. target_text target };

    ghost can_print = { λ _ _. ⊤ };

    fn pretty_print(&self, alloc: Global, _size_bytes: u8) -> Text {
        let mut text = String::new(alloc);
        self.push_text(&mut text)?;
        Ok(text)
    }
}
