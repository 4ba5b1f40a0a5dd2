//! The texts of hints and barriers.

ghost use Rattle.std.specs.Prelude.{◌≡◌, ◌++◌, OnOk};
ghost use Rattle.std.specs.String.{string_bytes};
ghost use Rattle.a64_inst.specs.Groups.{group_of};
ghost use Rattle.a64_inst.specs.declared.group.Group.TheVariants as groups;
ghost use Rattle.a64_inst.specs.declared.group.PlainGroup.TheVariants as plain;
ghost use Rattle.a64_operand_text.specs.ControlTexts as texts;
ghost use Rattle.a64_operand_text.specs.Texts.{own_text};

use crate::system_texts;
use a64_base::APIKey;
use a64_inst::Inst;
use a64_ops::BranchTargetType;
use std::alloc::AllocError;

/// The name of a key, as names of instructions end with it.
pub fn key_name(key: APIKey) -> &'static str
    ensures { result.now ≡ texts.key_name key }
{
    match key {
        APIKey::AZ => "az",
        APIKey::ASP => "asp",
        APIKey::BZ => "bz",
        APIKey::BSP => "bsp",
    }
}

/// The text of a place that branches of some kinds may go to.
fn bti_text(targets: BranchTargetType) -> &'static str
    ensures { result.now ≡ texts.bti_text targets }
{
    match targets {
        BranchTargetType::None => "bti",
        BranchTargetType::C => "bti c",
        BranchTargetType::J => "bti j",
        BranchTargetType::JC => "bti jc",
    }
}

/// Appends the text of a hint that signs the link register.
fn push_paci(out: &mut String, key: APIKey) -> Result<(), AllocError>
    ensures { OnOk result (string_bytes out.new
        ≡ string_bytes out.old ++ texts.paci_text key) }
{
    out.push_str("paci")?;
    out.push_str(key_name(key))
}

/// Appends the text of an instruction of the group.
///
/// # Errors
///
/// Want of memory.
pub fn push_system(out: &mut String, inst: &Inst) -> Result<(), AllocError>
    requires { group_of inst.now ≡ groups.Plain plain.System }
    ensures { OnOk result (string_bytes out.new ≡ string_bytes out.old ++ own_text inst.now) }
{
    system_texts!(out, inst)
}
