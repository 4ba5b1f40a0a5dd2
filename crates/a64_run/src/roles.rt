//! Lists the roles of the registers in a file.

ghost use Rattle.std.specs.Prelude.{◌≡◌, IfOk, IfErr};
ghost use Rattle.std.specs.String.{string_bytes};
ghost use Rattle.a64_role_lines.specs.RoleLines.{role_listing_of};
ghost use Rattle.a64_run.specs.declared.command.Command.TheVariants as commands;
ghost use Rattle.a64_run.specs.declared.input.Input.TheVariants as inputs;
ghost use Rattle.a64_run.specs.Stages.{IsMakingFault};

use crate::ran::Fault;
use a64_role_lines::role_listing;
use a64_text::File;
use std::alloc::Global;

/// The roles of the registers in a file. No item is refused.
///
/// # Errors
///
/// Want of memory.
pub fn list_roles(alloc: Global, file: &File) -> Result<String, Fault>
    ensures text { IfOk result (λ text. string_bytes text
        ≡ role_listing_of file.now.items.items) }
    ensures err { IfErr result (IsMakingFault commands.Roles (inputs.Items file.now)) }
{
    match role_listing(alloc, &file.items) {
        Ok(text) => Ok(text),
        Err(_) => Err(Fault::Memory),
    }
}
