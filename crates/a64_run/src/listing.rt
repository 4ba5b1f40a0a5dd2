//! Lists a file.

ghost use Rattle.std.specs.Prelude.{◌≡◌, None, IfOk, IfErr};
ghost use Rattle.std.specs.String.{string_bytes};
ghost use Rattle.a64_print.specs.InstTexts.{listing_of};
ghost use Rattle.a64_run.specs.declared.command.Command.TheVariants as commands;
ghost use Rattle.a64_run.specs.declared.input.Input.TheVariants as inputs;
ghost use Rattle.a64_run.specs.Commands.{file_fault};
ghost use Rattle.a64_run.specs.Stages.{IsMakingFault};

use crate::ran::Fault;
use a64_emit::first_shown_fault;
use a64_print::listing;
use a64_text::File;
use std::alloc::Global;

/// The listing of a file.
///
/// # Errors
///
/// What is wrong with the first item that cannot be shown, or want of memory.
pub fn list_file(alloc: Global, file: &File) -> Result<String, Fault>
    ensures no_fault { IfOk result (λ text. file_fault commands.List file.now ≡ None) }
    ensures text { IfOk result (λ text.
        string_bytes text ≡ listing_of file.now.frame file.now.items.items) }
    ensures err { IfErr result (IsMakingFault commands.List (inputs.Items file.now)) }
{
    if let Some(error) = first_shown_fault(&file.items, &file.constants, &file.info, &file.frame) {
        return Err(Fault::Assembly(error));
    }
    match listing(alloc, &file.items, &file.frame) {
        Ok(text) => Ok(text),
        Err(_) => Err(Fault::Memory),
    }
}
