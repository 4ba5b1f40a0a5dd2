//! Links units.

ghost use Rattle.std.specs.Prelude.{◌≡◌, ◌^◌, ◌<◌, None, IfOk, IfErr, OnOk};
ghost use Rattle.std.specs.List.{sum_by};
ghost use Rattle.a64_link.specs.Faults.{fault_of};
ghost use Rattle.a64_link.specs.Linked.{IsLinked, CallsArrive};
ghost use Rattle.a64_link.specs.Units.{word_count};
ghost use Rattle.a64_run.specs.declared.command.Command.TheVariants as commands;
ghost use Rattle.a64_run.specs.declared.input.Input.TheVariants as inputs;
ghost use Rattle.a64_run.specs.Stages.{IsMakingFault};

use crate::ran::Fault;
use a64_link::{LinkError, Linked, link};
use a64_link_file::LinkFile;
use std::alloc::Global;

/// The linked code of the units of a file.
///
/// # Errors
///
/// Why they are refused, or want of memory.
pub fn link_units(alloc: Global, file: &LinkFile) -> Result<Linked, Fault>
    requires { sum_by word_count file.now.units.items < 2 ^ 29 }
    ensures layout { IfOk result (IsLinked file.now.units.items file.now.base) }
    ensures calls { IfOk result (CallsArrive file.now.units.items) }
    ensures err { IfErr result (IsMakingFault commands.Link (inputs.Units file.now)) }
{
    match link(alloc, &file.units, file.base) {
        Ok(linked) => Ok(linked),
        Err(LinkError::OutOfMemory) => Err(Fault::Memory),
        Err(error) => Err(Fault::Link(error)),
    }
}
