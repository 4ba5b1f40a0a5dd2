//! Assembles a file.

ghost use Rattle.std.specs.Prelude.{◌^◌, ◌<◌, length, IfOk, IfErr};
ghost use Rattle.a64_run.specs.Commands.{IsCodeOf};
ghost use Rattle.a64_run.specs.Stages.{IsAssemblyFault};

use crate::command::Command;
use crate::ran::Fault;
use a64_assemble::assemble;
use a64_emit::{Code, EmitError};
use a64_text::File;
use std::alloc::Global;

/// The code of a file, with islands forced where the command asks for it.
///
/// # Errors
///
/// The first fault of the file, or want of memory.
// A function of its own in the machine code, so that a profiler can tell its share.
#[inline(never)]
pub fn assemble_file(alloc: Global, command: Command, file: &File) -> Result<Code, Fault>
    requires { length file.now.items.items < 2 ^ 32 }
    ensures ok { IfOk result (IsCodeOf command file.now) }
    ensures err { IfErr result (IsAssemblyFault command file.now) }
{
    match assemble(
        alloc,
        &file.items,
        &file.constants,
        &file.info,
        &file.frame,
        command.force(),
    ) {
        Ok(code) => Ok(code),
        Err(EmitError::OutOfMemory) => Err(Fault::Memory),
        Err(error) => Err(Fault::Assembly(error)),
    }
}
