//! The texts of instructions of all groups.

ghost use Rattle.std.specs.Prelude.{ℕ, List, ◌≡◌, ◌++◌, IfOk, OnOk};
ghost use Rattle.std.specs.String.{string_bytes};
ghost use Rattle.a64_inst.specs.State.{State};
ghost use Rattle.a64_print.specs.InstTexts.{text_of, CanPrint};

use crate::call::push_call;
use crate::control::push_control;
use crate::float::push_float;
use crate::immediate::push_immediate;
use crate::memory::push_memory;
use crate::register::push_register;
use crate::sequence::push_sequence;
use crate::system::push_system;
use crate::vector::push_vector;
use crate::vector_move::push_vector_move;
use a64_base::Text;
use a64_inst::{EmitState, FrameLayout, Group, Inst, PlainGroup};
use std::alloc::{AllocError, Global};

/// Room for most texts, in bytes.
const ROOM: usize = 48;

/// What has a text in listings, beside the state of emission (Cranelift's `print_with_state`).
pub trait PrintInst {
    /// The text.
    ghost text: { Self → State → List ℕ };

    /// When it may be printed.
    ghost can_print: { Self → State → Type 0 };

    /// The text.
    ///
    /// # Errors
    ///
    /// Want of memory.
    fn print_with_state(&self, alloc: Global, state: &EmitState) -> Text
        requires { can_print self.now state.now }
        ensures { IfOk result (λ t. string_bytes t ≡ text self.now state.now) };
}

/// Appends the text of an instruction, in a frame: one line without a line feed, in which the
/// words of one instruction stand behind another by ` ; `. Registers may be virtual. Of an
/// instruction without an encoding the text says nothing, and may be empty.
///
/// # Errors
///
/// Want of memory.
pub fn push_inst(out: &mut String, inst: &Inst, frame: &FrameLayout) -> Result<(), AllocError>
    ensures { OnOk result
        (string_bytes out.new ≡ string_bytes out.old ++ text_of frame.now inst.now) }
{
    match inst.group() {
        Group::Plain(PlainGroup::Immediate) => push_immediate(out, inst),
        Group::Plain(PlainGroup::Register) => push_register(out, inst),
        Group::Plain(PlainGroup::Float) => push_float(out, inst),
        Group::Plain(PlainGroup::Vector) => push_vector(out, inst),
        Group::Plain(PlainGroup::VectorMove) => push_vector_move(out, inst),
        Group::Plain(PlainGroup::System) => push_system(out, inst),
        Group::Control => push_control(out, inst),
        Group::Sequence => push_sequence(out, inst),
        Group::Call => push_call(out, inst),
        Group::Memory => push_memory(out, frame, inst),
    }
}

/// The instruction has operands in their sets, where registers may be virtual and each setting is
/// on, and an addressing mode that exists; how long its constant is does not count.
impl PrintInst for Inst {
    ghost text = { λ inst state. text_of state.frame inst };

    ghost can_print = { λ inst state. CanPrint state.frame inst };

    fn print_with_state(&self, alloc: Global, state: &EmitState) -> Text {
        let mut text = String::with_capacity(alloc, ROOM)?;
        push_inst(&mut text, self, state.frame_layout())?;
        Ok(text)
    }
}
