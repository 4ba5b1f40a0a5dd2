//! Streams of items that grow at their end.

ghost use Rattle.std.specs.Prelude.{◌≡◌, [], ◌∷◌, ◌++◌, IfOk, OnOk};
ghost use Rattle.a64_base.specs.declared.target.BranchTarget.TheVariants as targets;
ghost use Rattle.a64_inst.specs.declared.inst.Inst.TheVariants as insts;
ghost use Rattle.a64_stream.specs.declared.stream.Step.TheVariants as steps;
ghost use Rattle.a64_stream.specs.Streams.{item_of};

use a64_base::{BranchTarget, MachLabel};
use a64_buffer::Constants;
use a64_emit::Item;
use a64_inst::{EmitFlags, EmitInfo, FrameLayout, Inst};
use std::alloc::{AllocError, Global};

/// A step of a stream.
#[derive(Drop)]
pub enum Step {
    /// Binds a label to the place of the next instruction.
    Bind(MachLabel),
    /// An instruction. Only calls have a map of the stack, and no stream has a call.
    Emit(Inst),
}

impl Step {
    /// A jump to a label, which may be bound before it or behind it.
    pub fn jump(label: MachLabel) -> Step
        ensures { result ≡ steps.Emit (insts.Jump (targets.Label label)) }
    {
        Step::Emit(Inst::Jump {
            dest: BranchTarget::Label(label),
        })
    }
}

/// A stream of items, and what their assembly is told beside them.
#[derive(Drop)]
pub struct Stream {
    /// The items, in the order in which their code is to stand.
    pub items: Vec<Item>,
    /// The constants that the items may load.
    pub constants: Constants,
    /// The settings.
    pub info: EmitInfo,
    /// The frame of the function that the items are.
    pub frame: FrameLayout,
}

impl Stream {
    /// A stream without items, and with memory for so many.
    ///
    /// # Errors
    ///
    /// Want of memory.
    pub fn with_capacity(alloc: Global, capacity: usize) -> Result<Stream, AllocError>
        ensures { IfOk result (λ stream. stream.items.items ≡ []) }
    {
        Ok(Stream {
            items: Vec::with_capacity(alloc, capacity)?,
            constants: Constants::new(alloc),
            info: EmitInfo::new(EmitFlags::none()),
            frame: FrameLayout::none(alloc),
        })
    }

    /// Adds the item that a step is.
    ///
    /// # Errors
    ///
    /// Want of memory.
    pub fn push(&mut self, step: Step) -> Result<(), AllocError>
        ensures { OnOk result (self.new.items.items
            ≡ self.old.items.items ++ item_of step ∷ []) }
    {
        match step {
            Step::Bind(label) => self.items.push(Item::Bind(label))?,
            Step::Emit(inst) => self.items.push(Item::Emit { inst, map: None })?,
        }
        Ok(())
    }
}
