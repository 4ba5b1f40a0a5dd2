//! What emission keeps between instructions.

ghost use Rattle.std.specs.Prelude.{◌≡◌, None};
ghost use Rattle.a64_inst.specs.State.{State};

use a64_base::UserStackMap;
use a64_inst::{EmitState, FrameLayout};

/// What emission keeps between instructions (Cranelift's `MachInstEmitState`).
pub trait MachInstEmitState {
    /// The frame, and the stack map of the next instruction.
    ghost state: { Self → State };

    /// The state before the first instruction: the frame, and no stack map.
    fn new(frame: FrameLayout) -> Self
        ensures { state result ≡ record { frame = frame; map = None } };

    /// Keeps a stack map for the next instruction, or none.
    fn pre_safepoint(&mut self, map: Option<UserStackMap>)
        ensures { state self.new ≡ record (state self.old) { map = map } };

    /// The stack map that is kept. It is kept no longer.
    fn take_stack_map(&mut self) -> Option<UserStackMap>
        ensures taken { result ≡ (state self.old).map }
        ensures rest { state self.new ≡ record (state self.old) { map = None } };

    /// The frame.
    fn frame_layout(&self) -> &FrameLayout
        ensures { result.now ≡ (state self.now).frame };
}

impl MachInstEmitState for EmitState {
    ghost state = { λ s. s };

    fn new(frame: FrameLayout) -> EmitState {
        EmitState::new(frame)
    }

    fn pre_safepoint(&mut self, map: Option<UserStackMap>) {
        EmitState::pre_safepoint(self, map);
    }

    fn take_stack_map(&mut self) -> Option<UserStackMap> {
        EmitState::take_stack_map(self)
    }

    fn frame_layout(&self) -> &FrameLayout {
        EmitState::frame_layout(self)
    }
}
