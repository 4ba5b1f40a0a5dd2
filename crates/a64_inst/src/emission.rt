//! What emission is told, and what it keeps between instructions.

ghost use Rattle.std.specs.Prelude.{◌≡◌, false, None};

use crate::frame::FrameLayout;
use a64_base::UserStackMap;
use std::marker::Model;

/// The settings that change what is emitted.
#[derive(Clone, Copy, Debug)]
pub struct EmitFlags {
    /// Whether large frames probe the stack.
    pub enable_probestack: bool,
    /// Whether a table's index is masked against speculation.
    pub enable_table_access_spectre_mitigation: bool,
    /// Whether a `csdb` stands behind such a mask.
    pub use_csdb: bool,
}

impl EmitFlags {
    /// The settings of which none is on.
    pub fn none() -> EmitFlags
        ensures { result ≡ record {
          enable_probestack = false;
          enable_table_access_spectre_mitigation = false;
          use_csdb = false;
        } }
    {
        EmitFlags {
            enable_probestack: false,
            enable_table_access_spectre_mitigation: false,
            use_csdb: false,
        }
    }
}

/// What stays the same while code is emitted (Cranelift's `EmitInfo`).
#[derive(Clone, Copy, Debug)]
pub struct EmitInfo {
    flags: EmitFlags,
}

impl Model for EmitInfo {
    ghost use Rattle.a64_inst.specs.declared.emission.EmitFlags.{EmitFlags};

    ghost Value = { EmitFlags };

    ghost view = { λ i. i.flags };

    ghost inverse = { λ flags. record { flags = flags } };
}

impl EmitInfo {
    /// The information with these settings.
    pub fn new(flags: EmitFlags) -> EmitInfo
        ensures { result ≡ flags }
    {
        EmitInfo { flags }
    }

    /// The settings.
    pub fn flags(&self) -> EmitFlags
        ensures { result ≡ self.now }
    {
        self.flags
    }
}

/// What changes while code is emitted (Cranelift's `EmitState`).
#[derive(Drop)]
pub struct EmitState {
    frame: FrameLayout,
    map: Option<UserStackMap>,
}

impl Model for EmitState {
    ghost use Rattle.a64_inst.specs.State.{State};

    ghost Value = { State };

    ghost view = { λ s. record { frame = s.frame; map = s.map } };
}

impl EmitState {
    ghost use Rattle.a64_inst.specs.State.{State};

    /// The state before the first instruction: the frame, and no stack map.
    pub fn new(frame: FrameLayout) -> EmitState
        ensures { result ≡ record { frame = frame; map = None } }
    {
        EmitState { frame, map: None }
    }

    /// Keeps a stack map for the next instruction, or none.
    pub fn pre_safepoint(&mut self, map: Option<UserStackMap>)
        ensures { self.new ≡ record self.old { map = map } }
    {
        self.map = map;
    }

    /// The stack map that is kept. It is kept no longer.
    pub fn take_stack_map(&mut self) -> Option<UserStackMap>
        ensures taken { result ≡ self.old.map }
        ensures rest { self.new ≡ record self.old { map = None } }
    {
        self.map.take()
    }

    /// The frame.
    pub fn frame_layout(&self) -> &FrameLayout
        ensures { result.now ≡ self.now.frame }
    {
        &self.frame
    }
}
