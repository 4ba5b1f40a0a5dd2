//! What is known of a memory access.

ghost use Rattle.std.specs.Prelude.{◌≡◌};

use crate::entity::TrapCode;
use std::marker::Model;

/// What is known of a memory access: whether it may trap, and with which code (Cranelift's
/// `MemFlagsData`). A clause sees the code, if any.
#[derive(Clone, Copy, Debug)]
pub struct MemFlagsData {
    trap: Option<TrapCode>,
}

impl Model for MemFlagsData {
    ghost use Rattle.std.specs.Prelude.{Option};
    ghost use Rattle.a64_base.specs.declared.entity.TrapCode.{TrapCode};

    ghost Value = { Option TrapCode };

    ghost view = { λ m. m.trap };

    ghost inverse = { λ code. record { trap = code } };
}

impl MemFlagsData {
    /// An access that does not trap.
    pub fn trusted() -> MemFlagsData
        ensures { result ≡ None }
    {
        MemFlagsData { trap: None }
    }

    /// An access that may trap with this code.
    pub fn with_trap(code: TrapCode) -> MemFlagsData
        ensures { result ≡ Some code }
    {
        MemFlagsData { trap: Some(code) }
    }

    /// The code of its trap, where it may trap.
    pub fn trap_code(&self) -> Option<TrapCode>
        ensures { result ≡ self.now }
    {
        self.trap
    }
}
