//! Whether virtual registers may be operands.

ghost use Rattle.std.specs.Prelude.{◌≡◌};
ghost use Rattle.a64_operand.specs.Operands.{are_allowed};

/// Whether the operands of an instruction may be virtual registers.
#[derive(Clone, Copy, Debug)]
pub enum VirtualRegisters {
    /// They may not: the instruction is to be emitted.
    Refused,
    /// A virtual register stands for some register of its class: the instruction is to be shown.
    Allowed,
}

impl VirtualRegisters {
    /// Whether they may.
    pub fn are_allowed(self) -> bool
        ensures { result ≡ are_allowed self }
    {
        matches!(self, VirtualRegisters::Allowed)
    }
}
