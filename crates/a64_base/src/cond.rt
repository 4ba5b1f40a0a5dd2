//! Conditions of branches and of conditional instructions.

ghost use Rattle.std.specs.Prelude.{◌≡◌, ⊤};
ghost use Rattle.std.specs.Int.RustNames.{bit_xor};

use crate::reg::Reg;
use crate::size::OperandSize;
use crate::text::{PrettyPrint, Text};
use std::alloc::Global;

/// A condition on the flags (Cranelift's `Cond`; Arm manual, "Condition code encodings").
#[derive(Clone, Copy, Debug, PartialEq, Eq)]
pub enum Cond {
    /// Equal.
    Eq = 0,
    /// Not equal.
    Ne = 1,
    /// Unsigned, greater or equal.
    Hs = 2,
    /// Unsigned, less.
    Lo = 3,
    /// Negative.
    Mi = 4,
    /// Positive or zero.
    Pl = 5,
    /// Signed overflow.
    Vs = 6,
    /// No signed overflow.
    Vc = 7,
    /// Unsigned, greater.
    Hi = 8,
    /// Unsigned, less or equal.
    Ls = 9,
    /// Signed, greater or equal.
    Ge = 10,
    /// Signed, less.
    Lt = 11,
    /// Signed, greater.
    Gt = 12,
    /// Signed, less or equal.
    Le = 13,
    /// Always.
    Al = 14,
    /// Always, with the other encoding.
    Nv = 15,
}

impl Cond {
    ghost use Rattle.a64_base.specs.Conditions.{condition_bits, condition_name, inverse_of};

    /// The field `cond` of an instruction.
    pub fn bits(self) -> u32
        ensures { result ≡ condition_bits self }
    {
        self as u32
    }

    /// The condition that holds where this one does not; `Al` and `Nv` change places.
    pub fn invert(&self) -> Cond
        ensures inverse { result ≡ inverse_of self.now }
        ensures lowest_bit { condition_bits result ≡ bit_xor (condition_bits self.now) 1 }
        ensures twice { inverse_of (inverse_of self.now) ≡ self.now }
    {
        match *self {
            Cond::Eq => Cond::Ne,
            Cond::Ne => Cond::Eq,
            Cond::Hs => Cond::Lo,
            Cond::Lo => Cond::Hs,
            Cond::Mi => Cond::Pl,
            Cond::Pl => Cond::Mi,
            Cond::Vs => Cond::Vc,
            Cond::Vc => Cond::Vs,
            Cond::Hi => Cond::Ls,
            Cond::Ls => Cond::Hi,
            Cond::Ge => Cond::Lt,
            Cond::Lt => Cond::Ge,
            Cond::Gt => Cond::Le,
            Cond::Le => Cond::Gt,
            Cond::Al => Cond::Nv,
            Cond::Nv => Cond::Al,
        }
    }

    /// Its name, in lower case.
    pub fn name<'a>(self) -> &'a str
        ensures { result.now ≡ condition_name self }
    {
        match self {
            Cond::Eq => "eq",
            Cond::Ne => "ne",
            Cond::Hs => "hs",
            Cond::Lo => "lo",
            Cond::Mi => "mi",
            Cond::Pl => "pl",
            Cond::Vs => "vs",
            Cond::Vc => "vc",
            Cond::Hi => "hi",
            Cond::Ls => "ls",
            Cond::Ge => "ge",
            Cond::Lt => "lt",
            Cond::Gt => "gt",
            Cond::Le => "le",
            Cond::Al => "al",
            Cond::Nv => "nv",
        }
    }
}

impl PrettyPrint for Cond {
    ghost use Rattle.a64_base.specs.Conditions.{condition_name};

    ghost text = { λ cond _. condition_name cond };

    ghost can_print = { λ _ _. ⊤ };

    fn pretty_print(&self, alloc: Global, _size_bytes: u8) -> Text {
        String::from_str(alloc, self.name())
    }
}

/// What a conditional branch tests (Cranelift's `CondBrKind`).
#[derive(Clone, Copy, Debug)]
pub enum CondBrKind {
    /// That a register is zero, at a size.
    Zero(Reg, OperandSize),
    /// That a register is not zero, at a size.
    NotZero(Reg, OperandSize),
    /// A condition on the flags.
    Cond(Cond),
}

impl CondBrKind {
    ghost use Rattle.a64_base.specs.Conditions.{inverse_kind_of};

    /// The test that succeeds where this one fails.
    pub fn invert(&self) -> CondBrKind
        ensures inverse { result ≡ inverse_kind_of self.now }
        ensures twice { inverse_kind_of (inverse_kind_of self.now) ≡ self.now }
    {
        match *self {
            CondBrKind::Zero(reg, size) => CondBrKind::NotZero(reg, size),
            CondBrKind::NotZero(reg, size) => CondBrKind::Zero(reg, size),
            CondBrKind::Cond(cond) => CondBrKind::Cond(cond.invert()),
        }
    }
}

/// What a branch on one bit tests (Cranelift's `TestBitAndBranchKind`).
#[derive(Clone, Copy, Debug)]
pub enum TestBitAndBranchKind {
    /// That the bit is zero.
    Z,
    /// That the bit is not zero.
    NZ,
}

impl TestBitAndBranchKind {
    ghost use Rattle.a64_base.specs.Conditions.{complement_of};

    /// The test that succeeds where this one fails.
    pub fn complement(&self) -> TestBitAndBranchKind
        ensures other { result ≡ complement_of self.now }
        ensures twice { complement_of (complement_of self.now) ≡ self.now }
    {
        match *self {
            TestBitAndBranchKind::Z => TestBitAndBranchKind::NZ,
            TestBitAndBranchKind::NZ => TestBitAndBranchKind::Z,
        }
    }
}
