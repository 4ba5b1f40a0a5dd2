//! Shifts and extensions of register operands.

ghost use Rattle.std.specs.Prelude.{◌≡◌, ◌≤◌, ◌-◌, ◌++◌, ⊤, SomeIff, OnOk};
ghost use Rattle.std.specs.String.{string_bytes};
ghost use Rattle.std.specs.Int.RustNames.{bit_and};

use crate::text::{PrettyPrint, Text, push_numbered};
use std::alloc::{AllocError, Global};
use std::marker::Model;

/// How a register operand is shifted (Cranelift's `ShiftOp`).
#[derive(Clone, Copy, Debug, PartialEq, Eq)]
pub enum ShiftOp {
    /// Logical shift left.
    LSL = 0,
    /// Logical shift right.
    LSR = 1,
    /// Arithmetic shift right.
    ASR = 2,
    /// Rotation to the right.
    ROR = 3,
}

impl ShiftOp {
    ghost use Rattle.a64_base.specs.Shifts.{shift_bits, shift_name};

    /// The field `shift` of an instruction with a shifted register (Arm manual, `ADD (shifted
    /// register)`).
    pub fn bits(self) -> u8
        ensures { result ≡ shift_bits self }
    {
        self as u8
    }

    /// Its name, in capitals.
    pub fn name<'a>(self) -> &'a str
        ensures { result.now ≡ shift_name self }
    {
        match self {
            ShiftOp::LSL => "LSL",
            ShiftOp::LSR => "LSR",
            ShiftOp::ASR => "ASR",
            ShiftOp::ROR => "ROR",
        }
    }
}

/// The amount of a shift, from 0 to 63 (Cranelift's `ShiftOpShiftImm`).
#[derive(Clone, Copy, Debug)]
pub struct ShiftOpShiftImm(u8);

impl Model for ShiftOpShiftImm {
    ghost use Rattle.std.specs.Prelude.{ℕ, ◌≤◌};

    ghost Value = { ℕ };

    ghost view = { λ s. s.0 };

    ghost invariant = { λ s. s.0 ≤ 63 };

    ghost inverse = { λ n. record { 0 = n } };
}

impl ShiftOpShiftImm {
    /// The largest amount.
    pub const MAX_SHIFT: u64 = 63;

    /// The amount, where it is at most 63.
    pub fn maybe_from_shift(shift: u64) -> Option<ShiftOpShiftImm>
        ensures { SomeIff result (shift ≤ 63) shift }
    {
        if shift <= Self::MAX_SHIFT {
            Some(ShiftOpShiftImm(shift as u8))
        } else {
            None
        }
    }

    /// The amount, in bits.
    pub fn value(&self) -> u8
        ensures amount { result ≡ self.now }
        ensures in_range { result ≤ 63 }
    {
        self.0
    }

    /// The amount at a width of `bits` bits, a power of two.
    pub fn mask(self, bits: u8) -> ShiftOpShiftImm
        requires { 1 ≤ bits }
        ensures { result ≡ bit_and self (bits - 1) }
    {
        ShiftOpShiftImm(self.0 & (bits - 1))
    }
}

/// A shift and its amount (Cranelift's `ShiftOpAndAmt`).
#[derive(Clone, Copy, Debug)]
pub struct ShiftOpAndAmt {
    op: ShiftOp,
    shift: ShiftOpShiftImm,
}

impl Model for ShiftOpAndAmt {
    ghost use Rattle.a64_base.specs.ShiftParts.{Shift};

    ghost Value = { Shift };

    ghost view = { λ s. record { op = s.op; amount = s.shift } };

    ghost inverse = { λ s. record { op = s.op; shift = s.amount } };
}

impl ShiftOpAndAmt {
    ghost use Rattle.a64_base.specs.Shifts.{shift_text};

    /// A shift by an amount.
    pub fn new(op: ShiftOp, shift: ShiftOpShiftImm) -> ShiftOpAndAmt
        ensures { result ≡ record { op = op; amount = shift } }
    {
        ShiftOpAndAmt { op, shift }
    }

    /// The shift.
    pub fn op(&self) -> ShiftOp
        ensures { result ≡ self.now.op }
    {
        self.op
    }

    /// The amount.
    pub fn amt(&self) -> ShiftOpShiftImm
        ensures { result ≡ self.now.amount }
    {
        self.shift
    }

    /// Appends its text, as in `LSL 3`.
    ///
    /// # Errors
    ///
    /// Want of memory.
    pub fn push_text(&self, out: &mut String) -> Result<(), AllocError>
        ensures { OnOk result (string_bytes out.new
            ≡ string_bytes out.old ++ shift_text self.now) }
    {
        out.push_str(self.op.name())?;
        push_numbered(out, " ", self.shift.value())
    }
}

impl PrettyPrint for ShiftOpAndAmt {
    ghost use Rattle.a64_base.specs.Shifts.{shift_text};

    ghost text = { λ s _. shift_text s };

    ghost can_print = { λ _ _. ⊤ };

    fn pretty_print(&self, alloc: Global, _size_bytes: u8) -> Text {
        let mut text = String::new(alloc);
        self.push_text(&mut text)?;
        Ok(text)
    }
}

/// How a register operand is extended (Cranelift's `ExtendOp`).
#[derive(Clone, Copy, Debug)]
pub enum ExtendOp {
    /// From an unsigned byte.
    UXTB = 0,
    /// From an unsigned halfword.
    UXTH = 1,
    /// From an unsigned word.
    UXTW = 2,
    /// From an unsigned doubleword.
    UXTX = 3,
    /// From a signed byte.
    SXTB = 4,
    /// From a signed halfword.
    SXTH = 5,
    /// From a signed word.
    SXTW = 6,
    /// From a signed doubleword.
    SXTX = 7,
}

impl ExtendOp {
    ghost use Rattle.a64_base.specs.Shifts.{extend_bits, extend_name};

    /// The field `option` of an instruction with an extended register (Arm manual, `ADD (extended
    /// register)`).
    pub fn bits(self) -> u8
        ensures { result ≡ extend_bits self }
    {
        self as u8
    }

    /// Its name, in capitals.
    pub fn name<'a>(self) -> &'a str
        ensures { result.now ≡ extend_name self }
    {
        match self {
            ExtendOp::UXTB => "UXTB",
            ExtendOp::UXTH => "UXTH",
            ExtendOp::UXTW => "UXTW",
            ExtendOp::UXTX => "UXTX",
            ExtendOp::SXTB => "SXTB",
            ExtendOp::SXTH => "SXTH",
            ExtendOp::SXTW => "SXTW",
            ExtendOp::SXTX => "SXTX",
        }
    }
}

impl PrettyPrint for ExtendOp {
    ghost use Rattle.a64_base.specs.Shifts.{extend_name};

    ghost text = { λ op _. extend_name op };

    ghost can_print = { λ _ _. ⊤ };

    fn pretty_print(&self, alloc: Global, _size_bytes: u8) -> Text {
        String::from_str(alloc, self.name())
    }
}
