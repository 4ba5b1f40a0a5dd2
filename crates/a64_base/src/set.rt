//! Sets of the machine's registers.

ghost use Rattle.std.specs.Prelude.{ℕ, ◌≡◌, ◌≢◌, ◌<◌, ◌||◌, true, false};
ghost use Rattle.a64_base.specs.Bits.{has_bit};

use crate::reg::{PReg, RegClass};
use std::marker::Model;

/// 32 bits, kept as bytes, so that a value that holds them has no padding before them.
#[derive(Clone, Copy, Debug)]
struct Bits32 {
    /// The bits, the lowest eight first.
    bytes: [u8; 4],
}

impl Model for Bits32 {
    ghost use Rattle.std.specs.Prelude.{ℕ};
    ghost use Rattle.std.specs.Int.{w32, from_le_bytes, to_le_bytes};
    ghost use Rattle.std.proofs.Common.{ap, refl};
    ghost use Rattle.std.proofs.lemmas.Nat.{le_bytes_4};
    ghost use Rattle.a64_base.specs.Bytes.{AreFourBytes};

    ghost Value = { ℕ };

    ghost view = { λ b. from_le_bytes w32 b.bytes };

    ghost invariant = { λ b. AreFourBytes b.bytes };

    ghost inverse = { λ n. record { bytes = to_le_bytes w32 n } };

    ghost inverse_ok = { λ b are.
        ap (λ bytes. record { bytes = bytes }) (le_bytes_4 b.bytes _ are.length are.small refl) };
}

impl Bits32 {
    /// The bits of a number.
    #[inline]
    fn of(bits: u32) -> Bits32
        ensures { result ≡ bits }
    {
        Bits32 {
            bytes: bits.to_le_bytes(),
        }
    }

    /// The number that has these bits.
    #[inline]
    fn get(self) -> u32
        ensures { result ≡ self }
    {
        u32::from_le_bytes(self.bytes)
    }
}

/// A set of registers of the machine (Cranelift's `PRegSet`). It takes 9 bytes, at any place.
#[derive(Clone, Copy, Debug)]
pub struct PRegSet {
    /// Bit N is set where the set has the integer register N, up to 31.
    integers: Bits32,
    /// Whether the set has the stack pointer.
    stack: bool,
    /// Bit N is set where the set has the float register N.
    floats: Bits32,
}

/// Whether one bit is set.
fn is_set(bits: u32, at: u8) -> bool
    requires { at < 32 }
    ensures { result ≡ has_bit bits at }
{
    (bits >> at) & 1 == 1
}

/// The bits with one of them set.
#[tactic(auto, using(crate::proofs::Bits::bit_set, crate::proofs::Bits::other_bit_set))]
fn with_bit(bits: u32, at: u8) -> u32
    requires { at < 32 }
    ensures set { has_bit result at ≡ true }
    ensures others { (n : ℕ) → n ≢ at → has_bit result n ≡ has_bit bits n }
{
    bits | 1 << at
}

/// The bits with one of them cleared.
#[tactic(auto, using(crate::proofs::Bits::bit_cleared, crate::proofs::Bits::other_bit_cleared))]
fn without_bit(bits: u32, at: u8) -> u32
    requires { at < 32 }
    ensures cleared { has_bit result at ≡ false }
    ensures others { (n : ℕ) → n ≢ at → has_bit result n ≡ has_bit bits n }
{
    bits & !(1 << at)
}

impl PRegSet {
    ghost use Rattle.a64_base.specs.declared.reg.PReg.{PReg};
    ghost use Rattle.a64_base.specs.Sets.{has};

    /// The set without registers.
    pub fn empty() -> PRegSet
        ensures { (q : PReg) → has result q ≡ false }
    {
        PRegSet {
            integers: Bits32::of(0),
            stack: false,
            floats: Bits32::of(0),
        }
    }

    /// Puts a register into the set.
    pub fn add(&mut self, p: PReg)
        ensures added { has self.new p ≡ true }
        ensures others { (q : PReg) → q ≢ p → has self.new q ≡ has self.old q }
    {
        let number = p.hw_enc();
        match p.class() {
            RegClass::Float => self.floats = Bits32::of(with_bit(self.floats.get(), number)),
            RegClass::Int if number == 63 => self.stack = true,
            RegClass::Int => self.integers = Bits32::of(with_bit(self.integers.get(), number)),
        }
    }

    /// Takes a register out of the set.
    pub fn remove(&mut self, p: PReg)
        ensures removed { has self.new p ≡ false }
        ensures others { (q : PReg) → q ≢ p → has self.new q ≡ has self.old q }
    {
        let number = p.hw_enc();
        match p.class() {
            RegClass::Float => self.floats = Bits32::of(without_bit(self.floats.get(), number)),
            RegClass::Int if number == 63 => self.stack = false,
            RegClass::Int => self.integers = Bits32::of(without_bit(self.integers.get(), number)),
        }
    }

    /// Whether the set has a register.
    pub fn contains(&self, p: PReg) -> bool
        ensures { result ≡ has self.now p }
    {
        let number = p.hw_enc();
        match p.class() {
            RegClass::Float => is_set(self.floats.get(), number),
            RegClass::Int if number == 63 => self.stack,
            RegClass::Int => is_set(self.integers.get(), number),
        }
    }

    /// Puts all registers of another set into this one.
    #[tactic(auto, using(crate::proofs::Sets::has_joined))]
    pub fn union_from(&mut self, other: PRegSet)
        ensures { (q : PReg) → has self.new q ≡ (has self.old q || has other q) }
    {
        self.integers = Bits32::of(self.integers.get() | other.integers.get());
        self.stack |= other.stack;
        self.floats = Bits32::of(self.floats.get() | other.floats.get());
    }
}
