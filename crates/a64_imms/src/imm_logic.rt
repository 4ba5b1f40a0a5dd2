//! The immediate of logical instructions.

ghost use Rattle.std.specs.Prelude.{◌≡◌, ℕ, ◌<◌, ◌+◌, ◌-◌, ◌*◌, ◌^◌, false, Some, IfSome, IfNone};
ghost use Rattle.std.specs.Bool.{Decides};
ghost use Rattle.a64_base.specs.declared.size.OperandSize.TheVariants.{Size32};
ghost use Rattle.a64_imms.specs.declared.run.Run.{Run};
ghost use Rattle.a64_imms.specs.Texts.{number_text};
ghost use Rattle.a64_imms.specs.Runs.{number, IsRun};
ghost use Rattle.a64_imms.specs.Logic.{size_for, seen, counted, logic_value, logic_field, IsLogicValue, HasTriple, IsLogicOf, IsImmLogic, is_imm_logic, inverted, logic_with, logic_at};
ghost use Rattle.a64_imms.specs.LogicLaws.{logic_within, one_logic};

use crate::class::ImmClass;
use crate::run::{Period, Run};
use crate::text::text_of_number;
use a64_base::{IrType, OperandSize, PrettyPrint, Text};
use std::alloc::Global;

/// An immediate of a logical instruction, as the Arm manual's `DecodeBitMasks` reads it: a run of
/// ones in 2, 4, 8, 16, 32 or 64 bits, rotated right and repeated.
#[derive(Clone, Copy, Debug, PartialEq, Eq)]
pub struct ImmLogic {
    value: u64,
    /// Whether the run is one of 64 bits.
    pub n: bool,
    /// By how many places the run is rotated to the right.
    pub r: u8,
    /// A prefix that tells the length of the run's word, and behind it the number of ones less 1.
    pub s: u8,
    /// The size of the instruction.
    pub size: OperandSize,
}

/// The size of logical instructions on values of a type: `I32` and `I64` have one.
fn logic_size(ty: IrType) -> Option<OperandSize>
    ensures { result ≡ size_for ty }
{
    match ty {
        IrType::I32 => Some(OperandSize::Size32),
        IrType::I64 => Some(OperandSize::Size64),
        _ => None,
    }
}

/// The number that an instruction of this size makes of a value: of 32 bits it takes the low half
/// twice.
fn seen_at(size: OperandSize, value: u64) -> u64
    ensures { result ≡ seen size value }
{
    match size {
        OperandSize::Size32 => {
            let low = value % (1 << 32);
            (low << 32) + low
        }
        OperandSize::Size64 => value,
    }
}

impl ImmLogic {
    /// The immediate of a value at this size, where the run is that of the number seen.
    fn of_run(value: u64, size: OperandSize, run: Run) -> ImmLogic
        requires run { IsRun run }
        requires number { number run ≡ seen size value }
        ensures lawful { IsLogicOf size value result }
        ensures fields { result ≡ logic_with size value run }
    {
        ImmLogic {
            value,
            n: run.period == Period::SixtyFour,
            r: run.turn as u8,
            s: run.period.prefix() + (run.ones - 1) as u8,
            size,
        }
    }

    /// The immediate of a value at the type `I32` or `I64`.
    ///
    /// At `I32` the low 32 bits count alone, but the value keeps all its bits.
    pub fn maybe_from_u64(value: u64, ty: IrType) -> Option<ImmLogic>
        ensures none { IfNone result
            ((size : _) → size_for ty ≡ Some size → ¬ IsLogicValue size value) }
        ensures some { IfSome result
            (λ imm. (size_for ty ≡ Some imm.size) × IsLogicOf imm.size value imm) }
        // Only one run has the number.
        ensures one { IfSome result (λ imm. (run : Run) → IsRun run
            → number run ≡ seen imm.size value → HasTriple run imm) }
        ensures immediate { result ≡ logic_at ty value }
    {
        let size = logic_size(ty)?;
        let number = seen_at(size, value);
        match Run::find(number) {
            Some(run) if run.number() == number => Some(ImmLogic::of_run(value, size, run)),
            _ => None,
        }
    }

    /// Whether the public fields are those that the constructor gives for the value and the size.
    #[tactic(auto, using(crate::proofs::LogicRuns::size_of_type))]
    pub fn is_lawful(&self) -> bool
        ensures test { result ≡ is_imm_logic self.now }
        ensures lawful { Decides result (IsImmLogic self.now) }
    {
        match ImmLogic::maybe_from_u64(self.value, self.size.to_ty()) {
            Some(imm) => imm.n == self.n && imm.r == self.r && imm.s == self.s,
            None => false,
        }
    }

    /// The field's bits: N is bit 12, R bits 11 to 6, and S bits 5 to 0.
    pub fn enc_bits(&self) -> u32
        requires { IsImmLogic self.now }
        ensures value { result ≡ logic_field self.now }
        ensures below { result < 2 ^ 13 }
        ensures narrow { self.now.size ≡ Size32 → result < 2 ^ 12 }
    {
        4096 * u32::from(self.n) + 64 * u32::from(self.r) + u32::from(self.s)
    }

    /// The value that the immediate was made of, with all its bits.
    pub fn value(&self) -> u64
        ensures { result ≡ logic_value self.now }
    {
        self.value
    }

    /// The immediate of the complement.
    pub fn invert(&self) -> ImmLogic
        requires { IsImmLogic self.now }
        ensures lawful { IsImmLogic result }
        ensures value { logic_value result ≡ 2 ^ 64 - 1 - logic_value self.now }
        ensures size { result.size ≡ self.now.size }
        ensures fields { result ≡ inverted self.now }
    {
        ImmLogic::maybe_from_u64(!self.value, self.size.to_ty()).unwrap()
    }
}

/// `#` and the value.
impl PrettyPrint for ImmLogic {
    ghost text = { λ imm _. number_text (logic_value imm) };

    ghost can_print = { λ imm _. IsImmLogic imm };

    fn pretty_print(&self, alloc: Global, _size_bytes: u8) -> Text {
        text_of_number(alloc, self.value)
    }
}

impl ImmClass for ImmLogic {
    type Parameter = OperandSize;

    type Value = u64;

    ghost set = { IsLogicValue };

    ghost lawful = { λ size imm. IsLogicOf size (logic_value imm) imm };

    ghost value = { λ size imm. counted size (logic_value imm) };

    ghost field = { λ _. logic_field };

    ghost within = { logic_within };

    ghost one_value = { one_logic };
}
