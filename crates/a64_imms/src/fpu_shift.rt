//! The amounts of shifts in floating-point registers.

ghost use Rattle.std.specs.Prelude.{◌≡◌, ℕ, ◌<◌, ◌≤◌, ◌+◌, ◌-◌, ◌*◌, MatchOption};
ghost use Rattle.a64_imms.specs.Texts.{number_text};
ghost use Rattle.a64_imms.specs.FpuShifts.{IsLane, IsLeftShift, IsRightShift};
ghost use Rattle.a64_imms.specs.Laws.{one_left, one_right};

use crate::class::ImmClass;
use crate::text::text_of_number;
use a64_base::{PrettyPrint, Text};
use std::alloc::Global;

/// The amount of a left shift of a lane.
#[derive(Clone, Copy, Debug)]
pub struct FPULeftShiftImm {
    /// The amount in bits, below the lane's size.
    pub amount: u8,
    /// The lane's size, 32 or 64 bits.
    pub lane_size_in_bits: u8,
}

impl FPULeftShiftImm {
    /// The shift by an amount below the lane's size.
    pub fn maybe_from_u8(amount: u8, lane_size_in_bits: u8) -> Option<FPULeftShiftImm>
        requires { IsLane lane_size_in_bits }
        ensures { MatchOption result (¬ IsLeftShift lane_size_in_bits amount)
            (λ imm. IsLeftShift lane_size_in_bits amount
            × (imm.amount ≡ amount) × (imm.lane_size_in_bits ≡ lane_size_in_bits)) }
    {
        if amount < lane_size_in_bits {
            Some(FPULeftShiftImm {
                amount,
                lane_size_in_bits,
            })
        } else {
            None
        }
    }

    /// The field: the lane's size plus the amount.
    pub fn enc(&self) -> u32
        requires { IsLeftShift self.now.lane_size_in_bits self.now.amount }
        ensures value { result ≡ self.now.lane_size_in_bits + self.now.amount }
        ensures below { result < 128 }
    {
        u32::from(self.lane_size_in_bits) + u32::from(self.amount)
    }
}

/// `#` and the amount.
impl PrettyPrint for FPULeftShiftImm {
    ghost text = { λ imm _. number_text imm.amount };

    ghost can_print = { λ imm _. IsLeftShift imm.lane_size_in_bits imm.amount };

    fn pretty_print(&self, alloc: Global, _size_bytes: u8) -> Text {
        text_of_number(alloc, u64::from(self.amount))
    }
}

impl ImmClass for FPULeftShiftImm {
    type Parameter = u8;

    type Value = u8;

    ghost set = { IsLeftShift };

    ghost lawful = { λ lane imm. (imm.lane_size_in_bits ≡ lane) × IsLeftShift lane imm.amount };

    ghost value = { λ _ imm. imm.amount };

    ghost field = { λ lane imm. lane + imm.amount };

    ghost within = { λ _ _ lawful. lawful.1 };

    ghost one_value = { λ lane x y of_x of_y. one_left lane x.amount y.amount of_x.1 of_y.1 };
}

/// The amount of a right shift of a lane.
#[derive(Clone, Copy, Debug)]
pub struct FPURightShiftImm {
    /// The amount in bits, from 1 to the lane's size.
    pub amount: u8,
    /// The lane's size, 32 or 64 bits.
    pub lane_size_in_bits: u8,
}

impl FPURightShiftImm {
    /// The shift by an amount from 1 to the lane's size.
    pub fn maybe_from_u8(amount: u8, lane_size_in_bits: u8) -> Option<FPURightShiftImm>
        requires { IsLane lane_size_in_bits }
        ensures { MatchOption result (¬ IsRightShift lane_size_in_bits amount)
            (λ imm. IsRightShift lane_size_in_bits amount
            × (imm.amount ≡ amount) × (imm.lane_size_in_bits ≡ lane_size_in_bits)) }
    {
        if amount > 0 && amount <= lane_size_in_bits {
            Some(FPURightShiftImm {
                amount,
                lane_size_in_bits,
            })
        } else {
            None
        }
    }

    /// The field: twice the lane's size less the amount.
    pub fn enc(&self) -> u32
        requires { IsRightShift self.now.lane_size_in_bits self.now.amount }
        ensures value { result ≡ 2 * self.now.lane_size_in_bits - self.now.amount }
        ensures below { result < 128 }
    {
        2 * u32::from(self.lane_size_in_bits) - u32::from(self.amount)
    }
}

/// `#` and the amount.
impl PrettyPrint for FPURightShiftImm {
    ghost text = { λ imm _. number_text imm.amount };

    ghost can_print = { λ imm _. IsRightShift imm.lane_size_in_bits imm.amount };

    fn pretty_print(&self, alloc: Global, _size_bytes: u8) -> Text {
        text_of_number(alloc, u64::from(self.amount))
    }
}

impl ImmClass for FPURightShiftImm {
    type Parameter = u8;

    type Value = u8;

    ghost set = { IsRightShift };

    ghost lawful = { λ lane imm. (imm.lane_size_in_bits ≡ lane) × IsRightShift lane imm.amount };

    ghost value = { λ _ imm. imm.amount };

    ghost field = { λ lane imm. 2 * lane - imm.amount };

    ghost within = { λ _ _ lawful. lawful.1 };

    ghost one_value = { λ lane x y of_x of_y. one_right lane x.amount y.amount of_x.1 of_y.1 };
}
