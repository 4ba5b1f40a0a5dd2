//! Rotated runs of ones: the numbers that logical instructions can hold.

ghost use Rattle.std.specs.Prelude.{◌≡◌, ◌≢◌, ℕ, ◌<◌, ◌≤◌, ◌+◌, ◌-◌, ◌*◌, ◌/◌, ◌%◌, ◌^◌, ◌==◌, if◌then◌else◌, Some, IfSome, MatchOption};
ghost use Rattle.std.specs.Int.{w64, trailing_zeros, trailing_ones};
ghost use Rattle.a64_imms.specs.Runs.{width, prefix, ones_apart, turn_to, number, IsRun};

/// The length of the pattern that a number of 64 bits repeats.
#[derive(Clone, Copy, Debug, PartialEq, Eq)]
pub enum Period {
    /// Two bits.
    Two,
    /// Four bits.
    Four,
    /// Eight bits.
    Eight,
    /// 16 bits.
    Sixteen,
    /// 32 bits.
    ThirtyTwo,
    /// All 64 bits.
    SixtyFour,
}

impl Period {
    /// The period of so many bits.
    pub fn from_bits(bits: u32) -> Option<Period>
        ensures { MatchOption result ((period : Period)
            → width period ≢ bits) (λ period. width period ≡ bits) }
    {
        match bits {
            2 => Some(Period::Two),
            4 => Some(Period::Four),
            8 => Some(Period::Eight),
            16 => Some(Period::Sixteen),
            32 => Some(Period::ThirtyTwo),
            64 => Some(Period::SixtyFour),
            _ => None,
        }
    }

    /// The number of bits.
    pub fn bits(self) -> u32
        ensures { result ≡ width self }
    {
        match self {
            Period::Two => 2,
            Period::Four => 4,
            Period::Eight => 8,
            Period::Sixteen => 16,
            Period::ThirtyTwo => 32,
            Period::SixtyFour => 64,
        }
    }

    /// What the field `S` has in front of the number of ones.
    pub fn prefix(self) -> u8
        ensures { result ≡ prefix self }
    {
        match self {
            Period::Two => 0b111100,
            Period::Four => 0b111000,
            Period::Eight => 0b110000,
            Period::Sixteen => 0b100000,
            Period::ThirtyTwo | Period::SixtyFour => 0,
        }
    }

    /// The number of 64 bits with a one at each multiple of the period.
    fn ones_apart(self) -> u64
        ensures { result ≡ ones_apart self }
    {
        match self {
            Period::Two => 0x5555_5555_5555_5555,
            Period::Four => 0x1111_1111_1111_1111,
            Period::Eight => 0x0101_0101_0101_0101,
            Period::Sixteen => 0x0001_0001_0001_0001,
            Period::ThirtyTwo => 0x0000_0001_0000_0001,
            Period::SixtyFour => 1,
        }
    }
}

/// So many ones in a word of the period's length, rotated right by `turn`.
#[derive(Clone, Copy, Debug)]
pub struct Run {
    /// The length of the word.
    pub period: Period,
    /// The number of ones, from 1 to one less than the period.
    pub ones: u32,
    /// By how many places they are rotated to the right, below the period.
    pub turn: u32,
}

/// The lowest ones of a number: where they begin, how many they are, and how far ahead the next
/// ones begin, which is 64 where there are none.
#[derive(Clone, Copy)]
struct Stretch {
    start: u32,
    length: u32,
    spacing: u32,
}

/// The complement of an odd number, and else the number.
fn made_even(value: u64) -> u64
    ensures { result ≡ (if value % 2 == 1 then 2 ^ 64 - 1 - value else value) }
{
    if value % 2 == 1 { !value } else { value }
}

/// The lowest ones of an even number that is not 0.
fn lowest_stretch(value: u64) -> Stretch
    requires some { 0 < value }
    requires even { value % 2 ≡ 0 }
    ensures start { result.start ≡ trailing_zeros w64 value }
    ensures length { result.length ≡ trailing_ones w64 (value / 2 ^ result.start) }
    ensures spacing { result.spacing
        ≡ (if value / 2 ^ result.start / 2 ^ result.length == 0 then 64
        else result.length + trailing_zeros w64 (value / 2 ^ result.start / 2 ^ result.length)) }
    ensures ones { 0 < result.length }
    ensures within { result.length < result.spacing }
{
    let start = value.trailing_zeros();
    let ones = value >> start;
    let length = ones.trailing_ones();
    let rest = ones.unbounded_shr(length);
    let spacing = if rest == 0 {
        64
    } else {
        length + rest.trailing_zeros()
    };
    Stretch {
        start,
        length,
        spacing,
    }
}

/// The run whose lowest ones, or for an odd number lowest zeros, these are.
fn run_at(stretch: Stretch, period: Period, odd: bool) -> Run
    requires spacing { width period ≡ stretch.spacing }
    requires length { stretch.length ≤ stretch.spacing }
    requires start { stretch.start ≤ 64 }
    ensures period { result.period ≡ period }
    ensures ones { result.ones
        ≡ (if odd then stretch.spacing - stretch.length else stretch.length) }
    ensures turn { result.turn ≡ turn_to stretch.spacing
        (if odd then stretch.start + stretch.length else stretch.start) }
{
    let bits = period.bits();
    let (ones, lowest) = if odd {
        (bits - stretch.length, stretch.start + stretch.length)
    } else {
        (stretch.length, stretch.start)
    };
    Run {
        period,
        ones,
        turn: (bits - lowest % bits) % bits,
    }
}

impl Run {
    /// The run of a number that has one, and else some run or none.
    ///
    /// A number that has a run has the same ones at each multiple of the period, so its lowest
    /// ones and the distance to the next ones tell the run. Such a number is its own rotation
    /// by the period, and a test of that refuses most others early.
    pub fn find(value: u64) -> Option<Run>
        ensures run { IfSome result IsRun }
        ensures found { (run : Run) → IsRun run → number run ≡ value → result ≡ Some run }
    {
        let even = made_even(value);
        if even == 0 {
            return None;
        }
        let stretch = lowest_stretch(even);
        if value.rotate_right(stretch.spacing) != value {
            return None;
        }
        let Some(period) = Period::from_bits(stretch.spacing) else {
            return None;
        };
        Some(run_at(stretch, period, value % 2 == 1))
    }

    /// The number of the run.
    pub fn number(&self) -> u64
        requires { IsRun self.now }
        ensures { result ≡ number self.now }
    {
        let ones = (1u64 << self.ones) - 1;
        (ones * self.period.ones_apart()).rotate_right(self.turn)
    }
}
