//! Numbers whose texts differ in the last two digits alone.

ghost use Rattle.std.specs.Prelude.{◌≡◌, ◌+◌, ◌-◌, ◌^◌, ◌<◌, ◌≤◌, ◌++◌, drop, take, IfSome};
ghost use Rattle.a64_report.specs.Kept.{Shares, last_digits};

use crate::line::LineBuffer;

/// The two digits of each number below 100.
static PAIRS: [u8; 200] =
    *b"00010203040506070809101112131415161718192021222324252627282930313233343536373839404142434445464748495051525354555657585960616263646566676869707172737475767778798081828384858687888990919293949596979899";

/// The `span` numbers from `first` on. Their texts differ in the last two digits alone.
#[derive(Clone, Copy)]
pub struct Hundred {
    first: u64,
    span: u64,
}

impl Hundred {
    /// Those of which this number is one. None, where the number has no more than two digits.
    pub fn of(number: u64) -> Hundred
        ensures { Shares result.first result.span number }
    {
        if number < 100 {
            return Hundred { first: 0, span: 0 };
        }
        let first = number / 100 * 100;
        Hundred {
            first,
            span: (u64::MAX - first).min(100),
        }
    }

    /// The first of them.
    #[inline(always)]
    pub fn first(self) -> u64
        ensures { result ≡ self.first }
    {
        self.first
    }

    /// How many of them there are from this number on: none, where it is not one of them.
    #[inline(always)]
    pub fn count_from(self, number: u64) -> u64
        requires { self.first + self.span < 2 ^ 64 }
        ensures some { 0 < result → (self.first ≤ number)
            × (number + result ≡ self.first + self.span) }
        ensures all { self.first ≤ number → number ≤ self.first + self.span
            → number + result ≡ self.first + self.span }
    {
        self.span.saturating_sub(number.wrapping_sub(self.first))
    }

    /// How far the number is behind the first of them, where it is one of them.
    #[inline(always)]
    pub fn offset_of(self, number: u64) -> Option<u64>
        requires { self.first + self.span < 2 ^ 64 }
        ensures { IfSome result (λ offset. (number ≡ self.first + offset)
            × (offset < self.span)) }
    {
        let offset = number.wrapping_sub(self.first);
        if offset < self.span {
            Some(offset)
        } else {
            None
        }
    }
}

/// Writes the last two digits of a number before `end`: those of its offset behind a multiple of 100.
#[inline(always)]
pub fn write_last(line: &mut LineBuffer, end: usize, offset: u64)
    requires place { (2 ≤ end) × (end ≤ 128) }
    requires near { offset < 100 }
    ensures { line.new ≡ take (end - 2) line.old ++ (last_digits offset ++ drop end line.old) }
{
    let from = offset as usize * 2;
    line[end - 2..end].copy_from_slice(&PAIRS[from..from + 2]);
}
