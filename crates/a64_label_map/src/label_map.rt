//! A map from numbers.

ghost use Rattle.std.specs.Prelude.{◌≡◌, ◌*◌, ◌^◌, ◌<◌, ◌≤◌, IfOk, OnOk, OnErr, IsSome, option_copied};
ghost use Rattle.std.specs.FinMap as map;
ghost use Rattle.std.specs.Ordering.{nat_cmp};

use crate::shared::{extend, list_others, list_table, place_of, put, value_at};
use std::alloc::{AllocError, Global};
use std::collections::BTreeMap;
use std::marker::Model;

/// A map from numbers to values, which contracts see as a finite map.
///
/// The values of small numbers stand in a table, which has two entries at most for each number that has a
/// value or is expected, and 128 more. So a number costs a step of the table where most numbers are dense,
/// and a search of a tree where it lies far beyond the others.
#[derive(Drop)]
pub struct LabelMap<V> {
    /// The values of the numbers below the table's length.
    table: Vec<Option<V>>,
    /// The values of the other numbers.
    others: BTreeMap<u32, V>,
    /// How many numbers have a value.
    count: u64,
    /// How many numbers more are expected.
    expected: u64,
}

impl<V> Model for LabelMap<V> {
    ghost use Rattle.std.specs.Coded.{coded_ℕ};
    ghost use Rattle.std.specs.Ordering.{nat_cmp};
    ghost use Rattle.std.specs.FinMap.{FinMap, code};
    ghost use Rattle.a64_label_map.specs.Shared.{whole, IsBalanced};

    ghost Value = { FinMap nat_cmp V };

    ghost coded = { code coded_ℕ V.code };

    ghost view = { λ a. whole a.table.items a.others };

    ghost invariant = { λ a. IsBalanced a.table.items a.others a.count a.expected };
}

/// The length of a table that gets at least another length, and no more than a bound: twice its own and
/// eight more where it may, so that it seldom grows.
fn grown(len: usize, least: usize, bound: u64) -> usize
    requires short { least ≤ 2 ^ 32 }
    requires within { least ≤ bound }
    ensures least { least ≤ result }
    ensures most { result ≤ bound }
    ensures short { result ≤ 2 ^ 32 }
{
    let most = bound.min(1 << 32) as usize;
    len.saturating_mul(2).saturating_add(8).min(most).max(least)
}

impl<V: Copy> LabelMap<V> {
    /// A map without numbers. It takes no memory.
    pub fn new(alloc: Global) -> Self
        ensures { result ≡ map.empty }
    {
        LabelMap {
            table: Vec::new(alloc),
            others: BTreeMap::new(alloc),
            count: 0,
            expected: 0,
        }
    }

    /// Expects so many numbers more: the table may be as long as if they had values. It takes no memory.
    pub fn expect(&mut self, more: usize)
        ensures { self.new ≡ self.old }
    {
        self.expected = self.expected.saturating_add(more as u64);
    }

    /// The value of a number; `None` where it has none.
    #[inline(always)]
    pub fn get(&self, number: u32) -> Option<V>
        ensures { result ≡ map.get self.now number }
    {
        value_at(&self.table, &self.others, number)
    }

    /// The value of a number, where it stands; `None` where the number has none.
    #[inline(always)]
    pub fn get_ref(&self, number: u32) -> Option<&V>
        ensures { option_copied result ≡ map.get self.now number }
    {
        place_of(&self.table, &self.others, number)
    }

    /// Whether a number has a value.
    #[inline(always)]
    pub fn contains(&self, number: u32) -> bool
        ensures { result ≡ map.contains_key self.now number }
    {
        self.get(number).is_some()
    }

    /// Lengthens the table to have a number, where there are entries enough for such a table.
    #[inline(always)]
    fn make_room(&mut self, number: u32) -> Result<(), AllocError>
        ensures { self.new ≡ self.old }
    {
        if (number as usize) < self.table.len() {
            return Ok(());
        }
        self.lengthen(number)
    }

    /// Lengthens the table to have a number that is behind it, where there are entries enough for such
    /// a table.
    #[inline(never)]
    fn lengthen(&mut self, number: u32) -> Result<(), AllocError>
        ensures { self.new ≡ self.old }
    {
        let len = self.table.len();
        let least = number as usize + 1;
        if least <= len {
            return Ok(());
        }
        let entries = self.count.saturating_add(self.expected);
        let bound = entries.saturating_add(64).saturating_mul(2);
        if least as u64 > bound {
            return Ok(());
        }
        let end = grown(len, least, bound);
        self.table.reserve(end - len)?;
        extend(&mut self.table, &mut self.others, end);
        Ok(())
    }

    /// Gives a number a value, and answers the one that it had.
    ///
    /// # Errors
    ///
    /// Want of memory, and then nothing has changed.
    #[inline(always)]
    pub fn insert(&mut self, number: u32, value: V) -> Result<Option<V>, AllocError>
        ensures old { IfOk result (λ old. old ≡ map.get self.old number) }
        ensures ok { OnOk result (self.new ≡ map.insert self.old number value) }
        ensures err { OnErr result (self.new ≡ self.old) }
    {
        self.make_room(number)?;
        let old = put(&mut self.table, &mut self.others, number, value)?;
        if old.is_none() {
            self.count += 1;
        }
        Ok(old)
    }

    /// Gives a number that has a value another one. It takes no memory.
    #[inline(always)]
    pub fn replace(&mut self, number: u32, value: V)
        requires { IsSome (map.get self.old number) }
        ensures { self.new ≡ map.insert self.old number value }
    {
        match put(&mut self.table, &mut self.others, number, value) {
            Ok(_) => {}
            Err(_) => unreachable!(),
        }
    }

    /// The numbers with their values, by number.
    ///
    /// # Errors
    ///
    /// Want of memory.
    pub fn entries(&self, alloc: Global) -> Result<Vec<(u32, V)>, AllocError>
        ensures { IfOk result (λ list. list.items ≡ map.entries self.now) }
    {
        let list = list_table(alloc, &self.table)?;
        let list = list_others(list, &self.others)?;
        Ok(list)
    }
}
