//! A map from numbers as a table and a tree.

ghost use Rattle.std.specs.Prelude.{◌≡◌, ◌<◌, ◌≤◌, ◌^◌, ◌++◌, [], ◌∷◌, ℕ, None, IfOk, OnOk, OnErr, length, max, option_copied, slice_index_or, vec_len, vec_capacity};
ghost use Rattle.std.specs.FinMap as map;
ghost use Rattle.std.specs.Ordering.{nat_cmp};
ghost use Rattle.std.specs.BTreeMap.{IsOrdered};
ghost use Rattle.a64_label_map.specs.Shared.{numbered, whole, AreShared};

use std::alloc::{AllocError, Global};
use std::collections::BTreeMap;

/// The value of a number.
#[inline(always)]
pub fn value_at<V: Copy>(table: &[Option<V>], others: &BTreeMap<u32, V>, number: u32) -> Option<V>
    requires { AreShared table.now others.now }
    ensures { result ≡ map.get (whole table.now others.now) number }
{
    let index = number as usize;
    if index < table.len() {
        return table[index];
    }
    others.get(&number).copied()
}

/// The value of a number, where it stands.
#[inline(always)]
pub fn place_of<'m, V>(
    table: &'m [Option<V>],
    others: &'m BTreeMap<u32, V>,
    number: u32,
) -> Option<&'m V>
    requires { AreShared table.now others.now }
    ensures { option_copied result ≡ map.get (whole table.now others.now) number }
{
    let index = number as usize;
    if index < table.len() {
        return table[index].as_ref();
    }
    others.get(&number)
}

/// Lengthens a table that has room, by numbers without a value.
fn pad<V: Copy>(table: &mut Vec<Option<V>>, end: usize)
    requires room { end ≤ vec_capacity table.old }
    ensures values { (n : ℕ) → slice_index_or table.new.items n None
        ≡ slice_index_or table.old.items n None }
    ensures length { length table.new.items ≡ max (length table.old.items) end }
{
    if end <= table.len() {
        return;
    }
    match table.resize(end, None) {
        Ok(()) => {}
        Err(_) => unreachable!(),
    }
}

/// Lengthens a table that has room, and moves into it the values of the numbers that it gets.
pub fn extend<V: Copy>(table: &mut Vec<Option<V>>, others: &mut BTreeMap<u32, V>, end: usize)
    requires shared { AreShared table.old.items others.old }
    requires room { end ≤ vec_capacity table.old }
    requires short { end ≤ 2 ^ 32 }
    ensures shared { AreShared table.new.items others.new }
    ensures whole { whole table.new.items others.new ≡ whole table.old.items others.old }
    ensures length { length table.new.items ≡ max (length table.old.items) end }
{
    if others.is_empty() {
        pad(table, end);
        return;
    }
    for number in table.len()..end {
        let value = others.remove(&(number as u32));
        table.push_reserved(value);
    }
}

/// Gives a number a value, and answers the one that it had.
#[inline(always)]
pub fn put<V: Copy>(
    table: &mut [Option<V>],
    others: &mut BTreeMap<u32, V>,
    number: u32,
    value: V,
) -> Result<Option<V>, AllocError>
    requires { AreShared table.old others.old }
    ensures shared { AreShared table.new others.new }
    ensures old { IfOk result (λ old. old ≡ map.get (whole table.old others.old) number) }
    ensures ok { OnOk result (whole table.new others.new
        ≡ map.insert (whole table.old others.old) number value) }
    ensures err { OnErr result (whole table.new others.new ≡ whole table.old others.old) }
    ensures absent { OnErr result (map.get (whole table.old others.old) number ≡ None) }
{
    let index = number as usize;
    if index < table.len() {
        let old = table[index];
        table[index] = Some(value);
        return Ok(old);
    }
    Ok(others.insert(number, value)?)
}

/// The numbers of a table with their values, by number.
pub fn list_table<V: Copy>(alloc: Global, table: &[Option<V>]) -> Result<Vec<(u32, V)>, AllocError>
    requires { length table.now ≤ 2 ^ 32 }
    ensures { IfOk result (λ list. list.items ≡ numbered 0 table.now) }
{
    let mut list = Vec::with_capacity(alloc, table.len())?;
    for number in 0..table.len() {
        let value = table[number];
        let Some(value) = value else {
            continue;
        };
        list.push_reserved((number as u32, value));
    }
    Ok(list)
}

/// A list, and behind it the numbers of a tree with their values, by number.
pub fn list_others<V: Copy>(
    mut list: Vec<(u32, V)>,
    others: &BTreeMap<u32, V>,
) -> Result<Vec<(u32, V)>, AllocError>
    ensures items { IfOk result (λ all. all.items ≡ list.items ++ others.now.entries) }
    ensures ordered { IsOrdered nat_cmp others.now }
{
    for (number, value) in others {
        list.push((*number, *value))?;
    }
    Ok(list)
}
