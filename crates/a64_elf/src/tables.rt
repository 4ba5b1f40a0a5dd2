//! The tables of an object: its symbols with their names, and its relocations.

ghost use Rattle.std.specs.Prelude.{◌≡◌, ◌⊎◌, ◌+◌, ◌<◌, ◌≤◌, ◌^◌, ◌++◌, IfOk, OnOk, IfErr, length};
ghost use Rattle.std.specs.List.{flat_map};
ghost use Rattle.a64_elf.specs.declared.error.ElfError.TheVariants.{OutOfMemory, TooLarge};
ghost use Rattle.a64_elf.specs.Symbols.{AllHaveSymbols, global_entries, global_entry, global_named};
ghost use Rattle.a64_elf.specs.Symbols.{mark_entry, relocation_entry, symbol_entry, symbol_names};
ghost use Rattle.a64_elf.specs.Symbols.{symbol_table};

use crate::error::ElfError;
use crate::fields::{put_halves, put_longs, put_words};
use crate::layout::LIMIT;
use crate::object::{Global, Mark, Relocation};
use std::alloc::{AllocError, Global as Heap};

/// The symbols of an object, and their names.
#[derive(Drop)]
pub(crate) struct SymbolTables {
    /// The entries.
    pub symbols: Vec<u8>,
    /// The names, each with a NUL behind it, behind a NUL.
    pub names: Vec<u8>,
}

/// Appends the entry of a symbol whose name stands at this place among the names.
fn put_symbol(
    symbols: &mut Vec<u8>,
    name: u32,
    info: u8,
    section: u16,
    place: u32,
) -> Result<(), AllocError>
    ensures { OnOk result (symbols.new.items
        ≡ symbols.old.items ++ symbol_entry name info section place) }
{
    put_words(symbols, &[name])?;
    symbols.extend_from_slice(&[info, 0])?;
    put_halves(symbols, &[section])?;
    put_longs(symbols, &[u64::from(place), 0])
}

/// Appends the entries of marks.
fn put_marks(symbols: &mut Vec<u8>, marks: &[Mark]) -> Result<(), AllocError>
    ensures { OnOk result (symbols.new.items
        ≡ symbols.old.items ++ flat_map mark_entry marks.now) }
{
    for mark in marks {
        put_symbol(symbols, mark.kind.name(), 0, 1, mark.place)?;
    }
    Ok(())
}

/// Appends the entry of a global symbol.
fn put_global(symbols: &mut Vec<u8>, name: u32, place: Option<u32>) -> Result<(), AllocError>
    ensures { OnOk result (symbols.new.items
        ≡ symbols.old.items ++ global_entry name place) }
{
    match place {
        Some(place) => put_symbol(symbols, name, 16, 1, place),
        None => put_symbol(symbols, name, 16, 0, 0),
    }
}

/// Appends the entries of global symbols, and their names.
fn put_globals(
    symbols: &mut Vec<u8>,
    names: &mut Vec<u8>,
    globals: &[Global],
) -> Result<(), ElfError>
    ensures entries { OnOk result (symbols.new.items
        ≡ symbols.old.items ++ global_entries (length names.old.items) globals.now) }
    ensures names { OnOk result (names.new.items
        ≡ names.old.items ++ flat_map global_named globals.now) }
    ensures err { IfErr result (λ error. (error ≡ OutOfMemory) ⊎ ((error ≡ TooLarge)
        × (2 ^ 32 ≤ length (names.old.items ++ flat_map global_named globals.now)))) }
{
    for global in globals {
        if names.len() >= LIMIT {
            return Err(ElfError::TooLarge);
        }
        put_global(symbols, names.len() as u32, global.place)?;
        names.extend_from_slice(global.name.as_slice())?;
        names.push(0)?;
    }
    Ok(())
}

/// The tables of symbols.
pub(crate) fn symbol_tables(
    alloc: Heap,
    marks: &[Mark],
    globals: &[Global],
) -> Result<SymbolTables, ElfError>
    ensures symbols { IfOk result (λ tables. tables.symbols.items
        ≡ symbol_table marks.now globals.now) }
    ensures names { IfOk result (λ tables. tables.names.items ≡ symbol_names globals.now) }
    ensures err { IfErr result (λ error. (error ≡ OutOfMemory) ⊎ ((error ≡ TooLarge)
        × (2 ^ 32 ≤ length (symbol_names globals.now)))) }
{
    let mut names = Vec::new(alloc);
    let mut symbols = Vec::new(alloc);
    names.extend_from_slice(b"\0$x\0$d\0")?;
    symbols.extend_from_slice(&[0; 24])?;
    put_marks(&mut symbols, marks)?;
    put_globals(&mut symbols, &mut names, globals)?;
    Ok(SymbolTables { symbols, names })
}

/// Appends the entry of a relocation, where the global symbols have numbers from this on.
fn put_relocation(table: &mut Vec<u8>, first: u64, relocation: Relocation) -> Result<(), AllocError>
    requires { first + relocation.symbol < 2 ^ 32 }
    ensures { OnOk result (table.new.items ≡ table.old.items ++ relocation_entry first relocation) }
{
    let symbol = first + u64::from(relocation.symbol);
    let info = symbol * 0x1_0000_0000 + u64::from(relocation.kind.number());
    let addend = relocation.addend.cast_unsigned();
    put_longs(table, &[u64::from(relocation.place), info, addend])
}

/// The table of relocations, where the global symbols have numbers from this on.
pub(crate) fn relocation_table(
    alloc: Heap,
    first: u64,
    relocations: &[Relocation],
) -> Result<Vec<u8>, AllocError>
    requires { AllHaveSymbols first relocations.now }
    ensures { IfOk result (λ table. table.items
        ≡ flat_map (relocation_entry first) relocations.now) }
{
    let mut table = Vec::new(alloc);
    for relocation in relocations {
        put_relocation(&mut table, first, *relocation)?;
    }
    Ok(table)
}
