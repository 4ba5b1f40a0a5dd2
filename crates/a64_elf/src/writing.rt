//! Writes an object: its sections from code, symbols and relocations.

ghost use Rattle.std.specs.Prelude.{◌≡◌, ◌+◌, ◌<◌, ◌≤◌, ◌^◌, IfOk, OnOk, IfErr, length, codes};
ghost use Rattle.a64_elf.specs.Objects.{AreRelocated, HaveNames, IsObjectFault, IsObjectOf};
ghost use Rattle.a64_elf.specs.Objects.{relocation_section, sections_of, stack_section};
ghost use Rattle.a64_elf.specs.Objects.{symbol_section, text_section};
ghost use Rattle.a64_elf.specs.Sections.{string_section};

use crate::error::ElfError;
use crate::layout::{LIMIT, list_of, write_sections};
use crate::object::{Global, Object, Relocation};
use crate::section::{Alignment, Section, SectionKind};
use crate::tables::{relocation_table, symbol_tables};
use a64_list::ListVec;
use std::alloc::{AllocError, Global as Heap};

/// The section of code.
fn text_section_of(alloc: Heap, text: Vec<u8>) -> Result<Section, AllocError>
    ensures { IfOk result (λ section. section ≡ text_section text.items) }
{
    Ok(Section {
        name: list_of(alloc, b".text")?,
        kind: SectionKind::ProgBits,
        flags: 6,
        link: 0,
        info: 0,
        alignment: Alignment::Sixteen,
        entry_size: 0,
        content: ListVec::from_vec(alloc, text)?,
    })
}

/// The section of relocations of the code, which is section 1, by the symbols of section 3.
fn relocation_section_of(alloc: Heap, table: Vec<u8>) -> Result<Section, AllocError>
    ensures { IfOk result (λ section. section ≡ relocation_section table.items) }
{
    Ok(Section {
        name: list_of(alloc, b".rela.text")?,
        kind: SectionKind::Rela,
        flags: 64,
        link: 3,
        info: 1,
        alignment: Alignment::Eight,
        entry_size: 24,
        content: ListVec::from_vec(alloc, table)?,
    })
}

/// The section of symbols, with names in section 4, of which the first that is not local has this
/// number.
fn symbol_section_of(alloc: Heap, first: u32, table: Vec<u8>) -> Result<Section, AllocError>
    ensures { IfOk result (λ section. section ≡ symbol_section first table.items) }
{
    Ok(Section {
        name: list_of(alloc, b".symtab")?,
        kind: SectionKind::SymTab,
        flags: 0,
        link: 4,
        info: first,
        alignment: Alignment::Eight,
        entry_size: 24,
        content: ListVec::from_vec(alloc, table)?,
    })
}

/// The section of the names of symbols.
fn name_section_of(alloc: Heap, names: Vec<u8>) -> Result<Section, AllocError>
    ensures { IfOk result (λ section. section
        ≡ string_section (codes ".strtab") names.items) }
{
    Ok(Section {
        name: list_of(alloc, b".strtab")?,
        kind: SectionKind::StrTab,
        flags: 0,
        link: 0,
        info: 0,
        alignment: Alignment::One,
        entry_size: 0,
        content: ListVec::from_vec(alloc, names)?,
    })
}

/// The section that tells that the code needs no stack that can be run.
fn stack_section_of(alloc: Heap) -> Result<Section, AllocError>
    ensures { IfOk result (λ section. section ≡ stack_section) }
{
    Ok(Section {
        name: list_of(alloc, b".note.GNU-stack")?,
        kind: SectionKind::ProgBits,
        flags: 0,
        link: 0,
        info: 0,
        alignment: Alignment::One,
        entry_size: 0,
        content: ListVec::new(alloc),
    })
}

/// Looks for a global symbol whose name has a NUL.
fn check_globals(object: &Object) -> Result<(), ElfError>
    ensures names { OnOk result (HaveNames object.now.globals.items) }
    ensures err { IfErr result (IsObjectFault object.now) }
{
    for (i, global) in object.globals.iter().enumerate() {
        if global.name.as_slice().contains(&0) {
            return Err(ElfError::SymbolName(i));
        }
    }
    Ok(())
}

/// Looks for a relocation whose symbol is none of the object.
fn check_relocations(object: &Object) -> Result<(), ElfError>
    ensures relocated { OnOk result (AreRelocated object.now) }
    ensures err { IfErr result (IsObjectFault object.now) }
{
    let count = object.globals.len();
    for (i, relocation) in object.relocations.iter().enumerate() {
        if relocation.symbol as usize >= count {
            return Err(ElfError::RelocationSymbol(i));
        }
    }
    Ok(())
}

/// Looks for a fault of an object that its sections do not have.
fn check_object(object: &Object) -> Result<(), ElfError>
    ensures names { OnOk result (HaveNames object.now.globals.items) }
    ensures relocated { OnOk result (AreRelocated object.now) }
    ensures few { OnOk result
        (length object.now.marks.items + length object.now.globals.items + 1 < 2 ^ 32) }
    ensures err { IfErr result (IsObjectFault object.now) }
{
    let marks = object.marks.len();
    if marks.saturating_add(object.globals.len()) >= LIMIT - 1 {
        return Err(ElfError::TooManySymbols);
    }
    check_globals(object)?;
    check_relocations(object)
}

/// The sections of an object.
fn sections_from(alloc: Heap, object: Object) -> Result<Vec<Section>, ElfError>
    requires few { length object.marks.items + length object.globals.items + 1 < 2 ^ 32 }
    requires relocated { AreRelocated object }
    ensures ok { IfOk result (λ sections. sections.items ≡ sections_of object) }
    ensures err { IfErr result (IsObjectFault object) }
{
    let first = object.marks.len() as u32 + 1;
    let tables = symbol_tables(alloc, &object.marks, &object.globals)?;
    let relocations = relocation_table(alloc, u64::from(first), &object.relocations)?;
    let mut others = object.sections;
    let mut sections = Vec::new(alloc);
    sections.push(text_section_of(alloc, object.text)?)?;
    sections.push(relocation_section_of(alloc, relocations)?)?;
    sections.push(symbol_section_of(alloc, first, tables.symbols)?)?;
    sections.push(name_section_of(alloc, tables.names)?)?;
    sections.append(&mut others)?;
    sections.push(stack_section_of(alloc)?)?;
    Ok(sections)
}

/// The bytes of an ELF64 relocatable object for AArch64.
///
/// Its sections are `.text`, `.rela.text`, `.symtab`, `.strtab`, the others that were given,
/// `.note.GNU-stack` and `.shstrtab`. A fault of a section tells its index in this order.
///
/// # Errors
///
/// [`TooManySymbols`](ElfError::TooManySymbols), else [`SymbolName`](ElfError::SymbolName) of the
/// first such, else [`RelocationSymbol`](ElfError::RelocationSymbol) of the first such, else what
/// [`write_sections`] refuses, or want of memory.
pub fn write_object(alloc: Heap, object: Object) -> Result<Vec<u8>, ElfError>
    ensures ok { IfOk result (λ bytes. IsObjectOf object bytes.items) }
    ensures err { IfErr result (IsObjectFault object) }
{
    check_object(&object)?;
    let sections = sections_from(alloc, object)?;
    write_sections(alloc, &sections)
}
