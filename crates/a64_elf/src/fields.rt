//! Writes the fields of records, each with its least byte first.

ghost use Rattle.std.specs.Prelude.{◌≡◌, ◌++◌, ◌<◌, ℕ, OnOk, length, replicate};
ghost use Rattle.std.specs.List.{flat_map};
ghost use Rattle.a64_elf.specs.Fields.{elf_header, filling, half, long, section_header, word};

use crate::section::{Alignment, Section};
use std::alloc::AllocError;

/// What the first sixteen bytes of the file tell (`e_ident`): 64 bits, the least byte first,
/// version 1, and no extension of the system.
const IDENT: [u8; 16] = [0x7f, b'E', b'L', b'F', 2, 1, 1, 0, 0, 0, 0, 0, 0, 0, 0, 0];

/// Appends fields of two bytes.
pub(crate) fn put_halves(bytes: &mut Vec<u8>, values: &[u16]) -> Result<(), AllocError>
    ensures { OnOk result (bytes.new.items ≡ bytes.old.items ++ flat_map half values.now) }
{
    for value in values {
        bytes.extend_from_slice(&value.to_le_bytes())?;
    }
    Ok(())
}

/// Appends fields of four bytes.
pub(crate) fn put_words(bytes: &mut Vec<u8>, values: &[u32]) -> Result<(), AllocError>
    ensures { OnOk result (bytes.new.items ≡ bytes.old.items ++ flat_map word values.now) }
{
    for value in values {
        bytes.extend_from_slice(&value.to_le_bytes())?;
    }
    Ok(())
}

/// Appends fields of eight bytes.
pub(crate) fn put_longs(bytes: &mut Vec<u8>, values: &[u64]) -> Result<(), AllocError>
    ensures { OnOk result (bytes.new.items ≡ bytes.old.items ++ flat_map long values.now) }
{
    for value in values {
        bytes.extend_from_slice(&value.to_le_bytes())?;
    }
    Ok(())
}

/// How many bytes are missing up to where a section of this alignment may begin.
pub(crate) fn gap(at: usize, alignment: Alignment) -> usize
    ensures value { filling alignment at ≡ replicate result 0 }
    ensures few { result < 16 }
{
    let bytes = alignment.bytes();
    (bytes - at % bytes) % bytes
}

/// Appends zeros up to where a section of this alignment may begin.
pub(crate) fn put_filling(bytes: &mut Vec<u8>, alignment: Alignment) -> Result<(), AllocError>
    ensures { OnOk result (bytes.new.items
        ≡ bytes.old.items ++ filling alignment (length bytes.old.items)) }
{
    let missing = gap(bytes.len(), alignment);
    Ok(bytes.extend_from_slice(&[0; 16][..missing])?)
}

/// Appends the header of the file.
pub(crate) fn put_elf_header(bytes: &mut Vec<u8>, table: u64, count: u16) -> Result<(), AllocError>
    requires { 0 < count }
    ensures { OnOk result (bytes.new.items ≡ bytes.old.items ++ elf_header table count) }
{
    bytes.extend_from_slice(&IDENT)?;
    put_halves(bytes, &[1, 183])?;
    put_words(bytes, &[1])?;
    put_longs(bytes, &[0, 0, table])?;
    put_words(bytes, &[0])?;
    put_halves(bytes, &[64, 0, 0, 64, count, count - 1])
}

/// Appends the header of a section whose name and content begin at these places.
pub(crate) fn put_section_header(
    table: &mut Vec<u8>,
    name: u32,
    place: u64,
    section: &Section,
) -> Result<(), AllocError>
    ensures { OnOk result (table.new.items
        ≡ table.old.items ++ section_header name place section.now) }
{
    let size = section.content.len() as u64;
    let alignment = section.alignment.bytes() as u64;
    put_words(table, &[name, section.kind.number()])?;
    put_longs(table, &[section.flags, 0, place, size])?;
    put_words(table, &[section.link, section.info])?;
    put_longs(table, &[alignment, section.entry_size])
}
