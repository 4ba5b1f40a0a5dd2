//! Lays sections out in a file: the header of the file, the contents of sections one behind
//! another, and the table of their headers.

ghost use Rattle.std.specs.Prelude.{◌≡◌, ◌⊎◌, ◌+◌, ◌<◌, ◌≤◌, ◌^◌, ◌++◌, ◌∷◌, [], IfOk, OnOk, IfErr, length};
ghost use Rattle.std.specs.List.{flat_map};
ghost use Rattle.a64_elf.specs.declared.error.ElfError.TheVariants.{OutOfMemory, TooLarge};
ghost use Rattle.a64_elf.specs.Fields.{filling, section_header};
ghost use Rattle.a64_elf.specs.Sections.{HasNames, IsLaid, IsLayout, IsObject};
ghost use Rattle.a64_elf.specs.Sections.{IsSectionFault, contents};
ghost use Rattle.a64_elf.specs.Sections.{end_of, named, names_size, section_end, section_start};

use crate::error::ElfError;
use crate::fields::{gap, put_elf_header, put_filling, put_section_header};
use crate::section::{Alignment, Section, SectionKind};
use a64_list::ListVec;
use std::alloc::{AllocError, Global};

/// How many bytes are too many for the header of the file and the contents of sections.
pub(crate) const LIMIT: usize = 0x1_0000_0000;

/// The section numbers from here on have meanings of their own (`SHN_LORESERVE`).
const RESERVED: usize = 0xff00;

/// Where sections stand so far.
#[derive(Drop)]
struct Layout {
    /// Where the content of the last one ends.
    end: usize,
    /// Their names, each with a NUL behind it, behind a NUL.
    names: Vec<u8>,
    /// Their headers, behind one of zeros.
    table: Vec<u8>,
}

/// Where all sections stand, that of their names too.
#[derive(Drop)]
struct Laid {
    /// Where the content of the last one ends.
    end: usize,
    /// The names, each with a NUL behind it, behind a NUL.
    names: ListVec<u8>,
    /// The headers, behind one of zeros.
    table: Vec<u8>,
}

impl Layout {
    /// Puts a section behind those that stand.
    fn add(&mut self, section: &Section) -> Result<(), ElfError>
        requires { self.old.end + length self.old.names.items < 2 ^ 32 }
        ensures end { OnOk result (self.new.end ≡ section_end self.old.end section.now) }
        ensures names { OnOk result (self.new.names.items
            ≡ self.old.names.items ++ named section.now) }
        ensures table { OnOk result (self.new.table.items ≡ self.old.table.items
            ++ section_header (length self.old.names.items)
            (section_start self.old.end section.now) section.now) }
        ensures small { OnOk result (self.new.end + length self.new.names.items < 2 ^ 32) }
        ensures err { IfErr result (λ error. (error ≡ OutOfMemory) ⊎ ((error ≡ TooLarge)
            × (2 ^ 32 ≤ section_end self.old.end section.now
            + length (self.old.names.items ++ named section.now)))) }
    {
        let start = self.end + gap(self.end, section.alignment);
        let end = start.saturating_add(section.content.len());
        let name = self.names.len();
        self.names.extend_from_slice(section.name.as_slice())?;
        self.names.push(0)?;
        if end.saturating_add(self.names.len()) >= LIMIT {
            return Err(ElfError::TooLarge);
        }
        put_section_header(&mut self.table, name as u32, start as u64, section)?;
        self.end = end;
        Ok(())
    }

    /// Puts the section of names behind the others.
    fn with_names(self, alloc: Global) -> Result<Laid, ElfError>
        requires { self.end + length self.names.items < 2 ^ 32 }
        ensures ok { IfOk result (λ laid. IsLaid self.end self.names.items
            self.table.items laid.end laid.names laid.table.items) }
        ensures err { IfErr result (λ error. (error ≡ OutOfMemory) ⊎ ((error ≡ TooLarge)
            × (2 ^ 32 ≤ self.end + length self.names.items + 10))) }
    {
        let Layout {
            end,
            mut names,
            mut table,
        } = self;
        let name = names.len();
        names.extend_from_slice(b".shstrtab\0")?;
        let size = names.len();
        if end + size >= LIMIT {
            return Err(ElfError::TooLarge);
        }
        let section = Section {
            name: list_of(alloc, b".shstrtab")?,
            kind: SectionKind::StrTab,
            flags: 0,
            link: 0,
            info: 0,
            alignment: Alignment::One,
            entry_size: 0,
            content: ListVec::from_vec(alloc, names)?,
        };
        put_section_header(&mut table, name as u32, end as u64, &section)?;
        Ok(Laid {
            end: end + size,
            names: section.content,
            table,
        })
    }
}

/// The bytes as a list.
pub(crate) fn list_of(alloc: Global, bytes: &[u8]) -> Result<ListVec<u8>, AllocError>
    ensures { IfOk result (λ list. list ≡ bytes.now) }
{
    let mut list = Vec::new(alloc);
    list.extend_from_slice(bytes)?;
    Ok(ListVec::from_vec(alloc, list)?)
}

/// Where sections stand behind the header of the file.
fn laid_out(alloc: Global, sections: &[Section]) -> Result<Layout, ElfError>
    ensures ok { IfOk result (λ l. IsLayout sections.now l.end l.names.items l.table.items) }
    ensures err { IfErr result (λ error. (error ≡ OutOfMemory) ⊎ ((error ≡ TooLarge)
        × (2 ^ 32 ≤ end_of 64 sections.now + names_size sections.now))) }
{
    let mut layout = Layout {
        end: 64,
        names: Vec::new(alloc),
        table: Vec::new(alloc),
    };
    layout.names.push(0)?;
    layout.table.extend_from_slice(&[0; 64])?;
    for section in sections {
        layout.add(section)?;
    }
    Ok(layout)
}

/// Looks for a section whose name has a NUL, and whether there are too many.
fn check_sections(sections: &[Section]) -> Result<(), ElfError>
    ensures few { OnOk result (length sections.now + 2 < 0xff00) }
    ensures names { OnOk result (HasNames sections.now) }
    ensures err { IfErr result (IsSectionFault sections.now) }
{
    if sections.len() >= RESERVED - 2 {
        return Err(ElfError::TooManySections);
    }
    for (i, section) in sections.iter().enumerate() {
        if section.name.as_slice().contains(&0) {
            return Err(ElfError::SectionName(i));
        }
    }
    Ok(())
}

/// Appends the contents of sections, each behind zeros up to where it may begin.
fn put_contents(bytes: &mut Vec<u8>, sections: &[Section]) -> Result<(), AllocError>
    ensures { OnOk result (bytes.new.items
        ≡ bytes.old.items ++ contents (length bytes.old.items) sections.now) }
{
    for section in sections {
        put_filling(bytes, section.alignment)?;
        bytes.extend_from_slice(section.content.as_slice())?;
    }
    Ok(())
}

/// A relocatable object of these sections, in this order, behind which stands one more, that of
/// their names. The number of a section is one more than its index, since 0 is none.
///
/// # Errors
///
/// [`TooManySections`](ElfError::TooManySections), else [`SectionName`](ElfError::SectionName) of
/// the first such, else [`TooLarge`](ElfError::TooLarge), or want of memory.
pub fn write_sections(alloc: Global, sections: &[Section]) -> Result<Vec<u8>, ElfError>
    ensures ok { IfOk result (λ bytes. IsObject sections.now bytes.items) }
    ensures err { IfErr result (IsSectionFault sections.now) }
{
    check_sections(sections)?;
    let laid = laid_out(alloc, sections)?.with_names(alloc)?;
    let place = laid.end + gap(laid.end, Alignment::Eight);
    let mut bytes = Vec::new(alloc);
    put_elf_header(&mut bytes, place as u64, sections.len() as u16 + 2)?;
    put_contents(&mut bytes, sections)?;
    bytes.extend_from_slice(laid.names.as_slice())?;
    put_filling(&mut bytes, Alignment::Eight)?;
    bytes.extend_from_slice(&laid.table)?;
    Ok(bytes)
}
