//! Sections.

ghost use Rattle.std.specs.Prelude.{◌≡◌, ◌<◌, ◌≤◌};
ghost use Rattle.a64_elf.specs.Fields.{alignment_bytes, kind_number};

use a64_list::ListVec;

/// What a section holds, which a linker goes by.
#[derive(Clone, Copy, Debug, PartialEq, Eq)]
pub enum SectionKind {
    /// What the program has a meaning for (`SHT_PROGBITS`).
    ProgBits,
    /// Symbols (`SHT_SYMTAB`).
    SymTab,
    /// Names (`SHT_STRTAB`).
    StrTab,
    /// Relocations with addends (`SHT_RELA`).
    Rela,
    /// Notes (`SHT_NOTE`).
    Note,
}

impl SectionKind {
    /// The number that the header of the section has for the kind (`sh_type`).
    pub fn number(self) -> u32
        ensures { result ≡ kind_number self }
    {
        match self {
            SectionKind::ProgBits => 1,
            SectionKind::SymTab => 2,
            SectionKind::StrTab => 3,
            SectionKind::Rela => 4,
            SectionKind::Note => 7,
        }
    }
}

/// Of how many bytes the place of a section is a multiple, in the file and once it is linked.
#[derive(Clone, Copy, Debug, PartialEq, Eq)]
pub enum Alignment {
    /// Any place.
    One,
    /// Two bytes.
    Two,
    /// Four bytes, as a word of code has.
    Four,
    /// Eight bytes.
    Eight,
    /// Sixteen bytes, as a function has.
    Sixteen,
}

impl Alignment {
    /// The alignment in bytes.
    pub fn bytes(self) -> usize
        ensures value { result ≡ alignment_bytes self }
        ensures some { 0 < result }
        ensures few { result ≤ 16 }
    {
        match self {
            Alignment::One => 1,
            Alignment::Two => 2,
            Alignment::Four => 4,
            Alignment::Eight => 8,
            Alignment::Sixteen => 16,
        }
    }
}

/// A section: its content, and what its header says of it.
#[derive(Drop)]
pub struct Section {
    /// Its name, without a NUL.
    pub name: ListVec<u8>,
    /// What it holds.
    pub kind: SectionKind,
    /// Its flags (`sh_flags`).
    pub flags: u64,
    /// The number of a section that belongs to it (`sh_link`), by its kind; 0 for none.
    pub link: u32,
    /// What else its kind asks for (`sh_info`).
    pub info: u32,
    /// Where it may begin.
    pub alignment: Alignment,
    /// The size in bytes of each of its entries (`sh_entsize`), where it is a table; else 0.
    pub entry_size: u64,
    /// Its bytes.
    pub content: ListVec<u8>,
}
