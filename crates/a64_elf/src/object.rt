//! What an object has: code, its marks, symbols and relocations, and other sections.

ghost use Rattle.std.specs.Prelude.{◌≡◌, ◌<◌, ◌≤◌};
ghost use Rattle.a64_elf.specs.Symbols.{mark_name, relocation_number};

use crate::section::Section;
use a64_list::ListVec;

/// What begins at a mark.
#[derive(Clone, Copy, Debug, PartialEq, Eq)]
pub enum MarkKind {
    /// Instructions (`$x`).
    Code,
    /// Data (`$d`).
    Data,
}

impl MarkKind {
    /// Where the name of such marks stands among the names of symbols.
    pub(crate) fn name(self) -> u32
        ensures { result ≡ mark_name self }
    {
        match self {
            MarkKind::Code => 1,
            MarkKind::Data => 4,
        }
    }
}

/// A mark: from its place on up to the next stand instructions, or data.
#[derive(Clone, Copy, Debug, PartialEq, Eq)]
pub struct Mark {
    /// The place in the code, in bytes.
    pub place: u32,
    /// What begins there.
    pub kind: MarkKind,
}

/// A global symbol.
#[derive(Drop)]
pub struct Global {
    /// Its name, without a NUL.
    pub name: ListVec<u8>,
    /// Its place in the code, in bytes, where it is defined.
    pub place: Option<u32>,
}

/// What a relocation makes of its place, where its symbol is S, its addend A and its place P.
#[derive(Clone, Copy, Debug, PartialEq, Eq)]
pub enum RelocationKind {
    /// The eight bytes are S + A (`R_AARCH64_ABS64`).
    Abs64,
    /// `adr` of the page of S + A, seen from that of P (`R_AARCH64_ADR_PREL_PG_HI21`).
    AdrPrelPgHi21,
    /// `add` of the low twelve bits of S + A (`R_AARCH64_ADD_ABS_LO12_NC`).
    AddAbsLo12Nc,
    /// A branch from P to S + A (`R_AARCH64_CALL26`).
    Call26,
    /// `adrp` of the page where the address S + A stands (`R_AARCH64_ADR_GOT_PAGE`).
    AdrGotPage,
    /// `ldr` of that address, by its low twelve bits (`R_AARCH64_LD64_GOT_LO12_NC`).
    Ld64GotLo12Nc,
}

impl RelocationKind {
    /// The number of the kind in the ELF supplement for AArch64.
    pub fn number(self) -> u32
        ensures value { result ≡ relocation_number self }
        ensures few { result < 1024 }
    {
        match self {
            RelocationKind::Abs64 => 257,
            RelocationKind::AdrPrelPgHi21 => 275,
            RelocationKind::AddAbsLo12Nc => 277,
            RelocationKind::Call26 => 283,
            RelocationKind::AdrGotPage => 311,
            RelocationKind::Ld64GotLo12Nc => 312,
        }
    }
}

/// A relocation of the code.
#[derive(Clone, Copy, Debug, PartialEq, Eq)]
pub struct Relocation {
    /// Its place in the code, in bytes.
    pub place: u32,
    /// Its kind.
    pub kind: RelocationKind,
    /// The index of its symbol among the global ones.
    pub symbol: u32,
    /// What is added to the symbol's address.
    pub addend: i64,
}

/// What is written as an object.
#[derive(Drop)]
pub struct Object {
    /// The bytes of the code.
    pub text: Vec<u8>,
    /// The marks in it.
    pub marks: Vec<Mark>,
    /// The global symbols.
    pub globals: Vec<Global>,
    /// The relocations of the code.
    pub relocations: Vec<Relocation>,
    /// Other sections.
    pub sections: Vec<Section>,
}
