//! The object.

use a64_elf::{
    Alignment, ElfError, Global, Mark, MarkKind, Object, Relocation, RelocationKind, Section,
    SectionKind,
};
use a64_list::ListVec;
use std::alloc::Global as Heap;

/// The words of the function and of the data behind it.
const WORDS: [u32; 16] = [
    0xa9bf_7bfd, // stp x29, x30, [sp, #-16]!
    0x9400_0000, // bl twice
    0x9000_0001, // adrp x1, the page where the address of base stands
    0xf940_0021, // ldr x1, [x1, the low bits of that place]
    0xb940_0021, // ldr w1, [x1]
    0x0b01_0000, // add w0, w0, w1
    0x9000_0001, // adrp x1, own
    0x9100_0021, // add x1, x1, the low bits of own
    0xb940_0021, // ldr w1, [x1]
    0x0b01_0000, // add w0, w0, w1
    0xa8c1_7bfd, // ldp x29, x30, [sp], #16
    0xd65f_03c0, // ret
    7, // own
    0,
    0, // pointer, eight bytes
    0,
];

/// The relocations: place, kind, and the index of the symbol.
const RELOCATIONS: [(u32, RelocationKind, u32); 6] = [
    (4, RelocationKind::Call26, 3),
    (8, RelocationKind::AdrGotPage, 4),
    (12, RelocationKind::Ld64GotLo12Nc, 4),
    (24, RelocationKind::AdrPrelPgHi21, 1),
    (28, RelocationKind::AddAbsLo12Nc, 1),
    (56, RelocationKind::Abs64, 3),
];

/// The bytes as a list.
fn list_of(alloc: Heap, bytes: &[u8]) -> Result<ListVec<u8>, ElfError> {
    let mut list = Vec::new(alloc);
    list.extend_from_slice(bytes)?;
    Ok(ListVec::from_vec(alloc, list)?)
}

/// The bytes of the words.
fn text(alloc: Heap) -> Result<Vec<u8>, ElfError> {
    let mut bytes = Vec::new(alloc);
    for word in WORDS {
        bytes.extend_from_slice(&word.to_le_bytes())?;
    }
    Ok(bytes)
}

/// The symbols.
fn globals(alloc: Heap) -> Result<Vec<Global>, ElfError> {
    let mut globals = Vec::new(alloc);
    let symbols: [(&[u8], Option<u32>); 5] = [
        (b"total", Some(0)),
        (b"own", Some(48)),
        (b"pointer", Some(56)),
        (b"twice", None),
        (b"base", None),
    ];
    for (name, place) in symbols {
        globals.push(Global {
            name: list_of(alloc, name)?,
            place,
        })?;
    }
    Ok(globals)
}

/// The relocations, none with an addend.
fn relocations(alloc: Heap) -> Result<Vec<Relocation>, ElfError> {
    let mut relocations = Vec::new(alloc);
    for (place, kind, symbol) in RELOCATIONS {
        relocations.push(Relocation {
            place,
            kind,
            symbol,
            addend: 0,
        })?;
    }
    Ok(relocations)
}

/// The whole object, with a section of its own.
pub fn sample(alloc: Heap) -> Result<Object, ElfError> {
    let mut marks = Vec::new(alloc);
    marks.push(Mark {
        place: 0,
        kind: MarkKind::Code,
    })?;
    marks.push(Mark {
        place: 48,
        kind: MarkKind::Data,
    })?;
    let mut sections = Vec::new(alloc);
    sections.push(Section {
        name: list_of(alloc, b".note.sample")?,
        kind: SectionKind::ProgBits,
        flags: 0,
        link: 0,
        info: 0,
        alignment: Alignment::Four,
        entry_size: 0,
        content: list_of(alloc, b"sample")?,
    })?;
    Ok(Object {
        text: text(alloc)?,
        marks,
        globals: globals(alloc)?,
        relocations: relocations(alloc)?,
        sections,
    })
}
