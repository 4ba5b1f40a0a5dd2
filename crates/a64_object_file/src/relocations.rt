//! The relocations of code as those of an object.

ghost use Rattle.std.specs.Prelude.{◌≡◌, Some, IfOk, IfErr, map};
ghost use Rattle.a64_object_file.specs.Relocations.{IsUnnamed, elf_relocation, kind_of};

use crate::error::ObjectFileError;
use a64_base::{ExternalName, Reloc};
use a64_elf::{Relocation, RelocationKind};
use a64_label_map::LabelMap;
use std::alloc::Global;

/// What ELF calls a kind of relocation.
fn relocation_kind(kind: Reloc) -> RelocationKind
    ensures { result ≡ kind_of kind }
{
    match kind {
        Reloc::Arm64Call => RelocationKind::Call26,
        Reloc::Abs8 => RelocationKind::Abs64,
        Reloc::Aarch64AdrGotPage21 => RelocationKind::AdrGotPage,
        Reloc::Aarch64Ld64GotLo12Nc => RelocationKind::Ld64GotLo12Nc,
        Reloc::Aarch64AdrPrelPgHi21 => RelocationKind::AdrPrelPgHi21,
        Reloc::Aarch64AddAbsLo12Nc => RelocationKind::AddAbsLo12Nc,
    }
}

/// The relocations of code as those of an object, in the same order. `symbols` has for the number
/// of each external name the index of its symbol in the object.
///
/// # Errors
///
/// [`Unnamed`](ObjectFileError::Unnamed) where a name has no symbol, or want of memory.
pub fn elf_relocations(
    alloc: Global,
    symbols: &LabelMap<u32>,
    relocs: &[(u32, Reloc, ExternalName, i64)],
) -> Result<Vec<Relocation>, ObjectFileError>
    ensures ok { IfOk result (λ made. map Some made.items
        ≡ map (elf_relocation symbols.now) relocs.now) }
    ensures err { IfErr result (IsUnnamed symbols.now relocs.now) }
{
    let mut made = Vec::new(alloc);
    for reloc in relocs {
        let (place, kind, name, addend) = *reloc;
        let Some(symbol) = symbols.get(name.0) else {
            return Err(ObjectFileError::Unnamed(name));
        };
        made.push(Relocation {
            place,
            kind: relocation_kind(kind),
            symbol,
            addend,
        })?;
    }
    Ok(made)
}
