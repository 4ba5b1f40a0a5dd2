//! The names of kinds of relocation.

ghost use Rattle.std.specs.Prelude.{◌≡◌, ◌≤◌, nat_eq, length};
ghost use Rattle.std.specs.Cmp.Lexicographic.{pointwise};
ghost use Rattle.a64_tokens.specs.Reads.{Reads, Always};
ghost use Rattle.a64_reloc.specs.Relocs.{reloc_text};

use a64_base::Reloc;

/// The kinds of relocation.
const KINDS: [Reloc; 6] = [
    Reloc::Arm64Call,
    Reloc::Abs8,
    Reloc::Aarch64AdrGotPage21,
    Reloc::Aarch64Ld64GotLo12Nc,
    Reloc::Aarch64AdrPrelPgHi21,
    Reloc::Aarch64AddAbsLo12Nc,
];

/// The name of a kind of relocation.
pub fn reloc_name(kind: Reloc) -> &'static [u8]
    ensures name { result.now ≡ reloc_text kind }
    ensures short { length result.now ≤ 20 }
{
    match kind {
        Reloc::Arm64Call => b"Arm64Call",
        Reloc::Abs8 => b"Abs8",
        Reloc::Aarch64AdrGotPage21 => b"Aarch64AdrGotPage21",
        Reloc::Aarch64Ld64GotLo12Nc => b"Aarch64Ld64GotLo12Nc",
        Reloc::Aarch64AdrPrelPgHi21 => b"Aarch64AdrPrelPgHi21",
        Reloc::Aarch64AddAbsLo12Nc => b"Aarch64AddAbsLo12Nc",
    }
}

/// The kind of relocation whose name the token is.
pub fn read_kind(token: &[u8]) -> Option<Reloc>
    ensures { Reads Always reloc_text token.now result }
{
    KINDS.iter().copied().find(
        |kind: &Reloc| -> bool
            ensures { result ≡ pointwise nat_eq (reloc_text kind.now) token.entry.now }
        { reloc_name(*kind) == token },
    )
}
