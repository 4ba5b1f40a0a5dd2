//! Numbers that name labels, constants, symbols, traps and maps, and kinds of relocation.

/// The number of a label in machine code (Cranelift's `MachLabel`).
#[derive(Clone, Copy, Debug, PartialEq, Eq)]
pub struct MachLabel(pub u32);

/// The number of a constant in the constant pool (Cranelift's `VCodeConstant`).
#[derive(Clone, Copy, Debug, PartialEq, Eq)]
pub struct VCodeConstant(pub u32);

/// The number of a symbol outside of the code (Cranelift's `ExternalName`).
#[derive(Clone, Copy, Debug, PartialEq, Eq)]
pub struct ExternalName(pub u32);

/// The number of a map of the stack at a call (Cranelift's `UserStackMap`).
#[derive(Clone, Copy, Debug, PartialEq, Eq)]
pub struct UserStackMap(pub u32);

/// The code of a trap (Cranelift's `TrapCode`).
#[derive(Clone, Copy, Debug, PartialEq, Eq)]
pub struct TrapCode(pub u8);

/// A kind of relocation (Cranelift's `Reloc`, the kinds that AArch64 code asks for).
#[derive(Clone, Copy, Debug)]
pub enum Reloc {
    /// The 26-bit field of `bl` or `b`, in words.
    Arm64Call,
    /// Eight bytes with an absolute address.
    Abs8,
    /// The page of a GOT entry, in an `adrp`.
    Aarch64AdrGotPage21,
    /// The low 12 bits of a GOT entry's address, in an `ldr`.
    Aarch64Ld64GotLo12Nc,
    /// The page of a symbol, in an `adrp`.
    Aarch64AdrPrelPgHi21,
    /// The low 12 bits of a symbol's address, in an `add`.
    Aarch64AddAbsLo12Nc,
}
