//! The tests of which the limits of rows are made.

ghost use Rattle.std.specs.Prelude.{◌≡◌, ◌+◌, ◌^◌, ◌<◌, ◌≤◌};
ghost use Rattle.a64_rows.specs.Limits.{is_access, is_atomic, is_bit_number, is_bitmask, is_bitmask_of, is_copy, is_even, is_float_conversion, is_float_one, is_float_type, is_halfword, is_index_extend, is_one_source, is_pair, is_permute, is_run, is_scalar_shift, is_two_source, is_vector_shift};

/// Whether a bit's number or a shift lies within the register: below 32 where the size flag is 0.
pub(crate) fn is_bit_number(sf: u32, number: u32) -> bool
    ensures { result ≡ is_bit_number sf number }
{
    sf != 0 || number < 32
}

/// Whether an opcode of two sources is one of UDIV, SDIV, LSLV, LSRV, ASRV and RORV.
pub(crate) fn is_two_source(opcode: u32) -> bool
    ensures { result ≡ is_two_source opcode }
{
    matches!(opcode, 2 | 3 | 8..=11)
}

/// Whether an opcode of one source is one of RBIT, REV16, REV, CLZ and CLS, with REV of 64 bits at 64 bits alone.
pub(crate) fn is_one_source(sf: u32, opcode: u32) -> bool
    ensures { result ≡ is_one_source sf opcode }
{
    opcode <= 5 && (opcode != 3 || sf == 1)
}

/// Whether a 16-bit part lies within the register.
pub(crate) fn is_halfword(sf: u32, hw: u32) -> bool
    ensures { result ≡ is_halfword sf hw }
{
    sf != 0 || hw <= 1
}

/// Whether the triple is that of a run of ones, neither none nor all, in elements of `size` bits.
fn is_run(size: u32, prefix: u32, n: u32, immr: u32, imms: u32) -> bool
    requires size_in { 2 ≤ size }
    requires room { prefix + size < 2 ^ 32 }
    ensures { result ≡ is_run size prefix n immr imms }
{
    n == u32::from(size == 64) && immr < size && prefix <= imms && imms < prefix + (size - 1)
}

/// Whether the triple is that of a bitmask immediate.
fn is_bitmask(n: u32, immr: u32, imms: u32) -> bool
    ensures { result ≡ is_bitmask n immr imms }
{
    is_run(64, 0b000000, n, immr, imms)
        || is_run(32, 0b000000, n, immr, imms)
        || is_run(16, 0b100000, n, immr, imms)
        || is_run(8, 0b110000, n, immr, imms)
        || is_run(4, 0b111000, n, immr, imms)
        || is_run(2, 0b111100, n, immr, imms)
}

/// Whether the triple is that of a bitmask immediate of the register's size.
pub(crate) fn is_bitmask_of(sf: u32, n: u32, immr: u32, imms: u32) -> bool
    ensures { result ≡ is_bitmask_of sf n immr imms }
{
    is_bitmask(n, immr, imms) && (sf != 0 || n == 0)
}

/// Whether there is a load or store of one register with this size, kind of register and opcode.
pub(crate) fn is_access(size: u32, vector: u32, opc: u32) -> bool
    ensures { result ≡ is_access size vector opc }
{
    if vector == 0 {
        opc <= 1 || (opc == 2 && size <= 2)
    } else if size == 0 {
        opc >= 2
    } else {
        opc <= 1
    }
}

/// Whether an index may be extended so: UXTW, LSL, SXTW or SXTX.
pub(crate) fn is_index_extend(option: u32) -> bool
    ensures { result ≡ is_index_extend option }
{
    matches!(option, 2 | 3 | 6 | 7)
}

/// Whether pairs of this kind of register have this size: general of 64 bits, vector of 64 and 128.
pub(crate) fn is_pair(opc: u32, vector: u32) -> bool
    ensures { result ≡ is_pair opc vector }
{
    opc == 2 || (opc == 1 && vector == 1)
}

/// Whether an atomic operation has this opcode: a swap has only 0.
pub(crate) fn is_atomic(o3: u32, opc: u32) -> bool
    ensures { result ≡ is_atomic o3 opc }
{
    o3 == 0 || opc == 0
}

/// Whether a register's number is even.
pub(crate) fn is_even(register: u32) -> bool
    ensures { result ≡ is_even register }
{
    register % 2 == 0
}

/// Whether a float has this type: 0, 1 and 3 are 32, 64 and 16 bits.
pub(crate) fn is_float_type(ftype: u32) -> bool
    ensures { result ≡ is_float_type ftype }
{
    ftype != 2
}

/// Whether a float operation of one source has this opcode.
pub(crate) fn is_float_one(opcode: u32) -> bool
    ensures { result ≡ is_float_one opcode }
{
    matches!(opcode, 0..=5 | 8..=11)
}

/// Whether floats and integers of these sizes are converted or moved with this opcode.
pub(crate) fn is_float_conversion(sf: u32, ftype: u32, opcode: u32) -> bool
    ensures { result ≡ is_float_conversion sf ftype opcode }
{
    if opcode == 7 {
        (sf == 0 && ftype == 3) || (sf == 0 && ftype == 0) || (sf == 1 && ftype == 1)
    } else {
        matches!(opcode, 2 | 3 | 24 | 25) && ftype <= 1
    }
}

/// Whether a permutation has this opcode: UZP1, TRN1, ZIP1, UZP2, TRN2 or ZIP2.
pub(crate) fn is_permute(opcode: u32) -> bool
    ensures { result ≡ is_permute opcode }
{
    matches!(opcode, 1 | 2 | 3 | 5 | 6 | 7)
}

/// Whether a vector shift has this opcode: right, left or insert, or widening.
pub(crate) fn is_vector_shift(opcode: u32) -> bool
    ensures { result ≡ is_vector_shift opcode }
{
    matches!(opcode, 0 | 10 | 20)
}

/// Whether a scalar shift has this opcode: USHR or SLI.
pub(crate) fn is_scalar_shift(opcode: u32) -> bool
    ensures { result ≡ is_scalar_shift opcode }
{
    matches!(opcode, 0 | 10)
}

/// Whether a copy has this `imm4`: DUP (element), DUP (general), INS (general), SMOV or UMOV.
pub(crate) fn is_copy(imm4: u32) -> bool
    ensures { result ≡ is_copy imm4 }
{
    matches!(imm4, 0 | 1 | 3 | 5 | 7)
}
