//! The words of rows by the values of their fields, for rows that have several callers: encoders, of which some are given
//! fields as raw bits, and the crates above, where these fields are known.

ghost use Rattle.std.specs.Prelude.{◌≡◌, [], ◌∷◌};
ghost use Rattle.a64_rows.specs.Forms.{row_word, IsForm};
ghost use Rattle.a64_rows.specs.declared.row_table.Row.TheVariants as rows;

use a64_rows::{Row, pack};

/// The size flag of an operation, and the numbers of its registers, as words have them.
#[derive(Clone, Copy, Debug)]
pub struct TwoRegisters {
    /// 1 where the operation has 64 bits, else 0.
    pub sf: u32,
    /// The second operand: below 32.
    pub rm: u32,
    /// The first operand: below 32.
    pub rn: u32,
    /// The result: below 32.
    pub rd: u32,
}

/// The fields of a load or store of one register that say what it does.
#[derive(Clone, Copy, Debug)]
pub struct AccessFields {
    /// The field size: below 4.
    pub sz: u32,
    /// The field V: 1 where the register is a vector register, else 0.
    pub v: u32,
    /// The field opc: below 4.
    pub opc: u32,
}

/// The numbers of the registers of a load or store of a pair, as words have them.
#[derive(Clone, Copy, Debug)]
pub struct PairRegisters {
    /// The second register that is loaded or stored: below 32.
    pub rt2: u32,
    /// The base: below 32.
    pub rn: u32,
    /// The first register that is loaded or stored: below 32.
    pub rt: u32,
}

// ---- operations on registers

/// The word of an addition or subtraction of a register that is shifted (row `AddSubReg`).
#[inline(always)]
pub fn add_sub_reg_word(op: u32, s: u32, sh: u32, imm6: u32, registers: TwoRegisters) -> u32
    requires { IsForm rows.AddSubReg (registers.sf ∷ op ∷ s ∷ sh ∷ registers.rm ∷ imm6
        ∷ registers.rn ∷ registers.rd ∷ []) }
    ensures { result ≡ row_word rows.AddSubReg (registers.sf ∷ op ∷ s ∷ sh ∷ registers.rm ∷ imm6
        ∷ registers.rn ∷ registers.rd ∷ []) }
{
    let TwoRegisters { sf, rm, rn, rd } = registers;
    pack(Row::AddSubReg, &[sf, op, s, sh, rm, imm6, rn, rd])
}

/// The word of an addition or subtraction of a register that is extended (row `AddSubExt`).
#[inline(always)]
pub fn add_sub_ext_word(op: u32, s: u32, ext: u32, registers: TwoRegisters) -> u32
    requires { IsForm rows.AddSubExt (registers.sf ∷ op ∷ s ∷ registers.rm ∷ ext ∷ registers.rn
        ∷ registers.rd ∷ []) }
    ensures { result ≡ row_word rows.AddSubExt (registers.sf ∷ op ∷ s ∷ registers.rm ∷ ext
        ∷ registers.rn ∷ registers.rd ∷ []) }
{
    let TwoRegisters { sf, rm, rn, rd } = registers;
    pack(Row::AddSubExt, &[sf, op, s, rm, ext, rn, rd])
}

/// The word of an addition or subtraction with the carry (row `AddSubCarry`).
#[inline(always)]
pub fn add_sub_carry_word(op: u32, s: u32, registers: TwoRegisters) -> u32
    requires { IsForm rows.AddSubCarry (registers.sf ∷ op ∷ s ∷ registers.rm ∷ registers.rn
        ∷ registers.rd ∷ []) }
    ensures { result ≡ row_word rows.AddSubCarry (registers.sf ∷ op ∷ s ∷ registers.rm
        ∷ registers.rn ∷ registers.rd ∷ []) }
{
    let TwoRegisters { sf, rm, rn, rd } = registers;
    pack(Row::AddSubCarry, &[sf, op, s, rm, rn, rd])
}

/// The word of a logical operation with a register that is shifted, and inverted where `n` is 1 (row `LogicReg`).
#[inline(always)]
pub fn logic_reg_word(opc: u32, sh: u32, n: u32, imm6: u32, registers: TwoRegisters) -> u32
    requires { IsForm rows.LogicReg (registers.sf ∷ opc ∷ sh ∷ n ∷ registers.rm ∷ imm6
        ∷ registers.rn ∷ registers.rd ∷ []) }
    ensures { result ≡ row_word rows.LogicReg (registers.sf ∷ opc ∷ sh ∷ n ∷ registers.rm ∷ imm6
        ∷ registers.rn ∷ registers.rd ∷ []) }
{
    let TwoRegisters { sf, rm, rn, rd } = registers;
    pack(Row::LogicReg, &[sf, opc, sh, n, rm, imm6, rn, rd])
}

/// The word of a division or a shift (row `DataProc2`).
#[inline(always)]
pub fn data_proc2_word(op6: u32, registers: TwoRegisters) -> u32
    requires { IsForm rows.DataProc2 (registers.sf ∷ registers.rm ∷ op6 ∷ registers.rn
        ∷ registers.rd ∷ []) }
    ensures { result ≡ row_word rows.DataProc2 (registers.sf ∷ registers.rm ∷ op6 ∷ registers.rn
        ∷ registers.rd ∷ []) }
{
    let TwoRegisters { sf, rm, rn, rd } = registers;
    pack(Row::DataProc2, &[sf, rm, op6, rn, rd])
}

/// The word of an extraction from two registers (row `Extract`).
#[inline(always)]
pub fn extract_word(imms: u32, registers: TwoRegisters) -> u32
    requires { IsForm rows.Extract (registers.sf ∷ registers.rm ∷ imms ∷ registers.rn
        ∷ registers.rd ∷ []) }
    ensures { result ≡ row_word rows.Extract (registers.sf ∷ registers.rm ∷ imms ∷ registers.rn
        ∷ registers.rd ∷ []) }
{
    let TwoRegisters { sf, rm, rn, rd } = registers;
    pack(Row::Extract, &[sf, rm, imms, rn, rd])
}

/// The word of a product that is added to `ra`, or taken from it where `sub` is 1 (row `MulAdd`).
#[inline(always)]
pub fn mul_add_word(sub: u32, ra: u32, registers: TwoRegisters) -> u32
    requires { IsForm rows.MulAdd (registers.sf ∷ registers.rm ∷ sub ∷ ra ∷ registers.rn
        ∷ registers.rd ∷ []) }
    ensures { result ≡ row_word rows.MulAdd (registers.sf ∷ registers.rm ∷ sub ∷ ra
        ∷ registers.rn ∷ registers.rd ∷ []) }
{
    let TwoRegisters { sf, rm, rn, rd } = registers;
    pack(Row::MulAdd, &[sf, rm, sub, ra, rn, rd])
}

/// The word of a product of 32-bit registers, unsigned where `u` is 1, that is added to `ra` (row `MulAddLong`).
#[inline(always)]
pub fn mul_add_long_word(u: u32, rm: u32, ra: u32, rn: u32, rd: u32) -> u32
    requires { IsForm rows.MulAddLong (u ∷ rm ∷ ra ∷ rn ∷ rd ∷ []) }
    ensures { result ≡ row_word rows.MulAddLong (u ∷ rm ∷ ra ∷ rn ∷ rd ∷ []) }
{
    pack(Row::MulAddLong, &[u, rm, ra, rn, rd])
}

/// The word of the upper half of a product, the unsigned one where `u` is 1 (row `MulHigh`).
#[inline(always)]
pub fn mul_high_word(u: u32, rm: u32, rn: u32, rd: u32) -> u32
    requires { IsForm rows.MulHigh (u ∷ rm ∷ rn ∷ rd ∷ []) }
    ensures { result ≡ row_word rows.MulHigh (u ∷ rm ∷ rn ∷ rd ∷ []) }
{
    pack(Row::MulHigh, &[u, rm, rn, rd])
}

/// The word of a conditional select (row `CondSelect`).
#[inline(always)]
pub(crate) fn cond_select_word(op: u32, rm: u32, cond: u32, o2: u32, rn: u32, rd: u32) -> u32
    requires { IsForm rows.CondSelect (op ∷ rm ∷ cond ∷ o2 ∷ rn ∷ rd ∷ []) }
    ensures { result ≡ row_word rows.CondSelect (op ∷ rm ∷ cond ∷ o2 ∷ rn ∷ rd ∷ []) }
{
    pack(Row::CondSelect, &[op, rm, cond, o2, rn, rd])
}

/// The word of a conditional comparison, with an immediate in place of `rm` where `imm` is 1 (row `CondCompare`).
#[inline(always)]
pub(crate) fn cond_compare_word(sf: u32, rm: u32, cond: u32, imm: u32, rn: u32, nzcv: u32) -> u32
    requires { IsForm rows.CondCompare (sf ∷ rm ∷ cond ∷ imm ∷ rn ∷ nzcv ∷ []) }
    ensures { result ≡ row_word rows.CondCompare (sf ∷ rm ∷ cond ∷ imm ∷ rn ∷ nzcv ∷ []) }
{
    pack(Row::CondCompare, &[sf, rm, cond, imm, rn, nzcv])
}

// ---- operations with immediates

/// The word of an addition or subtraction of an immediate, which is shifted left by 12 where `sh` is 1 (row `AddSubImm`).
#[inline(always)]
pub fn add_sub_imm_word(sf: u32, op: u32, s: u32, sh: u32, imm12: u32, rn: u32, rd: u32) -> u32
    requires { IsForm rows.AddSubImm (sf ∷ op ∷ s ∷ sh ∷ imm12 ∷ rn ∷ rd ∷ []) }
    ensures { result ≡ row_word rows.AddSubImm (sf ∷ op ∷ s ∷ sh ∷ imm12 ∷ rn ∷ rd ∷ []) }
{
    pack(Row::AddSubImm, &[sf, op, s, sh, imm12, rn, rd])
}

/// The word of a logical operation with a bitmask immediate (row `LogicImm`).
#[inline(always)]
pub fn logic_imm_word(sf: u32, opc: u32, n: u32, immr: u32, imms: u32, rn: u32, rd: u32) -> u32
    requires { IsForm rows.LogicImm (sf ∷ opc ∷ n ∷ immr ∷ imms ∷ rn ∷ rd ∷ []) }
    ensures { result ≡ row_word rows.LogicImm (sf ∷ opc ∷ n ∷ immr ∷ imms ∷ rn ∷ rd ∷ []) }
{
    pack(Row::LogicImm, &[sf, opc, n, immr, imms, rn, rd])
}

/// The word of a move of a halfword, shifted left by 16 times `hw` (row `MoveWide`).
#[inline(always)]
pub(crate) fn move_wide_word(sf: u32, opc: u32, hw: u32, imm16: u32, rd: u32) -> u32
    requires { IsForm rows.MoveWide (sf ∷ opc ∷ hw ∷ imm16 ∷ rd ∷ []) }
    ensures { result ≡ row_word rows.MoveWide (sf ∷ opc ∷ hw ∷ imm16 ∷ rd ∷ []) }
{
    pack(Row::MoveWide, &[sf, opc, hw, imm16, rd])
}

// ---- branches

/// The word of a comparison with zero and a branch, where the register is not zero if `nz` is 1 (row `CompareBranch`).
#[inline(always)]
pub(crate) fn compare_branch_word(sf: u32, nz: u32, imm19: u32, rt: u32) -> u32
    requires { IsForm rows.CompareBranch (sf ∷ nz ∷ imm19 ∷ rt ∷ []) }
    ensures { result ≡ row_word rows.CompareBranch (sf ∷ nz ∷ imm19 ∷ rt ∷ []) }
{
    pack(Row::CompareBranch, &[sf, nz, imm19, rt])
}

// ---- loads and stores

/// The word of a load or store of one register with an offset of nine bits, of which `mode` says whether the address
/// register changes and when (row `LdStImm9`).
#[inline(always)]
pub fn ld_st_imm9_word(access: AccessFields, imm9: u32, mode: u32, rn: u32, rt: u32) -> u32
    requires { IsForm rows.LdStImm9 (access.sz ∷ access.v ∷ access.opc ∷ imm9 ∷ mode ∷ rn ∷ rt
        ∷ []) }
    ensures { result ≡ row_word rows.LdStImm9 (access.sz ∷ access.v ∷ access.opc ∷ imm9 ∷ mode
        ∷ rn ∷ rt ∷ []) }
{
    let AccessFields { sz, v, opc } = access;
    pack(Row::LdStImm9, &[sz, v, opc, imm9, mode, rn, rt])
}

/// The word of a load or store of one register with an unsigned offset, in units of the access (row `LdStUnsigned`).
#[inline(always)]
pub fn ld_st_unsigned_word(access: AccessFields, imm12: u32, rn: u32, rt: u32) -> u32
    requires { IsForm rows.LdStUnsigned (access.sz ∷ access.v ∷ access.opc ∷ imm12 ∷ rn ∷ rt
        ∷ []) }
    ensures { result ≡ row_word rows.LdStUnsigned (access.sz ∷ access.v ∷ access.opc ∷ imm12
        ∷ rn ∷ rt ∷ []) }
{
    let AccessFields { sz, v, opc } = access;
    pack(Row::LdStUnsigned, &[sz, v, opc, imm12, rn, rt])
}

/// The word of a load or store of one register with an index in `rm`, extended by `ext`, and in units of the access where
/// `s` is 1 (row `LdStReg`).
#[inline(always)]
pub fn ld_st_reg_word(access: AccessFields, rm: u32, ext: u32, s: u32, rn: u32, rt: u32) -> u32
    requires { IsForm rows.LdStReg (access.sz ∷ access.v ∷ access.opc ∷ rm ∷ ext ∷ s ∷ rn ∷ rt
        ∷ []) }
    ensures { result ≡ row_word rows.LdStReg (access.sz ∷ access.v ∷ access.opc ∷ rm ∷ ext ∷ s
        ∷ rn ∷ rt ∷ []) }
{
    let AccessFields { sz, v, opc } = access;
    pack(Row::LdStReg, &[sz, v, opc, rm, ext, s, rn, rt])
}

/// The word of a load from a place near the code, at a distance in words (row `LdLiteral`).
#[inline(always)]
pub fn ld_literal_word(opc: u32, v: u32, imm19: u32, rt: u32) -> u32
    requires { IsForm rows.LdLiteral (opc ∷ v ∷ imm19 ∷ rt ∷ []) }
    ensures { result ≡ row_word rows.LdLiteral (opc ∷ v ∷ imm19 ∷ rt ∷ []) }
{
    pack(Row::LdLiteral, &[opc, v, imm19, rt])
}

/// The word of a load, or a store where `load` is 0, of a pair of registers, of which `idx` says whether the address register
/// changes and when (row `LdStPair`).
#[inline(always)]
pub fn ld_st_pair_word(
    opc: u32,
    v: u32,
    idx: u32,
    load: u32,
    imm7: u32,
    registers: PairRegisters,
) -> u32
    requires { IsForm rows.LdStPair (opc ∷ v ∷ idx ∷ load ∷ imm7 ∷ registers.rt2 ∷ registers.rn
        ∷ registers.rt ∷ []) }
    ensures { result ≡ row_word rows.LdStPair (opc ∷ v ∷ idx ∷ load ∷ imm7 ∷ registers.rt2
        ∷ registers.rn ∷ registers.rt ∷ []) }
{
    let PairRegisters { rt2, rn, rt } = registers;
    pack(Row::LdStPair, &[opc, v, idx, load, imm7, rt2, rn, rt])
}
