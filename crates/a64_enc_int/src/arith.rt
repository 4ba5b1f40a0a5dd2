//! Arithmetic and logic.

ghost use Rattle.std.specs.Prelude.{◌≡◌, ◌<◌, ◌*◌, ◌^◌};
ghost use Rattle.a64_rows.specs.Forms.{form_word, IsFormOf};
ghost use Rattle.a64_rows.specs.DataProcessing.{data_proc1};
ghost use Rattle.a64_enc_int.specs.Named.{AreParts, AreProductParts, rows_of_rrr, rows_of_rrrr, rrr_number, rrrr_number, NamedForm};
ghost use Rattle.a64_enc_int.specs.RawBits.{add_sub_imm_of, logic_imm_of};
ghost use Rattle.a64_enc_int.specs.Registers.{IsGeneral, register_field};

use crate::fields::{
    TwoRegisters, add_sub_carry_word, add_sub_ext_word, add_sub_imm_word, add_sub_reg_word,
    cond_select_word, data_proc2_word, extract_word, logic_imm_word, logic_reg_word,
    mul_add_long_word, mul_add_word, mul_high_word,
};
use crate::register::general_field;
use a64_base::{Reg, Writable};
use a64_rows::{Row, pack};

/// The word of the row that raw bits tell, with three registers.
#[inline(always)]
fn pack_rrr(top: u32, low: u32, rm: u32, rn: u32, rd: u32) -> u32
    requires below { AreParts top low rd rn rm }
    requires form { NamedForm rows_of_rrr (rrr_number top low rd rn rm) }
    ensures { result ≡ rrr_number top low rd rn rm }
{
    let (sf, op, s) = (top >> 10, (top >> 9) % 2, (top >> 8) % 2);
    let registers = TwoRegisters { sf, rm, rn, rd };
    match (top >> 3) % 32 {
        0b01010 => {
            let (opc, sh, n) = ((top >> 8) % 4, (top >> 1) % 4, top % 2);
            logic_reg_word(opc, sh, n, low, registers)
        }
        0b01011 => {
            if top % 2 == 0 {
                let sh = (top >> 1) % 4;
                add_sub_reg_word(op, s, sh, low, registers)
            } else {
                add_sub_ext_word(op, s, low >> 3, registers)
            }
        }
        0b10011 => extract_word(low, registers),
        0b11011 => match top % 4 {
            0b00 => mul_add_word(low >> 5, low % 32, registers),
            0b01 => mul_add_long_word((top >> 2) % 2, rm, low % 32, rn, rd),
            _ => mul_high_word((top >> 2) % 2, rm, rn, rd),
        },
        _ => match top % 8 {
            0b000 => add_sub_carry_word(op, s, registers),
            0b100 => cond_select_word(op, rm, low >> 2, low % 2, rn, rd),
            _ => data_proc2_word(low, registers),
        },
    }
}

/// Encodes an operation on two registers: `bits_31_21` and `bits_15_10` are the word's bits 31 to 21 and 15 to 10 (rows
/// `AddSubReg`, `AddSubExt`, `AddSubCarry`, `LogicReg`, `DataProc2`, `MulHigh`, `Extract`, `CondSelect`, and `MulAdd` and
/// `MulAddLong`, whose third operand is then raw bits).
pub fn enc_arith_rrr(bits_31_21: u32, bits_15_10: u32, rd: Writable<Reg>, rn: Reg, rm: Reg) -> u32
    requires bits_31_21 { bits_31_21 < 2 ^ 11 }
    requires bits_15_10 { bits_15_10 < 2 ^ 6 }
    requires rd { IsGeneral rd }
    requires rn { IsGeneral rn }
    requires rm { IsGeneral rm }
    requires form { NamedForm rows_of_rrr (rrr_number bits_31_21 bits_15_10 (register_field rd)
        (register_field rn) (register_field rm)) }
    ensures { (named : NamedForm rows_of_rrr
        (rrr_number bits_31_21 bits_15_10 (register_field rd) (register_field rn)
        (register_field rm))) → result ≡ form_word named.form }
{
    let (rm, rn, rd) = (
        general_field(rm),
        general_field(rn),
        general_field(rd.to_reg()),
    );
    pack_rrr(bits_31_21, bits_15_10, rm, rn, rd)
}

/// Encodes an addition or subtraction of an immediate: `bits_31_24` is the word's bits 31 to 24, and `immshift` is 1
/// where `imm12` is shifted left by 12 (row `AddSubImm`).
pub fn enc_arith_rr_imm12(
    bits_31_24: u32,
    immshift: u32,
    imm12: u32,
    rn: Reg,
    rd: Writable<Reg>,
) -> u32
    requires bits_31_24 { bits_31_24 * 2 ^ 24 ≡ form_word (add_sub_imm_of bits_31_24 (record {
      sh = 0;
      imm12 = 0;
      rn = 0;
      rd = 0;
    })) }
    requires rn { IsGeneral rn }
    requires rd { IsGeneral rd }
    requires form { IsFormOf (add_sub_imm_of bits_31_24 (record {
      sh = immshift;
      imm12 = imm12;
      rn = register_field rn;
      rd = register_field rd;
    })) }
    ensures { result ≡ form_word (add_sub_imm_of bits_31_24 (record {
      sh = immshift;
      imm12 = imm12;
      rn = register_field rn;
      rd = register_field rd;
    })) }
{
    let (sf, op, s) = (
        bits_31_24 >> 7,
        (bits_31_24 >> 6) % 2,
        (bits_31_24 >> 5) % 2,
    );
    let (rn, rd) = (general_field(rn), general_field(rd.to_reg()));
    add_sub_imm_word(sf, op, s, immshift, imm12, rn, rd)
}

/// Encodes a logical operation with a bitmask immediate: `bits_31_23` is the word's bits 31 to 23, and `imm_bits` the
/// fields N, immr and imms in one (row `LogicImm`).
pub fn enc_arith_rr_imml(bits_31_23: u32, imm_bits: u32, rn: Reg, rd: Writable<Reg>) -> u32
    requires bits_31_23 { bits_31_23 * 2 ^ 23 ≡ form_word (logic_imm_of bits_31_23 (record {
      imm_bits = 0;
      rn = 0;
      rd = 0;
    })) }
    requires rn { IsGeneral rn }
    requires rd { IsGeneral rd }
    requires form { IsFormOf (logic_imm_of bits_31_23 (record {
      imm_bits = imm_bits;
      rn = register_field rn;
      rd = register_field rd;
    })) }
    ensures { result ≡ form_word (logic_imm_of bits_31_23 (record {
      imm_bits = imm_bits;
      rn = register_field rn;
      rd = register_field rd;
    })) }
{
    let (sf, opc) = (bits_31_23 >> 8, (bits_31_23 >> 6) % 4);
    let (n, immr, imms) = (imm_bits >> 12, (imm_bits >> 6) % 64, imm_bits % 64);
    let (rn, rd) = (general_field(rn), general_field(rd.to_reg()));
    logic_imm_word(sf, opc, n, immr, imms, rn, rd)
}

/// The word of the multiplication that raw bits tell, with four registers.
#[inline(always)]
fn pack_rrrr(top: u32, bit15: u32, rm: u32, ra: u32, rn: u32, rd: u32) -> u32
    requires below { AreProductParts top bit15 rd rn ra rm }
    requires form { NamedForm rows_of_rrrr (rrrr_number top bit15 rd rn ra rm) }
    ensures { result ≡ rrrr_number top bit15 rd rn ra rm }
{
    if top % 2 == 0 {
        let sf = top >> 10;
        mul_add_word(bit15, ra, TwoRegisters { sf, rm, rn, rd })
    } else {
        mul_add_long_word((top >> 2) % 2, rm, ra, rn, rd)
    }
}

/// Encodes a multiplication with an addition or subtraction: `top11` is the word's bits 31 to 21, `bit15` its bit 15,
/// and `ra` is what the product is added to or taken from (rows `MulAdd` and, with `bit15` 0, `MulAddLong`).
pub fn enc_arith_rrrr(top11: u32, rm: Reg, bit15: u32, ra: Reg, rn: Reg, rd: Writable<Reg>) -> u32
    requires top11 { top11 < 2 ^ 11 }
    requires rm { IsGeneral rm }
    requires bit15 { bit15 < 2 }
    requires ra { IsGeneral ra }
    requires rn { IsGeneral rn }
    requires rd { IsGeneral rd }
    requires form { NamedForm rows_of_rrrr (rrrr_number top11 bit15 (register_field rd)
        (register_field rn) (register_field ra) (register_field rm)) }
    ensures { (named : NamedForm rows_of_rrrr
        (rrrr_number top11 bit15 (register_field rd) (register_field rn) (register_field ra)
        (register_field rm))) → result ≡ form_word named.form }
{
    let (rm, ra) = (general_field(rm), general_field(ra));
    let (rn, rd) = (general_field(rn), general_field(rd.to_reg()));
    pack_rrrr(top11, bit15, rm, ra, rn, rd)
}

/// Encodes an operation on one register, as `rbit` or `clz`: `size` is the bit `sf`, `opcode2` is 0 in each that is
/// encoded, and `opcode1` says which it is (row `DataProc1`).
pub fn enc_bit_rr(size: u32, opcode2: u32, opcode1: u32, rn: Reg, rd: Writable<Reg>) -> u32
    requires opcode2 { opcode2 ≡ 0 }
    requires rn { IsGeneral rn }
    requires rd { IsGeneral rd }
    requires form { IsFormOf (data_proc1 (record {
      sf = size;
      op6 = opcode1;
      rn = register_field rn;
      rd = register_field rd;
    })) }
    ensures { result ≡ form_word (data_proc1 (record {
      sf = size;
      op6 = opcode1;
      rn = register_field rn;
      rd = register_field rd;
    })) }
{
    prove!(opcode2 == 0);
    pack(
        Row::DataProc1,
        &[size, opcode1, general_field(rn), general_field(rd.to_reg())],
    )
}
