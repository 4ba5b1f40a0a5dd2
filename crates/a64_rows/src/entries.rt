// Written by `python3 tools/rows.py` from tables/rows.txt.
//! The table of instruction words: each row has a fixed word, and named fields at places of their own.

use crate::field::FieldName;
use crate::row_entry::{Entry, Field};
use crate::row_table::Row;
use crate::slots::Slot;

// The fields. Where fields of one name stand at several places, the lowest bit and the width follow the name.
const SF: Field = (FieldName::Sf, Slot::Bits(31, 1));

const OP: Field = (FieldName::Op, Slot::Bits(30, 1));

const S: Field = (FieldName::S, Slot::Bits(29, 1));

const SH: Field = (FieldName::Sh, Slot::Bits(22, 2));

const RM: Field = (FieldName::Rm, Slot::Bits(16, 5));

const IMM6: Field = (FieldName::Imm6, Slot::Bits(10, 6));

const RN: Field = (FieldName::Rn, Slot::Bits(5, 5));

const RD: Field = (FieldName::Rd, Slot::Bits(0, 5));

const OPC: Field = (FieldName::Opc, Slot::Bits(29, 2));

const N_21_1: Field = (FieldName::N, Slot::Bits(21, 1));

const EXT: Field = (FieldName::Ext, Slot::Bits(13, 3));

const OP6: Field = (FieldName::Op6, Slot::Bits(10, 6));

const U_23_1: Field = (FieldName::U, Slot::Bits(23, 1));

const SUB: Field = (FieldName::Sub, Slot::Bits(15, 1));

const RA: Field = (FieldName::Ra, Slot::Bits(10, 5));

const SH_22_1: Field = (FieldName::Sh, Slot::Bits(22, 1));

const IMM12: Field = (FieldName::Imm12, Slot::Bits(10, 12));

const N_22_1: Field = (FieldName::N, Slot::Bits(22, 1));

const IMMR: Field = (FieldName::Immr, Slot::Bits(16, 6));

const IMMS: Field = (FieldName::Imms, Slot::Bits(10, 6));

const SF_TWICE: Field = (FieldName::Sf, Slot::Doubled);

const HW: Field = (FieldName::Hw, Slot::Bits(21, 2));

const IMM16: Field = (FieldName::Imm16, Slot::Bits(5, 16));

const COND: Field = (FieldName::Cond, Slot::Bits(12, 4));

const O2_10_1: Field = (FieldName::O2, Slot::Bits(10, 1));

const IMM: Field = (FieldName::Imm, Slot::Bits(11, 1));

const NZCV: Field = (FieldName::Nzcv, Slot::Bits(0, 4));

const PAGE: Field = (FieldName::Page, Slot::Bits(31, 1));

const LO: Field = (FieldName::Lo, Slot::Bits(29, 2));

const HI: Field = (FieldName::Hi, Slot::Bits(5, 19));

const LINK: Field = (FieldName::Link, Slot::Bits(31, 1));

const IMM26: Field = (FieldName::Imm26, Slot::Bits(0, 26));

const IMM19: Field = (FieldName::Imm19, Slot::Bits(5, 19));

const COND_0_4: Field = (FieldName::Cond, Slot::Bits(0, 4));

const NZ: Field = (FieldName::Nz, Slot::Bits(24, 1));

const RT: Field = (FieldName::Rt, Slot::Bits(0, 5));

const B5: Field = (FieldName::B5, Slot::Bits(31, 1));

const B40: Field = (FieldName::B40, Slot::Bits(19, 5));

const IMM14: Field = (FieldName::Imm14, Slot::Bits(5, 14));

const OPC_21_2: Field = (FieldName::Opc, Slot::Bits(21, 2));

const B: Field = (FieldName::B, Slot::Bits(10, 1));

const CRM: Field = (FieldName::Crm, Slot::Bits(8, 4));

const OP2: Field = (FieldName::Op2, Slot::Bits(5, 3));

const READ: Field = (FieldName::Read, Slot::Bits(21, 1));

const SZ: Field = (FieldName::Sz, Slot::Bits(30, 2));

const V: Field = (FieldName::V, Slot::Bits(26, 1));

const OPC_22_2: Field = (FieldName::Opc, Slot::Bits(22, 2));

const IMM9: Field = (FieldName::Imm9, Slot::Bits(12, 9));

const MODE: Field = (FieldName::Mode, Slot::Bits(10, 2));

const S_12_1: Field = (FieldName::S, Slot::Bits(12, 1));

const OPC_30_2: Field = (FieldName::Opc, Slot::Bits(30, 2));

const IDX: Field = (FieldName::Idx, Slot::Bits(23, 2));

const LOAD: Field = (FieldName::Load, Slot::Bits(22, 1));

const IMM7_15_7: Field = (FieldName::Imm7, Slot::Bits(15, 7));

const RT2: Field = (FieldName::Rt2, Slot::Bits(10, 5));

const Q: Field = (FieldName::Q, Slot::Bits(30, 1));

const SZ_10_2: Field = (FieldName::Sz, Slot::Bits(10, 2));

const RS: Field = (FieldName::Rs, Slot::Bits(16, 5));

const SWP: Field = (FieldName::Swp, Slot::Bits(15, 1));

const OP_12_3: Field = (FieldName::Op, Slot::Bits(12, 3));

const FTYPE: Field = (FieldName::Ftype, Slot::Bits(22, 2));

const OP_15_6: Field = (FieldName::Op, Slot::Bits(15, 6));

const OP_12_4: Field = (FieldName::Op, Slot::Bits(12, 4));

const O1: Field = (FieldName::O1, Slot::Bits(21, 1));

const O0: Field = (FieldName::O0, Slot::Bits(15, 1));

const IMM8: Field = (FieldName::Imm8, Slot::Bits(13, 8));

const OP_16_5: Field = (FieldName::Op, Slot::Bits(16, 5));

const U: Field = (FieldName::U, Slot::Bits(29, 1));

const SIZE: Field = (FieldName::Size, Slot::Bits(22, 2));

const OP_11_5: Field = (FieldName::Op, Slot::Bits(11, 5));

const US: Field = (FieldName::Us, Slot::Bits(11, 1));

const SZ_22_1: Field = (FieldName::Sz, Slot::Bits(22, 1));

const L: Field = (FieldName::L, Slot::Bits(21, 1));

const O2_14_1: Field = (FieldName::O2, Slot::Bits(14, 1));

const H: Field = (FieldName::H, Slot::Bits(11, 1));

const OP_12_5: Field = (FieldName::Op, Slot::Bits(12, 5));

const MUL: Field = (FieldName::Mul, Slot::Bits(14, 1));

const IMM7_16_7: Field = (FieldName::Imm7, Slot::Bits(16, 7));

const OP_29_1: Field = (FieldName::Op, Slot::Bits(29, 1));

const ABC: Field = (FieldName::Abc, Slot::Bits(16, 3));

const CMODE: Field = (FieldName::Cmode, Slot::Bits(12, 4));

const DEFGH: Field = (FieldName::Defgh, Slot::Bits(5, 5));

const IMM5: Field = (FieldName::Imm5, Slot::Bits(16, 5));

const OP_11_4: Field = (FieldName::Op, Slot::Bits(11, 4));

const IMM4: Field = (FieldName::Imm4, Slot::Bits(11, 4));

const LEN: Field = (FieldName::Len, Slot::Bits(13, 2));

const EXT_12_1: Field = (FieldName::Ext, Slot::Bits(12, 1));

/// The rows, in the order of `Row`.
pub(crate) static ROWS: [Entry; 63] = [
    (
        Row::AddSubReg,
        0x0b000000,
        &[SF, OP, S, SH, RM, IMM6, RN, RD],
    ),
    (
        Row::LogicReg,
        0x0a000000,
        &[SF, OPC, SH, N_21_1, RM, IMM6, RN, RD],
    ),
    (Row::AddSubExt, 0x0b200000, &[SF, OP, S, RM, EXT, RN, RD]),
    (Row::AddSubCarry, 0x1a000000, &[SF, OP, S, RM, RN, RD]),
    (Row::DataProc2, 0x1ac00000, &[SF, RM, OP6, RN, RD]),
    (Row::MulHigh, 0x9b407c00, &[U_23_1, RM, RN, RD]),
    (Row::MulAdd, 0x1b000000, &[SF, RM, SUB, RA, RN, RD]),
    (Row::MulAddLong, 0x9b200000, &[U_23_1, RM, RA, RN, RD]),
    (
        Row::AddSubImm,
        0x11000000,
        &[SF, OP, S, SH_22_1, IMM12, RN, RD],
    ),
    (
        Row::LogicImm,
        0x12000000,
        &[SF, OPC, N_22_1, IMMR, IMMS, RN, RD],
    ),
    (
        Row::Bitfield,
        0x13000000,
        &[SF_TWICE, OPC, IMMR, IMMS, RN, RD],
    ),
    (Row::Extract, 0x13800000, &[SF_TWICE, RM, IMMS, RN, RD]),
    (Row::DataProc1, 0x5ac00000, &[SF, OP6, RN, RD]),
    (Row::MoveWide, 0x12800000, &[SF, OPC, HW, IMM16, RD]),
    (
        Row::CondSelect,
        0x9a800000,
        &[OP, RM, COND, O2_10_1, RN, RD],
    ),
    (Row::CondCompare, 0x7a400000, &[SF, RM, COND, IMM, RN, NZCV]),
    (Row::Adr, 0x10000000, &[PAGE, LO, HI, RD]),
    (Row::Branch26, 0x14000000, &[LINK, IMM26]),
    (Row::BranchCond, 0x54000000, &[IMM19, COND_0_4]),
    (Row::CompareBranch, 0x34000000, &[SF, NZ, IMM19, RT]),
    (Row::TestBranch, 0x36000000, &[B5, NZ, B40, IMM14, RT]),
    (Row::BranchReg, 0xd61f0000, &[OPC_21_2, RN]),
    (Row::RetAuth, 0xd65f0bff, &[B]),
    (Row::Hint, 0xd503201f, &[CRM, OP2]),
    (Row::Barrier, 0xd5033bbf, &[]),
    (Row::Brk, 0xd43e0000, &[]),
    (Row::Nzcv, 0xd51b4200, &[READ, RT]),
    (
        Row::LdStImm9,
        0x38000000,
        &[SZ, V, OPC_22_2, IMM9, MODE, RN, RT],
    ),
    (
        Row::LdStUnsigned,
        0x39000000,
        &[SZ, V, OPC_22_2, IMM12, RN, RT],
    ),
    (
        Row::LdStReg,
        0x38200800,
        &[SZ, V, OPC_22_2, RM, EXT, S_12_1, RN, RT],
    ),
    (Row::LdLiteral, 0x18000000, &[OPC_30_2, V, IMM19, RT]),
    (
        Row::LdStPair,
        0x28000000,
        &[OPC_30_2, V, IDX, LOAD, IMM7_15_7, RT2, RN, RT],
    ),
    (Row::LdReplicate, 0x0d40c000, &[Q, SZ_10_2, RN, RT]),
    (Row::AtomicOp, 0x38e00000, &[SZ, RS, SWP, OP_12_3, RN, RT]),
    (Row::LoadAcq, 0x08dffc00, &[SZ, RN, RT]),
    (Row::StoreRel, 0x089ffc00, &[SZ, RN, RT]),
    (Row::LoadEx, 0x085ffc00, &[SZ, RN, RT]),
    (Row::StoreEx, 0x0800fc00, &[SZ, RS, RN, RT]),
    (Row::Cas, 0x08e0fc00, &[SZ, RS, RN, RT]),
    (Row::Casp, 0x4860fc00, &[RS, RN, RT]),
    (Row::FpOne, 0x1e204000, &[FTYPE, OP_15_6, RN, RD]),
    (Row::FpTwo, 0x1e200800, &[FTYPE, RM, OP_12_4, RN, RD]),
    (Row::FpThree, 0x1f000000, &[FTYPE, O1, RM, O0, RA, RN, RD]),
    (Row::FpCompare, 0x1e202000, &[FTYPE, RM, RN]),
    (Row::FpSelect, 0x1e200c00, &[FTYPE, RM, COND, RN, RD]),
    (Row::FpImm, 0x1e201000, &[FTYPE, IMM8, RD]),
    (Row::FpInt, 0x1e200000, &[SF, FTYPE, OP_16_5, RN, RD]),
    (
        Row::VecThree,
        0x0e200400,
        &[Q, U, SIZE, RM, OP_11_5, RN, RD],
    ),
    (Row::VecPermute, 0x4e000800, &[SIZE, RM, OP_12_3, RN, RD]),
    (Row::VecDot, 0x0e809400, &[Q, US, RM, RN, RD]),
    (
        Row::VecElem,
        0x0f801000,
        &[Q, SZ_22_1, L, RM, O2_14_1, H, RN, RD],
    ),
    (Row::VecTwo, 0x0e200800, &[Q, U, SIZE, OP_12_5, RN, RD]),
    (Row::VecScalarPair, 0x5ef1b800, &[RN, RD]),
    (Row::VecAcross, 0x0e300800, &[Q, U, SIZE, OP_12_5, RN, RD]),
    (Row::VecLong3, 0x0e208000, &[Q, U, SIZE, MUL, RM, RN, RD]),
    (
        Row::VecShift,
        0x0f000400,
        &[Q, U, IMM7_16_7, OP_11_5, RN, RD],
    ),
    (
        Row::VecImm,
        0x0f000400,
        &[Q, OP_29_1, ABC, CMODE, DEFGH, RD],
    ),
    (Row::ScalarShift, 0x7f000400, &[IMM7_16_7, OP_11_5, RN, RD]),
    (Row::VecCopy, 0x0e000400, &[Q, IMM5, OP_11_4, RN, RD]),
    (Row::ScalarCopy, 0x5e000400, &[IMM5, RN, RD]),
    (Row::VecInsElem, 0x6e000400, &[IMM5, IMM4, RN, RD]),
    (Row::VecExt, 0x6e000000, &[RM, IMM4, RN, RD]),
    (Row::VecTable, 0x4e000000, &[RM, LEN, EXT_12_1, RN, RD]),
];
