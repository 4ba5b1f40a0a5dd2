// Written by `python3 tools/rows.py` from tables/rows.txt.
//! The limits of rows: what the values of a row's fields have to meet, besides their widths.

ghost use Rattle.std.specs.Prelude.{◌≡◌, length};
ghost use Rattle.a64_rows.specs.RowLimits.{limits_of};
ghost use Rattle.a64_rows.specs.Rows.{slots_of};

use crate::limits::{
    is_access, is_atomic, is_bit_number, is_bitmask_of, is_copy, is_even, is_float_conversion,
    is_float_one, is_float_type, is_halfword, is_index_extend, is_one_source, is_pair, is_permute,
    is_scalar_shift, is_two_source, is_vector_shift,
};
use crate::row_table::Row;

/// Whether the values of a row's fields meet its limits.
pub fn meets(row: Row, fields: &[u32]) -> bool
    requires { length fields.now ≡ length (slots_of row) }
    ensures { result ≡ limits_of row fields.now }
{
    match row {
        Row::AddSubReg => fields[3] != 3 && is_bit_number(fields[0], fields[5]),
        Row::LogicReg => is_bit_number(fields[0], fields[5]),
        Row::AddSubExt => true,
        Row::AddSubCarry => true,
        Row::DataProc2 => is_two_source(fields[2]),
        Row::MulHigh => true,
        Row::MulAdd => true,
        Row::MulAddLong => true,
        Row::AddSubImm => true,
        Row::LogicImm => is_bitmask_of(fields[0], fields[2], fields[3], fields[4]),
        Row::Bitfield => fields[1] != 3
            && is_bit_number(fields[0], fields[2])
            && is_bit_number(fields[0], fields[3]),
        Row::Extract => is_bit_number(fields[0], fields[2]),
        Row::DataProc1 => is_one_source(fields[0], fields[1]),
        Row::MoveWide => fields[1] != 1 && is_halfword(fields[0], fields[2]),
        Row::CondSelect => true,
        Row::CondCompare => true,
        Row::Adr => true,
        Row::Branch26 => true,
        Row::BranchCond => true,
        Row::CompareBranch => true,
        Row::TestBranch => true,
        Row::BranchReg => fields[0] <= 2,
        Row::RetAuth => true,
        Row::Hint => true,
        Row::Barrier => true,
        Row::Brk => true,
        Row::Nzcv => true,
        Row::LdStImm9 => is_access(fields[0], fields[1], fields[2]) && fields[4] != 2,
        Row::LdStUnsigned => is_access(fields[0], fields[1], fields[2]),
        Row::LdStReg => is_access(fields[0], fields[1], fields[2]) && is_index_extend(fields[4]),
        Row::LdLiteral => fields[0] <= 2,
        Row::LdStPair => fields[2] != 0 && is_pair(fields[0], fields[1]),
        Row::LdReplicate => true,
        Row::AtomicOp => is_atomic(fields[2], fields[3]),
        Row::LoadAcq => true,
        Row::StoreRel => true,
        Row::LoadEx => true,
        Row::StoreEx => true,
        Row::Cas => true,
        Row::Casp => is_even(fields[0]) && is_even(fields[2]),
        Row::FpOne => is_float_type(fields[0]) && is_float_one(fields[1]),
        Row::FpTwo => is_float_type(fields[0]) && fields[2] <= 5,
        Row::FpThree => is_float_type(fields[0]),
        Row::FpCompare => is_float_type(fields[0]),
        Row::FpSelect => is_float_type(fields[0]),
        Row::FpImm => is_float_type(fields[0]),
        Row::FpInt => is_float_conversion(fields[0], fields[1], fields[2]),
        Row::VecThree => true,
        Row::VecPermute => is_permute(fields[2]),
        Row::VecDot => true,
        Row::VecElem => true,
        Row::VecTwo => true,
        Row::VecScalarPair => true,
        Row::VecAcross => true,
        Row::VecLong3 => true,
        Row::VecShift => fields[2] >= 8 && is_vector_shift(fields[3]),
        Row::VecImm => true,
        Row::ScalarShift => is_scalar_shift(fields[1]),
        Row::VecCopy => is_copy(fields[2]),
        Row::ScalarCopy => true,
        Row::VecInsElem => true,
        Row::VecExt => true,
        Row::VecTable => fields[1] <= 1,
    }
}
