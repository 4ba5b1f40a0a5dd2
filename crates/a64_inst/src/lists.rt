// Written by `python3 tools/instructions.py` from tables/instructions.txt.
//! The instructions that are one plain word, each with its fields in the order of a file.
//!
//! A list hands its instructions to a macro, which makes of each an arm. Of a field it says what it is: a
//! register that is written (`Def`) or read (`Use`), with its class, a name of [`Class`](crate::Class) or, in
//! parentheses, a call that gives one; or something else (`Is`), with its kind. Behind `if` stands what must
//! hold beside the classes. The macro's first argument names the variable that says whether registers may be
//! virtual; only what stands behind `if` uses it.

/// Hands the integer operations with immediates to a macro.
#[macro_export]
macro_rules! immediate_list {
    ($arms:ident, $virtuals:ident, $($args:tt),+) => {
        $arms! { $virtuals, $($args),+;
            Adr { rd: Def Zero, off: Is I32 } if is_near(*off);
            Adrp { rd: Def Zero, off: Is I32 } if is_near(*off);
            AluRRImm12 { alu_op: Is AluOp, size: Is Size, rd: Def (add_sub_class(*alu_op)), rn: Use Stack, imm12: Is Imm12 } if is_add_sub_imm12(*alu_op, *imm12);
            AluRRImmLogic { alu_op: Is AluOp, size: Is Size, rd: Def (logic_class(*alu_op)), rn: Use Zero, imml: Is Logic } if is_logic_imm(*alu_op, *size, *imml);
            MovWide { op: Is MoveWideOp, rd: Def Zero, imm: Is Wide, size: Is Size } if is_wide_in(*size, *imm);
            MovK { rd: Def Zero, rn: Use Zero, imm: Is Wide, size: Is Size } if is_kept(&rd.to_reg(), rn, *imm, *size);
            AluRRImmShift { alu_op: Is AluOp, size: Is Size, rd: Def Zero, rn: Use Zero, immshift: Is ImmShift } if is_shift_by(*alu_op, *size, *immshift);
            Extend { rd: Def Own, rn: Use Zero, signed: Is Bool, from_bits: Is U8, to_bits: Is U8 } if is_extended($virtuals, rd.to_reg(), *signed, *from_bits, *to_bits);
            BitfieldMove { size: Is Size, bfm_op: Is BfmOp, rd: Def Zero, rn: Use Zero, immr: Is UImm6, imms: Is UImm6 } if is_bitfield(*size, *immr, *imms);
            BitfieldMoveMod { size: Is Size, rd: Def Zero, ri: Use Zero, rn: Use Zero, immr: Is UImm6, imms: Is UImm6 } if is_kept_bitfield(&rd.to_reg(), ri, *size, *immr, *imms);
        }
    };
}

/// Hands the integer operations on registers to a macro.
#[macro_export]
macro_rules! register_list {
    ($arms:ident, $virtuals:ident, $($args:tt),+) => {
        $arms! { $virtuals, $($args),+;
            AluRRR { alu_op: Is AluOp, size: Is Size, rd: Def Zero, rn: Use Zero, rm: Use Zero } if is_product_at(*alu_op, *size);
            BitRR { op: Is BitOp, size: Is Size, rd: Def Zero, rn: Use Zero } if is_bit_op_at(*op, *size);
            AluRRRShift { alu_op: Is AluOp, size: Is Size, rd: Def Zero, rn: Use Zero, rm: Use Zero, shiftop: Is Shift } if is_shifted(*alu_op, *size, *shiftop);
            Mov { size: Is Size, rd: Def Own, rm: Use Own } if is_move($virtuals, *size, rd.to_reg(), *rm);
            MovFromPReg { rd: Def Own, rm: Is PReg } if is_move_from($virtuals, rd.to_reg(), *rm);
            MovToPReg { rd: Is PReg, rm: Use Own } if is_move_to($virtuals, *rd, *rm);
            AluRRRExtend { alu_op: Is AluOp, size: Is Size, rd: Def (add_sub_class(*alu_op)), rn: Use Stack, rm: Use Zero, extendop: Is Extend } if is_add_sub(*alu_op);
            CCmp { size: Is Size, rn: Use Zero, rm: Use Zero, nzcv: Is Nzcv, cond: Is Cond } if true;
            CCmpImm { size: Is Size, rn: Use Zero, imm: Is UImm5, nzcv: Is Nzcv, cond: Is Cond } if true;
            CSel { rd: Def Zero, rn: Use Zero, rm: Use Zero, cond: Is Cond } if true;
            CSet { rd: Def Zero, cond: Is Cond } if true;
            CSetm { rd: Def Zero, cond: Is Cond } if true;
            CSNeg { rd: Def Zero, rn: Use Zero, rm: Use Zero, cond: Is Cond } if true;
            AluRRRR { alu_op: Is AluOp3, size: Is Size, rd: Def Zero, rn: Use Zero, rm: Use Zero, ra: Use Zero } if is_long_product_at(*alu_op, *size);
        }
    };
}

/// Hands the operations on scalar floats to a macro.
#[macro_export]
macro_rules! float_list {
    ($arms:ident, $virtuals:ident, $($args:tt),+) => {
        $arms! { $virtuals, $($args),+;
            FpuMoveFromVec { rd: Def Vector, rn: Use Vector, idx: Is U8, size: Is VectorSize } if is_float_lane(*size, *idx);
            FpuRRI { fpu_op: Is FpuOpRI, rd: Def Vector, rn: Use Vector } if is_right_shift(*fpu_op);
            FpuRRIMod { fpu_op: Is FpuOpRIMod, rd: Def Vector, ri: Use Vector, rn: Use Vector } if is_kept_shift(&rd.to_reg(), ri, *fpu_op);
            FpuMove128 { rd: Def Vector, rn: Use Vector } if true;
            FpuToInt { op: Is FpuToIntOp, rd: Def Zero, rn: Use Vector } if true;
            IntToFpu { op: Is IntToFpuOp, rd: Def Vector, rn: Use Zero } if true;
            MovToFpu { rd: Def Vector, rn: Use Zero, size: Is ScalarSize } if is_float_size(*size);
            FpuMove32 { rd: Def Vector, rn: Use Vector } if true;
            FpuMove64 { rd: Def Vector, rn: Use Vector } if true;
            FpuExtend { rd: Def Vector, rn: Use Vector, size: Is ScalarSize } if is_float_size(*size);
            FpuRR { fpu_op: Is FpuOp1, size: Is ScalarSize, rd: Def Vector, rn: Use Vector } if is_fpu_op1_at(*fpu_op, *size);
            FpuRound { op: Is FpuRoundMode, rd: Def Vector, rn: Use Vector } if true;
            FpuCmp { size: Is ScalarSize, rn: Use Vector, rm: Use Vector } if is_float_size(*size);
            FpuMoveFPImm { rd: Def Vector, imm: Is FloatImm, size: Is ScalarSize } if is_float_imm_of(*size, *imm);
            FpuRRR { fpu_op: Is FpuOp2, size: Is ScalarSize, rd: Def Vector, rn: Use Vector, rm: Use Vector } if is_float_size(*size);
            FpuCSel16 { rd: Def Vector, rn: Use Vector, rm: Use Vector, cond: Is Cond } if true;
            FpuCSel32 { rd: Def Vector, rn: Use Vector, rm: Use Vector, cond: Is Cond } if true;
            FpuCSel64 { rd: Def Vector, rn: Use Vector, rm: Use Vector, cond: Is Cond } if true;
            FpuRRRR { fpu_op: Is FpuOp3, size: Is ScalarSize, rd: Def Vector, rn: Use Vector, rm: Use Vector, ra: Use Vector } if is_float_size(*size);
        }
    };
}

/// Hands the operations on vectors to a macro.
#[macro_export]
macro_rules! vector_list {
    ($arms:ident, $virtuals:ident, $($args:tt),+) => {
        $arms! { $virtuals, $($args),+;
            VecRRPair { op: Is VecPairOp, rd: Def Vector, rn: Use Vector } if true;
            VecMisc { op: Is VecMisc2, rd: Def Vector, rn: Use Vector, size: Is VectorSize } if is_misc_at(*op, *size);
            VecRRLong { op: Is VecRRLongOp, rd: Def Vector, rn: Use Vector, high_half: Is Bool } if true;
            VecRRNarrowLow { op: Is VecRRNarrowOp, rd: Def Vector, rn: Use Vector, lane_size: Is ScalarSize } if is_narrow_at(*op, *lane_size);
            VecRRNarrowHigh { op: Is VecRRNarrowOp, rd: Def Vector, ri: Use Vector, rn: Use Vector, lane_size: Is ScalarSize } if is_kept_narrow(&rd.to_reg(), ri, *op, *lane_size);
            VecRRPairLong { op: Is VecRRPairLongOp, rd: Def Vector, rn: Use Vector } if true;
            VecLanes { op: Is VecLanesOp, rd: Def Vector, rn: Use Vector, size: Is VectorSize } if is_across(*size);
            VecRRRLong { alu_op: Is VecRRRLongOp, rd: Def Vector, rn: Use Vector, rm: Use Vector, high_half: Is Bool } if true;
            VecRRRLongMod { alu_op: Is VecRRRLongModOp, rd: Def Vector, ri: Use Vector, rn: Use Vector, rm: Use Vector, high_half: Is Bool } if is_same_register(&rd.to_reg(), ri);
            VecRRR { alu_op: Is VecAluOp, rd: Def Vector, rn: Use Vector, rm: Use Vector, size: Is VectorSize } if is_alu_at(*alu_op, *size);
            VecRRRMod { alu_op: Is VecAluModOp, rd: Def Vector, ri: Use Vector, rn: Use Vector, rm: Use Vector, size: Is VectorSize } if is_mod_at(&rd.to_reg(), ri, *alu_op, *size);
            VecExtend { t: Is VecExtendOp, rd: Def Vector, rn: Use Vector, high_half: Is Bool, lane_size: Is ScalarSize } if is_float_size(*lane_size);
            VecShiftImm { op: Is VecShiftImmOp, rd: Def Vector, rn: Use Vector, size: Is VectorSize, imm: Is U8 } if is_amount(*op, *size, *imm);
            VecShiftImmMod { op: Is VecShiftImmModOp, rd: Def Vector, ri: Use Vector, rn: Use Vector, size: Is VectorSize, imm: Is U8 } if is_kept_amount(&rd.to_reg(), ri, *size, *imm);
            VecFmlaElem { alu_op: Is VecAluModOp, rd: Def Vector, ri: Use Vector, rn: Use Vector, rm: Use Vector, size: Is VectorSize, idx: Is U8 } if is_elem_at(&rd.to_reg(), ri, *alu_op, *size, *idx);
        }
    };
}

/// Hands the moves of lanes and the tables of bytes to a macro.
#[macro_export]
macro_rules! vector_move_list {
    ($arms:ident, $virtuals:ident, $($args:tt),+) => {
        $arms! { $virtuals, $($args),+;
            VecTbl { rd: Def Vector, rn: Use Vector, rm: Use Vector } if true;
            VecTblExt { rd: Def Vector, ri: Use Vector, rn: Use Vector, rm: Use Vector } if is_same_register(&rd.to_reg(), ri);
            VecTbl2 { rd: Def Vector, rn: Use Vector, rn2: Use Vector, rm: Use Vector } if is_next_vector(rn, rn2);
            VecTbl2Ext { rd: Def Vector, ri: Use Vector, rn: Use Vector, rn2: Use Vector, rm: Use Vector } if is_kept_table(&rd.to_reg(), ri, rn, rn2);
            VecExtract { rd: Def Vector, rn: Use Vector, rm: Use Vector, imm4: Is U8 } if *imm4 < 16;
            VecDupFromFpu { rd: Def Vector, rn: Use Vector, size: Is VectorSize, lane: Is U8 } if is_lane(*size, *lane);
            VecDup { rd: Def Vector, rn: Use Zero, size: Is VectorSize } if true;
            MovFromVecSigned { rd: Def Zero, rn: Use Vector, idx: Is U8, size: Is VectorSize, scalar_size: Is Size } if is_signed_lane(*size, *idx, *scalar_size);
            MovFromVec { rd: Def Zero, rn: Use Vector, idx: Is U8, size: Is ScalarSize } if is_scalar_lane(*size, *idx);
            MovToVec { rd: Def Vector, ri: Use Vector, rn: Use Zero, idx: Is U8, size: Is VectorSize } if is_kept_lane(&rd.to_reg(), ri, *size, *idx);
            VecMovElement { rd: Def Vector, ri: Use Vector, rn: Use Vector, dest_idx: Is U8, src_idx: Is U8, size: Is VectorSize } if are_kept_lanes(&rd.to_reg(), ri, *size, *dest_idx, *src_idx);
            VecDupFPImm { rd: Def Vector, imm: Is FloatImm, size: Is VectorSize } if is_float_imm_in(*size, *imm);
            VecDupImm { rd: Def Vector, imm: Is MovImm, invert: Is Bool, size: Is VectorSize } if is_mov_imm_in(*size, *imm, *invert);
        }
    };
}

/// Hands the hints and barriers to a macro.
#[macro_export]
macro_rules! system_list {
    ($arms:ident, $virtuals:ident, $($args:tt),+) => {
        $arms! { $virtuals, $($args),+;
            Xpaclri { } if true;
            Csdb { } if true;
            Paci { key: Is ApiKey } if true;
            Bti { targets: Is BranchTargetType } if true;
            Fence { } if true;
        }
    };
}
