// Written by `python3 tools/instructions.py` from tables/instructions.txt.
//! The arms of functions that go by the instruction: each macro is a match that gives what its name says.
//!
//! Behind `;` stand the arms of the other instructions, where a macro takes them.

/// The words of the integer operations with immediates.
#[macro_export]
macro_rules! immediate_words {
    ($inst:expr) => {
        match $inst {
            Inst::Adr { rd, off } => adr_word(*rd, *off),
            Inst::Adrp { rd, off } => adrp_word(*rd, *off),
            Inst::AluRRImm12 { alu_op, size, rd, rn, imm12 } =>
                alu_rr_imm12_word(*alu_op, *size, *rd, *rn, *imm12),
            Inst::AluRRImmLogic { alu_op, size, rd, rn, imml } =>
                alu_rr_imm_logic_word(*alu_op, *size, *rd, *rn, *imml),
            Inst::MovWide { op, rd, imm, size } => mov_wide_word(*op, *rd, *imm, *size),
            Inst::MovK { rd, rn, imm, size } => mov_k_word(*rd, *imm, *size),
            Inst::AluRRImmShift { alu_op, size, rd, rn, immshift } =>
                alu_rr_imm_shift_word(*alu_op, *size, *rd, *rn, *immshift),
            Inst::Extend { rd, rn, signed, from_bits, to_bits } =>
                extend_word(*rd, *rn, *signed, *from_bits, *to_bits),
            Inst::BitfieldMove { size, bfm_op, rd, rn, immr, imms } =>
                enc_bfm(bfm_opc_bits(*bfm_op), *size, *rd, *rn, immr.imm, imms.imm),
            Inst::BitfieldMoveMod { size, rd, ri, rn, immr, imms } =>
                enc_bfm(1, *size, *rd, *rn, immr.imm, imms.imm),
            _ => unreachable!(),
        }
    };
}

/// The words of the integer operations on registers.
#[macro_export]
macro_rules! register_words {
    ($inst:expr) => {
        match $inst {
            Inst::AluRRR { alu_op, size, rd, rn, rm } =>
                alu_rrr_word(*alu_op, *size, *rd, *rn, *rm),
            Inst::BitRR { op, size, rd, rn } =>
                enc_bit_rr(size.sf_bit(), 0, bit_opcode_bits(*op), *rn, *rd),
            Inst::AluRRRShift { alu_op, size, rd, rn, rm, shiftop } =>
                shifted_word(*alu_op, *shiftop, two_registers(*size, *rd, *rn, *rm)),
            Inst::Mov { size, rd, rm } => mov_word(*size, *rd, *rm),
            Inst::MovFromPReg { rd, rm } =>
                mov_word(OperandSize::Size64, *rd, Reg::from_real_reg(*rm)),
            Inst::MovToPReg { rd, rm } =>
                mov_word(OperandSize::Size64, Writable::from_reg(Reg::from_real_reg(*rd)), *rm),
            Inst::AluRRRExtend { alu_op, size, rd, rn, rm, extendop } =>
                alu_rrr_extend_word(*alu_op, *size, *rd, *rn, *rm, *extendop),
            Inst::CCmp { size, rn, rm, nzcv, cond } => enc_ccmp(*size, *rn, *rm, *nzcv, *cond),
            Inst::CCmpImm { size, rn, imm, nzcv, cond } =>
                enc_ccmp_imm(*size, *rn, *imm, *nzcv, *cond),
            Inst::CSel { rd, rn, rm, cond } => csel_word(*rd, *rn, *rm, *cond),
            Inst::CSet { rd, cond } => enc_csel(*rd, zero_reg(), zero_reg(), cond.invert(), 0, 1),
            Inst::CSetm { rd, cond } => enc_csel(*rd, zero_reg(), zero_reg(), cond.invert(), 1, 0),
            Inst::CSNeg { rd, rn, rm, cond } => enc_csel(*rd, *rn, *rm, *cond, 1, 1),
            Inst::AluRRRR { alu_op, size, rd, rn, rm, ra } =>
                product_word(*alu_op, register_field(*ra), two_registers(*size, *rd, *rn, *rm)),
            _ => unreachable!(),
        }
    };
}

/// The words of the operations on scalar floats.
#[macro_export]
macro_rules! float_words {
    ($inst:expr) => {
        match $inst {
            Inst::FpuMoveFromVec { rd, rn, idx, size } => move_lane_word(*size, *idx, *rd, *rn),
            Inst::FpuRRI { fpu_op, rd, rn } => right_shift_word(*fpu_op, *rd, *rn),
            Inst::FpuRRIMod { fpu_op, rd, ri, rn } => kept_shift_word(*fpu_op, *rd, *rn),
            Inst::FpuMove128 { rd, rn } => move_vector_word(*rd, *rn),
            Inst::FpuToInt { op, rd, rn } => conversion_word(to_int(*op), *rd, *rn),
            Inst::IntToFpu { op, rd, rn } => conversion_word(from_int(*op), *rd, *rn),
            Inst::MovToFpu { rd, rn, size } => conversion_word(bits_to_float(*size), *rd, *rn),
            Inst::FpuMove32 { rd, rn } => move_word(ScalarSize::Size32, *rd, *rn),
            Inst::FpuMove64 { rd, rn } => move_word(ScalarSize::Size64, *rd, *rn),
            Inst::FpuExtend { rd, rn, size } => move_word(*size, *rd, *rn),
            Inst::FpuRR { fpu_op, size, rd, rn } => one_float_word(*fpu_op, *size, *rd, *rn),
            Inst::FpuRound { op, rd, rn } => round_word(*op, *rd, *rn),
            Inst::FpuCmp { size, rn, rm } => enc_fcmp(*size, *rn, *rm),
            Inst::FpuMoveFPImm { rd, imm, size } => float_immediate_word(*size, *imm, *rd),
            Inst::FpuRRR { fpu_op, size, rd, rn, rm } =>
                two_floats_word(*fpu_op, *size, *rd, *rn, *rm),
            Inst::FpuCSel16 { rd, rn, rm, cond } =>
                enc_fcsel(*rd, *rn, *rm, *cond, ScalarSize::Size16),
            Inst::FpuCSel32 { rd, rn, rm, cond } =>
                enc_fcsel(*rd, *rn, *rm, *cond, ScalarSize::Size32),
            Inst::FpuCSel64 { rd, rn, rm, cond } =>
                enc_fcsel(*rd, *rn, *rm, *cond, ScalarSize::Size64),
            Inst::FpuRRRR { fpu_op, size, rd, rn, rm, ra } =>
                three_floats_word(*fpu_op, *size, *rd, *rn, *rm, *ra),
            _ => unreachable!(),
        }
    };
}

/// The words of the operations on vectors.
#[macro_export]
macro_rules! vector_words {
    ($inst:expr) => {
        match $inst {
            Inst::VecRRPair { op, rd, rn } => pair_word(*rd, *rn),
            Inst::VecMisc { op, rd, rn, size } => two_word(two_op(*op), *size, *rd, *rn),
            Inst::VecRRLong { op, rd, rn, high_half } =>
                misc_word(u32::from(*high_half), long_fields(*op), *rd, *rn),
            Inst::VecRRNarrowLow { op, rd, rn, lane_size } =>
                misc_word(0, narrow_fields(*op, *lane_size), *rd, *rn),
            Inst::VecRRNarrowHigh { op, rd, ri, rn, lane_size } =>
                misc_word(1, narrow_fields(*op, *lane_size), *rd, *rn),
            Inst::VecRRPairLong { op, rd, rn } => misc_word(1, pair_long_fields(*op), *rd, *rn),
            Inst::VecLanes { op, rd, rn, size } => across_word(across_fields(*op), *size, *rd, *rn),
            Inst::VecRRRLong { alu_op, rd, rn, rm, high_half } =>
                long_product_word(product_fields(*alu_op), *high_half, *rd, *rn, *rm),
            Inst::VecRRRLongMod { alu_op, rd, ri, rn, rm, high_half } =>
                long_product_word(added_product_fields(*alu_op), *high_half, *rd, *rn, *rm),
            Inst::VecRRR { alu_op, rd, rn, rm, size } =>
                three_word(three_op(*alu_op), *size, *rd, *rn, *rm),
            Inst::VecRRRMod { alu_op, rd, ri, rn, rm, size } =>
                three_word(kept_three_op(*alu_op), *size, *rd, *rn, *rm),
            Inst::VecExtend { t, rd, rn, high_half, lane_size } =>
                extend_lanes_word(*t, *high_half, *lane_size, *rd, *rn),
            Inst::VecShiftImm { op, rd, rn, size, imm } =>
                lane_shift_word(*op, *size, *imm, *rd, *rn),
            Inst::VecShiftImmMod { op, rd, ri, rn, size, imm } =>
                kept_lane_shift_word(*size, *imm, *rd, *rn),
            Inst::VecFmlaElem { alu_op, rd, ri, rn, rm, size, idx } =>
                element_word(*alu_op, *size, *idx, *rd, *rn, *rm),
            _ => unreachable!(),
        }
    };
}

/// The words of the moves of lanes and the tables of bytes.
#[macro_export]
macro_rules! vector_move_words {
    ($inst:expr) => {
        match $inst {
            Inst::VecTbl { rd, rn, rm } => table_word(false, false, *rd, *rn, *rm),
            Inst::VecTblExt { rd, ri, rn, rm } => table_word(false, true, *rd, *rn, *rm),
            Inst::VecTbl2 { rd, rn, rn2, rm } => table_word(true, false, *rd, *rn, *rm),
            Inst::VecTbl2Ext { rd, ri, rn, rn2, rm } => table_word(true, true, *rd, *rn, *rm),
            Inst::VecExtract { rd, rn, rm, imm4 } => extract_word(*imm4, *rd, *rn, *rm),
            Inst::VecDupFromFpu { rd, rn, size, lane } => dup_lane_word(*size, *lane, *rd, *rn),
            Inst::VecDup { rd, rn, size } => dup_word(*size, *rd, *rn),
            Inst::MovFromVecSigned { rd, rn, idx, size, scalar_size } =>
                signed_move_word(*size, *idx, *scalar_size, *rd, *rn),
            Inst::MovFromVec { rd, rn, idx, size } => unsigned_move_word(*size, *idx, *rd, *rn),
            Inst::MovToVec { rd, ri, rn, idx, size } => insert_word(*size, *idx, *rd, *rn),
            Inst::VecMovElement { rd, ri, rn, dest_idx, src_idx, size } =>
                move_element_word(*size, *dest_idx, *src_idx, *rd, *rn),
            Inst::VecDupFPImm { rd, imm, size } => dup_float_word(*size, *imm, *rd),
            Inst::VecDupImm { rd, imm, invert, size } =>
                dup_immediate_word(*size, *imm, *invert, *rd),
            _ => unreachable!(),
        }
    };
}

/// The words of the hints and barriers.
#[macro_export]
macro_rules! system_words {
    ($inst:expr) => {
        match $inst {
            Inst::Xpaclri => xpaclri_word(),
            Inst::Csdb => csdb_word(),
            Inst::Paci { key } => paci_word(*key),
            Inst::Bti { targets } => bti_word(*targets),
            Inst::Fence => enc_dmb_ish(),
            _ => unreachable!(),
        }
    };
}

/// The words of branches and the like that are one word without a use, and nothing of the others.
#[macro_export]
macro_rules! control_words {
    ($inst:expr) => {
        match $inst {
            Inst::Brk => Some(brk_word()),
            Inst::Nop4 => Some(nop4_word()),
            Inst::MovToNZCV { rn } => Some(mov_to_nzcv_word(*rn)),
            Inst::MovFromNZCV { rd } => Some(mov_from_nzcv_word(*rd)),
            Inst::IndirectBr { rn, targets } => Some(indirect_br_word(*rn)),
            Inst::Ret => Some(ret_word()),
            Inst::Udf { .. }
            | Inst::CondBr { .. }
            | Inst::TrapIf { .. }
            | Inst::AuthenticatedRet { .. }
            | Inst::Jump { .. }
            | Inst::TestBitAndBranch { .. }
            | Inst::LabelAddress { .. }
            | Inst::Nop0
            | Inst::Word4 { .. }
            | Inst::Word8 { .. }
            | Inst::EmitIsland { .. } => None,
            _ => unreachable!(),
        }
    };
}

/// The words of loads and stores that are one word, each with what is known of the access.
#[macro_export]
macro_rules! trapping_words {
    ($inst:expr; $($others:tt)+) => {
        match $inst {
            Inst::AtomicCAS128 { args } => (cas128_word(args), &args.flags),
            Inst::VecLoadReplicate { rd, rn, size, flags } =>
                (replicate_word(*size, *rd, *rn), flags),
            Inst::StoreRelease { access_ty, rt, rn, flags } =>
                (store_release_word(*access_ty, *rt, *rn), flags),
            Inst::LoadAcquire { access_ty, rt, rn, flags } =>
                (load_acquire_word(*access_ty, *rt, *rn), flags),
            Inst::AtomicCAS { rd, rs, rt, rn, ty, flags } =>
                (cas_word(*rd, *rs, *rt, *rn, *ty), flags),
            Inst::StoreP64 { rt, rt2, mem, flags } => (pair_word(0, *rt, *rt2, mem), flags),
            Inst::LoadP64 { rt, rt2, mem, flags } =>
                (pair_word(1, rt.to_reg(), rt2.to_reg(), mem), flags),
            Inst::FpuStoreP64 { rt, rt2, mem, flags } =>
                (pair64_word(false, *rt, *rt2, mem), flags),
            Inst::FpuLoadP64 { rt, rt2, mem, flags } =>
                (pair64_word(true, rt.to_reg(), rt2.to_reg(), mem), flags),
            Inst::FpuStoreP128 { rt, rt2, mem, flags } =>
                (pair128_word(false, *rt, *rt2, mem), flags),
            Inst::FpuLoadP128 { rt, rt2, mem, flags } =>
                (pair128_word(true, rt.to_reg(), rt2.to_reg(), mem), flags),
            Inst::AtomicRMW { ty, op, rs, rt, rn, flags } =>
                (rmw_word(*ty, *op, *rs, *rt, *rn), flags),
            $($others)+
        }
    };
}
