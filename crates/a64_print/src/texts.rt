// Written by `python3 tools/instructions.py` from tables/instructions.txt.
//! The arms of functions that append the texts of instructions, or say parts of them: each macro is the body
//! of one, which gives it its arguments.

/// Appends the texts of the integer operations with immediates.
#[macro_export]
macro_rules! immediate_texts {
    ($out:expr, $inst:expr) => {
        match $inst {
            Inst::Adr { rd, off } => line2($out, "adr", X(rd.to_reg()), Near(i64::from(*off))),
            Inst::Adrp { rd, off } =>
                line2($out, "adrp", X(rd.to_reg()), Near(i64::from(*off) * 4096)),
            Inst::AluRRImm12 { alu_op, size, rd, rn, imm12 } =>
                push_alu_rr_imm12($out, *alu_op, *size, rd.to_reg(), *rn, *imm12),
            Inst::AluRRImmLogic { alu_op, size, rd, rn, imml } => line3(
                $out,
                alu_op.op_str(),
                Sized(*size, rd.to_reg()),
                Sized(*size, *rn),
                Number(imml.value()),
            ),
            Inst::MovWide { op, rd, imm, size } =>
                line2($out, op.op_str(), Sized(*size, rd.to_reg()), Wide(*imm)),
            Inst::MovK { rd, rn, imm, size } =>
                line3($out, "movk", Sized(*size, rd.to_reg()), Sized(*size, *rn), Wide(*imm)),
            Inst::AluRRImmShift { alu_op, size, rd, rn, immshift } => line3(
                $out,
                alu_op.op_str(),
                Sized(*size, rd.to_reg()),
                Sized(*size, *rn),
                Number(u64::from(immshift.imm)),
            ),
            Inst::Extend { rd, rn, signed, from_bits, to_bits } =>
                push_extend($out, rd.to_reg(), *rn, *signed, *from_bits, *to_bits),
            Inst::BitfieldMove { size, bfm_op, rd, rn, immr, imms } => line4(
                $out,
                bfm_op.op_str(),
                Sized(*size, rd.to_reg()),
                Sized(*size, *rn),
                Number(u64::from(immr.imm)),
                Number(u64::from(imms.imm)),
            ),
            Inst::BitfieldMoveMod { size, rd, ri, rn, immr, imms } => line5(
                $out,
                "bfm",
                Sized(*size, rd.to_reg()),
                Sized(*size, *ri),
                Sized(*size, *rn),
                Number(u64::from(immr.imm)),
                Number(u64::from(imms.imm)),
            ),
            _ => unreachable!(),
        }
    };
}

/// Appends the texts of the integer operations on registers.
#[macro_export]
macro_rules! register_texts {
    ($out:expr, $inst:expr) => {
        match $inst {
            Inst::AluRRR { alu_op, size, rd, rn, rm } => line3(
                $out,
                alu_op.op_str(),
                Sized(*size, rd.to_reg()),
                Sized(*size, *rn),
                Sized(*size, *rm),
            ),
            Inst::BitRR { op, size, rd, rn } =>
                line2($out, op.op_str(), Sized(*size, rd.to_reg()), Sized(*size, *rn)),
            Inst::AluRRRShift { alu_op, size, rd, rn, rm, shiftop } => line4(
                $out,
                alu_op.op_str(),
                Sized(*size, rd.to_reg()),
                Sized(*size, *rn),
                Sized(*size, *rm),
                Shift(*shiftop),
            ),
            Inst::Mov { size, rd, rm } =>
                line2($out, "mov", Sized(*size, rd.to_reg()), Sized(*size, *rm)),
            Inst::MovFromPReg { rd, rm } =>
                line2($out, "mov", X(rd.to_reg()), X(Reg::from_real_reg(*rm))),
            Inst::MovToPReg { rd, rm } => line2($out, "mov", X(Reg::from_real_reg(*rd)), X(*rm)),
            Inst::AluRRRExtend { alu_op, size, rd, rn, rm, extendop } => line4(
                $out,
                alu_op.op_str(),
                Sized(*size, rd.to_reg()),
                Sized(*size, *rn),
                Sized(*size, *rm),
                Extend(*extendop),
            ),
            Inst::CCmp { size, rn, rm, nzcv, cond } => line4(
                $out,
                "ccmp",
                Sized(*size, *rn),
                Sized(*size, *rm),
                Flags(*nzcv),
                Condition(*cond),
            ),
            Inst::CCmpImm { size, rn, imm, nzcv, cond } => line4(
                $out,
                "ccmp",
                Sized(*size, *rn),
                Number(u64::from(imm.bits())),
                Flags(*nzcv),
                Condition(*cond),
            ),
            Inst::CSel { rd, rn, rm, cond } =>
                line4($out, "csel", X(rd.to_reg()), X(*rn), X(*rm), Condition(*cond)),
            Inst::CSet { rd, cond } => line2($out, "cset", X(rd.to_reg()), Condition(*cond)),
            Inst::CSetm { rd, cond } => line2($out, "csetm", X(rd.to_reg()), Condition(*cond)),
            Inst::CSNeg { rd, rn, rm, cond } =>
                line4($out, "csneg", X(rd.to_reg()), X(*rn), X(*rm), Condition(*cond)),
            Inst::AluRRRR { alu_op, size, rd, rn, rm, ra } => line4(
                $out,
                alu_op.op_str(),
                Sized(sum_size(*alu_op, *size), rd.to_reg()),
                Sized(*size, *rn),
                Sized(*size, *rm),
                Sized(sum_size(*alu_op, *size), *ra),
            ),
            _ => unreachable!(),
        }
    };
}

/// Appends the texts of the operations on scalar floats.
#[macro_export]
macro_rules! float_texts {
    ($out:expr, $inst:expr) => {
        match $inst {
            Inst::FpuMoveFromVec { rd, rn, idx, size } => line2(
                $out,
                "mov",
                Scalar(size.lane_size(), rd.to_reg()),
                Element(*idx, size.lane_size(), *rn),
            ),
            Inst::FpuRRI { fpu_op, rd, rn } => push_fpu_rri($out, *fpu_op, rd.to_reg(), *rn),
            Inst::FpuRRIMod { fpu_op, rd, ri, rn } =>
                push_fpu_rri_mod($out, *fpu_op, rd.to_reg(), *ri, *rn),
            Inst::FpuMove128 { rd, rn } => line2($out, "mov", Bytes(rd.to_reg()), Bytes(*rn)),
            Inst::FpuToInt { op, rd, rn } => line2(
                $out,
                op.op_str(),
                Sized(to_int_size(*op), rd.to_reg()),
                Scalar(from_float_size(*op), *rn),
            ),
            Inst::IntToFpu { op, rd, rn } => line2(
                $out,
                op.op_str(),
                Scalar(to_float_size(*op), rd.to_reg()),
                Sized(from_int_size(*op), *rn),
            ),
            Inst::MovToFpu { rd, rn, size } =>
                line2($out, "fmov", Scalar(*size, rd.to_reg()), Sized(scalar_operand(*size), *rn)),
            Inst::FpuMove32 { rd, rn } => line2(
                $out,
                "fmov",
                Scalar(ScalarSize::Size32, rd.to_reg()),
                Scalar(ScalarSize::Size32, *rn),
            ),
            Inst::FpuMove64 { rd, rn } => line2(
                $out,
                "fmov",
                Scalar(ScalarSize::Size64, rd.to_reg()),
                Scalar(ScalarSize::Size64, *rn),
            ),
            Inst::FpuExtend { rd, rn, size } =>
                line2($out, "fmov", Scalar(*size, rd.to_reg()), Scalar(*size, *rn)),
            Inst::FpuRR { fpu_op, size, rd, rn } => line2(
                $out,
                fpu_op.op_str(),
                Scalar(fpu_rr_size(*fpu_op, *size), rd.to_reg()),
                Scalar(*size, *rn),
            ),
            Inst::FpuRound { op, rd, rn } => line2(
                $out,
                op.op_str(),
                Scalar(round_size(*op), rd.to_reg()),
                Scalar(round_size(*op), *rn),
            ),
            Inst::FpuCmp { size, rn, rm } =>
                line2($out, "fcmp", Scalar(*size, *rn), Scalar(*size, *rm)),
            Inst::FpuMoveFPImm { rd, imm, size } =>
                line2($out, "fmov", Scalar(*size, rd.to_reg()), FloatImm(*imm)),
            Inst::FpuRRR { fpu_op, size, rd, rn, rm } => line3(
                $out,
                fpu_op.op_str(),
                Scalar(*size, rd.to_reg()),
                Scalar(*size, *rn),
                Scalar(*size, *rm),
            ),
            Inst::FpuCSel16 { rd, rn, rm, cond } => line4(
                $out,
                "fcsel",
                Scalar(ScalarSize::Size16, rd.to_reg()),
                Scalar(ScalarSize::Size16, *rn),
                Scalar(ScalarSize::Size16, *rm),
                Condition(*cond),
            ),
            Inst::FpuCSel32 { rd, rn, rm, cond } => line4(
                $out,
                "fcsel",
                Scalar(ScalarSize::Size32, rd.to_reg()),
                Scalar(ScalarSize::Size32, *rn),
                Scalar(ScalarSize::Size32, *rm),
                Condition(*cond),
            ),
            Inst::FpuCSel64 { rd, rn, rm, cond } => line4(
                $out,
                "fcsel",
                Scalar(ScalarSize::Size64, rd.to_reg()),
                Scalar(ScalarSize::Size64, *rn),
                Scalar(ScalarSize::Size64, *rm),
                Condition(*cond),
            ),
            Inst::FpuRRRR { fpu_op, size, rd, rn, rm, ra } => line4(
                $out,
                fpu_op.op_str(),
                Scalar(*size, rd.to_reg()),
                Scalar(*size, *rn),
                Scalar(*size, *rm),
                Scalar(*size, *ra),
            ),
            _ => unreachable!(),
        }
    };
}

/// Appends the texts of the operations on vectors.
#[macro_export]
macro_rules! vector_texts {
    ($out:expr, $inst:expr) => {
        match $inst {
            Inst::VecRRPair { op, rd, rn } => line2(
                $out,
                op.op_str(),
                Scalar(ScalarSize::Size64, rd.to_reg()),
                Vector(VectorSize::Size64x2, *rn),
            ),
            Inst::VecMisc { op, rd, rn, size } => push_vec_misc($out, *op, *size, rd.to_reg(), *rn),
            Inst::VecRRLong { op, rd, rn, high_half } =>
                push_vec_rr_long($out, *op, *high_half, rd.to_reg(), *rn),
            Inst::VecRRNarrowLow { op, rd, rn, lane_size } => line2(
                $out,
                op.op_str(),
                Vector(vector_of(*lane_size, false), rd.to_reg()),
                Vector(vector_of(wider(*lane_size), true), *rn),
            ),
            Inst::VecRRNarrowHigh { op, rd, ri, rn, lane_size } => push_half(
                $out,
                op.op_str(),
                true,
                &[
                    Vector(vector_of(*lane_size, true), rd.to_reg()),
                    Vector(vector_of(*lane_size, true), *ri),
                    Vector(vector_of(wider(*lane_size), true), *rn),
                ],
            ),
            Inst::VecRRPairLong { op, rd, rn } => line2(
                $out,
                op.op_str(),
                Vector(vector_of(wider(pair_long_lane(*op)), true), rd.to_reg()),
                Vector(vector_of(pair_long_lane(*op), true), *rn),
            ),
            Inst::VecLanes { op, rd, rn, size } =>
                line2($out, op.op_str(), Scalar(size.lane_size(), rd.to_reg()), Vector(*size, *rn)),
            Inst::VecRRRLong { alu_op, rd, rn, rm, high_half } => push_half(
                $out,
                alu_op.op_str(),
                *high_half,
                &[
                    Vector(vector_of(wider(product_lane(*alu_op)), true), rd.to_reg()),
                    Vector(vector_of(product_lane(*alu_op), *high_half), *rn),
                    Vector(vector_of(product_lane(*alu_op), *high_half), *rm),
                ],
            ),
            Inst::VecRRRLongMod { alu_op, rd, ri, rn, rm, high_half } => push_half(
                $out,
                alu_op.op_str(),
                *high_half,
                &[
                    Vector(vector_of(wider(added_product_lane(*alu_op)), true), rd.to_reg()),
                    Vector(vector_of(wider(added_product_lane(*alu_op)), true), *ri),
                    Vector(vector_of(added_product_lane(*alu_op), *high_half), *rn),
                    Vector(vector_of(added_product_lane(*alu_op), *high_half), *rm),
                ],
            ),
            Inst::VecRRR { alu_op, rd, rn, rm, size } => {
                let lanes = alu_lanes(*alu_op, *size);
                line3(
                    $out,
                    alu_op.op_str(),
                    Vector(lanes, rd.to_reg()),
                    Vector(lanes, *rn),
                    Vector(lanes, *rm),
                )
            }
            Inst::VecRRRMod { alu_op, rd, ri, rn, rm, size } => {
                let lanes = alu_mod_lanes(*alu_op, *size);
                line4(
                    $out,
                    alu_op.op_str(),
                    Vector(lanes, rd.to_reg()),
                    Vector(lanes, *ri),
                    Vector(lanes, *rn),
                    Vector(lanes, *rm),
                )
            }
            Inst::VecExtend { t, rd, rn, high_half, lane_size } => push_half(
                $out,
                t.op_str(),
                *high_half,
                &[
                    Vector(vector_of(*lane_size, true), rd.to_reg()),
                    Vector(vector_of(narrower(*lane_size), *high_half), *rn),
                ],
            ),
            Inst::VecShiftImm { op, rd, rn, size, imm } => line3(
                $out,
                op.op_str(),
                Vector(*size, rd.to_reg()),
                Vector(*size, *rn),
                Number(u64::from(*imm)),
            ),
            Inst::VecShiftImmMod { op, rd, ri, rn, size, imm } => line4(
                $out,
                op.op_str(),
                Vector(*size, rd.to_reg()),
                Vector(*size, *ri),
                Vector(*size, *rn),
                Number(u64::from(*imm)),
            ),
            Inst::VecFmlaElem { alu_op, rd, ri, rn, rm, size, idx } => line4(
                $out,
                alu_op.op_str(),
                Vector(*size, rd.to_reg()),
                Vector(*size, *ri),
                Vector(*size, *rn),
                Element(*idx, size.lane_size(), *rm),
            ),
            _ => unreachable!(),
        }
    };
}

/// Appends the texts of the moves of lanes and the tables of bytes.
#[macro_export]
macro_rules! vector_move_texts {
    ($out:expr, $inst:expr) => {
        match $inst {
            Inst::VecTbl { rd, rn, rm } => line3(
                $out,
                "tbl",
                Bytes(rd.to_reg()),
                Table(VectorSize::Size8x16, *rn),
                Bytes(*rm),
            ),
            Inst::VecTblExt { rd, ri, rn, rm } => line4(
                $out,
                "tbx",
                Bytes(rd.to_reg()),
                Bytes(*ri),
                Table(VectorSize::Size8x16, *rn),
                Bytes(*rm),
            ),
            Inst::VecTbl2 { rd, rn, rn2, rm } =>
                line3($out, "tbl", Bytes(rd.to_reg()), TablePair(*rn, *rn2), Bytes(*rm)),
            Inst::VecTbl2Ext { rd, ri, rn, rn2, rm } => line4(
                $out,
                "tbx",
                Bytes(rd.to_reg()),
                Bytes(*ri),
                TablePair(*rn, *rn2),
                Bytes(*rm),
            ),
            Inst::VecExtract { rd, rn, rm, imm4 } => line4(
                $out,
                "ext",
                Bytes(rd.to_reg()),
                Bytes(*rn),
                Bytes(*rm),
                Number(u64::from(*imm4)),
            ),
            Inst::VecDupFromFpu { rd, rn, size, lane } => line2(
                $out,
                "dup",
                Vector(*size, rd.to_reg()),
                Element(*lane, size.lane_size(), *rn),
            ),
            Inst::VecDup { rd, rn, size } =>
                line2($out, "dup", Vector(*size, rd.to_reg()), Sized(size.operand_size(), *rn)),
            Inst::MovFromVecSigned { rd, rn, idx, size, scalar_size } => line2(
                $out,
                "smov",
                Sized(*scalar_size, rd.to_reg()),
                Element(*idx, size.lane_size(), *rn),
            ),
            Inst::MovFromVec { rd, rn, idx, size } => line2(
                $out,
                lane_move_name(*size),
                Sized(scalar_operand(*size), rd.to_reg()),
                Element(*idx, *size, *rn),
            ),
            Inst::MovToVec { rd, ri, rn, idx, size } => line3(
                $out,
                "mov",
                Element(*idx, size.lane_size(), rd.to_reg()),
                Element(*idx, size.lane_size(), *ri),
                Sized(size.operand_size(), *rn),
            ),
            Inst::VecMovElement { rd, ri, rn, dest_idx, src_idx, size } => line3(
                $out,
                "mov",
                Element(*dest_idx, size.lane_size(), rd.to_reg()),
                Element(*dest_idx, size.lane_size(), *ri),
                Element(*src_idx, size.lane_size(), *rn),
            ),
            Inst::VecDupFPImm { rd, imm, size } =>
                line2($out, "fmov", Vector(*size, rd.to_reg()), FloatImm(*imm)),
            Inst::VecDupImm { rd, imm, invert, size } =>
                line2($out, vector_imm_name(*invert), Vector(*size, rd.to_reg()), VectorImm(*imm)),
            _ => unreachable!(),
        }
    };
}

/// Appends the texts of the hints and barriers.
#[macro_export]
macro_rules! system_texts {
    ($out:expr, $inst:expr) => {
        match $inst {
            Inst::Xpaclri => $out.push_str("xpaclri"),
            Inst::Csdb => $out.push_str("csdb"),
            Inst::Paci { key } => push_paci($out, *key),
            Inst::Bti { targets } => $out.push_str(bti_text(*targets)),
            Inst::Fence => $out.push_str("dmb ish"),
            _ => unreachable!(),
        }
    };
}

/// Appends the texts of branches and returns, of accesses to the flags, of data, and of what has no word.
#[macro_export]
macro_rules! control_texts {
    ($out:expr, $inst:expr) => {
        match $inst {
            Inst::Udf { .. } => $out.push_str("udf #0xc11f"),
            Inst::CondBr { taken, not_taken, kind } =>
                push_cond_br($out, *kind, *taken, *not_taken),
            Inst::TrapIf { kind, trap_code } => push_trap_if($out, *kind, *trap_code),
            Inst::Brk => $out.push_str("brk #0xf000"),
            Inst::Nop4 => $out.push_str("nop"),
            Inst::MovToNZCV { rn } => line2($out, "msr", Nzcv, X(*rn)),
            Inst::MovFromNZCV { rd } => line2($out, "mrs", X(rd.to_reg()), Nzcv),
            Inst::IndirectBr { rn, .. } => line1($out, "br", X(*rn)),
            Inst::Ret => $out.push_str("ret"),
            Inst::AuthenticatedRet { key, is_hint } => push_authenticated_ret($out, *key, *is_hint),
            Inst::Jump { dest } => line1($out, "b", Target(*dest)),
            Inst::TestBitAndBranch { kind, taken, not_taken, rn, bit } =>
                push_test_bit($out, *kind, *taken, *not_taken, *rn, *bit),
            Inst::LabelAddress { dst, label } =>
                line2($out, "label_address", X(dst.to_reg()), Target(BranchTarget::Label(*label))),
            Inst::Nop0 => $out.push_str("nop-zero-len"),
            Inst::Word4 { value } => push_bare_number($out, "data.i32", u64::from(*value)),
            Inst::Word8 { value } => push_bare_number($out, "data.i64", *value),
            Inst::EmitIsland { needed_space } =>
                push_bare_number($out, "emit_island", u64::from(*needed_space)),
            _ => unreachable!(),
        }
    };
}

/// Appends the texts of sequences, and of what has no word.
#[macro_export]
macro_rules! sequence_texts {
    ($out:expr, $inst:expr) => {
        match $inst {
            Inst::Args { args } => push_args($out, args.as_slice()),
            Inst::Rets { rets } => push_rets($out, rets.as_slice()),
            Inst::DummyUse { reg } => line1($out, "dummy_use", X(*reg)),
            Inst::SequencePoint => $out.push_str("sequence_point"),
            Inst::JTSequence { default, targets, ridx, rtmp1, rtmp2 } => push_jt_sequence(
                $out,
                *default,
                targets.as_slice(),
                *ridx,
                &rtmp1.to_reg(),
                &rtmp2.to_reg(),
            ),
            Inst::LoadExtNameGot { rd, name } =>
                line2($out, "load_ext_name_got", X(rd.to_reg()), Symbol(*name)),
            Inst::LoadExtNameNear { rd, name, offset } =>
                line2($out, "load_ext_name_near", X(rd.to_reg()), SymbolOffset(*name, *offset)),
            Inst::LoadExtNameFar { rd, name, offset } =>
                line2($out, "load_ext_name_far", X(rd.to_reg()), SymbolOffset(*name, *offset)),
            Inst::StackProbeLoop { start, end, step } => line3(
                $out,
                "stack_probe_loop",
                X(start.to_reg()),
                X(*end),
                Number(imm12_value(*step)),
            ),
            Inst::AtomicRMWLoop { ty, op, addr, operand, oldval, scratch1, scratch2, .. } =>
                push_rmw_loop(
                    $out,
                    *op,
                    *ty,
                    *addr,
                    *operand,
                    oldval.to_reg(),
                    scratch1.to_reg(),
                    scratch2.to_reg(),
                ),
            Inst::AtomicCASLoop { ty, addr, expected, replacement, oldval, scratch, .. } =>
                push_cas_loop(
                    $out,
                    *ty,
                    *addr,
                    *expected,
                    *replacement,
                    oldval.to_reg(),
                    scratch.to_reg(),
                ),
            Inst::VecCSel { rd, rn, rm, cond } => push_vec_csel($out, rd.to_reg(), *rn, *rm, *cond),
            _ => unreachable!(),
        }
    };
}

/// Appends the texts of calls, and of returns that call.
#[macro_export]
macro_rules! call_texts {
    ($out:expr, $inst:expr) => {
        match $inst {
            Inst::Call { .. } => $out.push_str("bl 0"),
            Inst::CallInd { info } => line1($out, "blr", X(info.dest)),
            Inst::ReturnCall { info } => push_return_call(
                $out,
                "return_call",
                Symbol(info.dest),
                info.new_stack_arg_size,
                info.uses.as_slice(),
            ),
            Inst::ReturnCallInd { info } => push_return_call(
                $out,
                "return_call_ind",
                X(info.dest),
                info.new_stack_arg_size,
                info.uses.as_slice(),
            ),
            _ => unreachable!(),
        }
    };
}

/// Appends the texts of loads and stores, and of the address of a mode, but for those of one register.
#[macro_export]
macro_rules! memory_texts {
    ($out:expr, $frame:expr, $inst:expr) => {
        match $inst {
            Inst::AtomicCAS128 { args } => push_cas128($out, *args),
            Inst::VecLoadReplicate { rd, rn, size, .. } =>
                line2($out, "ld1r", Table(*size, rd.to_reg()), Base(*rn)),
            Inst::StoreRelease { access_ty, rt, rn, .. } =>
                push_wide2($out, "stlr", *access_ty, Sized(width_size(*access_ty), *rt), Base(*rn)),
            Inst::LoadAcquire { access_ty, rt, rn, .. } => push_wide2(
                $out,
                "ldar",
                *access_ty,
                Sized(width_size(*access_ty), rt.to_reg()),
                Base(*rn),
            ),
            Inst::AtomicCAS { rd, rs, rt, rn, ty, .. } =>
                push_cas($out, *ty, rd.to_reg(), *rs, *rt, *rn),
            Inst::StoreP64 { rt, rt2, mem, .. } =>
                line3($out, "stp", X(*rt), X(*rt2), PairMode(*mem)),
            Inst::LoadP64 { rt, rt2, mem, .. } =>
                line3($out, "ldp", X(rt.to_reg()), X(rt2.to_reg()), PairMode(*mem)),
            Inst::FpuStoreP64 { rt, rt2, mem, .. } => line3(
                $out,
                "stp",
                Scalar(ScalarSize::Size64, *rt),
                Scalar(ScalarSize::Size64, *rt2),
                PairMode(*mem),
            ),
            Inst::FpuLoadP64 { rt, rt2, mem, .. } => line3(
                $out,
                "ldp",
                Scalar(ScalarSize::Size64, rt.to_reg()),
                Scalar(ScalarSize::Size64, rt2.to_reg()),
                PairMode(*mem),
            ),
            Inst::FpuStoreP128 { rt, rt2, mem, .. } => line3(
                $out,
                "stp",
                Scalar(ScalarSize::Size128, *rt),
                Scalar(ScalarSize::Size128, *rt2),
                PairMode(*mem),
            ),
            Inst::FpuLoadP128 { rt, rt2, mem, .. } => line3(
                $out,
                "ldp",
                Scalar(ScalarSize::Size128, rt.to_reg()),
                Scalar(ScalarSize::Size128, rt2.to_reg()),
                PairMode(*mem),
            ),
            Inst::AtomicRMW { ty, op, rs, rt, rn, .. } => push_wide3(
                $out,
                op.op_str(),
                *ty,
                Sized(width_size(*ty), *rs),
                Sized(width_size(*ty), rt.to_reg()),
                Base(*rn),
            ),
            Inst::LoadAddr { rd, mem } => push_address($out, $frame, rd.to_reg(), mem),
            _ => push_access_inst($out, $frame, $inst),
        }
    };
}

/// Appends the texts of loads and stores of one register.
#[macro_export]
macro_rules! access_texts {
    ($out:expr, $frame:expr, $inst:expr) => {
        match $inst {
            Inst::ULoad8 { rd, mem, .. } =>
                push_access($out, $frame, AccessOp::ULoad8, rd.to_reg(), mem),
            Inst::SLoad8 { rd, mem, .. } =>
                push_access($out, $frame, AccessOp::SLoad8, rd.to_reg(), mem),
            Inst::ULoad16 { rd, mem, .. } =>
                push_access($out, $frame, AccessOp::ULoad16, rd.to_reg(), mem),
            Inst::SLoad16 { rd, mem, .. } =>
                push_access($out, $frame, AccessOp::SLoad16, rd.to_reg(), mem),
            Inst::ULoad32 { rd, mem, .. } =>
                push_access($out, $frame, AccessOp::ULoad32, rd.to_reg(), mem),
            Inst::SLoad32 { rd, mem, .. } =>
                push_access($out, $frame, AccessOp::SLoad32, rd.to_reg(), mem),
            Inst::ULoad64 { rd, mem, .. } =>
                push_access($out, $frame, AccessOp::ULoad64, rd.to_reg(), mem),
            Inst::FpuLoad16 { rd, mem, .. } =>
                push_access($out, $frame, AccessOp::FpuLoad16, rd.to_reg(), mem),
            Inst::FpuLoad32 { rd, mem, .. } =>
                push_access($out, $frame, AccessOp::FpuLoad32, rd.to_reg(), mem),
            Inst::FpuLoad64 { rd, mem, .. } =>
                push_access($out, $frame, AccessOp::FpuLoad64, rd.to_reg(), mem),
            Inst::FpuLoad128 { rd, mem, .. } =>
                push_access($out, $frame, AccessOp::FpuLoad128, rd.to_reg(), mem),
            Inst::Store8 { rd, mem, .. } => push_access($out, $frame, AccessOp::Store8, *rd, mem),
            Inst::Store16 { rd, mem, .. } => push_access($out, $frame, AccessOp::Store16, *rd, mem),
            Inst::Store32 { rd, mem, .. } => push_access($out, $frame, AccessOp::Store32, *rd, mem),
            Inst::Store64 { rd, mem, .. } => push_access($out, $frame, AccessOp::Store64, *rd, mem),
            Inst::FpuStore16 { rd, mem, .. } =>
                push_access($out, $frame, AccessOp::FpuStore16, *rd, mem),
            Inst::FpuStore32 { rd, mem, .. } =>
                push_access($out, $frame, AccessOp::FpuStore32, *rd, mem),
            Inst::FpuStore64 { rd, mem, .. } =>
                push_access($out, $frame, AccessOp::FpuStore64, *rd, mem),
            Inst::FpuStore128 { rd, mem, .. } =>
                push_access($out, $frame, AccessOp::FpuStore128, *rd, mem),
            _ => unreachable!(),
        }
    };
}

/// The names of loads and stores of one register.
#[macro_export]
macro_rules! access_names {
    ($unscaled:expr, $op:expr) => {
        match $op {
            AccessOp::ULoad8 => one_of($unscaled, "ldurb", "ldrb"),
            AccessOp::SLoad8 => one_of($unscaled, "ldursb", "ldrsb"),
            AccessOp::ULoad16 => one_of($unscaled, "ldurh", "ldrh"),
            AccessOp::SLoad16 => one_of($unscaled, "ldursh", "ldrsh"),
            AccessOp::ULoad32 | AccessOp::ULoad64 => one_of($unscaled, "ldur", "ldr"),
            AccessOp::SLoad32 => one_of($unscaled, "ldursw", "ldrsw"),
            AccessOp::FpuLoad16
            | AccessOp::FpuLoad32
            | AccessOp::FpuLoad64
            | AccessOp::FpuLoad128 => "ldr",
            AccessOp::Store8 => one_of($unscaled, "sturb", "strb"),
            AccessOp::Store16 => one_of($unscaled, "sturh", "strh"),
            AccessOp::Store32 | AccessOp::Store64 => one_of($unscaled, "stur", "str"),
            AccessOp::FpuStore16
            | AccessOp::FpuStore32
            | AccessOp::FpuStore64
            | AccessOp::FpuStore128 => "str",
        }
    };
}

/// The registers of loads and stores of one register.
#[macro_export]
macro_rules! access_operands {
    ($op:expr, $reg:expr) => {
        match $op {
            AccessOp::ULoad8
            | AccessOp::ULoad16
            | AccessOp::ULoad32
            | AccessOp::Store8
            | AccessOp::Store16
            | AccessOp::Store32 => Sized(OperandSize::Size32, $reg),
            AccessOp::SLoad8
            | AccessOp::SLoad16
            | AccessOp::SLoad32
            | AccessOp::ULoad64
            | AccessOp::Store64 => Sized(OperandSize::Size64, $reg),
            AccessOp::FpuLoad16 | AccessOp::FpuStore16 => Scalar(ScalarSize::Size16, $reg),
            AccessOp::FpuLoad32 | AccessOp::FpuStore32 => Scalar(ScalarSize::Size32, $reg),
            AccessOp::FpuLoad64 | AccessOp::FpuStore64 => Scalar(ScalarSize::Size64, $reg),
            AccessOp::FpuLoad128 | AccessOp::FpuStore128 => Scalar(ScalarSize::Size128, $reg),
        }
    };
}

/// The types of the values that loads and stores of one register move, and their bytes.
#[macro_export]
macro_rules! access_types {
    ($op:expr) => {
        match $op {
            AccessOp::ULoad8 | AccessOp::SLoad8 | AccessOp::Store8 => (IrType::I8, 1),
            AccessOp::ULoad16 | AccessOp::SLoad16 | AccessOp::Store16 => (IrType::I16, 2),
            AccessOp::ULoad32 | AccessOp::SLoad32 | AccessOp::Store32 => (IrType::I32, 4),
            AccessOp::ULoad64 | AccessOp::Store64 => (IrType::I64, 8),
            AccessOp::FpuLoad16 | AccessOp::FpuStore16 => (IrType::F16, 2),
            AccessOp::FpuLoad32 | AccessOp::FpuStore32 => (IrType::F32, 4),
            AccessOp::FpuLoad64 | AccessOp::FpuStore64 => (IrType::F64, 8),
            AccessOp::FpuLoad128 | AccessOp::FpuStore128 => (IrType::I8X16, 16),
        }
    };
}
