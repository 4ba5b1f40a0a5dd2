// Written by `python3 tools/instructions.py` from tables/instructions.txt.
//! The arms of functions over all instructions, or over those of a group that are no plain words.
//!
//! A macro matches an instruction, its first argument; the others are what the arms need beside it.

/// The group of an instruction.
#[macro_export]
macro_rules! group_arms {
    ($inst:expr) => {
        match $inst {
            Inst::Adr { .. }
            | Inst::Adrp { .. }
            | Inst::AluRRImm12 { .. }
            | Inst::AluRRImmLogic { .. }
            | Inst::MovWide { .. }
            | Inst::MovK { .. }
            | Inst::AluRRImmShift { .. }
            | Inst::Extend { .. }
            | Inst::BitfieldMove { .. }
            | Inst::BitfieldMoveMod { .. } => Group::Plain(PlainGroup::Immediate),
            Inst::AluRRR { .. }
            | Inst::BitRR { .. }
            | Inst::AluRRRShift { .. }
            | Inst::Mov { .. }
            | Inst::MovFromPReg { .. }
            | Inst::MovToPReg { .. }
            | Inst::AluRRRExtend { .. }
            | Inst::CCmp { .. }
            | Inst::CCmpImm { .. }
            | Inst::CSel { .. }
            | Inst::CSet { .. }
            | Inst::CSetm { .. }
            | Inst::CSNeg { .. }
            | Inst::AluRRRR { .. } => Group::Plain(PlainGroup::Register),
            Inst::FpuMoveFromVec { .. }
            | Inst::FpuRRI { .. }
            | Inst::FpuRRIMod { .. }
            | Inst::FpuMove128 { .. }
            | Inst::FpuToInt { .. }
            | Inst::IntToFpu { .. }
            | Inst::MovToFpu { .. }
            | Inst::FpuMove32 { .. }
            | Inst::FpuMove64 { .. }
            | Inst::FpuExtend { .. }
            | Inst::FpuRR { .. }
            | Inst::FpuRound { .. }
            | Inst::FpuCmp { .. }
            | Inst::FpuMoveFPImm { .. }
            | Inst::FpuRRR { .. }
            | Inst::FpuCSel16 { .. }
            | Inst::FpuCSel32 { .. }
            | Inst::FpuCSel64 { .. }
            | Inst::FpuRRRR { .. } => Group::Plain(PlainGroup::Float),
            Inst::VecRRPair { .. }
            | Inst::VecMisc { .. }
            | Inst::VecRRLong { .. }
            | Inst::VecRRNarrowLow { .. }
            | Inst::VecRRNarrowHigh { .. }
            | Inst::VecRRPairLong { .. }
            | Inst::VecLanes { .. }
            | Inst::VecRRRLong { .. }
            | Inst::VecRRRLongMod { .. }
            | Inst::VecRRR { .. }
            | Inst::VecRRRMod { .. }
            | Inst::VecExtend { .. }
            | Inst::VecShiftImm { .. }
            | Inst::VecShiftImmMod { .. }
            | Inst::VecFmlaElem { .. } => Group::Plain(PlainGroup::Vector),
            Inst::VecTbl { .. }
            | Inst::VecTblExt { .. }
            | Inst::VecTbl2 { .. }
            | Inst::VecTbl2Ext { .. }
            | Inst::VecExtract { .. }
            | Inst::VecDupFromFpu { .. }
            | Inst::VecDup { .. }
            | Inst::MovFromVecSigned { .. }
            | Inst::MovFromVec { .. }
            | Inst::MovToVec { .. }
            | Inst::VecMovElement { .. }
            | Inst::VecDupFPImm { .. }
            | Inst::VecDupImm { .. } => Group::Plain(PlainGroup::VectorMove),
            Inst::Xpaclri | Inst::Csdb | Inst::Paci { .. } | Inst::Bti { .. } | Inst::Fence =>
                Group::Plain(PlainGroup::System),
            Inst::Udf { .. }
            | Inst::CondBr { .. }
            | Inst::TrapIf { .. }
            | Inst::Brk
            | Inst::Nop4
            | Inst::MovToNZCV { .. }
            | Inst::MovFromNZCV { .. }
            | Inst::IndirectBr { .. }
            | Inst::Ret
            | Inst::AuthenticatedRet { .. }
            | Inst::Jump { .. }
            | Inst::TestBitAndBranch { .. }
            | Inst::LabelAddress { .. }
            | Inst::Nop0
            | Inst::Word4 { .. }
            | Inst::Word8 { .. }
            | Inst::EmitIsland { .. } => Group::Control,
            Inst::Args { .. }
            | Inst::Rets { .. }
            | Inst::DummyUse { .. }
            | Inst::SequencePoint
            | Inst::JTSequence { .. }
            | Inst::LoadExtNameGot { .. }
            | Inst::LoadExtNameNear { .. }
            | Inst::LoadExtNameFar { .. }
            | Inst::StackProbeLoop { .. }
            | Inst::AtomicRMWLoop { .. }
            | Inst::AtomicCASLoop { .. }
            | Inst::VecCSel { .. } => Group::Sequence,
            Inst::Call { .. }
            | Inst::CallInd { .. }
            | Inst::ReturnCall { .. }
            | Inst::ReturnCallInd { .. } => Group::Call,
            Inst::AtomicCAS128 { .. }
            | Inst::VecLoadReplicate { .. }
            | Inst::StoreRelease { .. }
            | Inst::LoadAcquire { .. }
            | Inst::AtomicCAS { .. }
            | Inst::StoreP64 { .. }
            | Inst::LoadP64 { .. }
            | Inst::FpuStoreP64 { .. }
            | Inst::FpuLoadP64 { .. }
            | Inst::FpuStoreP128 { .. }
            | Inst::FpuLoadP128 { .. }
            | Inst::AtomicRMW { .. }
            | Inst::LoadAddr { .. }
            | Inst::ULoad8 { .. }
            | Inst::SLoad8 { .. }
            | Inst::ULoad16 { .. }
            | Inst::SLoad16 { .. }
            | Inst::ULoad32 { .. }
            | Inst::SLoad32 { .. }
            | Inst::ULoad64 { .. }
            | Inst::FpuLoad16 { .. }
            | Inst::FpuLoad32 { .. }
            | Inst::FpuLoad64 { .. }
            | Inst::FpuLoad128 { .. }
            | Inst::Store8 { .. }
            | Inst::Store16 { .. }
            | Inst::Store32 { .. }
            | Inst::Store64 { .. }
            | Inst::FpuStore16 { .. }
            | Inst::FpuStore32 { .. }
            | Inst::FpuStore64 { .. }
            | Inst::FpuStore128 { .. } => Group::Memory,
        }
    };
}

/// The operator, the register, the address and what is known of a load or a store of one register.
#[macro_export]
macro_rules! access_arms {
    ($inst:expr) => {
        match $inst {
            Inst::ULoad8 { rd, mem, flags } => (AccessOp::ULoad8, rd.to_reg(), mem, flags),
            Inst::SLoad8 { rd, mem, flags } => (AccessOp::SLoad8, rd.to_reg(), mem, flags),
            Inst::ULoad16 { rd, mem, flags } => (AccessOp::ULoad16, rd.to_reg(), mem, flags),
            Inst::SLoad16 { rd, mem, flags } => (AccessOp::SLoad16, rd.to_reg(), mem, flags),
            Inst::ULoad32 { rd, mem, flags } => (AccessOp::ULoad32, rd.to_reg(), mem, flags),
            Inst::SLoad32 { rd, mem, flags } => (AccessOp::SLoad32, rd.to_reg(), mem, flags),
            Inst::ULoad64 { rd, mem, flags } => (AccessOp::ULoad64, rd.to_reg(), mem, flags),
            Inst::FpuLoad16 { rd, mem, flags } => (AccessOp::FpuLoad16, rd.to_reg(), mem, flags),
            Inst::FpuLoad32 { rd, mem, flags } => (AccessOp::FpuLoad32, rd.to_reg(), mem, flags),
            Inst::FpuLoad64 { rd, mem, flags } => (AccessOp::FpuLoad64, rd.to_reg(), mem, flags),
            Inst::FpuLoad128 { rd, mem, flags } => (AccessOp::FpuLoad128, rd.to_reg(), mem, flags),
            Inst::Store8 { rd, mem, flags } => (AccessOp::Store8, *rd, mem, flags),
            Inst::Store16 { rd, mem, flags } => (AccessOp::Store16, *rd, mem, flags),
            Inst::Store32 { rd, mem, flags } => (AccessOp::Store32, *rd, mem, flags),
            Inst::Store64 { rd, mem, flags } => (AccessOp::Store64, *rd, mem, flags),
            Inst::FpuStore16 { rd, mem, flags } => (AccessOp::FpuStore16, *rd, mem, flags),
            Inst::FpuStore32 { rd, mem, flags } => (AccessOp::FpuStore32, *rd, mem, flags),
            Inst::FpuStore64 { rd, mem, flags } => (AccessOp::FpuStore64, *rd, mem, flags),
            Inst::FpuStore128 { rd, mem, flags } => (AccessOp::FpuStore128, *rd, mem, flags),
            _ => return None,
        }
    };
}

/// The load or store of one register of an operator.
#[macro_export]
macro_rules! made_arms {
    ($op:expr, $reg:expr, $mem:expr, $flags:expr) => {
        match $op {
            AccessOp::ULoad8 =>
                Inst::ULoad8 { rd: Writable::from_reg($reg), mem: $mem, flags: $flags },
            AccessOp::SLoad8 =>
                Inst::SLoad8 { rd: Writable::from_reg($reg), mem: $mem, flags: $flags },
            AccessOp::ULoad16 =>
                Inst::ULoad16 { rd: Writable::from_reg($reg), mem: $mem, flags: $flags },
            AccessOp::SLoad16 =>
                Inst::SLoad16 { rd: Writable::from_reg($reg), mem: $mem, flags: $flags },
            AccessOp::ULoad32 =>
                Inst::ULoad32 { rd: Writable::from_reg($reg), mem: $mem, flags: $flags },
            AccessOp::SLoad32 =>
                Inst::SLoad32 { rd: Writable::from_reg($reg), mem: $mem, flags: $flags },
            AccessOp::ULoad64 => Inst::uload64(Writable::from_reg($reg), $mem, $flags),
            AccessOp::FpuLoad16 => Inst::fpu_load16(Writable::from_reg($reg), $mem, $flags),
            AccessOp::FpuLoad32 => Inst::fpu_load32(Writable::from_reg($reg), $mem, $flags),
            AccessOp::FpuLoad64 => Inst::fpu_load64(Writable::from_reg($reg), $mem, $flags),
            AccessOp::FpuLoad128 => Inst::fpu_load128(Writable::from_reg($reg), $mem, $flags),
            AccessOp::Store8 => Inst::store8($reg, $mem, $flags),
            AccessOp::Store16 => Inst::store16($reg, $mem, $flags),
            AccessOp::Store32 => Inst::store32($reg, $mem, $flags),
            AccessOp::Store64 => Inst::store64($reg, $mem, $flags),
            AccessOp::FpuStore16 => Inst::fpu_store16($reg, $mem, $flags),
            AccessOp::FpuStore32 => Inst::fpu_store32($reg, $mem, $flags),
            AccessOp::FpuStore64 => Inst::fpu_store64($reg, $mem, $flags),
            AccessOp::FpuStore128 => Inst::fpu_store128($reg, $mem, $flags),
        }
    };
}

/// The type of the value that an operator moves.
#[macro_export]
macro_rules! type_arms {
    ($op:expr) => {
        match $op {
            AccessOp::ULoad8 | AccessOp::SLoad8 | AccessOp::Store8 => IrType::I8,
            AccessOp::ULoad16 | AccessOp::SLoad16 | AccessOp::Store16 => IrType::I16,
            AccessOp::ULoad32 | AccessOp::SLoad32 | AccessOp::Store32 => IrType::I32,
            AccessOp::ULoad64 | AccessOp::Store64 => IrType::I64,
            AccessOp::FpuLoad16 | AccessOp::FpuStore16 => IrType::F16,
            AccessOp::FpuLoad32 | AccessOp::FpuStore32 => IrType::F32,
            AccessOp::FpuLoad64 | AccessOp::FpuStore64 => IrType::F64,
            AccessOp::FpuLoad128 | AccessOp::FpuStore128 => IrType::I8X16,
        }
    };
}

/// Hands the instructions of control that own no memory to a macro.
#[macro_export]
macro_rules! control_copies {
    ($copied:ident, $inst:expr) => {
        $copied!($inst;
            Udf { trap_code },
            CondBr { taken, not_taken, kind },
            TrapIf { kind, trap_code },
            Brk {},
            Nop4 {},
            MovToNZCV { rn },
            MovFromNZCV { rd },
            Ret {},
            AuthenticatedRet { key, is_hint },
            Jump { dest },
            TestBitAndBranch { kind, taken, not_taken, rn, bit },
            LabelAddress { dst, label },
            Nop0 {},
            Word4 { value },
            Word8 { value },
            EmitIsland { needed_space }
        )
    };
}

/// Whether the operands of an instruction of control are in their sets.
#[macro_export]
macro_rules! control_operands {
    ($inst:expr, $virtuals:expr) => {
        match $inst {
            Inst::Udf { .. }
            | Inst::Brk
            | Inst::Nop4
            | Inst::Ret
            | Inst::AuthenticatedRet { .. }
            | Inst::Nop0
            | Inst::Word4 { .. }
            | Inst::Word8 { .. }
            | Inst::EmitIsland { .. } => true,
            Inst::CondBr { taken, not_taken, kind } =>
                are_cond_br_operands($virtuals, *taken, *not_taken, *kind),
            Inst::TrapIf { kind, .. } => is_test($virtuals, *kind),
            Inst::MovToNZCV { rn } | Inst::IndirectBr { rn, .. } =>
                is_register_or_zero($virtuals, *rn),
            Inst::MovFromNZCV { rd } => is_register_or_zero($virtuals, rd.to_reg()),
            Inst::Jump { dest } => are_jump_operands(*dest),
            Inst::TestBitAndBranch { taken, not_taken, rn, bit, .. } =>
                are_test_bit_operands($virtuals, *taken, *not_taken, *rn, *bit),
            Inst::LabelAddress { dst, .. } => is_register_or_zero($virtuals, dst.to_reg()),
            _ => unreachable!(),
        }
    };
}

/// Whether an instruction of control is one word that is no use.
#[macro_export]
macro_rules! control_alone {
    ($inst:expr) => {
        match $inst {
            Inst::CondBr { .. }
            | Inst::TrapIf { .. }
            | Inst::TestBitAndBranch { .. }
            | Inst::LabelAddress { .. }
            | Inst::Nop0
            | Inst::Word8 { .. }
            | Inst::EmitIsland { .. } => false,
            Inst::AuthenticatedRet { key, is_hint } => is_lone_return(*key, *is_hint),
            Inst::Jump { dest } => is_resolved(*dest),
            _ => true,
        }
    };
}

/// Hands the instructions of sequence that own no memory to a macro.
#[macro_export]
macro_rules! sequence_copies {
    ($copied:ident, $inst:expr) => {
        $copied!($inst;
            DummyUse { reg },
            SequencePoint {},
            LoadExtNameGot { rd, name },
            LoadExtNameNear { rd, name, offset },
            LoadExtNameFar { rd, name, offset },
            StackProbeLoop { start, end, step },
            AtomicRMWLoop { ty, op, flags, addr, operand, oldval, scratch1, scratch2 },
            AtomicCASLoop { ty, flags, addr, expected, replacement, oldval, scratch },
            VecCSel { rd, rn, rm, cond }
        )
    };
}

/// Whether the operands of an instruction of sequence are in their sets.
#[macro_export]
macro_rules! sequence_operands {
    ($inst:expr, $info:expr, $virtuals:expr) => {
        match $inst {
            Inst::Args { args } => are_args($virtuals, args.as_slice()),
            Inst::Rets { rets } => are_rets($virtuals, rets.as_slice()),
            Inst::DummyUse { reg } => is_any_register($virtuals, *reg),
            Inst::SequencePoint => true,
            Inst::JTSequence { ridx, rtmp1, rtmp2, .. } =>
                are_table_operands($virtuals, *ridx, &rtmp1.to_reg(), &rtmp2.to_reg()),
            Inst::LoadExtNameGot { rd, .. }
            | Inst::LoadExtNameNear { rd, .. }
            | Inst::LoadExtNameFar { rd, .. } => is_register($virtuals, &rd.to_reg()),
            Inst::StackProbeLoop { start, end, step } =>
                are_probe_operands($info, $virtuals, &start.to_reg(), *end, *step),
            Inst::AtomicRMWLoop { ty, op, addr, operand, oldval, scratch1, scratch2, .. } =>
                are_rmw_loop_operands(
                    $virtuals,
                    *ty,
                    *op,
                    addr,
                    operand,
                    &oldval.to_reg(),
                    &scratch1.to_reg(),
                    &scratch2.to_reg(),
                ),
            Inst::AtomicCASLoop { ty, addr, expected, replacement, oldval, scratch, .. } =>
                are_cas_loop_operands(
                    $virtuals,
                    *ty,
                    addr,
                    expected,
                    replacement,
                    &oldval.to_reg(),
                    &scratch.to_reg(),
                ),
            Inst::VecCSel { rd, rn, rm, .. } =>
                are_select_operands($virtuals, rd.to_reg(), *rn, *rm),
            _ => unreachable!(),
        }
    };
}

/// Whether the operands of an instruction of call are in their sets.
#[macro_export]
macro_rules! call_operands {
    ($inst:expr, $frame:expr, $virtuals:expr, $restorable:expr) => {
        match $inst {
            Inst::Call { info } => are_call_operands(
                $virtuals,
                info.uses.as_slice(),
                info.defs.as_slice(),
                info.callee_pop_size,
            ),
            Inst::CallInd { info } =>
                is_register_or_zero($virtuals, info.dest) && are_call_operands(
                    $virtuals,
                    info.uses.as_slice(),
                    info.defs.as_slice(),
                    info.callee_pop_size,
                ),
            Inst::ReturnCall { info } => are_return_operands(
                $frame,
                $virtuals,
                $restorable,
                info.uses.as_slice(),
                info.new_stack_arg_size,
            ),
            Inst::ReturnCallInd { info } =>
                is_register_or_zero($virtuals, info.dest) && are_return_operands(
                    $frame,
                    $virtuals,
                    $restorable,
                    info.uses.as_slice(),
                    info.new_stack_arg_size,
                ),
            _ => unreachable!(),
        }
    };
}

/// Hands the instructions of memory that own no memory to a macro.
#[macro_export]
macro_rules! memory_copies {
    ($copied:ident, $inst:expr) => {
        $copied!($inst;
            AtomicCAS128 { args },
            VecLoadReplicate { rd, rn, size, flags },
            StoreRelease { access_ty, rt, rn, flags },
            LoadAcquire { access_ty, rt, rn, flags },
            AtomicCAS { rd, rs, rt, rn, ty, flags },
            StoreP64 { rt, rt2, mem, flags },
            LoadP64 { rt, rt2, mem, flags },
            FpuStoreP64 { rt, rt2, mem, flags },
            FpuLoadP64 { rt, rt2, mem, flags },
            FpuStoreP128 { rt, rt2, mem, flags },
            FpuLoadP128 { rt, rt2, mem, flags },
            AtomicRMW { ty, op, rs, rt, rn, flags },
            LoadAddr { rd, mem }
        )
    };
}

/// Whether the operands of an instruction of memory are in their sets.
#[macro_export]
macro_rules! memory_operands {
    ($inst:expr, $frame:expr, $virtuals:expr) => {
        match $inst {
            Inst::AtomicCAS128 { args } => are_cas128_operands($virtuals, args),
            Inst::VecLoadReplicate { rd, rn, .. } =>
                are_replicate_operands($virtuals, rd.to_reg(), *rn),
            Inst::StoreRelease { access_ty, rt, rn, .. } =>
                are_ordered_operands($virtuals, *access_ty, *rt, *rn),
            Inst::LoadAcquire { access_ty, rt, rn, .. } =>
                are_ordered_operands($virtuals, *access_ty, rt.to_reg(), *rn),
            Inst::AtomicCAS { rd, rs, rt, rn, ty, .. } =>
                are_cas_operands($virtuals, rd.to_reg(), *rs, *rt, *rn, *ty),
            Inst::StoreP64 { rt, rt2, mem, .. } => are_pair_operands($virtuals, *rt, *rt2, mem),
            Inst::LoadP64 { rt, rt2, mem, .. } =>
                are_pair_operands($virtuals, rt.to_reg(), rt2.to_reg(), mem),
            Inst::FpuStoreP64 { rt, rt2, mem, .. } =>
                are_float_pair_operands($virtuals, IrType::F64, *rt, *rt2, mem),
            Inst::FpuLoadP64 { rt, rt2, mem, .. } =>
                are_float_pair_operands($virtuals, IrType::F64, rt.to_reg(), rt2.to_reg(), mem),
            Inst::FpuStoreP128 { rt, rt2, mem, .. } =>
                are_float_pair_operands($virtuals, IrType::I8X16, *rt, *rt2, mem),
            Inst::FpuLoadP128 { rt, rt2, mem, .. } =>
                are_float_pair_operands($virtuals, IrType::I8X16, rt.to_reg(), rt2.to_reg(), mem),
            Inst::AtomicRMW { ty, rs, rt, rn, .. } =>
                are_rmw_operands($virtuals, *ty, *rs, rt.to_reg(), *rn),
            Inst::LoadAddr { rd, mem } => are_address_operands($frame, $virtuals, rd.to_reg(), mem),
            _ => unreachable!(),
        }
    };
}

/// Whether an instruction of memory is one word that is no use.
#[macro_export]
macro_rules! memory_alone {
    ($inst:expr, $frame:expr) => {
        match $inst {
            Inst::LoadAddr { rd, mem } => is_lone_mode(&rd.to_reg(), $frame, mem),
            _ => true,
        }
    };
}
