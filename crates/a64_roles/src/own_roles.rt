// Written by `python3 tools/instructions.py` from tables/instructions.txt.
//! The roles of the instructions of each group, as a match over them whose arms tell them to a visitor, and the role of
//! the register of a load or a store. An arm calls what the module that uses the macro has by that name.

/// Tells a visitor the roles of the integer operations with immediates.
#[macro_export]
macro_rules! immediate_roles {
    ($visitor:ident, $inst:expr) => {
        match $inst {
            Inst::MovK { rd, rn, .. } =>
                hand($visitor, &[RegUse(*rn), RegReuseDef(rd.to_reg(), 0)]),
            other => immediate_list!(role_arms, $visitor, other),
        }
    };
}

/// Tells a visitor the roles of the integer operations on registers.
#[macro_export]
macro_rules! register_roles {
    ($visitor:ident, $inst:expr) => {
        register_list!(role_arms, $visitor, $inst)
    };
}

/// Tells a visitor the roles of the operations on scalar floats.
#[macro_export]
macro_rules! float_roles {
    ($visitor:ident, $inst:expr) => {
        float_list!(role_arms, $visitor, $inst)
    };
}

/// Tells a visitor the roles of the operations on vectors.
#[macro_export]
macro_rules! vector_roles {
    ($visitor:ident, $inst:expr) => {
        match $inst {
            Inst::VecRRNarrowLow { rd, rn, .. } =>
                hand($visitor, &[RegUse(*rn), RegDef(rd.to_reg())]),
            Inst::VecRRNarrowHigh { rd, ri, rn, .. } =>
                hand($visitor, &[RegUse(*rn), RegReuseDef(rd.to_reg(), 2), RegUse(*ri)]),
            other => vector_list!(role_arms, $visitor, other),
        }
    };
}

/// Tells a visitor the roles of the moves of lanes and the tables of bytes.
#[macro_export]
macro_rules! vector_move_roles {
    ($visitor:ident, $inst:expr) => {
        match $inst {
            Inst::VecTbl { rd, rn, rm } =>
                hand($visitor, &[RegUse(*rn), RegUse(*rm), RegDef(rd.to_reg())]),
            Inst::VecTblExt { rd, ri, rn, rm } => hand(
                $visitor,
                &[RegUse(*rn), RegUse(*rm), RegReuseDef(rd.to_reg(), 3), RegUse(*ri)],
            ),
            Inst::VecTbl2 { rd, rn, rn2, rm } => hand(
                $visitor,
                &[
                    RegFixedUse(*rn, vreg(30)),
                    RegFixedUse(*rn2, vreg(31)),
                    RegUse(*rm),
                    RegDef(rd.to_reg()),
                ],
            ),
            Inst::VecTbl2Ext { rd, ri, rn, rn2, rm } => hand(
                $visitor,
                &[
                    RegFixedUse(*rn, vreg(30)),
                    RegFixedUse(*rn2, vreg(31)),
                    RegUse(*rm),
                    RegReuseDef(rd.to_reg(), 4),
                    RegUse(*ri),
                ],
            ),
            other => vector_move_list!(role_arms, $visitor, other),
        }
    };
}

/// Tells a visitor the roles of the hints and barriers.
#[macro_export]
macro_rules! system_roles {
    ($visitor:ident, $inst:expr) => {
        system_list!(role_arms, $visitor, $inst)
    };
}

/// Tells a visitor the roles of control flow, of data and of places for islands.
#[macro_export]
macro_rules! control_roles {
    ($visitor:ident, $inst:expr) => {
        match $inst {
            Inst::Udf { .. }
            | Inst::Brk
            | Inst::Nop4
            | Inst::Ret
            | Inst::AuthenticatedRet { .. }
            | Inst::Jump { .. }
            | Inst::Nop0
            | Inst::Word4 { .. }
            | Inst::Word8 { .. }
            | Inst::EmitIsland { .. } => hand($visitor, &[]),
            Inst::CondBr { kind, .. } | Inst::TrapIf { kind, .. } => hand_kind($visitor, *kind),
            Inst::MovToNZCV { rn }
            | Inst::IndirectBr { rn, .. }
            | Inst::TestBitAndBranch { rn, .. } => hand($visitor, &[RegUse(*rn)]),
            Inst::MovFromNZCV { rd } => hand($visitor, &[RegDef(rd.to_reg())]),
            Inst::LabelAddress { dst, .. } => hand($visitor, &[RegDef(dst.to_reg())]),
            _ => unreachable!(),
        }
    };
}

/// Tells a visitor the roles of sequences, and of what only says something of registers.
#[macro_export]
macro_rules! sequence_roles {
    ($visitor:ident, $inst:expr) => {
        match $inst {
            Inst::Args { args } => hand_args($visitor, args.as_slice()),
            Inst::Rets { rets } => hand_rets($visitor, rets.as_slice()),
            Inst::DummyUse { reg } => hand($visitor, &[RegUse(*reg)]),
            Inst::SequencePoint => hand($visitor, &[]),
            Inst::JTSequence { ridx, rtmp1, rtmp2, .. } => hand(
                $visitor,
                &[RegUse(*ridx), RegEarlyDef(rtmp1.to_reg()), RegEarlyDef(rtmp2.to_reg())],
            ),
            Inst::LoadExtNameGot { rd, .. }
            | Inst::LoadExtNameNear { rd, .. }
            | Inst::LoadExtNameFar { rd, .. } => hand($visitor, &[RegDef(rd.to_reg())]),
            Inst::StackProbeLoop { start, end, .. } =>
                hand($visitor, &[RegEarlyDef(start.to_reg()), RegUse(*end)]),
            Inst::AtomicRMWLoop { op, addr, operand, oldval, scratch1, scratch2, .. } =>
                hand_rmw_loop(
                    $visitor,
                    *op,
                    *addr,
                    *operand,
                    oldval.to_reg(),
                    scratch1.to_reg(),
                    scratch2.to_reg(),
                ),
            Inst::AtomicCASLoop { addr, expected, replacement, oldval, scratch, .. } => hand(
                $visitor,
                &[
                    RegFixedUse(*addr, xreg(25)),
                    RegFixedUse(*expected, xreg(26)),
                    RegFixedUse(*replacement, xreg(28)),
                    RegFixedDef(oldval.to_reg(), xreg(27)),
                    RegFixedDef(scratch.to_reg(), xreg(24)),
                ],
            ),
            Inst::VecCSel { rd, rn, rm, .. } =>
                hand($visitor, &[RegDef(rd.to_reg()), RegUse(*rn), RegUse(*rm)]),
            _ => unreachable!(),
        }
    };
}

/// Tells a visitor the roles of calls, and of returns that call.
#[macro_export]
macro_rules! call_roles {
    ($visitor:ident, $inst:expr) => {
        match $inst {
            Inst::Call { info } =>
                hand_call($visitor, &[], info.uses.as_slice(), info.defs.as_slice(), info.clobbers),
            Inst::CallInd { info } => hand_call(
                $visitor,
                &[RegUse(info.dest)],
                info.uses.as_slice(),
                info.defs.as_slice(),
                info.clobbers,
            ),
            Inst::ReturnCall { info } => hand_return_call($visitor, &[], info.uses.as_slice()),
            Inst::ReturnCallInd { info } => hand_return_call(
                $visitor,
                &[RegFixedUse(info.dest, xreg(1))],
                info.uses.as_slice(),
            ),
            _ => unreachable!(),
        }
    };
}

/// Tells a visitor the roles of loads and stores, of addresses and of atomic operations.
#[macro_export]
macro_rules! memory_roles {
    ($visitor:ident, $inst:expr) => {
        match $inst {
            Inst::AtomicCAS128 { args } => hand_pair_swap($visitor, args),
            Inst::VecLoadReplicate { rd, rn, .. } =>
                hand($visitor, &[RegDef(rd.to_reg()), RegUse(*rn)]),
            Inst::StoreRelease { rt, rn, .. } => hand($visitor, &[RegUse(*rn), RegUse(*rt)]),
            Inst::LoadAcquire { rt, rn, .. } => hand($visitor, &[RegUse(*rn), RegDef(rt.to_reg())]),
            Inst::AtomicCAS { rd, rs, rt, rn, .. } => hand(
                $visitor,
                &[RegReuseDef(rd.to_reg(), 1), RegUse(*rs), RegUse(*rt), RegUse(*rn)],
            ),
            Inst::StoreP64 { rt, rt2, mem, .. }
            | Inst::FpuStoreP64 { rt, rt2, mem, .. }
            | Inst::FpuStoreP128 { rt, rt2, mem, .. } =>
                hand_pair_mode($visitor, &[RegUse(*rt), RegUse(*rt2)], mem),
            Inst::LoadP64 { rt, rt2, mem, .. }
            | Inst::FpuLoadP64 { rt, rt2, mem, .. }
            | Inst::FpuLoadP128 { rt, rt2, mem, .. } =>
                hand_pair_mode($visitor, &[RegDef(rt.to_reg()), RegDef(rt2.to_reg())], mem),
            Inst::AtomicRMW { rs, rt, rn, .. } =>
                hand($visitor, &[RegUse(*rs), RegDef(rt.to_reg()), RegUse(*rn)]),
            Inst::LoadAddr { rd, mem } => hand_mode($visitor, &[RegDef(rd.to_reg())], mem),
            other => match other.access_ref() {
                Some(access) => hand_access($visitor, &access),
                None => unreachable!(),
            },
        }
    };
}

/// The role of the register of a load or a store, by its operator.
#[macro_export]
macro_rules! moved_role_of {
    ($op:expr, $reg:expr) => {
        match $op {
            AccessOp::Store8
            | AccessOp::Store16
            | AccessOp::Store32
            | AccessOp::Store64
            | AccessOp::FpuStore16
            | AccessOp::FpuStore32
            | AccessOp::FpuStore64
            | AccessOp::FpuStore128 => RegUse($reg),
            AccessOp::ULoad8
            | AccessOp::SLoad8
            | AccessOp::ULoad16
            | AccessOp::SLoad16
            | AccessOp::ULoad32
            | AccessOp::SLoad32
            | AccessOp::ULoad64
            | AccessOp::FpuLoad16
            | AccessOp::FpuLoad32
            | AccessOp::FpuLoad64
            | AccessOp::FpuLoad128 => RegDef($reg),
        }
    };
}
