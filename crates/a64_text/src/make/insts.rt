// Written by `python3 tools/instructions.py` from tables/instructions.txt.
//! The arms of functions that make instructions of the fields behind their names: of those at their places, or of given ones.
//! A name whose fields are not all that its instruction is made of is not given to them.

/// The arms that make a hint, a barrier, or an access to the flags.
#[macro_export]
macro_rules! system_insts {
    ($name:expr, $values:expr) => {
        match $name {
            SystemName::Xpaclri => Inst::Xpaclri,
            SystemName::Csdb => Inst::Csdb,
            SystemName::Paci => Inst::Paci { key: at::get($values, 0) },
            SystemName::Bti => Inst::Bti { targets: at::get($values, 0) },
            SystemName::Fence => Inst::Fence,
            SystemName::Nop4 => Inst::Nop4,
            SystemName::MovToNZCV => Inst::MovToNZCV { rn: at::get($values, 0) },
            SystemName::MovFromNZCV => Inst::MovFromNZCV {
                rd: Writable::from_reg(at::get($values, 0)),
            },
            SystemName::Nop0 => Inst::Nop0,
        }
    };
}

/// The arms that make a branch or another instruction of control.
#[macro_export]
macro_rules! control_insts {
    ($name:expr, $values:expr) => {
        match $name {
            ControlName::IndirectBr => unreachable!(),
            ControlName::Udf => Inst::Udf { trap_code: TrapCode(at::get($values, 0)) },
            ControlName::CondBr => Inst::CondBr {
                taken: at::get($values, 0),
                not_taken: at::get($values, 1),
                kind: at::get($values, 2),
            },
            ControlName::TrapIf => Inst::TrapIf {
                kind: at::get($values, 0),
                trap_code: TrapCode(at::get($values, 1)),
            },
            ControlName::Brk => Inst::Brk,
            ControlName::Ret => Inst::Ret,
            ControlName::AuthenticatedRet => Inst::AuthenticatedRet {
                key: at::get($values, 0),
                is_hint: at::get($values, 1),
            },
            ControlName::Jump => Inst::Jump { dest: at::get($values, 0) },
            ControlName::TestBitAndBranch => Inst::TestBitAndBranch {
                kind: at::get($values, 0),
                taken: at::get($values, 1),
                not_taken: at::get($values, 2),
                rn: at::get($values, 3),
                bit: at::get($values, 4),
            },
            ControlName::LabelAddress => Inst::LabelAddress {
                dst: Writable::from_reg(at::get($values, 0)),
                label: at::get($values, 1),
            },
            ControlName::Word4 => Inst::Word4 { value: at::get($values, 0) },
            ControlName::Word8 => Inst::Word8 { value: at::get($values, 0) },
            ControlName::EmitIsland => Inst::EmitIsland { needed_space: at::get($values, 0) },
        }
    };
}

/// The arms that make a sequence around a table, a symbol or the stack, or what has no word.
#[macro_export]
macro_rules! sequence_insts {
    ($name:expr, $values:expr) => {
        match $name {
            SequenceName::Args | SequenceName::Rets | SequenceName::JTSequence => unreachable!(),
            SequenceName::DummyUse => Inst::DummyUse { reg: at::get($values, 0) },
            SequenceName::SequencePoint => Inst::SequencePoint,
            SequenceName::LoadExtNameGot => Inst::LoadExtNameGot {
                rd: Writable::from_reg(at::get($values, 0)),
                name: ExternalName(at::get($values, 1)),
            },
            SequenceName::LoadExtNameNear => Inst::LoadExtNameNear {
                rd: Writable::from_reg(at::get($values, 0)),
                name: ExternalName(at::get($values, 1)),
                offset: at::get($values, 2),
            },
            SequenceName::LoadExtNameFar => Inst::LoadExtNameFar {
                rd: Writable::from_reg(at::get($values, 0)),
                name: ExternalName(at::get($values, 1)),
                offset: at::get($values, 2),
            },
            SequenceName::StackProbeLoop => Inst::StackProbeLoop {
                start: Writable::from_reg(at::get($values, 0)),
                end: at::get($values, 1),
                step: at::get($values, 2),
            },
            SequenceName::VecCSel => Inst::VecCSel {
                rd: Writable::from_reg(at::get($values, 0)),
                rn: at::get($values, 1),
                rm: at::get($values, 2),
                cond: at::get($values, 3),
            },
        }
    };
}

/// The arms that make an instruction of memory that is no load or store of one register.
#[macro_export]
macro_rules! memory_insts {
    ($name:expr, $values:expr) => {
        match $name {
            MemoryName::AtomicRMWLoop => Inst::AtomicRMWLoop {
                ty: at::get($values, 0),
                op: at::get($values, 1),
                flags: at::get($values, 2),
                addr: at::get($values, 3),
                operand: at::get($values, 4),
                oldval: Writable::from_reg(at::get($values, 5)),
                scratch1: Writable::from_reg(at::get($values, 6)),
                scratch2: Writable::from_reg(at::get($values, 7)),
            },
            MemoryName::AtomicCASLoop => Inst::AtomicCASLoop {
                ty: at::get($values, 0),
                flags: at::get($values, 1),
                addr: at::get($values, 2),
                expected: at::get($values, 3),
                replacement: at::get($values, 4),
                oldval: Writable::from_reg(at::get($values, 5)),
                scratch: Writable::from_reg(at::get($values, 6)),
            },
            MemoryName::AtomicCAS128 => Inst::AtomicCAS128 {
                args: AtomicCAS128Args {
                    rd_lo: Writable::from_reg(at::get($values, 0)),
                    rd_hi: Writable::from_reg(at::get($values, 1)),
                    rs_lo: at::get($values, 2),
                    rs_hi: at::get($values, 3),
                    rt_lo: at::get($values, 4),
                    rt_hi: at::get($values, 5),
                    rn: at::get($values, 6),
                    flags: at::get($values, 7),
                },
            },
            MemoryName::VecLoadReplicate => Inst::VecLoadReplicate {
                rd: Writable::from_reg(at::get($values, 0)),
                rn: at::get($values, 1),
                size: at::get($values, 2),
                flags: at::get($values, 3),
            },
            MemoryName::StoreRelease => Inst::StoreRelease {
                access_ty: at::get($values, 0),
                rt: at::get($values, 1),
                rn: at::get($values, 2),
                flags: at::get($values, 3),
            },
            MemoryName::LoadAcquire => Inst::LoadAcquire {
                access_ty: at::get($values, 0),
                rt: Writable::from_reg(at::get($values, 1)),
                rn: at::get($values, 2),
                flags: at::get($values, 3),
            },
            MemoryName::AtomicCAS => Inst::AtomicCAS {
                rd: Writable::from_reg(at::get($values, 0)),
                rs: at::get($values, 1),
                rt: at::get($values, 2),
                rn: at::get($values, 3),
                ty: at::get($values, 4),
                flags: at::get($values, 5),
            },
            MemoryName::AtomicRMW => Inst::AtomicRMW {
                ty: at::get($values, 0),
                op: at::get($values, 1),
                rs: at::get($values, 2),
                rt: Writable::from_reg(at::get($values, 3)),
                rn: at::get($values, 4),
                flags: at::get($values, 5),
            },
            MemoryName::LoadAddr => Inst::LoadAddr {
                rd: Writable::from_reg(at::get($values, 0)),
                mem: at::get($values, 1),
            },
        }
    };
}

/// The arms that make a load or a store of a pair of registers.
#[macro_export]
macro_rules! pair_insts {
    ($name:expr, $rt:expr, $rt2:expr, $mem:expr, $flags:expr) => {
        match $name {
            PairName::StoreP64 => Inst::StoreP64 { rt: $rt, rt2: $rt2, mem: $mem, flags: $flags },
            PairName::LoadP64 => Inst::LoadP64 {
                rt: Writable::from_reg($rt),
                rt2: Writable::from_reg($rt2),
                mem: $mem,
                flags: $flags,
            },
            PairName::FpuStoreP64 => Inst::FpuStoreP64 {
                rt: $rt,
                rt2: $rt2,
                mem: $mem,
                flags: $flags,
            },
            PairName::FpuLoadP64 => Inst::FpuLoadP64 {
                rt: Writable::from_reg($rt),
                rt2: Writable::from_reg($rt2),
                mem: $mem,
                flags: $flags,
            },
            PairName::FpuStoreP128 => Inst::FpuStoreP128 {
                rt: $rt,
                rt2: $rt2,
                mem: $mem,
                flags: $flags,
            },
            PairName::FpuLoadP128 => Inst::FpuLoadP128 {
                rt: Writable::from_reg($rt),
                rt2: Writable::from_reg($rt2),
                mem: $mem,
                flags: $flags,
            },
        }
    };
}
