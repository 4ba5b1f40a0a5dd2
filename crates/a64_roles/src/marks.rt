// Written by `python3 tools/instructions.py` from tables/instructions.txt.
//! What instructions answer whatever their operands are, each query as a match over the instructions.

/// Whether an instruction traps wherever it is reached.
#[macro_export]
macro_rules! trap_mark {
    ($inst:expr) => {
        matches!($inst, Inst::Udf { .. })
    };
}

/// Whether an instruction has the arguments of the function.
#[macro_export]
macro_rules! args_mark {
    ($inst:expr) => {
        matches!($inst, Inst::Args { .. })
    };
}

/// Whether the garbage collector may look at the stack at an instruction.
#[macro_export]
macro_rules! safepoint_mark {
    ($inst:expr) => {
        matches!($inst, Inst::Call { .. } | Inst::CallInd { .. })
    };
}

/// Whether an instruction calls another function.
#[macro_export]
macro_rules! call_type_marks {
    ($inst:expr) => {
        match $inst {
            Inst::Call { .. } | Inst::CallInd { .. } => CallType::Regular,
            Inst::ReturnCall { .. } | Inst::ReturnCallInd { .. } => CallType::TailCall,
            _ => CallType::None,
        }
    };
}

/// Whether an instruction ends a block.
#[macro_export]
macro_rules! terminator_marks {
    ($inst:expr) => {
        match $inst {
            Inst::Rets { .. } => MachTerminator::Ret,
            Inst::ReturnCall { .. } | Inst::ReturnCallInd { .. } => MachTerminator::RetCall,
            Inst::CondBr { .. }
            | Inst::IndirectBr { .. }
            | Inst::Jump { .. }
            | Inst::TestBitAndBranch { .. }
            | Inst::JTSequence { .. } => MachTerminator::Branch,
            _ => MachTerminator::None,
        }
    };
}

/// Whether an instruction loads or stores a pair of registers; stores of pairs of vector registers do not count.
#[macro_export]
macro_rules! pair_access_mark {
    ($inst:expr) => {
        matches!(
            $inst,
            Inst::StoreP64 { .. }
                | Inst::LoadP64 { .. }
                | Inst::FpuLoadP64 { .. }
                | Inst::FpuLoadP128 { .. }
        )
    };
}

/// Whether the result of an instruction is the register of the operand that is read behind it.
#[macro_export]
macro_rules! tied_mark {
    ($inst:expr) => {
        matches!(
            $inst,
            Inst::BitfieldMoveMod { .. }
                | Inst::FpuRRIMod { .. }
                | Inst::VecRRRLongMod { .. }
                | Inst::VecRRRMod { .. }
                | Inst::VecShiftImmMod { .. }
                | Inst::VecFmlaElem { .. }
                | Inst::MovToVec { .. }
                | Inst::VecMovElement { .. }
        )
    };
}
