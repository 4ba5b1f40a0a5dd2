// Written by `python3 tools/instructions.py` from tables/instructions.txt.
//! The arms of functions that go by the instruction: each macro is a match that gives what its name says.
//!
//! Behind `;` stand the arms of the other instructions, where a macro takes them.

/// The use that a load or a store of one register is, and none of the others.
#[macro_export]
macro_rules! access_sites {
    ($inst:expr) => {
        match $inst {
            Inst::ULoad8 { mem, .. }
            | Inst::SLoad8 { mem, .. }
            | Inst::ULoad16 { mem, .. }
            | Inst::SLoad16 { mem, .. }
            | Inst::ULoad32 { mem, .. }
            | Inst::SLoad32 { mem, .. }
            | Inst::ULoad64 { mem, .. }
            | Inst::FpuLoad16 { mem, .. }
            | Inst::FpuLoad32 { mem, .. }
            | Inst::FpuLoad64 { mem, .. }
            | Inst::FpuLoad128 { mem, .. }
            | Inst::Store8 { mem, .. }
            | Inst::Store16 { mem, .. }
            | Inst::Store32 { mem, .. }
            | Inst::Store64 { mem, .. }
            | Inst::FpuStore16 { mem, .. }
            | Inst::FpuStore32 { mem, .. }
            | Inst::FpuStore64 { mem, .. }
            | Inst::FpuStore128 { mem, .. } => mode_site(mem),
            _ => None,
        }
    };
}

/// A value for the instructions behind which execution never goes on.
#[macro_export]
macro_rules! where_stops {
    ($inst:expr, $value:expr; $($others:tt)+) => {
        match $inst {
            Inst::Udf { .. }
            | Inst::IndirectBr { .. }
            | Inst::Ret
            | Inst::AuthenticatedRet { .. }
            | Inst::JTSequence { .. }
            | Inst::ReturnCall { .. }
            | Inst::ReturnCallInd { .. } => $value,
            $($others)+
        }
    };
}

/// A value for the instructions of control that are one word and no use.
#[macro_export]
macro_rules! where_quiet {
    ($inst:expr, $value:expr; $($others:tt)+) => {
        match $inst {
            Inst::Brk
            | Inst::Nop4
            | Inst::MovToNZCV { .. }
            | Inst::MovFromNZCV { .. }
            | Inst::IndirectBr { .. }
            | Inst::Ret
            | Inst::Word4 { .. } => $value,
            $($others)+
        }
    };
}
