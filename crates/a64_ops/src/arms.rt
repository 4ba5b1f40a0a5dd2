// Written by `python3 tools/instructions.py` from tables/instructions.txt.
//! The arms of functions that go by the load or the store: each macro is a match that gives what its name says.

/// The field size of the word.
#[macro_export]
macro_rules! access_sizes {
    ($op:expr) => {
        match $op {
            AccessOp::ULoad8
            | AccessOp::SLoad8
            | AccessOp::FpuLoad128
            | AccessOp::Store8
            | AccessOp::FpuStore128 => 0,
            AccessOp::ULoad16
            | AccessOp::SLoad16
            | AccessOp::FpuLoad16
            | AccessOp::Store16
            | AccessOp::FpuStore16 => 1,
            AccessOp::ULoad32
            | AccessOp::SLoad32
            | AccessOp::FpuLoad32
            | AccessOp::Store32
            | AccessOp::FpuStore32 => 2,
            AccessOp::ULoad64 | AccessOp::FpuLoad64 | AccessOp::Store64 | AccessOp::FpuStore64 => 3,
        }
    };
}

/// Whether the register is a vector register.
#[macro_export]
macro_rules! access_vectors {
    ($op:expr) => {
        match $op {
            AccessOp::FpuLoad16
            | AccessOp::FpuLoad32
            | AccessOp::FpuLoad64
            | AccessOp::FpuLoad128
            | AccessOp::FpuStore16
            | AccessOp::FpuStore32
            | AccessOp::FpuStore64
            | AccessOp::FpuStore128 => true,
            _ => false,
        }
    };
}

/// The field opc of the word.
#[macro_export]
macro_rules! access_opcs {
    ($op:expr) => {
        match $op {
            AccessOp::ULoad8
            | AccessOp::ULoad16
            | AccessOp::ULoad32
            | AccessOp::ULoad64
            | AccessOp::FpuLoad16
            | AccessOp::FpuLoad32
            | AccessOp::FpuLoad64 => 1,
            AccessOp::SLoad8 | AccessOp::SLoad16 | AccessOp::SLoad32 | AccessOp::FpuStore128 => 2,
            AccessOp::FpuLoad128 => 3,
            AccessOp::Store8
            | AccessOp::Store16
            | AccessOp::Store32
            | AccessOp::Store64
            | AccessOp::FpuStore16
            | AccessOp::FpuStore32
            | AccessOp::FpuStore64 => 0,
        }
    };
}

/// Whether it loads.
#[macro_export]
macro_rules! access_loads {
    ($op:expr) => {
        match $op {
            AccessOp::Store8
            | AccessOp::Store16
            | AccessOp::Store32
            | AccessOp::Store64
            | AccessOp::FpuStore16
            | AccessOp::FpuStore32
            | AccessOp::FpuStore64
            | AccessOp::FpuStore128 => false,
            _ => true,
        }
    };
}

/// The field opc of the form with a literal, where there is one.
#[macro_export]
macro_rules! access_literals {
    ($op:expr) => {
        match $op {
            AccessOp::ULoad32 | AccessOp::FpuLoad32 => Some(0),
            AccessOp::SLoad32 | AccessOp::FpuLoad128 => Some(2),
            AccessOp::ULoad64 | AccessOp::FpuLoad64 => Some(1),
            _ => None,
        }
    };
}
