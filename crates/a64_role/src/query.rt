//! What queries of instructions answer.

ghost use Rattle.std.specs.Prelude.{◌≡◌};
ghost use Rattle.a64_role.specs.Queries as queries;

use a64_base::{OperandSize, Reg, Writable};
use a64_inst::Inst;

/// Whether an instruction calls another function (Cranelift's `CallType`).
#[derive(Clone, Copy, Debug, PartialEq, Eq)]
pub enum CallType {
    /// It calls none.
    None,
    /// It calls one that returns to it.
    Regular,
    /// It calls one that returns in its place.
    TailCall,
}

/// Whether an instruction ends a block (Cranelift's `MachTerminator`).
#[derive(Clone, Copy, Debug, PartialEq, Eq)]
pub enum MachTerminator {
    /// It ends none.
    None,
    /// It returns.
    Ret,
    /// It returns by a call of another function.
    RetCall,
    /// It branches.
    Branch,
}

/// At which multiples of bytes functions begin (Cranelift's `FunctionAlignment`).
#[derive(Clone, Copy, Debug, PartialEq, Eq)]
pub struct FunctionAlignment {
    /// In any case, in bytes.
    pub minimum: u32,
    /// Where there is a choice, in bytes.
    pub preferred: u32,
}

/// No register holds a value of the type, and no two.
#[derive(Clone, Copy, Debug, PartialEq, Eq)]
pub struct Unsupported;

/// The register that an instruction writes and the one that it reads, where it moves a whole register.
pub fn move_of(inst: &Inst) -> Option<(Writable<Reg>, Reg)>
    ensures { result ≡ queries.move_of inst.now }
{
    match inst {
        Inst::Mov {
            size: OperandSize::Size64,
            rd,
            rm,
        } => Some((*rd, *rm)),
        Inst::FpuMove64 { rd, rn } | Inst::FpuMove128 { rd, rn } => Some((*rd, *rn)),
        _ => None,
    }
}
