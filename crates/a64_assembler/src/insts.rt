//! The instructions that code generators write first, each made by a call: `asm.emit(insts::ret())`.

ghost use Rattle.std.specs.Prelude.{◌≡◌, None};
ghost use Rattle.a64_base.specs.Registers.{integer_register};
ghost use Rattle.a64_base.specs.declared.target.BranchTarget.TheVariants.{Label};
ghost use Rattle.a64_ops.specs.declared.operator.ALUOp.TheVariants as ops;
ghost use Rattle.a64_inst.specs.Accesses.{inst_with};
ghost use Rattle.a64_inst.specs.declared.inst.Inst.TheVariants as variants;
ghost use Rattle.a64_assembler.specs.Assembly.{IsPlain};
ghost use Rattle.a64_assembler.specs.Forms.{pushed_pair, popped_pair, saved_frame, frame_set, restored_frame};

use a64_base::{
    BranchTarget, CallConv, CondBrKind, ExternalName, IrType, MachLabel, MemFlagsData, OperandSize,
    Reg, Writable, fp_reg, link_reg, stack_reg, writable_fp_reg, writable_link_reg,
    writable_zero_reg,
};
use a64_imms::{Imm12, SImm7Scaled};
use a64_inst::{AMode, Access, AccessOp, CallInfo, Inst, PairAMode};
use a64_list::ListVec;
use a64_ops::ALUOp;
use std::alloc::Global;

/// How many bytes of the stack a pair of registers takes.
const PAIR: i16 = 16;

/// `mov` of a register, which is not the stack pointer.
pub fn mov(size: OperandSize, rd: Writable<Reg>, rm: Reg) -> Inst
    ensures { result ≡ variants.Mov size rd rm }
{
    Inst::Mov { size, rd, rm }
}

/// An operation on two registers.
pub(crate) fn alu_rrr(alu_op: ALUOp, size: OperandSize, rd: Writable<Reg>, rn: Reg, rm: Reg) -> Inst
    ensures { result ≡ variants.AluRRR alu_op size rd rn rm }
{
    Inst::AluRRR {
        alu_op,
        size,
        rd,
        rn,
        rm,
    }
}

/// An operation on a register and an immediate.
pub(crate) fn alu_rr_imm12(
    alu_op: ALUOp,
    size: OperandSize,
    rd: Writable<Reg>,
    rn: Reg,
    imm12: Imm12,
) -> Inst
    ensures { result ≡ variants.AluRRImm12 alu_op size rd rn imm12 }
{
    Inst::AluRRImm12 {
        alu_op,
        size,
        rd,
        rn,
        imm12,
    }
}

/// `add` of two registers.
pub fn add(size: OperandSize, rd: Writable<Reg>, rn: Reg, rm: Reg) -> Inst
    ensures { result ≡ variants.AluRRR ops.Add size rd rn rm }
{
    alu_rrr(ALUOp::Add, size, rd, rn, rm)
}

/// `sub` of two registers.
pub fn sub(size: OperandSize, rd: Writable<Reg>, rn: Reg, rm: Reg) -> Inst
    ensures { result ≡ variants.AluRRR ops.Sub size rd rn rm }
{
    alu_rrr(ALUOp::Sub, size, rd, rn, rm)
}

/// `cmp` of two registers: the flags of their difference.
pub fn cmp(size: OperandSize, rn: Reg, rm: Reg) -> Inst
    ensures { result ≡ variants.AluRRR ops.SubS size (integer_register 31) rn rm }
{
    alu_rrr(ALUOp::SubS, size, writable_zero_reg(), rn, rm)
}

/// `add` of a register, or of the stack pointer, and an immediate.
pub fn add_imm(size: OperandSize, rd: Writable<Reg>, rn: Reg, imm12: Imm12) -> Inst
    ensures { result ≡ variants.AluRRImm12 ops.Add size rd rn imm12 }
{
    alu_rr_imm12(ALUOp::Add, size, rd, rn, imm12)
}

/// `sub` of an immediate from a register, or from the stack pointer.
pub fn sub_imm(size: OperandSize, rd: Writable<Reg>, rn: Reg, imm12: Imm12) -> Inst
    ensures { result ≡ variants.AluRRImm12 ops.Sub size rd rn imm12 }
{
    alu_rr_imm12(ALUOp::Sub, size, rd, rn, imm12)
}

/// `cmp` of a register, or of the stack pointer, and an immediate: the flags of their difference.
pub fn cmp_imm(size: OperandSize, rn: Reg, imm12: Imm12) -> Inst
    ensures { result ≡ variants.AluRRImm12 ops.SubS size (integer_register 31) rn imm12 }
{
    alu_rr_imm12(ALUOp::SubS, size, writable_zero_reg(), rn, imm12)
}

/// A load or a store of one register, which does not trap.
pub fn access(op: AccessOp, reg: Reg, mem: AMode) -> Inst
    ensures { result ≡ inst_with op reg mem None }
{
    let flags = MemFlagsData::trusted();
    Inst::from_access(Access {
        op,
        reg,
        mem,
        flags,
    })
}

/// `stp` of two registers to the stack, which grows by 16 bytes.
pub fn push_pair(rt: Reg, rt2: Reg) -> Inst
    ensures { result ≡ pushed_pair rt rt2 }
{
    let simm7 = SImm7Scaled {
        value: -PAIR,
        scale_ty: IrType::I64,
    };
    Inst::StoreP64 {
        rt,
        rt2,
        mem: PairAMode::SPPreIndexed { simm7 },
        flags: MemFlagsData::trusted(),
    }
}

/// `ldp` of two registers from the stack, which shrinks by 16 bytes.
pub fn pop_pair(rt: Writable<Reg>, rt2: Writable<Reg>) -> Inst
    ensures { result ≡ popped_pair rt rt2 }
{
    let simm7 = SImm7Scaled {
        value: PAIR,
        scale_ty: IrType::I64,
    };
    Inst::LoadP64 {
        rt,
        rt2,
        mem: PairAMode::SPPostIndexed { simm7 },
        flags: MemFlagsData::trusted(),
    }
}

/// `b` to a label.
pub fn jump(label: MachLabel) -> Inst
    ensures { result ≡ variants.Jump (Label label) }
{
    let dest = BranchTarget::Label(label);
    Inst::Jump { dest }
}

/// A branch to a label where a test succeeds, and else to another one.
pub fn branch(kind: CondBrKind, taken: MachLabel, not_taken: MachLabel) -> Inst
    ensures { result ≡ variants.CondBr (Label taken) (Label not_taken) kind }
{
    Inst::CondBr {
        taken: BranchTarget::Label(taken),
        not_taken: BranchTarget::Label(not_taken),
        kind,
    }
}

/// A jump to the target that the low 32 bits of `ridx` count where `lo` holds by the flags, as behind a comparison of
/// the index with the number of targets, else to the default. It changes the other two registers.
pub fn jump_table(
    default: MachLabel,
    targets: ListVec<MachLabel>,
    ridx: Reg,
    rtmp1: Writable<Reg>,
    rtmp2: Writable<Reg>,
) -> Inst
    ensures { result ≡ variants.JTSequence default targets ridx rtmp1 rtmp2 }
{
    Inst::JTSequence {
        default,
        targets,
        ridx,
        rtmp1,
        rtmp2,
    }
}

/// `bl` to a symbol, of the standard convention, that passes nothing and gets nothing back.
pub fn call(alloc: Global, name: ExternalName) -> Inst
    ensures { IsPlain variants.Call name result }
{
    let info = CallInfo::new(alloc, name, CallConv::SystemV);
    Inst::Call { info }
}

/// `blr` to the address in a register, of the standard convention, that passes nothing and gets nothing back.
pub fn call_reg(alloc: Global, rn: Reg) -> Inst
    ensures { IsPlain variants.CallInd rn result }
{
    let info = CallInfo::new(alloc, rn, CallConv::SystemV);
    Inst::CallInd { info }
}

/// `ret`, to the address in x30.
pub fn ret() -> Inst
    ensures { result ≡ variants.Ret }
{
    Inst::Ret
}

/// The first instruction of a function that has a frame: it saves x29 and x30.
pub fn save_frame() -> Inst
    ensures { result ≡ saved_frame }
{
    push_pair(fp_reg(), link_reg())
}

/// The second one: x29 points to the frame.
pub fn set_frame() -> Inst
    ensures { result ≡ frame_set }
{
    add_imm(
        OperandSize::Size64,
        writable_fp_reg(),
        stack_reg(),
        Imm12::ZERO,
    )
}

/// The instruction before the return of such a function: it restores x29 and x30.
pub fn restore_frame() -> Inst
    ensures { result ≡ restored_frame }
{
    pop_pair(writable_fp_reg(), writable_link_reg())
}
