//! What register allocation and code generators ask of instructions.

ghost use Rattle.std.specs.Prelude.{ℕ, ◌≡◌, ◌≤◌, ◌↔◌, ◌⊎◌, Bool, IsTrue, List, [], ◌∷◌, map, None, Option, Some, OnErr, IfOk};
ghost use Rattle.a64_base.specs.declared.ir_type.IrType.{IrType};
ghost use Rattle.a64_base.specs.declared.entity.MachLabel.{MachLabel};
ghost use Rattle.a64_base.specs.declared.reg.Reg.{Reg};
ghost use Rattle.a64_base.specs.declared.reg.RegClass.{RegClass};
ghost use Rattle.a64_base.specs.Registers.{class_of};
ghost use Rattle.a64_base.specs.Types.{type_bits};
ghost use Rattle.a64_inst.specs.declared.inst.Inst.{Inst};
ghost use Rattle.a64_inst.specs.declared.inst.Inst.TheVariants as insts;
ghost use Rattle.a64_role.specs.declared.clobbers.ClobberTable.{ClobberTable};
ghost use Rattle.a64_role.specs.declared.query.CallType.{CallType};
ghost use Rattle.a64_role.specs.declared.query.MachTerminator.{MachTerminator};
ghost use Rattle.a64_role.specs.declared.role.Role.{Role};
ghost use Rattle.a64_role.specs.Marks as marks;
ghost use Rattle.a64_role.specs.Queries as queries;
ghost use Rattle.a64_role.specs.Queries.{IsIncludedInClobbers};
ghost use Rattle.a64_roles.specs.Roles.{roles_of};
ghost use Rattle.a64_role.specs.Visits.{Tells};

use crate::operands::hand_operands;
use crate::{
    args_mark, call_type_marks, pair_access_mark, safepoint_mark, terminator_marks, trap_mark,
};
use a64_base::{BranchTarget, IrType, MachLabel, OperandSize, Reg, RegClass, Writable};
use a64_inst::{BranchTargetType, Inst};
use a64_role::{
    CallType, ClobberTable, FunctionAlignment, MachTerminator, OperandVisitor, Unsupported,
    has_more, move_of,
};
use std::alloc::{AllocError, Global};

/// What register allocation and code generators ask of an instruction (Cranelift's `MachInst`).
pub trait MachInst: Sized {
    /// The roles of its registers.
    ghost roles: { Self → List Role };

    /// The register that it writes and the one that it reads, where it is a move.
    ghost move_of: { Self → Option (Reg × Reg) };

    /// That the registers that it changes count among those that its function changes.
    ghost is_included: { ClobberTable → Self → Type 0 };

    /// Whether it traps wherever it is reached.
    ghost traps: { Self → Bool };

    /// Whether it has the arguments of the function.
    ghost holds_args: { Self → Bool };

    /// Whether the garbage collector may look at the stack there.
    ghost safepoint: { Self → Bool };

    /// Whether it calls.
    ghost called: { Self → CallType };

    /// Whether it ends a block.
    ghost term: { Self → MachTerminator };

    /// Whether it loads or stores.
    ghost accesses: { Self → Bool };

    /// The move of a value between two registers.
    ghost move_inst: { Reg → Reg → IrType → Self };

    /// The instruction that only reads a register.
    ghost dummy_use: { Reg → Self };

    /// The jump to a label.
    ghost jump: { MachLabel → Self };

    /// The instruction that does nothing, of at most so many bytes.
    ghost nop: { ℕ → Self };

    /// What has to stand at the start of a block.
    ghost start: { Bool → Bool → Option Self };

    /// The bytes of an instruction that traps wherever it is reached.
    const TRAP_OPCODE: &'static [u8];

    /// Tells a visitor the roles of the registers, one call a role.
    ///
    /// # Errors
    ///
    /// The visitor refused a role; it was told those before.
    fn get_operands<V: OperandVisitor>(&self, collector: &mut V) -> Result<(), AllocError>
        ensures { Tells V.told V.refusals collector.old collector.new (roles self.now) result };

    /// The register that it writes and the one that it reads, where it moves a whole register.
    fn is_move(&self) -> Option<(Writable<Reg>, Reg)>
        ensures { result ≡ move_of self.now };

    /// Whether the registers that it changes count among those that its function changes, by a table of what
    /// functions of each convention may change. What a call changes counts only where the function that is
    /// called may change a register that the caller may not; what `Args` writes never does.
    fn is_included_in_clobbers(&self, table: &ClobberTable) -> bool
        ensures { IsTrue result ↔ is_included table.now self.now };

    /// Whether it traps wherever it is reached.
    fn is_trap(&self) -> bool
        ensures { result ≡ traps self.now };

    /// Whether it has the arguments of the function.
    fn is_args(&self) -> bool
        ensures { result ≡ holds_args self.now };

    /// Whether the garbage collector may look at the stack there.
    fn is_safepoint(&self) -> bool
        ensures { result ≡ safepoint self.now };

    /// Whether it calls another function.
    fn call_type(&self) -> CallType
        ensures { result ≡ called self.now };

    /// Whether it ends a block.
    fn is_term(&self) -> MachTerminator
        ensures { result ≡ term self.now };

    /// Whether it loads or stores.
    fn is_mem_access(&self) -> bool
        ensures { result ≡ accesses self.now };

    /// The move of a value of a type, of at most 128 bits, from one register into another of its class.
    fn gen_move(to: Writable<Reg>, from: Reg, ty: IrType) -> Self
        requires class { class_of to ≡ class_of from }
        requires bits { type_bits ty ≤ 128 }
        ensures { result ≡ move_inst to from ty };

    /// The instruction of no bytes that only reads a register.
    fn gen_dummy_use(reg: Reg) -> Self
        ensures { result ≡ dummy_use reg };

    /// The jump to a label.
    fn gen_jump(target: MachLabel) -> Self
        ensures { result ≡ jump target };

    /// The instruction that does nothing: of 0 bytes where 0 are asked for, of 4 bytes where at least 4 are.
    fn gen_nop(preferred_size: usize) -> Self
        requires { (preferred_size ≡ 0) ⊎ (4 ≤ preferred_size) }
        ensures { result ≡ nop preferred_size };

    /// The bytes of each instruction that does nothing, the shortest first, but for that of 0 bytes.
    ///
    /// # Errors
    ///
    /// Want of memory.
    fn gen_nop_units(alloc: Global) -> Result<Vec<Vec<u8>>, AllocError>
        ensures { IfOk result (λ units. map (λ unit. unit.items) units.items
            ≡ (31 ∷ 32 ∷ 3 ∷ 213 ∷ []) ∷ []) };

    /// What has to stand at the start of a block, where something has to: where the block is jumped to by an
    /// address, and the settings have such jumps checked.
    fn gen_block_start(
        is_indirect_branch_target: bool,
        is_forward_edge_cfi_enabled: bool,
    ) -> Option<Self>
        ensures { result ≡ start is_indirect_branch_target is_forward_edge_cfi_enabled };

    /// At which multiples of bytes functions begin.
    fn function_alignment() -> FunctionAlignment
        ensures { result ≡ record { minimum = 4; preferred = 32 } };

    /// The classes of the registers in which a value of a type stands, and the types of its parts there.
    ///
    /// # Errors
    ///
    /// There are no registers for the type.
    fn rc_for_type(ty: &IrType) -> Result<(&'static [RegClass], &'static [IrType]), Unsupported>
        ensures ok { IfOk result (λ parts. queries.classes_of ty.now
            ≡ Some (parts.0.now, parts.1.now)) }
        ensures err { OnErr result (queries.classes_of ty.now ≡ None) };

    /// The type of a whole register of a class.
    fn canonical_type_for_rc(rc: RegClass) -> IrType
        ensures { result ≡ queries.canonical_type rc };
}

/// Whether it loads or stores a pair of registers; stores of pairs of vector registers do not count.
fn is_pair_access(inst: &Inst) -> bool
    ensures { result ≡ marks.is_pair_access inst.now }
{
    pair_access_mark!(inst)
}

impl MachInst for Inst {
    ghost roles = { roles_of };

    ghost move_of = { queries.move_of };

    ghost is_included = { IsIncludedInClobbers };

    ghost traps = { marks.is_trap };

    ghost holds_args = { marks.is_args };

    ghost safepoint = { marks.is_safepoint };

    ghost called = { marks.call_type_of };

    ghost term = { marks.term_of };

    ghost accesses = { queries.is_mem_access };

    ghost move_inst = { queries.move_inst };

    ghost dummy_use = { insts.DummyUse };

    ghost jump = { queries.jump_inst };

    ghost nop = { queries.nop_inst };

    ghost start = { queries.block_start };

    const TRAP_OPCODE: &'static [u8] = &[0x1f, 0xc1, 0x00, 0x00];

    fn get_operands<V: OperandVisitor>(&self, collector: &mut V) -> Result<(), AllocError> {
        hand_operands(collector, self)
    }

    fn is_move(&self) -> Option<(Writable<Reg>, Reg)> {
        move_of(self)
    }

    fn is_included_in_clobbers(&self, table: &ClobberTable) -> bool {
        match self {
            Inst::Args { .. } => false,
            Inst::Call { info } => {
                has_more(&table.of(info.callee_conv), &table.of(info.caller_conv))
            }
            Inst::CallInd { info } => {
                has_more(&table.of(info.callee_conv), &table.of(info.caller_conv))
            }
            _ => true,
        }
    }

    fn is_trap(&self) -> bool {
        trap_mark!(self)
    }

    fn is_args(&self) -> bool {
        args_mark!(self)
    }

    fn is_safepoint(&self) -> bool {
        safepoint_mark!(self)
    }

    fn call_type(&self) -> CallType {
        call_type_marks!(self)
    }

    fn is_term(&self) -> MachTerminator {
        terminator_marks!(self)
    }

    fn is_mem_access(&self) -> bool {
        is_pair_access(self) || self.access_ref().is_some()
    }

    fn gen_move(to: Writable<Reg>, from: Reg, ty: IrType) -> Inst {
        match to.to_reg().class() {
            RegClass::Int => Inst::Mov {
                size: OperandSize::Size64,
                rd: to,
                rm: from,
            },
            RegClass::Float if ty.bits() <= 64 => Inst::FpuMove64 { rd: to, rn: from },
            RegClass::Float => Inst::FpuMove128 { rd: to, rn: from },
        }
    }

    fn gen_dummy_use(reg: Reg) -> Inst {
        Inst::DummyUse { reg }
    }

    fn gen_jump(target: MachLabel) -> Inst {
        Inst::Jump {
            dest: BranchTarget::Label(target),
        }
    }

    fn gen_nop(preferred_size: usize) -> Inst {
        if preferred_size < 4 {
            Inst::Nop0
        } else {
            Inst::Nop4
        }
    }

    fn gen_nop_units(alloc: Global) -> Result<Vec<Vec<u8>>, AllocError> {
        let mut units = Vec::new(alloc);
        units.push(Vec::from_slice(alloc, &[0x1f, 0x20, 0x03, 0xd5])?)?;
        Ok(units)
    }

    fn gen_block_start(
        is_indirect_branch_target: bool,
        is_forward_edge_cfi_enabled: bool,
    ) -> Option<Inst> {
        if is_indirect_branch_target && is_forward_edge_cfi_enabled {
            Some(Inst::Bti {
                targets: BranchTargetType::J,
            })
        } else {
            None
        }
    }

    fn function_alignment() -> FunctionAlignment {
        FunctionAlignment {
            minimum: 4,
            preferred: 32,
        }
    }

    fn rc_for_type(ty: &IrType) -> Result<(&'static [RegClass], &'static [IrType]), Unsupported> {
        match ty {
            IrType::I8 => Ok((&[RegClass::Int], &[IrType::I8])),
            IrType::I16 => Ok((&[RegClass::Int], &[IrType::I16])),
            IrType::I32 => Ok((&[RegClass::Int], &[IrType::I32])),
            IrType::I64 => Ok((&[RegClass::Int], &[IrType::I64])),
            IrType::I128 => Ok((&[RegClass::Int, RegClass::Int], &[IrType::I64, IrType::I64])),
            IrType::F16 => Ok((&[RegClass::Float], &[IrType::F16])),
            IrType::F32 => Ok((&[RegClass::Float], &[IrType::F32])),
            IrType::F64 => Ok((&[RegClass::Float], &[IrType::F64])),
            IrType::F128 => Ok((&[RegClass::Float], &[IrType::F128])),
            IrType::I8X32 => Err(Unsupported),
            vector => match vector.bits() {
                16 => Ok((&[RegClass::Float], &[IrType::I8X2])),
                32 => Ok((&[RegClass::Float], &[IrType::I8X4])),
                64 => Ok((&[RegClass::Float], &[IrType::I8X8])),
                _ => Ok((&[RegClass::Float], &[IrType::I8X16])),
            },
        }
    }

    fn canonical_type_for_rc(rc: RegClass) -> IrType {
        match rc {
            RegClass::Int => IrType::I64,
            RegClass::Float => IrType::I8X16,
        }
    }
}
