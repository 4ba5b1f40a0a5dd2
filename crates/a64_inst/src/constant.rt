//! Constants as instructions.

ghost use Rattle.std.specs.Prelude.{◌≡◌, ◌≤◌, true, map, length, IsOk, IfOk};
ghost use Rattle.a64_plan.specs.Shapes.{IsShape, Leave, NoneFewer};
ghost use Rattle.a64_plan.specs.Plans.{plan_of};
ghost use Rattle.a64_operand.specs.declared.virtuals.VirtualRegisters.TheVariants.{Refused};
ghost use Rattle.a64_operand.specs.Operands.{is_register};
ghost use Rattle.a64_inst.specs.Constants.{step_into, HaveNoFault};

use crate::inst::Inst;
use a64_base::{Reg, Writable, zero_reg};
use a64_ops::{ALUOp, MoveWideOp};
use a64_plan::{ConstStep, const_plan};
use smallvec::SmallVec;
use std::alloc::{AllocError, Global};

/// A step of a constant as an instruction into a register.
fn step_into(rd: Writable<Reg>, step: ConstStep) -> Inst
    ensures { result ≡ step_into rd step }
{
    match step {
        ConstStep::MovZ(imm, size) => Inst::MovWide {
            op: MoveWideOp::MovZ,
            rd,
            imm,
            size,
        },
        ConstStep::MovN(imm, size) => Inst::MovWide {
            op: MoveWideOp::MovN,
            rd,
            imm,
            size,
        },
        ConstStep::MovK(imm, size) => Inst::MovK {
            rd,
            rn: rd.to_reg(),
            imm,
            size,
        },
        ConstStep::Orr(imml) => Inst::AluRRImmLogic {
            alu_op: ALUOp::Orr,
            size: imml.size,
            rd,
            rn: zero_reg(),
            imml,
        },
    }
}

impl Inst {
    /// The instructions that load a value into a register from x0 to x30: the steps of
    /// [`const_plan`], the shortest ones, of which there are at most four.
    ///
    /// # Errors
    ///
    /// None: four instructions have room in the answer itself, and no memory is asked for.
    pub fn load_constant(
        alloc: Global,
        rd: Writable<Reg>,
        value: u64,
    ) -> Result<SmallVec<Inst, 4>, AllocError>
        requires { is_register Refused rd ≡ true }
        ensures succeeds { IsOk result }
        // They are the plan's steps, which have a shape of the move machine and leave the value.
        ensures steps { IfOk result (λ insts. insts.items ≡ map (step_into rd) (plan_of value)) }
        ensures shape { IsShape (plan_of value) }
        ensures value { Leave (plan_of value) value }
        ensures least { IfOk result (λ insts. NoneFewer (length insts.items) value) }
        ensures few { IfOk result (λ insts. length insts.items ≤ 4) }
        ensures faultless { IfOk result (λ insts. HaveNoFault insts.items) }
    {
        let plan = const_plan(value);
        let mut insts = SmallVec::new(alloc);
        for step in plan.as_slice() {
            insts.push_reserved(step_into(rd, *step));
        }
        Ok(insts)
    }
}
