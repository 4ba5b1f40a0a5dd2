//! The assembler.

ghost use Rattle.std.specs.Prelude.{◌≡◌, ◌⊎◌, ◌+◌, ◌^◌, ◌<◌, ◌≤◌, true, false, map, length, [], ◌∷◌, ◌++◌, None, Some, Err, IfOk, IfErr, OnOk, OnErr};
ghost use Rattle.std.specs.FinMap.{insert};
ghost use Rattle.std.specs.String.{string_bytes};
ghost use Rattle.std.specs.Vec.{vec_len, vec_capacity};
ghost use Rattle.a64_base.specs.declared.cond.CondBrKind.TheVariants as kinds;
ghost use Rattle.a64_base.specs.declared.target.BranchTarget.TheVariants.{Label};
ghost use Rattle.a64_operand.specs.declared.virtuals.VirtualRegisters.TheVariants.{Refused};
ghost use Rattle.a64_operand.specs.Operands.{is_register};
ghost use Rattle.a64_plan.specs.Plans.{plan_of};
ghost use Rattle.a64_inst.specs.Accesses.{inst_with};
ghost use Rattle.a64_inst.specs.Constants.{step_into};
ghost use Rattle.a64_inst.specs.declared.inst.Inst.TheVariants as insts;
ghost use Rattle.a64_inst.specs.declared.item.Item.TheVariants.{Bind};
ghost use Rattle.a64_assemble.specs.Assembled.{IsAssembled, IsRefusal};
ghost use Rattle.a64_emit.specs.declared.error.EmitError.TheVariants.{OutOfMemory};
ghost use Rattle.a64_print.specs.InstTexts.{listing_of};
ghost use Rattle.a64_assembler.specs.declared.error.AddError.TheVariants.{TooMany, BadLength};
ghost use Rattle.a64_buffer.specs.Constants.{IsConstant};
ghost use Rattle.a64_assembler.specs.Forms.{pushed_pair, popped_pair, saved_frame, frame_set, restored_frame};
ghost use Rattle.a64_base.specs.Registers.{integer_register};
ghost use Rattle.a64_ops.specs.declared.operator.ALUOp.TheVariants as ops;
ghost use Rattle.a64_assembler.specs.Assembly.{nothing, with_items, emitted, label_at, shown_fault_in, Adds, AddsBranch, AddsCall, IsCause, IsFull};
ghost use Rattle.a64_assembler.specs.Numbers.{insts_of, AddsWithNumber};

use crate::constants::VCodeConstants;
use crate::error::AddError;
use crate::numbers::WithNumber;
use crate::{insts, numbers};
use a64_assemble::assemble;
use a64_base::{
    Cond, CondBrKind, ExternalName, MachLabel, OperandSize, Reg, VCodeConstant, Writable,
};
use a64_buffer::ForceVeneers;
use a64_emit::{Code, EmitError, first_shown_fault};
use a64_imms::Imm12;
use a64_inst::{AMode, AccessOp, EmitFlags, EmitInfo, FrameLayout, Inst, Item};
use a64_list::ListVec;
use a64_print::listing;
use smallvec::SmallVec;
use std::alloc::Global;
use std::marker::Model;

/// The most items or labels that there may be.
const MOST: u32 = u32::MAX;

/// Items that are added one after another, and what their assembly is told beside them: constants, a frame,
/// settings, and whether islands are forced.
#[derive(Drop)]
pub struct Assembler {
    alloc: Global,
    items: Vec<Item>,
    constants: VCodeConstants,
    info: EmitInfo,
    frame: FrameLayout,
    force: ForceVeneers,
    labels: u32,
}

impl Model for Assembler {
    ghost use Rattle.std.specs.Prelude.{◌^◌, ◌<◌, length};
    ghost use Rattle.std.specs.Ordering.{nat_cmp};
    ghost use Rattle.std.specs.FinMap.{code};
    ghost use Rattle.std.specs.Coded.{codes, coded_ℕ, coded_list};
    ghost use Rattle.a64_assembler.specs.Assembly.{Assembly};

    ghost Value = { Assembly };

    ghost coded = { Prim.hlevel (codes, code {R = nat_cmp} coded_ℕ (coded_list coded_ℕ)) };

    ghost view = { λ a. record {
      items = a.items.items;
      constants = a.constants.constants;
      frame = a.frame;
      flags = a.info;
      force = a.force;
      labels = a.labels;
      numbers = a.constants.numbers;
    } };

    ghost invariant = { λ a. length a.items.items < 2 ^ 32 };
}

/// Puts instructions behind the items, which have room for them.
fn push_all(items: &mut Vec<Item>, insts: SmallVec<Inst, 4>)
    requires { vec_len items.old + length insts.items ≤ vec_capacity items.old }
    ensures { items.new.items ≡ items.old.items ++ map emitted insts.items }
{
    for inst in insts {
        items.push_reserved(Item::from(inst));
    }
}

impl Assembler {
    /// An assembler to which nothing was added, for a function without a frame, with no setting on. It takes no
    /// memory.
    pub fn new(alloc: Global) -> Assembler
        ensures { result ≡ nothing }
    {
        Assembler {
            alloc,
            items: Vec::new(alloc),
            constants: VCodeConstants::new(alloc),
            info: EmitInfo::new(EmitFlags::none()),
            frame: FrameLayout::none(alloc),
            force: ForceVeneers::No,
            labels: 0,
        }
    }

    /// Sets the frame of the function that the items are.
    pub fn set_frame(&mut self, frame: FrameLayout)
        ensures { self.new ≡ record self.old { frame = frame } }
    {
        self.frame = frame;
    }

    /// Sets the settings.
    pub fn set_flags(&mut self, flags: EmitFlags)
        ensures { self.new ≡ record self.old { flags = flags } }
    {
        self.info = EmitInfo::new(flags);
    }

    /// Sets whether islands are forced.
    pub fn set_force(&mut self, force: ForceVeneers)
        ensures { self.new ≡ record self.old { force = force } }
    {
        self.force = force;
    }

    /// A label that was not given before.
    ///
    /// # Errors
    ///
    /// [`AddError::TooMany`] alone.
    pub fn new_label(&mut self) -> Result<MachLabel, AddError>
        ensures ok { IfOk result (λ label. label ≡ label_at self.old.labels) }
        ensures given { OnOk result (self.new ≡ record self.old { labels = self.old.labels + 1 }) }
        ensures err { OnErr result (self.new ≡ self.old) }
        ensures cause { IfErr result (λ error. (error ≡ TooMany) × IsFull self.old.labels 1) }
    {
        if self.labels == MOST {
            return Err(AddError::TooMany);
        }
        let label = MachLabel(self.labels);
        self.labels += 1;
        Ok(label)
    }

    /// Adds an item.
    ///
    /// # Errors
    ///
    /// [`AddError::TooMany`], or want of memory. Then nothing has changed.
    pub fn push(&mut self, item: Item) -> Result<(), AddError>
        ensures { Adds (item ∷ []) result self.old self.new }
    {
        if self.items.len() >= MOST as usize {
            return Err(AddError::TooMany);
        }
        self.items.push(item)?;
        Ok(())
    }

    /// Binds a label to the place of the next item.
    ///
    /// # Errors
    ///
    /// As of [`Assembler::push`].
    pub fn bind(&mut self, label: MachLabel) -> Result<(), AddError>
        ensures { Adds (Bind label ∷ []) result self.old self.new }
    {
        self.push(Item::Bind(label))
    }

    /// Adds an instruction.
    ///
    /// # Errors
    ///
    /// As of [`Assembler::push`].
    pub fn emit(&mut self, inst: Inst) -> Result<(), AddError>
        ensures { Adds (emitted inst ∷ []) result self.old self.new }
    {
        self.push(Item::from(inst))
    }

    /// Adds a jump to a label.
    ///
    /// # Errors
    ///
    /// As of [`Assembler::push`].
    pub fn jump(&mut self, label: MachLabel) -> Result<(), AddError>
        ensures { Adds (emitted (insts.Jump (Label label)) ∷ []) result self.old self.new }
    {
        self.emit(insts::jump(label))
    }

    /// Adds a branch to a label where a test succeeds. Else execution goes on behind it.
    ///
    /// # Errors
    ///
    /// [`AddError::TooMany`], since it takes two items and a label of its own, or want of memory. Then nothing has
    /// changed.
    pub fn branch(&mut self, kind: CondBrKind, label: MachLabel) -> Result<(), AddError>
        ensures { AddsBranch kind label result self.old self.new }
    {
        if self.labels == MOST || self.items.len() + 1 >= MOST as usize {
            return Err(AddError::TooMany);
        }
        self.items.reserve(2)?;
        let next = MachLabel(self.labels);
        self.items
            .push_reserved(Item::from(insts::branch(kind, label, next)));
        self.items.push_reserved(Item::Bind(next));
        self.labels += 1;
        Ok(())
    }

    /// Adds a branch to a label where a condition on the flags holds. Else execution goes on behind it.
    ///
    /// # Errors
    ///
    /// As of [`Assembler::branch`].
    pub fn branch_if(&mut self, cond: Cond, label: MachLabel) -> Result<(), AddError>
        ensures { AddsBranch (kinds.Cond cond) label result self.old self.new }
    {
        self.branch(CondBrKind::Cond(cond), label)
    }

    /// Adds a branch to a label where a register is zero, at a size. Else execution goes on behind it.
    ///
    /// # Errors
    ///
    /// As of [`Assembler::branch`].
    pub fn branch_if_zero(
        &mut self,
        reg: Reg,
        size: OperandSize,
        label: MachLabel,
    ) -> Result<(), AddError>
        ensures { AddsBranch (kinds.Zero reg size) label result self.old self.new }
    {
        self.branch(CondBrKind::Zero(reg, size), label)
    }

    /// Adds a load or a store of one register, which does not trap.
    ///
    /// # Errors
    ///
    /// As of [`Assembler::push`].
    pub fn access(&mut self, op: AccessOp, reg: Reg, mem: AMode) -> Result<(), AddError>
        ensures { Adds (emitted (inst_with op reg mem None) ∷ []) result self.old self.new }
    {
        self.emit(insts::access(op, reg, mem))
    }

    /// Adds instructions, or none of them.
    ///
    /// # Errors
    ///
    /// [`AddError::TooMany`], where not all have room, or want of memory. Then nothing has changed.
    pub fn emit_all(&mut self, insts: SmallVec<Inst, 4>) -> Result<(), AddError>
        ensures { Adds (map emitted insts.items) result self.old self.new }
    {
        if self.items.len().saturating_add(insts.len()) > MOST as usize {
            return Err(AddError::TooMany);
        }
        self.items.reserve(insts.len())?;
        push_all(&mut self.items, insts);
        Ok(())
    }

    /// Adds the moves that put a value into a register from x0 to x30: the shortest ones, of which there are at most
    /// four.
    ///
    /// # Errors
    ///
    /// As of [`Assembler::emit_all`].
    pub fn load_constant(&mut self, rd: Writable<Reg>, value: u64) -> Result<(), AddError>
        requires { is_register Refused rd ≡ true }
        ensures { Adds (map emitted (map (step_into rd) (plan_of value))) result
            self.old self.new }
    {
        let insts = Inst::load_constant(self.alloc, rd, value)?;
        self.emit_all(insts)
    }

    /// Adds an operation with what stands before it, or none of them.
    ///
    /// # Errors
    ///
    /// As of [`Assembler::emit_all`].
    fn emit_with_number(&mut self, insts: WithNumber) -> Result<(), AddError>
        ensures { Adds (map emitted (insts_of insts)) result self.old self.new }
    {
        let WithNumber {
            mut before,
            operation,
        } = insts;
        before.push(operation)?;
        self.emit_all(before)
    }

    /// Adds an addition of a number of any size to a register, as [`numbers::add_number`] does it.
    ///
    /// # Errors
    ///
    /// As of [`Assembler::emit_all`].
    pub fn add_number(
        &mut self,
        size: OperandSize,
        rd: Writable<Reg>,
        rn: Reg,
        number: u64,
    ) -> Result<(), AddError>
        ensures { AddsWithNumber ops.Add ops.Sub true size rd rn number result self.old self.new }
    {
        self.emit_with_number(numbers::add_number(self.alloc, size, rd, rn, number))
    }

    /// Adds a subtraction of a number of any size from a register, as [`numbers::sub_number`] does it.
    ///
    /// # Errors
    ///
    /// As of [`Assembler::emit_all`].
    pub fn sub_number(
        &mut self,
        size: OperandSize,
        rd: Writable<Reg>,
        rn: Reg,
        number: u64,
    ) -> Result<(), AddError>
        ensures { AddsWithNumber ops.Sub ops.Add true size rd rn number result self.old self.new }
    {
        self.emit_with_number(numbers::sub_number(self.alloc, size, rd, rn, number))
    }

    /// Adds a comparison of a register with a number of any size, as [`numbers::cmp_number`] does it.
    ///
    /// # Errors
    ///
    /// As of [`Assembler::emit_all`].
    pub fn cmp_number(&mut self, size: OperandSize, rn: Reg, number: u64) -> Result<(), AddError>
        ensures { AddsWithNumber ops.SubS ops.AddS false size (integer_register 31) rn number
            result self.old self.new }
    {
        self.emit_with_number(numbers::cmp_number(self.alloc, size, rn, number))
    }

    /// Adds a constant of 4, 8 or 16 bytes that items may load, and gives its number.
    ///
    /// # Errors
    ///
    /// [`AddError::BadLength`], [`AddError::TooMany`], or want of memory. Then nothing has changed.
    pub fn constant(&mut self, bytes: &[u8]) -> Result<VCodeConstant, AddError>
        ensures ok { IfOk result (λ constant. constant.0 ≡ self.old.numbers) }
        ensures added { OnOk result (IsConstant bytes.now × (self.new ≡ record self.old {
          constants = insert self.old.constants self.old.numbers bytes.now;
          numbers = self.old.numbers + 1;
        })) }
        ensures err { OnErr result (self.new ≡ self.old) }
        ensures length { result ≡ Err BadLength → IsConstant bytes.now → ⊥ }
        ensures many { result ≡ Err TooMany → IsFull self.old.numbers 1 }
    {
        self.constants.insert(bytes)
    }

    /// Adds a call of a symbol that passes nothing and gets nothing back, by the standard convention.
    ///
    /// # Errors
    ///
    /// As of [`Assembler::push`].
    pub fn call(&mut self, name: ExternalName) -> Result<(), AddError>
        ensures { AddsCall insts.Call name result self.old self.new }
    {
        self.emit(insts::call(self.alloc, name))
    }

    /// Adds a call of the address in a register that passes nothing and gets nothing back, by the standard convention.
    ///
    /// # Errors
    ///
    /// As of [`Assembler::push`].
    pub fn call_reg(&mut self, rn: Reg) -> Result<(), AddError>
        ensures { AddsCall insts.CallInd rn result self.old self.new }
    {
        self.emit(insts::call_reg(self.alloc, rn))
    }

    /// Adds a `mov` of a register, which is not the stack pointer.
    ///
    /// # Errors
    ///
    /// As of [`Assembler::push`].
    pub fn mov(&mut self, size: OperandSize, rd: Writable<Reg>, rm: Reg) -> Result<(), AddError>
        ensures { Adds (emitted (insts.Mov size rd rm) ∷ []) result self.old self.new }
    {
        self.emit(insts::mov(size, rd, rm))
    }

    /// Adds an addition of two registers.
    ///
    /// # Errors
    ///
    /// As of [`Assembler::push`].
    pub fn add(
        &mut self,
        size: OperandSize,
        rd: Writable<Reg>,
        rn: Reg,
        rm: Reg,
    ) -> Result<(), AddError>
        ensures { Adds (emitted (insts.AluRRR ops.Add size rd rn rm) ∷ [])
            result self.old self.new }
    {
        self.emit(insts::add(size, rd, rn, rm))
    }

    /// Adds a subtraction of two registers.
    ///
    /// # Errors
    ///
    /// As of [`Assembler::push`].
    pub fn sub(
        &mut self,
        size: OperandSize,
        rd: Writable<Reg>,
        rn: Reg,
        rm: Reg,
    ) -> Result<(), AddError>
        ensures { Adds (emitted (insts.AluRRR ops.Sub size rd rn rm) ∷ [])
            result self.old self.new }
    {
        self.emit(insts::sub(size, rd, rn, rm))
    }

    /// Adds a comparison of two registers, which sets the flags.
    ///
    /// # Errors
    ///
    /// As of [`Assembler::push`].
    pub fn cmp(&mut self, size: OperandSize, rn: Reg, rm: Reg) -> Result<(), AddError>
        ensures { Adds (emitted (insts.AluRRR ops.SubS size (integer_register 31) rn rm) ∷ [])
            result self.old self.new }
    {
        self.emit(insts::cmp(size, rn, rm))
    }

    /// Adds an addition of an immediate to a register, or to the stack pointer.
    ///
    /// # Errors
    ///
    /// As of [`Assembler::push`].
    pub fn add_imm(
        &mut self,
        size: OperandSize,
        rd: Writable<Reg>,
        rn: Reg,
        imm12: Imm12,
    ) -> Result<(), AddError>
        ensures { Adds (emitted (insts.AluRRImm12 ops.Add size rd rn imm12) ∷ [])
            result self.old self.new }
    {
        self.emit(insts::add_imm(size, rd, rn, imm12))
    }

    /// Adds a subtraction of an immediate from a register, or from the stack pointer.
    ///
    /// # Errors
    ///
    /// As of [`Assembler::push`].
    pub fn sub_imm(
        &mut self,
        size: OperandSize,
        rd: Writable<Reg>,
        rn: Reg,
        imm12: Imm12,
    ) -> Result<(), AddError>
        ensures { Adds (emitted (insts.AluRRImm12 ops.Sub size rd rn imm12) ∷ [])
            result self.old self.new }
    {
        self.emit(insts::sub_imm(size, rd, rn, imm12))
    }

    /// Adds a comparison of a register, or of the stack pointer, with an immediate.
    ///
    /// # Errors
    ///
    /// As of [`Assembler::push`].
    pub fn cmp_imm(&mut self, size: OperandSize, rn: Reg, imm12: Imm12) -> Result<(), AddError>
        ensures { Adds
            (emitted (insts.AluRRImm12 ops.SubS size (integer_register 31) rn imm12) ∷ [])
            result self.old self.new }
    {
        self.emit(insts::cmp_imm(size, rn, imm12))
    }

    /// Adds a store of two registers to the stack, which grows by 16 bytes.
    ///
    /// # Errors
    ///
    /// As of [`Assembler::push`].
    pub fn push_pair(&mut self, rt: Reg, rt2: Reg) -> Result<(), AddError>
        ensures { Adds (emitted (pushed_pair rt rt2) ∷ []) result self.old self.new }
    {
        self.emit(insts::push_pair(rt, rt2))
    }

    /// Adds a load of two registers from the stack, which shrinks by 16 bytes.
    ///
    /// # Errors
    ///
    /// As of [`Assembler::push`].
    pub fn pop_pair(&mut self, rt: Writable<Reg>, rt2: Writable<Reg>) -> Result<(), AddError>
        ensures { Adds (emitted (popped_pair rt rt2) ∷ []) result self.old self.new }
    {
        self.emit(insts::pop_pair(rt, rt2))
    }

    /// Adds a return to the address in x30.
    ///
    /// # Errors
    ///
    /// As of [`Assembler::push`].
    pub fn ret(&mut self) -> Result<(), AddError>
        ensures { Adds (emitted (insts.Ret) ∷ []) result self.old self.new }
    {
        self.emit(insts::ret())
    }

    /// Adds a jump to the target that the low 32 bits of `ridx` count where `lo` holds by the flags, as behind a
    /// comparison of the index with the number of targets, else to the default. It changes the other two registers.
    ///
    /// # Errors
    ///
    /// As of [`Assembler::push`].
    pub fn jump_table(
        &mut self,
        default: MachLabel,
        targets: ListVec<MachLabel>,
        ridx: Reg,
        rtmp1: Writable<Reg>,
        rtmp2: Writable<Reg>,
    ) -> Result<(), AddError>
        ensures { Adds (emitted (insts.JTSequence default targets ridx rtmp1 rtmp2) ∷ [])
            result self.old self.new }
    {
        self.emit(insts::jump_table(default, targets, ridx, rtmp1, rtmp2))
    }

    /// Adds the start of a function that has a frame: x29 and x30 are saved, and x29 points to them.
    ///
    /// # Errors
    ///
    /// [`AddError::TooMany`], where not two more items have room, or want of memory. Then nothing has changed.
    pub fn prologue(&mut self) -> Result<(), AddError>
        ensures { Adds (emitted saved_frame ∷ emitted frame_set ∷ []) result self.old self.new }
    {
        self.emit_two(insts::save_frame(), insts::set_frame())
    }

    /// Adds the end of such a function: x29 and x30 are restored, and it returns.
    ///
    /// # Errors
    ///
    /// As of [`Assembler::prologue`].
    pub fn epilogue(&mut self) -> Result<(), AddError>
        ensures { Adds (emitted restored_frame ∷ emitted insts.Ret ∷ []) result self.old self.new }
    {
        self.emit_two(insts::restore_frame(), insts::ret())
    }

    /// Adds two instructions, or none.
    ///
    /// # Errors
    ///
    /// [`AddError::TooMany`], or want of memory. Then nothing has changed.
    fn emit_two(&mut self, first: Inst, second: Inst) -> Result<(), AddError>
        ensures { Adds (emitted first ∷ emitted second ∷ []) result self.old self.new }
    {
        if self.items.len() + 1 >= MOST as usize {
            return Err(AddError::TooMany);
        }
        self.items.reserve(2)?;
        self.items.push_reserved(Item::from(first));
        self.items.push_reserved(Item::from(second));
        Ok(())
    }

    /// How many items there are.
    pub fn len(&self) -> usize
        ensures { result ≡ length self.now.items }
    {
        self.items.len()
    }

    /// The listing of the items: a line for each, ended by a line feed (a64_print).
    ///
    /// # Errors
    ///
    /// What is wrong with the first item that cannot be shown, or want of memory.
    pub fn listing(&self) -> Result<String, EmitError>
        ensures text { IfOk result (λ text.
            string_bytes text ≡ listing_of self.now.frame self.now.items) }
        ensures shown { OnOk result (shown_fault_in self.now ≡ None) }
        ensures err { IfErr result (λ error. (shown_fault_in self.now ≡ Some error)
            ⊎ ((error ≡ OutOfMemory) × (shown_fault_in self.now ≡ None))) }
    {
        let constants = self.constants.constants();
        match first_shown_fault(&self.items, constants, &self.info, &self.frame) {
            Some(error) => Err(error),
            None => Ok(listing(self.alloc, &self.items, &self.frame)?),
        }
    }

    /// The code of the items: what `assemble` gives for them (a64_assemble).
    ///
    /// # Errors
    ///
    /// The first fault of the items, or want of memory, which comes only where each item is right by itself.
    pub fn finish(self) -> Result<Code, EmitError>
        ensures ok { IfOk result
            (IsAssembled self.frame self.flags self.constants self.force self.items) }
        ensures err { IfErr result
            (IsRefusal self.frame self.flags self.constants self.force self.items) }
    {
        assemble(
            self.alloc,
            &self.items,
            self.constants.constants(),
            &self.info,
            &self.frame,
            self.force,
        )
    }
}
