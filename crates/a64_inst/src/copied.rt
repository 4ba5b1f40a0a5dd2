//! Copies of instructions.

ghost use Rattle.std.specs.Prelude.{◌≡◌, IfOk};
ghost use Rattle.a64_inst.specs.declared.group.Group.TheVariants as groups;
ghost use Rattle.a64_inst.specs.declared.group.PlainGroup.TheVariants as plain;
ghost use Rattle.a64_inst.specs.Groups.{group_of};

use crate::group::{Group, PlainGroup};
use crate::inst::Inst;
use crate::{
    control_copies, float_list, immediate_list, memory_copies, register_list, sequence_copies,
    system_list, vector_list, vector_move_list,
};
use std::alloc::{AllocError, Global};

/// An equal instruction, of these variants with these fields.
macro_rules! copied {
    ($inst:expr; $($name:ident { $($field:ident),* }),+) => {
        match $inst {
            $(Inst::$name { $($field),* } => Inst::$name { $($field: *$field),* },)+
            _ => unreachable!(),
        }
    };
}

/// An equal instruction, of those of a list.
macro_rules! copied_arms {
    ($virtuals:ident, $inst:expr; $($name:ident { $($field:ident: $way:ident $what:tt),* } if $rest:expr;)+) => {
        match $inst {
            $(Inst::$name { $($field),* } => Inst::$name { $($field: *$field),* },)+
            _ => unreachable!(),
        }
    };
}

/// An equal integer operation with an immediate.
fn copied_immediate(inst: &Inst) -> Inst
    requires { group_of inst.now ≡ groups.Plain plain.Immediate }
    ensures { result ≡ inst.now }
{
    immediate_list!(copied_arms, virtuals, inst)
}

/// An equal integer operation on registers.
fn copied_register(inst: &Inst) -> Inst
    requires { group_of inst.now ≡ groups.Plain plain.Register }
    ensures { result ≡ inst.now }
{
    register_list!(copied_arms, virtuals, inst)
}

/// An equal operation on scalar floats.
fn copied_float(inst: &Inst) -> Inst
    requires { group_of inst.now ≡ groups.Plain plain.Float }
    ensures { result ≡ inst.now }
{
    float_list!(copied_arms, virtuals, inst)
}

/// An equal operation on vectors.
fn copied_vector(inst: &Inst) -> Inst
    requires { group_of inst.now ≡ groups.Plain plain.Vector }
    ensures { result ≡ inst.now }
{
    vector_list!(copied_arms, virtuals, inst)
}

/// An equal move of lanes, or table of bytes.
fn copied_vector_move(inst: &Inst) -> Inst
    requires { group_of inst.now ≡ groups.Plain plain.VectorMove }
    ensures { result ≡ inst.now }
{
    vector_move_list!(copied_arms, virtuals, inst)
}

/// An equal hint or barrier.
fn copied_system(inst: &Inst) -> Inst
    requires { group_of inst.now ≡ groups.Plain plain.System }
    ensures { result ≡ inst.now }
{
    system_list!(copied_arms, virtuals, inst)
}

/// An equal instruction that is one plain word.
fn copied_plain(inst: &Inst, group: PlainGroup) -> Inst
    requires { group_of inst.now ≡ groups.Plain group }
    ensures { result ≡ inst.now }
{
    match group {
        PlainGroup::Immediate => copied_immediate(inst),
        PlainGroup::Register => copied_register(inst),
        PlainGroup::Float => copied_float(inst),
        PlainGroup::Vector => copied_vector(inst),
        PlainGroup::VectorMove => copied_vector_move(inst),
        PlainGroup::System => copied_system(inst),
    }
}

/// An equal branch, `nop`, access to the flags, word of data or address of a label.
fn copied_control(alloc: Global, inst: &Inst) -> Result<Inst, AllocError>
    requires { group_of inst.now ≡ groups.Control }
    ensures { IfOk result (λ copy. copy ≡ inst.now) }
{
    if let Inst::IndirectBr { rn, targets } = inst {
        return Ok(Inst::IndirectBr {
            rn: *rn,
            targets: targets.try_clone(alloc)?,
        });
    }
    Ok(control_copies!(copied, inst))
}

/// An equal sequence around a table, a symbol or the stack, loop of atomic accesses, select of vectors, or what has no
/// word.
fn copied_sequence(alloc: Global, inst: &Inst) -> Result<Inst, AllocError>
    requires { group_of inst.now ≡ groups.Sequence }
    ensures { IfOk result (λ copy. copy ≡ inst.now) }
{
    match inst {
        Inst::Args { args } => Ok(Inst::Args {
            args: args.try_clone(alloc)?,
        }),
        Inst::Rets { rets } => Ok(Inst::Rets {
            rets: rets.try_clone(alloc)?,
        }),
        Inst::JTSequence {
            default,
            targets,
            ridx,
            rtmp1,
            rtmp2,
        } => {
            let targets = targets.try_clone(alloc)?;
            Ok(Inst::JTSequence {
                default: *default,
                targets,
                ridx: *ridx,
                rtmp1: *rtmp1,
                rtmp2: *rtmp2,
            })
        }
        other => Ok(sequence_copies!(copied, other)),
    }
}

/// An equal call, or return that calls.
fn copied_call(alloc: Global, inst: &Inst) -> Result<Inst, AllocError>
    requires { group_of inst.now ≡ groups.Call }
    ensures { IfOk result (λ copy. copy ≡ inst.now) }
{
    match inst {
        Inst::Call { info } => Ok(Inst::Call {
            info: info.try_clone(alloc)?,
        }),
        Inst::CallInd { info } => Ok(Inst::CallInd {
            info: info.try_clone(alloc)?,
        }),
        Inst::ReturnCall { info } => Ok(Inst::ReturnCall {
            info: info.try_clone(alloc)?,
        }),
        Inst::ReturnCallInd { info } => Ok(Inst::ReturnCallInd {
            info: info.try_clone(alloc)?,
        }),
        _ => unreachable!(),
    }
}

/// An equal load or store.
fn copied_memory(inst: &Inst) -> Result<Inst, AllocError>
    requires { group_of inst.now ≡ groups.Memory }
    ensures { IfOk result (λ copy. copy ≡ inst.now) }
{
    if let Some(access) = inst.access() {
        return Ok(Inst::from_access(access));
    }
    Ok(memory_copies!(copied, inst))
}

impl Inst {
    /// An equal instruction.
    ///
    /// # Errors
    ///
    /// Want of memory.
    pub fn try_clone(&self, alloc: Global) -> Result<Inst, AllocError>
        ensures { IfOk result (λ inst. inst ≡ self.now) }
    {
        match self.group() {
            Group::Plain(group) => Ok(copied_plain(self, group)),
            Group::Control => copied_control(alloc, self),
            Group::Sequence => copied_sequence(alloc, self),
            Group::Call => copied_call(alloc, self),
            Group::Memory => copied_memory(self),
        }
    }
}
