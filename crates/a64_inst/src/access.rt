//! Loads and stores of one register, and of the types of values.

ghost use Rattle.std.specs.Prelude.{◌≡◌, true, Some, option_map};
ghost use Rattle.a64_inst.specs.Accesses.{type_has_load_form, inst_with, load_op, store_op, access_type};
ghost use Rattle.a64_inst.specs.Faults.{named_constant};

use crate::inst::Inst;
use crate::mode::AMode;
use crate::{access_arms, made_arms, type_arms};
use a64_base::{IrType, MemFlagsData, Reg, VCodeConstant, Writable};
use a64_ops::AccessOp;
use std::marker::Model;

/// A load or a store of one register, as data.
#[derive(Clone, Copy, Debug)]
pub struct Access {
    /// What it does.
    pub op: AccessOp,
    /// What is loaded or stored: x0 to x30 or the zero register, or a vector register, by `op`.
    pub reg: Reg,
    /// The address.
    pub mem: AMode,
    /// What is known of the access.
    pub flags: MemFlagsData,
}

/// A load or a store of one register, as data, whose address stands in the instruction.
#[derive(Drop)]
pub struct AccessRef<'i> {
    /// What it does.
    pub op: AccessOp,
    /// What is loaded or stored: x0 to x30 or the zero register, or a vector register, by `op`.
    pub reg: Reg,
    /// The address.
    pub mem: &'i AMode,
    /// What is known of the access.
    pub flags: MemFlagsData,
}

impl<'i> Model for AccessRef<'i> {
    ghost use Rattle.a64_inst.specs.declared.access.Access.{Access};

    ghost Value = { Access };

    ghost view = { λ a. record { op = a.op; reg = a.reg; mem = a.mem.now; flags = a.flags } };
}

/// The type of the value that an access moves.
#[inline(always)]
fn type_of(op: AccessOp) -> IrType
    ensures { result ≡ access_type op }
{
    type_arms!(op)
}

impl Access {
    ghost use Rattle.a64_inst.specs.Accesses.{access_type};

    /// The type of the value that is moved, from `I8` to `I64`, from `F16` to `F64`, or `I8X16`.
    pub fn ty(&self) -> IrType
        ensures { result ≡ access_type self.now.op }
    {
        type_of(self.op)
    }
}

impl<'i> AccessRef<'i> {
    ghost use Rattle.a64_inst.specs.Accesses.{access_type};

    /// The type of the value that is moved, from `I8` to `I64`, from `F16` to `F64`, or `I8X16`.
    #[inline(always)]
    pub fn ty(&self) -> IrType
        ensures { result ≡ access_type self.now.op }
    {
        type_of(self.op)
    }
}

/// The load of a type's values.
pub fn load_of(ty: IrType) -> AccessOp
    requires { type_has_load_form ty ≡ true }
    ensures { result ≡ load_op ty }
{
    match ty {
        IrType::I8 => AccessOp::ULoad8,
        IrType::I16 => AccessOp::ULoad16,
        IrType::I32 => AccessOp::ULoad32,
        IrType::I64 => AccessOp::ULoad64,
        _ => match ty.bits() {
            16 => AccessOp::FpuLoad16,
            32 => AccessOp::FpuLoad32,
            64 => AccessOp::FpuLoad64,
            _ => AccessOp::FpuLoad128,
        },
    }
}

/// The store of a type's values.
fn store_of(ty: IrType) -> AccessOp
    requires { type_has_load_form ty ≡ true }
    ensures { result ≡ store_op ty }
{
    match ty {
        IrType::I8 => AccessOp::Store8,
        IrType::I16 => AccessOp::Store16,
        IrType::I32 => AccessOp::Store32,
        IrType::I64 => AccessOp::Store64,
        _ => match ty.bits() {
            16 => AccessOp::FpuStore16,
            32 => AccessOp::FpuStore32,
            64 => AccessOp::FpuStore64,
            _ => AccessOp::FpuStore128,
        },
    }
}

impl Inst {
    ghost use Rattle.a64_inst.specs.Accesses.{access_of, inst_of, access_type};

    /// The load or store of one register that the instruction is, where it is one. The address is not
    /// copied.
    #[inline(always)]
    pub fn access_ref(&self) -> Option<AccessRef<'_>>
        ensures { result ≡ access_of self.now }
    {
        let (op, reg, mem, flags) = access_arms!(self);
        Some(AccessRef {
            op,
            reg,
            mem,
            flags: *flags,
        })
    }

    /// The load or store of one register that the instruction is, where it is one.
    pub fn access(&self) -> Option<Access>
        ensures { result ≡ access_of self.now }
    {
        match self.access_ref() {
            Some(access) => Some(Access {
                op: access.op,
                reg: access.reg,
                mem: *access.mem,
                flags: access.flags,
            }),
            None => None,
        }
    }

    /// The instruction of a load or a store of one register.
    pub fn from_access(access: Access) -> Inst
        ensures inst { result ≡ inst_of access }
        ensures access { access_of result ≡ Some access }
    {
        let (reg, mem, flags) = (access.reg, access.mem, access.flags);
        made_arms!(access.op, reg, mem, flags)
    }

    /// Whether there are a load and a store of one value of this type: an integer of 8 to 64 bits,
    /// or a float or vector of 16 to 128 bits.
    pub fn has_load_form(ty: IrType) -> bool
        ensures { result ≡ type_has_load_form ty }
    {
        !matches!(ty, IrType::I128 | IrType::I8X32)
    }

    /// The type of the value that is moved, where the instruction is a load or a store of one
    /// register (Cranelift's `mem_type`).
    pub fn mem_type(&self) -> Option<IrType>
        ensures { result ≡ option_map (λ access. access_type access.op) (access_of self.now) }
    {
        match self.access_ref() {
            Some(access) => Some(access.ty()),
            None => None,
        }
    }

    /// The constant that the instruction loads, where it loads one.
    #[inline(always)]
    pub fn constant(&self) -> Option<VCodeConstant>
        ensures { result ≡ named_constant self.now }
    {
        match self.access_ref() {
            Some(access) => access.mem.constant(),
            None => None,
        }
    }

    /// The load of a value of this type, which has a load form ([`Inst::has_load_form`]): with zeros
    /// above an integer, and into a vector register of a float or a vector.
    pub fn gen_load(into_reg: Writable<Reg>, mem: AMode, ty: IrType, flags: MemFlagsData) -> Inst
        requires { type_has_load_form ty ≡ true }
        ensures { result ≡ inst_with (load_op ty) into_reg mem flags }
    {
        Inst::from_access(Access {
            op: load_of(ty),
            reg: into_reg.to_reg(),
            mem,
            flags,
        })
    }

    /// The store of a value of this type, which has a load form ([`Inst::has_load_form`]).
    pub fn gen_store(mem: AMode, from_reg: Reg, ty: IrType, flags: MemFlagsData) -> Inst
        requires { type_has_load_form ty ≡ true }
        ensures { result ≡ inst_with (store_op ty) from_reg mem flags }
    {
        Inst::from_access(Access {
            op: store_of(ty),
            reg: from_reg,
            mem,
            flags,
        })
    }
}
