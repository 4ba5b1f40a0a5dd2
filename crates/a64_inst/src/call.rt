//! Calls, and returns that call another function.

ghost use Rattle.std.specs.Prelude.{◌≡◌, [], false, IfOk};
ghost use Rattle.a64_base.specs.declared.reg.PReg.{PReg};
ghost use Rattle.a64_base.specs.Sets.{has};

use a64_base::{APIKey, CallConv, IrType, PRegSet, Reg, Writable};
use a64_list::ListVec;
use std::alloc::{AllocError, Global};

/// A value that is passed to a function (Cranelift's `CallArgPair`).
#[derive(Clone, Copy, Debug)]
pub struct CallArgPair {
    /// The register that the caller knows it by.
    pub vreg: Reg,
    /// The register in which it goes.
    pub preg: Reg,
}

/// Where a function leaves a result (Cranelift's `RetLocation`).
#[derive(Clone, Copy, Debug)]
pub enum RetLocation {
    /// In this register, a value of this type.
    Reg(Reg, IrType),
    /// On the stack, a value of this type, so many bytes above the stack pointer when the arguments
    /// are gone.
    Stack(i64, IrType),
}

/// A result of a function that was called (Cranelift's `CallRetPair`).
#[derive(Clone, Copy, Debug)]
pub struct CallRetPair {
    /// The register that the caller knows it by.
    pub vreg: Writable<Reg>,
    /// Where the function leaves it.
    pub location: RetLocation,
}

/// What is known of a call (Cranelift's `CallInfo`).
#[derive(Drop)]
pub struct CallInfo<T> {
    /// What is called: a symbol, or the address in a register.
    pub dest: T,
    /// What is passed.
    pub uses: ListVec<CallArgPair>,
    /// What comes back.
    pub defs: ListVec<CallRetPair>,
    /// How many bytes of arguments the function that is called takes off the stack, below 2^31.
    pub callee_pop_size: u32,
    /// The registers that the call changes beside.
    pub clobbers: PRegSet,
    /// The convention of the function that calls.
    pub caller_conv: CallConv,
    /// The convention of the function that is called.
    pub callee_conv: CallConv,
    /// Whether the call may be changed into no operation later. Then its results are not loaded from the
    /// stack. It counts at calls of symbols alone.
    pub patchable: bool,
}

/// What is known of a return that calls another function (Cranelift's `ReturnCallInfo`).
#[derive(Drop)]
pub struct ReturnCallInfo<T> {
    /// What is called: a symbol, or the address in a register.
    pub dest: T,
    /// What is passed.
    pub uses: ListVec<CallArgPair>,
    /// How many bytes of the stack the arguments have, at most the frame's `tail_args_size`.
    pub new_stack_arg_size: u32,
    /// The key that authenticates the return address, where one does.
    pub key: Option<APIKey>,
    /// Whether it is authenticated in functions without a frame too.
    pub sign_return_address_all: bool,
}

impl<T: Drop> CallInfo<T> {
    /// A call that passes nothing and gets nothing back, of one convention on both sides, which changes no register
    /// beside, takes nothing off the stack and is not patchable (Cranelift's `CallInfo::empty`). It takes no memory.
    pub fn new(alloc: Global, dest: T, call_conv: CallConv) -> Self
        ensures dest { result.dest ≡ dest }
        ensures uses { result.uses ≡ [] }
        ensures defs { result.defs ≡ [] }
        ensures clobbers { (reg : PReg) → has result.clobbers reg ≡ false }
        ensures caller { result.caller_conv ≡ call_conv }
        ensures callee { result.callee_conv ≡ call_conv }
        ensures pop { result.callee_pop_size ≡ 0 }
        ensures patchable { result.patchable ≡ false }
    {
        CallInfo {
            dest,
            uses: ListVec::new(alloc),
            defs: ListVec::new(alloc),
            callee_pop_size: 0,
            clobbers: PRegSet::empty(),
            caller_conv: call_conv,
            callee_conv: call_conv,
            patchable: false,
        }
    }
}

impl<T: Copy> CallInfo<T> {
    /// Equal information.
    ///
    /// # Errors
    ///
    /// Want of memory.
    pub fn try_clone(&self, alloc: Global) -> Result<Self, AllocError>
        ensures { IfOk result (λ info. info ≡ self.now) }
    {
        let uses = self.uses.try_clone(alloc)?;
        let defs = self.defs.try_clone(alloc)?;
        Ok(CallInfo {
            dest: self.dest,
            uses,
            defs,
            callee_pop_size: self.callee_pop_size,
            clobbers: self.clobbers,
            caller_conv: self.caller_conv,
            callee_conv: self.callee_conv,
            patchable: self.patchable,
        })
    }
}

impl<T: Copy> ReturnCallInfo<T> {
    /// Equal information.
    ///
    /// # Errors
    ///
    /// Want of memory.
    pub fn try_clone(&self, alloc: Global) -> Result<Self, AllocError>
        ensures { IfOk result (λ info. info ≡ self.now) }
    {
        let uses = self.uses.try_clone(alloc)?;
        Ok(ReturnCallInfo {
            dest: self.dest,
            uses,
            new_stack_arg_size: self.new_stack_arg_size,
            key: self.key,
            sign_return_address_all: self.sign_return_address_all,
        })
    }
}
