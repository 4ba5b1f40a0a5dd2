// Written by `python3 tools/instructions.py` from tables/instructions.txt.
//! Makers of the last loads and stores: a value of one of the variants behind the 128th of an enum that owns memory is
//! proved by hand, and so is made here alone.

ghost use Rattle.std.specs.Prelude.{◌≡◌};
ghost use Rattle.a64_inst.specs.declared.inst.Inst.TheVariants as insts;

use crate::inst::Inst;
use crate::mode::AMode;
use a64_base::{MemFlagsData, Reg, Writable};

impl Inst {
    /// [`Inst::ULoad64`].
    pub(crate) fn uload64(rd: Writable<Reg>, mem: AMode, flags: MemFlagsData) -> Inst
        ensures { result ≡ insts.ULoad64 rd mem flags }
    {
        Inst::ULoad64 { rd, mem, flags }
    }

    /// [`Inst::FpuLoad16`].
    pub(crate) fn fpu_load16(rd: Writable<Reg>, mem: AMode, flags: MemFlagsData) -> Inst
        ensures { result ≡ insts.FpuLoad16 rd mem flags }
    {
        Inst::FpuLoad16 { rd, mem, flags }
    }

    /// [`Inst::FpuLoad32`].
    pub(crate) fn fpu_load32(rd: Writable<Reg>, mem: AMode, flags: MemFlagsData) -> Inst
        ensures { result ≡ insts.FpuLoad32 rd mem flags }
    {
        Inst::FpuLoad32 { rd, mem, flags }
    }

    /// [`Inst::FpuLoad64`].
    pub(crate) fn fpu_load64(rd: Writable<Reg>, mem: AMode, flags: MemFlagsData) -> Inst
        ensures { result ≡ insts.FpuLoad64 rd mem flags }
    {
        Inst::FpuLoad64 { rd, mem, flags }
    }

    /// [`Inst::FpuLoad128`].
    pub(crate) fn fpu_load128(rd: Writable<Reg>, mem: AMode, flags: MemFlagsData) -> Inst
        ensures { result ≡ insts.FpuLoad128 rd mem flags }
    {
        Inst::FpuLoad128 { rd, mem, flags }
    }

    /// [`Inst::Store8`].
    pub(crate) fn store8(rd: Reg, mem: AMode, flags: MemFlagsData) -> Inst
        ensures { result ≡ insts.Store8 rd mem flags }
    {
        Inst::Store8 { rd, mem, flags }
    }

    /// [`Inst::Store16`].
    pub(crate) fn store16(rd: Reg, mem: AMode, flags: MemFlagsData) -> Inst
        ensures { result ≡ insts.Store16 rd mem flags }
    {
        Inst::Store16 { rd, mem, flags }
    }

    /// [`Inst::Store32`].
    pub(crate) fn store32(rd: Reg, mem: AMode, flags: MemFlagsData) -> Inst
        ensures { result ≡ insts.Store32 rd mem flags }
    {
        Inst::Store32 { rd, mem, flags }
    }

    /// [`Inst::Store64`].
    pub(crate) fn store64(rd: Reg, mem: AMode, flags: MemFlagsData) -> Inst
        ensures { result ≡ insts.Store64 rd mem flags }
    {
        Inst::Store64 { rd, mem, flags }
    }

    /// [`Inst::FpuStore16`].
    pub(crate) fn fpu_store16(rd: Reg, mem: AMode, flags: MemFlagsData) -> Inst
        ensures { result ≡ insts.FpuStore16 rd mem flags }
    {
        Inst::FpuStore16 { rd, mem, flags }
    }

    /// [`Inst::FpuStore32`].
    pub(crate) fn fpu_store32(rd: Reg, mem: AMode, flags: MemFlagsData) -> Inst
        ensures { result ≡ insts.FpuStore32 rd mem flags }
    {
        Inst::FpuStore32 { rd, mem, flags }
    }

    /// [`Inst::FpuStore64`].
    pub(crate) fn fpu_store64(rd: Reg, mem: AMode, flags: MemFlagsData) -> Inst
        ensures { result ≡ insts.FpuStore64 rd mem flags }
    {
        Inst::FpuStore64 { rd, mem, flags }
    }

    /// [`Inst::FpuStore128`].
    pub(crate) fn fpu_store128(rd: Reg, mem: AMode, flags: MemFlagsData) -> Inst
        ensures { result ≡ insts.FpuStore128 rd mem flags }
    {
        Inst::FpuStore128 { rd, mem, flags }
    }
}
