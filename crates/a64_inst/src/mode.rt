//! Addressing modes of loads and stores.

ghost use Rattle.std.specs.Prelude.{◌≡◌, is_some};
ghost use Rattle.a64_inst.specs.declared.frame.FrameLayout.{FrameLayout};
ghost use Rattle.a64_inst.specs.Modes.{IsRegisterAlone, constant_in, base_offset_of};

use a64_base::{ExtendOp, IrType, MachLabel, Reg, VCodeConstant};
use a64_imms::{SImm7Scaled, SImm9, UImm12Scaled};

/// An address in the code, of a load from a literal (Cranelift's `MemLabel`).
#[derive(Clone, Copy, Debug)]
pub enum MemLabel {
    /// So many bytes behind the instruction, or before it where negative: a multiple of 4 from
    /// -2^20 to 2^20 - 4.
    PCRel(i32),
    /// Where a label is bound.
    Mach(MachLabel),
    /// Where a constant stands in the pool, or in an island.
    Pool(VCodeConstant),
}

/// Where a load or a store finds its address (Cranelift's `AMode`).
///
/// The base is x0 to x30 or the stack pointer, and an index x0 to x30 or the zero register. Five
/// modes have an offset of 64 bits, which no instruction holds: `mem_finalize` gives the mode
/// that stands in the instruction.
#[derive(Clone, Copy, Debug)]
pub enum AMode {
    /// A base plus an index.
    RegReg {
        /// The base.
        rn: Reg,
        /// The index, in bytes.
        rm: Reg,
    },
    /// A base plus an index in units of the access.
    RegScaled {
        /// The base.
        rn: Reg,
        /// The index, in units of the access.
        rm: Reg,
    },
    /// A base plus an extended index in units of the access.
    RegScaledExtended {
        /// The base.
        rn: Reg,
        /// The index, in units of the access once it is extended.
        rm: Reg,
        /// How the index is extended: `UXTW`, `SXTW` or `SXTX`.
        extendop: ExtendOp,
    },
    /// A base plus an extended index.
    RegExtended {
        /// The base.
        rn: Reg,
        /// The index, in bytes once it is extended.
        rm: Reg,
        /// How the index is extended: `UXTW`, `SXTW` or `SXTX`.
        extendop: ExtendOp,
    },
    /// A base plus a signed offset of 9 bits.
    Unscaled {
        /// The base.
        rn: Reg,
        /// The offset.
        simm9: SImm9,
    },
    /// A base plus an unsigned offset of 12 bits in units of the access.
    UnsignedOffset {
        /// The base.
        rn: Reg,
        /// The offset. Its scale has as many bytes as the access, or it is 0.
        uimm12: UImm12Scaled,
    },
    /// An address in the code, for those loads that have a form with a literal.
    Label {
        /// The address.
        label: MemLabel,
    },
    /// The stack pointer plus an offset, which it is set to before the access.
    SPPreIndexed {
        /// The offset.
        simm9: SImm9,
    },
    /// The stack pointer, to which an offset is added after the access.
    SPPostIndexed {
        /// The offset.
        simm9: SImm9,
    },
    /// The frame pointer plus an offset.
    FPOffset {
        /// The offset in bytes.
        off: i64,
    },
    /// The stack pointer plus an offset.
    SPOffset {
        /// The offset in bytes.
        off: i64,
    },
    /// An argument that the caller has put on the stack, counted down from the upper end of the frame.
    IncomingArg {
        /// How far below the upper end of the frame it lies, in bytes.
        off: i64,
    },
    /// A slot of the frame, counted from where the arguments of outgoing calls end.
    SlotOffset {
        /// The offset in bytes.
        off: i64,
    },
    /// A base plus an offset.
    RegOffset {
        /// The base.
        rn: Reg,
        /// The offset in bytes.
        off: i64,
    },
    /// A constant, for those loads that have a form with a literal. In code it stands as `Label`.
    Const {
        /// The constant.
        addr: VCodeConstant,
    },
}

impl AMode {
    ghost use Rattle.a64_inst.specs.declared.mode.AMode.TheVariants.{RegScaledExtended};

    /// The address that a register holds: an unsigned offset of 0, in units of 8 bytes.
    pub fn reg(reg: Reg) -> AMode
        ensures { IsRegisterAlone reg result }
    {
        AMode::UnsignedOffset {
            rn: reg,
            uimm12: UImm12Scaled::zero(IrType::I64),
        }
    }

    /// A register plus another in units of the access, which is extended first.
    pub fn reg_plus_reg_scaled_extended(reg1: Reg, reg2: Reg, op: ExtendOp) -> AMode
        ensures { result ≡ RegScaledExtended reg1 reg2 op }
    {
        AMode::RegScaledExtended {
            rn: reg1,
            rm: reg2,
            extendop: op,
        }
    }

    /// Whether the mode has an offset of 64 bits, which no instruction holds.
    #[inline(always)]
    pub fn has_wide_offset(&self) -> bool
        ensures { (frame : FrameLayout) → result ≡ is_some (base_offset_of frame self.now) }
    {
        match self {
            AMode::RegOffset { .. }
            | AMode::SPOffset { .. }
            | AMode::FPOffset { .. }
            | AMode::IncomingArg { .. }
            | AMode::SlotOffset { .. } => true,
            _ => false,
        }
    }

    /// The constant that a load in this mode loads, where it loads one.
    #[inline(always)]
    pub fn constant(&self) -> Option<VCodeConstant>
        ensures { result ≡ constant_in self.now }
    {
        match *self {
            AMode::Const { addr }
            | AMode::Label {
                label: MemLabel::Pool(addr),
            } => Some(addr),
            _ => None,
        }
    }
}

/// Where a load or a store of a pair finds its address (Cranelift's `PairAMode`).
#[derive(Clone, Copy, Debug)]
pub enum PairAMode {
    /// A base plus a signed offset of 7 bits in units of one of the two registers.
    SignedOffset {
        /// The base: x0 to x30 or the stack pointer.
        reg: Reg,
        /// The offset.
        simm7: SImm7Scaled,
    },
    /// The stack pointer plus an offset, which it is set to before the access.
    SPPreIndexed {
        /// The offset.
        simm7: SImm7Scaled,
    },
    /// The stack pointer, to which an offset is added after the access.
    SPPostIndexed {
        /// The offset.
        simm7: SImm7Scaled,
    },
}
