//! Of addressing modes.

ghost use Rattle.std.specs.Prelude.{◌≡◌};
ghost use Rattle.a64_inst.specs.Modes as offsets;
ghost use Rattle.a64_inst.specs.MemoryOperands as sets;

use crate::frame::FrameLayout;
use crate::mode::{AMode, MemLabel, PairAMode};
use crate::place::{frame_bytes, has_offset};
use a64_base::{ExtendOp, IrType};
use a64_imms::{SImm7Scaled, SImm9, UImm12Scaled};
use a64_operand::{VirtualRegisters, is_offset, is_register_or_stack, is_register_or_zero};
use a64_ops::AccessOp;

/// Whether the frame has fewer than 2^32 bytes where a mode is counted from its upper end.
#[inline(always)]
fn fits_frame(frame: &FrameLayout, mem: &AMode) -> bool
    ensures { result ≡ sets.fits_frame frame.now mem.now }
{
    match mem {
        AMode::IncomingArg { off: _ } => frame_bytes(frame) < 1 << 32,
        _ => true,
    }
}

/// Whether a signed offset of 9 bits is one.
fn is_offset9(simm9: SImm9) -> bool
    ensures { result ≡ offsets.is_offset9 simm9.value }
{
    simm9.value >= -256 && simm9.value <= 255
}

/// Whether a load can hold the offset of an address in the code, where it is told.
fn is_literal(label: MemLabel) -> bool
    ensures { result ≡ sets.is_literal label }
{
    match label {
        MemLabel::PCRel(offset) => is_offset(1 << 20, offset),
        MemLabel::Mach(_) | MemLabel::Pool(_) => true,
    }
}

/// Whether the registers and the immediate of a mode are in their sets.
#[inline(always)]
fn are_parts(virtuals: VirtualRegisters, mem: &AMode) -> bool
    ensures { result ≡ sets.are_mode_parts virtuals mem.now }
{
    match *mem {
        AMode::RegReg { rn, rm }
        | AMode::RegScaled { rn, rm }
        | AMode::RegScaledExtended {
            rn,
            rm,
            extendop: _,
        }
        | AMode::RegExtended {
            rn,
            rm,
            extendop: _,
        } => is_register_or_stack(virtuals, rn) && is_register_or_zero(virtuals, rm),
        AMode::Unscaled { rn, simm9 } => is_register_or_stack(virtuals, rn) && is_offset9(simm9),
        AMode::UnsignedOffset { rn, uimm12: _ } => is_register_or_stack(virtuals, rn),
        AMode::Label { label } => is_literal(label),
        AMode::SPPreIndexed { simm9 } | AMode::SPPostIndexed { simm9 } => is_offset9(simm9),
        AMode::RegOffset { rn, off: _ } => is_register_or_stack(virtuals, rn),
        _ => true,
    }
}

/// Whether the operands of a mode are in their sets.
#[tactic(auto, unfolding(crate::specs::MemoryOperands::are_mode_operands))]
#[inline(always)]
pub fn are_operands(frame: &FrameLayout, virtuals: VirtualRegisters, mem: &AMode) -> bool
    ensures { result ≡ sets.are_mode_operands frame.now virtuals mem.now }
{
    are_parts(virtuals, mem) && fits_frame(frame, mem) && has_offset(frame, mem)
}

/// Whether an unsigned offset is in units of so many bytes, or is 0.
#[tactic(auto, using(crate::proofs::Units::some_units))]
fn is_in_units(bytes: u32, uimm12: UImm12Scaled) -> bool
    ensures { result ≡ sets.is_in_units bytes uimm12 }
{
    let value = uimm12.value();
    value == 0 || value / uimm12.bits() == bytes
}

/// Whether a mode is in units of so many bytes, where it has a scale of its own.
#[inline(always)]
pub fn has_units(bytes: u32, mem: &AMode) -> bool
    ensures { result ≡ sets.has_units bytes mem.now }
{
    match *mem {
        AMode::UnsignedOffset { rn: _, uimm12 } => is_in_units(bytes, uimm12),
        _ => true,
    }
}

/// Whether an index is extended so in an access.
fn is_index_extend(extendop: ExtendOp) -> bool
    ensures { result ≡ sets.is_index_extend extendop }
{
    matches!(extendop, ExtendOp::UXTW | ExtendOp::SXTW | ExtendOp::SXTX)
}

/// Whether an access has such a mode.
#[inline(always)]
pub fn has_access_mode(op: AccessOp, mem: &AMode) -> bool
    ensures { result ≡ sets.has_access_mode op mem.now }
{
    match *mem {
        AMode::RegScaledExtended { extendop, .. } | AMode::RegExtended { extendop, .. } => {
            is_index_extend(extendop)
        }
        AMode::Label { label: _ } | AMode::Const { addr: _ } => op.literal_field().is_some(),
        _ => true,
    }
}

/// Whether one or two additions give the address of a mode.
pub fn has_address_mode(mem: &AMode) -> bool
    ensures { result ≡ sets.has_address_mode mem.now }
{
    !matches!(
        mem,
        AMode::RegReg { .. }
            | AMode::RegScaled { .. }
            | AMode::RegScaledExtended { .. }
            | AMode::Label { .. }
            | AMode::SPPreIndexed { .. }
            | AMode::SPPostIndexed { .. }
            | AMode::Const { .. }
    )
}

/// Whether an offset is a multiple of 8 bytes, from -64 to 63 times them.
fn is_offset_of_8(offset: i16) -> bool
    ensures { result ≡ sets.is_pair_offset 8 offset }
{
    offset >= -512 && offset <= 504 && offset % 8 == 0
}

/// Whether an offset is a multiple of 16 bytes, from -64 to 63 times them.
fn is_offset_of_16(offset: i16) -> bool
    ensures { result ≡ sets.is_pair_offset 16 offset }
{
    offset >= -1024 && offset <= 1008 && offset % 16 == 0
}

/// Whether a pair's offset is in units of this type, and in its set.
fn is_simm7_of(scale: IrType, simm7: SImm7Scaled) -> bool
    ensures { result ≡ sets.is_simm7_of scale simm7 }
{
    match scale {
        IrType::I64 => matches!(simm7.scale_ty, IrType::I64) && is_offset_of_8(simm7.value),
        IrType::F64 => matches!(simm7.scale_ty, IrType::F64) && is_offset_of_8(simm7.value),
        IrType::I8X16 => matches!(simm7.scale_ty, IrType::I8X16) && is_offset_of_16(simm7.value),
        _ => false,
    }
}

/// Whether the operands of a pair's mode are in their sets.
pub fn are_pair_parts(virtuals: VirtualRegisters, scale: IrType, mem: &PairAMode) -> bool
    ensures { result ≡ sets.are_pair_parts virtuals scale mem.now }
{
    match *mem {
        PairAMode::SignedOffset { reg, simm7 } => {
            is_register_or_stack(virtuals, reg) && is_simm7_of(scale, simm7)
        }
        PairAMode::SPPreIndexed { simm7 } | PairAMode::SPPostIndexed { simm7 } => {
            is_simm7_of(scale, simm7)
        }
    }
}
