//! The base and the offset of modes that no instruction holds, under any frame.

ghost use Rattle.std.specs.Prelude.{◌≡◌, ◌<◌, ◌^◌, None, Some, MatchOption};
ghost use Rattle.a64_inst.specs.Modes as sets;
ghost use Rattle.a64_inst.specs.FinalModes as finals;
ghost use Rattle.a64_inst.specs.MemoryOperands as memory;
ghost use Rattle.a64_inst.specs.Addresses as addresses;

use crate::frame::FrameLayout;
use crate::mode::AMode;
use a64_base::{IrType, Reg, RegClass, RegKind, fp_reg, stack_reg};

/// A base, and an offset in bytes, which may be larger than any mode's.
#[derive(Clone, Copy, Debug)]
pub struct Place {
    /// The base.
    pub base: Reg,
    /// The offset in bytes.
    pub offset: i128,
}

/// A size of a frame with room for a sum of some.
fn wide(bytes: u32) -> u64
    ensures value { result ≡ bytes }
    ensures below { result < 2 ^ 32 }
{
    u64::from(bytes)
}

/// All areas of a frame together, in bytes.
pub fn frame_bytes(frame: &FrameLayout) -> u64
    ensures { result ≡ sets.frame_size frame.now }
{
    wide(frame.setup_area_size)
        + wide(frame.tail_args_size)
        + wide(frame.clobber_size)
        + wide(frame.fixed_frame_storage_size)
        + wide(frame.outgoing_args_size)
}

/// The base and the offset of a mode that no instruction holds.
#[inline(always)]
pub fn place_of(frame: &FrameLayout, mem: &AMode) -> Option<Place>
    ensures { MatchOption result (sets.base_offset_of frame.now mem.now ≡ None)
        (λ place. sets.base_offset_of frame.now mem.now ≡ Some (record {
          base = place.base;
          offset = place.offset;
        })) }
{
    let outgoing = frame.outgoing_args_size;
    let (base, offset) = match *mem {
        AMode::RegOffset { rn, off } => (rn, i128::from(off)),
        AMode::SPOffset { off } => (stack_reg(), i128::from(off)),
        AMode::FPOffset { off } => (fp_reg(), i128::from(off)),
        AMode::IncomingArg { off } => (
            stack_reg(),
            i128::from(frame_bytes(frame)) - i128::from(off),
        ),
        AMode::SlotOffset { off } => (stack_reg(), i128::from(off) + i128::from(outgoing)),
        _ => return None,
    };
    Some(Place { base, offset })
}

/// Whether an offset has 64 bits.
fn is_signed_64(offset: i128) -> bool
    ensures { result ≡ memory.is_signed_64 offset }
{
    offset >= -(1 << 63) && offset < 1 << 63
}

/// Whether the offset from the base, where a mode has one, has 64 bits.
#[inline(always)]
pub fn has_offset(frame: &FrameLayout, mem: &AMode) -> bool
    ensures { result ≡ memory.has_offset frame.now mem.now }
{
    match place_of(frame, mem) {
        Some(place) => is_signed_64(place.offset),
        None => true,
    }
}

/// Whether an offset has 9 bits.
fn is_offset9(offset: i128) -> bool
    ensures { result ≡ sets.is_offset9 offset }
{
    offset >= -256 && offset <= 255
}

/// Whether an offset is a multiple of an access's size, from 0 to 4095 times it.
fn is_scaled_offset(ty: IrType, offset: i128) -> bool
    ensures { result ≡ sets.is_scaled_offset ty offset }
{
    let bytes = ty.bytes();
    offset >= 0 && offset <= 4095 * i128::from(bytes) && offset as u64 % u64::from(bytes) == 0
}

/// Whether no instruction holds an offset of an access.
pub fn is_far(ty: IrType, offset: i128) -> bool
    ensures { result ≡ sets.is_far ty offset }
{
    !is_offset9(offset) && !is_scaled_offset(ty, offset)
}

/// Whether no instruction holds the offset of a mode, so that x16 is needed for it.
#[inline(always)]
pub fn needs_x16(frame: &FrameLayout, ty: IrType, mem: &AMode) -> bool
    ensures { result ≡ finals.needs_x16 frame.now ty mem.now }
{
    match place_of(frame, mem) {
        Some(place) => is_far(ty, place.offset),
        None => false,
    }
}

/// Whether a register is the integer register with a number.
pub fn is_numbered(number: u8, reg: &Reg) -> bool
    ensures { result ≡ addresses.is_numbered number reg.now }
{
    match reg.kind() {
        RegKind::Real(p) => match p.class() {
            RegClass::Int => p.hw_enc() == number,
            RegClass::Float => false,
        },
        RegKind::Virtual { .. } => false,
    }
}

/// Whether the base of a mode with an offset of 64 bits is the register with a number.
#[inline(always)]
pub fn has_base(number: u8, frame: &FrameLayout, mem: &AMode) -> bool
    ensures { result ≡ memory.has_base number frame.now mem.now }
{
    match place_of(frame, mem) {
        Some(place) => is_numbered(number, &place.base),
        None => false,
    }
}
