//! What must hold of moves of lanes and tables of bytes, beside the classes of their registers.

ghost use Rattle.std.specs.Prelude.{◌≡◌};
ghost use Rattle.a64_operand.specs.VectorOperands as sets;

use crate::operand::{is_lane, is_same_register};
use crate::vector::lane_count;
use a64_base::{OperandSize, Reg, RegKind, ScalarSize, VectorSize};
use a64_imms::{ASIMDFPModImm, ASIMDMovModImm};

/// Whether a lane has at most 64 bits, and a number is that of one of them in a whole register.
pub fn is_scalar_lane(size: ScalarSize, idx: u8) -> bool
    ensures { result ≡ sets.is_scalar_lane size idx }
{
    match size {
        ScalarSize::Size8 => idx < 16,
        ScalarSize::Size16 => idx < 8,
        ScalarSize::Size32 => idx < 4,
        ScalarSize::Size64 => idx < 2,
        ScalarSize::Size128 => false,
    }
}

/// Whether a lane goes with its sign to a register of a size.
fn is_signed_size(size: VectorSize, scalar_size: OperandSize) -> bool
    ensures { result ≡ sets.is_signed_size size scalar_size }
{
    match size.lane_size() {
        ScalarSize::Size8 | ScalarSize::Size16 => true,
        ScalarSize::Size32 => scalar_size.is64(),
        _ => false,
    }
}

/// Whether it does, and a number is that of one of the vector's lanes.
pub fn is_signed_lane(size: VectorSize, idx: u8, scalar_size: OperandSize) -> bool
    ensures { result ≡ sets.is_signed_lane size idx scalar_size }
{
    is_signed_size(size, scalar_size) && idx < lane_count(size)
}

/// Whether the register of which other lanes stay is the result's, and a number that of a lane.
pub fn is_kept_lane(rd: &Reg, ri: &Reg, size: VectorSize, idx: u8) -> bool
    ensures { result ≡ sets.is_kept_lane rd.now ri.now size idx }
{
    is_same_register(rd, ri) && is_lane(size, idx)
}

/// Whether the register of which other lanes stay is the result's, and two numbers those of lanes.
pub fn are_kept_lanes(rd: &Reg, ri: &Reg, size: VectorSize, dest_idx: u8, src_idx: u8) -> bool
    ensures { result ≡ sets.are_kept_lanes rd.now ri.now size dest_idx src_idx }
{
    is_kept_lane(rd, ri, size, dest_idx) && is_lane(size, src_idx)
}

/// Whether an immediate is a float of a lane's size. It has eight bits by its type.
pub fn is_float_imm_in(size: VectorSize, imm: ASIMDFPModImm) -> bool
    ensures { result ≡ sets.is_float_imm_in size imm }
{
    match size {
        VectorSize::Size32x2 | VectorSize::Size32x4 => imm.size == ScalarSize::Size32,
        VectorSize::Size64x2 => imm.size == ScalarSize::Size64,
        _ => false,
    }
}

/// Whether an amount is of whole bytes, up to so many bits.
fn is_byte_shift(most: u8, shift: u8) -> bool
    ensures { result ≡ sets.is_byte_shift most shift }
{
    shift % 8 == 0 && shift <= most
}

/// Whether an immediate of a vector move is of a lane's size, and may be complemented where it is.
fn is_mov_imm_of(size: ScalarSize, imm: ASIMDMovModImm, invert: bool) -> bool
    ensures { result ≡ sets.is_mov_imm_of size imm invert }
{
    match size {
        ScalarSize::Size8 => !imm.is_64bit && !invert && !imm.shift_ones && imm.shift == 0,
        ScalarSize::Size16 => !imm.is_64bit && !imm.shift_ones && is_byte_shift(8, imm.shift),
        ScalarSize::Size32 => {
            !imm.is_64bit
                && if imm.shift_ones {
                    imm.shift == 8 || imm.shift == 16
                } else {
                    is_byte_shift(24, imm.shift)
                }
        }
        ScalarSize::Size64 => imm.is_64bit && !invert && !imm.shift_ones && imm.shift == 0,
        ScalarSize::Size128 => false,
    }
}

/// Whether an immediate of a vector move is of a lane's size, and may be complemented where it is. It has eight bits by
/// its type.
pub fn is_mov_imm_in(size: VectorSize, imm: ASIMDMovModImm, invert: bool) -> bool
    ensures { result ≡ sets.is_mov_imm_in size imm invert }
{
    is_mov_imm_of(size.lane_size(), imm, invert)
}

/// Whether a register may be the next behind another, and v0 that behind v31; a virtual one may be any.
pub fn is_next_vector(rn: &Reg, rn2: &Reg) -> bool
    ensures { result ≡ sets.is_next_vector rn.now rn2.now }
{
    match rn.kind() {
        RegKind::Real(p) => match rn2.kind() {
            RegKind::Real(q) => p.class() == q.class() && q.hw_enc() == (p.hw_enc() + 1) % 32,
            RegKind::Virtual { .. } => true,
        },
        RegKind::Virtual { .. } => true,
    }
}

/// Whether two registers hold a table of 32 bytes, and the register of which bytes stay is the result's.
pub fn is_kept_table(rd: &Reg, ri: &Reg, rn: &Reg, rn2: &Reg) -> bool
    ensures { result ≡ sets.is_kept_table rd.now ri.now rn.now rn2.now }
{
    is_same_register(rd, ri) && is_next_vector(rn, rn2)
}
