//! Tests of single operands.

ghost use Rattle.std.specs.Prelude.{◌≡◌};
ghost use Rattle.a64_operand.specs.Operands as operands;

use crate::virtuals::VirtualRegisters;
use a64_base::{OperandSize, Reg, RegClass, RegKind, ScalarSize, VectorSize};
use a64_imms::{Imm12, ImmLogic, MoveWideConst};

/// Whether a register is x0 to x30, or the zero register.
pub fn is_register_or_zero(virtuals: VirtualRegisters, reg: Reg) -> bool
    ensures { result ≡ operands.is_register_or_zero virtuals reg }
{
    match reg.kind() {
        RegKind::Real(p) => match p.class() {
            RegClass::Int => p.hw_enc() < 32,
            RegClass::Float => false,
        },
        RegKind::Virtual { class, .. } => virtuals.are_allowed() && matches!(class, RegClass::Int),
    }
}

/// Whether a register is x0 to x30, or the stack pointer.
pub fn is_register_or_stack(virtuals: VirtualRegisters, reg: Reg) -> bool
    ensures { result ≡ operands.is_register_or_stack virtuals reg }
{
    match reg.kind() {
        RegKind::Real(p) => match p.class() {
            RegClass::Int => p.hw_enc() < 31 || p.hw_enc() == 63,
            RegClass::Float => false,
        },
        RegKind::Virtual { class, .. } => virtuals.are_allowed() && matches!(class, RegClass::Int),
    }
}

/// Whether a register is x0 to x30.
pub fn is_register(virtuals: VirtualRegisters, reg: &Reg) -> bool
    ensures { result ≡ operands.is_register virtuals reg.now }
{
    match reg.kind() {
        RegKind::Real(p) => match p.class() {
            RegClass::Int => p.hw_enc() < 31,
            RegClass::Float => false,
        },
        RegKind::Virtual { class, .. } => virtuals.are_allowed() && matches!(class, RegClass::Int),
    }
}

/// Whether a register is v0 to v31.
pub fn is_vector_register(virtuals: VirtualRegisters, reg: Reg) -> bool
    ensures { result ≡ operands.is_vector_register virtuals reg }
{
    match reg.kind() {
        RegKind::Real(p) => match p.class() {
            RegClass::Int => false,
            RegClass::Float => p.hw_enc() < 32,
        },
        RegKind::Virtual { class, .. } => virtuals.are_allowed()
            && matches!(class, RegClass::Float),
    }
}

/// Whether a register is the integer register with a number.
pub fn is_fixed_register(virtuals: VirtualRegisters, number: u8, reg: &Reg) -> bool
    ensures { result ≡ operands.is_fixed_register virtuals number reg.now }
{
    match reg.kind() {
        RegKind::Real(p) => match p.class() {
            RegClass::Int => p.hw_enc() == number,
            RegClass::Float => false,
        },
        RegKind::Virtual { class, .. } => virtuals.are_allowed() && matches!(class, RegClass::Int),
    }
}

/// Whether a register is the stack pointer.
pub fn is_stack_pointer(virtuals: VirtualRegisters, reg: &Reg) -> bool
    ensures { result ≡ operands.is_stack_pointer virtuals reg.now }
{
    is_fixed_register(virtuals, 63, reg)
}

/// Whether a register is one of the machine, of either class, or may be virtual.
pub fn is_any_register(virtuals: VirtualRegisters, reg: Reg) -> bool
    ensures { result ≡ operands.is_any_register virtuals reg }
{
    match reg.kind() {
        RegKind::Real(_) => true,
        RegKind::Virtual { .. } => virtuals.are_allowed(),
    }
}

/// Whether two registers may be one; a virtual one may be any.
pub fn is_same_register(a: &Reg, b: &Reg) -> bool
    ensures { result ≡ operands.is_same_register a.now b.now }
{
    match a.kind() {
        RegKind::Real(p) => match b.kind() {
            RegKind::Real(q) => p.class() == q.class() && p.hw_enc() == q.hw_enc(),
            RegKind::Virtual { .. } => true,
        },
        RegKind::Virtual { .. } => true,
    }
}

/// Whether two registers may be two; a virtual one may be any.
pub fn is_other_register(a: &Reg, b: &Reg) -> bool
    ensures { result ≡ operands.is_other_register a.now b.now }
{
    match a.kind() {
        RegKind::Real(p) => match b.kind() {
            RegKind::Real(q) => !(p.class() == q.class() && p.hw_enc() == q.hw_enc()),
            RegKind::Virtual { .. } => true,
        },
        RegKind::Virtual { .. } => true,
    }
}

/// Whether a number is that of a lane of a whole vector register, of 128 bits.
pub fn is_lane(size: VectorSize, idx: u8) -> bool
    ensures { result ≡ operands.is_lane size idx }
{
    let lanes = match size.lane_size() {
        ScalarSize::Size8 => 16,
        ScalarSize::Size16 => 8,
        ScalarSize::Size32 => 4,
        ScalarSize::Size64 => 2,
        ScalarSize::Size128 => 1,
    };
    idx < lanes
}

/// Whether a halfword stands inside a register of the size.
pub fn is_wide_in(size: OperandSize, imm: MoveWideConst) -> bool
    ensures { result ≡ operands.is_wide_in size imm }
{
    match size {
        OperandSize::Size32 => imm.shift <= 1,
        OperandSize::Size64 => imm.shift <= 3,
    }
}

/// Whether a number of bits is below a size.
pub fn is_bit_of(size: OperandSize, bit: u8) -> bool
    ensures { result ≡ operands.is_bit_of size bit }
{
    bit < size.bits()
}

/// Whether an immediate of 12 bits has no more bits.
pub fn is_imm12(imm: Imm12) -> bool
    ensures { result ≡ operands.is_imm12 imm }
{
    imm.bits < 4096
}

/// Whether a bitmask immediate is one of the size.
pub fn is_logic_of(size: OperandSize, imm: ImmLogic) -> bool
    ensures { result ≡ operands.is_logic_of size imm }
{
    imm.size == size && imm.is_lawful()
}

/// Whether a branch or a load that reaches so many bytes can hold an offset in bytes.
#[inline(always)]
pub fn is_offset(reach: u32, offset: i32) -> bool
    ensures { result ≡ operands.is_offset reach offset }
{
    let (reach, offset) = (i64::from(reach), i64::from(offset));
    offset % 4 == 0 && offset >= -reach && offset < reach
}

/// Whether an address stands near the code, at an offset in its unit.
pub fn is_near(offset: i32) -> bool
    ensures { result ≡ operands.is_near offset }
{
    offset > -(1 << 20) && offset < 1 << 20
}
