//! Names of registers in listings.

ghost use Rattle.std.specs.Prelude.{IfOk, OnOk, ◌≡◌, ◌<◌, ◌++◌};
ghost use Rattle.std.specs.String.{string_bytes};
ghost use Rattle.a64_base.specs.Registers.{class_of};
ghost use Rattle.a64_base.specs.RegisterText.{
  integer_name,
  virtual_name,
  sized_text,
  scalar_text,
  vector_text,
  element_text,
  letter_of,
  zero_of,
  scalar_letter,
  lanes_suffix,
  lane_suffix,
  HasLanes,
};

use crate::reg::{Reg, RegClass, RegKind};
use crate::size::{OperandSize, ScalarSize, VectorSize};
use crate::text::{Text, push_numbered};
use std::alloc::{AllocError, Global};

/// The letter before the number of an integer register.
fn letter<'a>(size: OperandSize) -> &'a str
    ensures { result.now ≡ letter_of size }
{
    match size {
        OperandSize::Size32 => "w",
        OperandSize::Size64 => "x",
    }
}

/// The name of the zero register.
fn zero_name<'a>(size: OperandSize) -> &'a str
    ensures { result.now ≡ zero_of size }
{
    match size {
        OperandSize::Size32 => "wzr",
        OperandSize::Size64 => "xzr",
    }
}

/// Appends the name of an integer register of the machine.
fn push_integer(out: &mut String, size: OperandSize, number: u8) -> Result<(), AllocError>
    ensures { OnOk result (string_bytes out.new
        ≡ string_bytes out.old ++ integer_name size number) }
{
    match number {
        29 => out.push_str("fp"),
        30 => out.push_str("lr"),
        31 => out.push_str(zero_name(size)),
        63 => out.push_str("sp"),
        _ => push_numbered(out, letter(size), number),
    }
}

/// Appends the name of a virtual register.
fn push_virtual(out: &mut String, index: u32, class: RegClass) -> Result<(), AllocError>
    ensures { OnOk result (string_bytes out.new
        ≡ string_bytes out.old ++ virtual_name class index) }
{
    match class {
        RegClass::Int => push_numbered(out, "%i", index),
        RegClass::Float => push_numbered(out, "%f", index),
    }
}

/// Appends the name of a register, where an integer register has this size, as in `w5`.
///
/// # Errors
///
/// Want of memory.
pub fn push_register(out: &mut String, size: OperandSize, reg: Reg) -> Result<(), AllocError>
    ensures { OnOk result (string_bytes out.new ≡ string_bytes out.old ++ sized_text size reg) }
{
    match reg.kind() {
        RegKind::Virtual { index, class } => push_virtual(out, index, class),
        RegKind::Real(p) => match p.class() {
            RegClass::Int => push_integer(out, size, p.hw_enc()),
            RegClass::Float => push_numbered(out, "v", p.hw_enc()),
        },
    }
}

/// The name of a register at its full size, as in `x5`, `sp`, `v3` or `%i7`.
///
/// # Errors
///
/// Want of memory.
pub fn pretty_print_reg(alloc: Global, reg: Reg) -> Text
    ensures { IfOk result (λ t. string_bytes t ≡ sized_text OperandSize.Size64 reg) }
{
    pretty_print_reg_sized(alloc, reg, OperandSize::Size64)
}

/// The name of a register, where an integer register has this size, as in `w5`.
///
/// # Errors
///
/// Want of memory.
pub fn pretty_print_reg_sized(alloc: Global, reg: Reg, size: OperandSize) -> Text
    ensures { IfOk result (λ t. string_bytes t ≡ sized_text size reg) }
{
    let mut text = String::new(alloc);
    push_register(&mut text, size, reg)?;
    Ok(text)
}

/// The name of an integer register at a size; a register of another class keeps its name.
///
/// # Errors
///
/// Want of memory.
pub fn show_ireg_sized(alloc: Global, reg: Reg, size: OperandSize) -> Text
    ensures { IfOk result (λ t. string_bytes t ≡ sized_text size reg) }
{
    pretty_print_reg_sized(alloc, reg, size)
}

/// The name of an integer register at a size; a register of another class keeps its name.
///
/// # Errors
///
/// Want of memory.
pub fn pretty_print_ireg(alloc: Global, reg: Reg, size: OperandSize) -> Text
    ensures { IfOk result (λ t. string_bytes t ≡ sized_text size reg) }
{
    show_ireg_sized(alloc, reg, size)
}

/// The letter of a scalar in a vector register.
fn scalar_prefix<'a>(size: ScalarSize) -> &'a str
    ensures { result.now ≡ scalar_letter size }
{
    match size {
        ScalarSize::Size8 => "b",
        ScalarSize::Size16 => "h",
        ScalarSize::Size32 => "s",
        ScalarSize::Size64 => "d",
        ScalarSize::Size128 => "q",
    }
}

/// Appends the name of a vector register that holds a scalar, as in `d3`; a register of another
/// class keeps its name.
///
/// # Errors
///
/// Want of memory.
pub fn push_scalar(out: &mut String, size: ScalarSize, reg: Reg) -> Result<(), AllocError>
    ensures { OnOk result (string_bytes out.new ≡ string_bytes out.old ++ scalar_text size reg) }
{
    match reg.kind() {
        RegKind::Virtual { index, class } => push_virtual(out, index, class),
        RegKind::Real(p) => match p.class() {
            RegClass::Int => push_integer(out, OperandSize::Size64, p.hw_enc()),
            RegClass::Float => push_numbered(out, scalar_prefix(size), p.hw_enc()),
        },
    }
}

/// The name of a vector register that holds a scalar, as in `d3`; a register of another class
/// keeps its name.
///
/// # Errors
///
/// Want of memory.
pub fn show_vreg_scalar(alloc: Global, reg: Reg, size: ScalarSize) -> Text
    ensures { IfOk result (λ t. string_bytes t ≡ scalar_text size reg) }
{
    let mut text = String::new(alloc);
    push_scalar(&mut text, size, reg)?;
    Ok(text)
}

/// The name of a vector register that holds a scalar, as in `d3`; a register of another class
/// keeps its name.
///
/// # Errors
///
/// Want of memory.
pub fn pretty_print_vreg_scalar(alloc: Global, reg: Reg, size: ScalarSize) -> Text
    ensures { IfOk result (λ t. string_bytes t ≡ scalar_text size reg) }
{
    show_vreg_scalar(alloc, reg, size)
}

/// The lanes behind the name of a vector register.
fn vector_suffix<'a>(size: VectorSize) -> &'a str
    ensures { result.now ≡ lanes_suffix size }
{
    match size {
        VectorSize::Size8x8 => ".8b",
        VectorSize::Size8x16 => ".16b",
        VectorSize::Size16x4 => ".4h",
        VectorSize::Size16x8 => ".8h",
        VectorSize::Size32x2 => ".2s",
        VectorSize::Size32x4 => ".4s",
        VectorSize::Size64x2 => ".2d",
    }
}

/// Appends the name of a vector register with its lanes, as in `v3.8h`.
///
/// # Errors
///
/// Want of memory.
pub fn push_vector(out: &mut String, size: VectorSize, reg: Reg) -> Result<(), AllocError>
    ensures { OnOk result (string_bytes out.new ≡ string_bytes out.old ++ vector_text size reg) }
{
    push_register(out, OperandSize::Size64, reg)?;
    out.push_str(vector_suffix(size))
}

/// The name of a vector register with its lanes, as in `v3.8h`.
///
/// # Errors
///
/// Want of memory.
pub fn show_vreg_vector(alloc: Global, reg: Reg, size: VectorSize) -> Text
    requires { class_of reg ≡ RegClass.Float }
    ensures { IfOk result (λ t. string_bytes t ≡ vector_text size reg) }
{
    let mut text = String::new(alloc);
    push_vector(&mut text, size, reg)?;
    Ok(text)
}

/// The name of a vector register with its lanes, as in `v3.8h`.
///
/// # Errors
///
/// Want of memory.
pub fn pretty_print_vreg_vector(alloc: Global, reg: Reg, size: VectorSize) -> Text
    requires { class_of reg ≡ RegClass.Float }
    ensures { IfOk result (λ t. string_bytes t ≡ vector_text size reg) }
{
    show_vreg_vector(alloc, reg, size)
}

/// The lane behind the name of a vector register; of 128 bits there is none.
fn element_suffix<'a>(size: ScalarSize) -> &'a str
    ensures { result.now ≡ lane_suffix size }
{
    match size {
        ScalarSize::Size8 => ".b[",
        ScalarSize::Size16 => ".h[",
        ScalarSize::Size32 => ".s[",
        ScalarSize::Size64 => ".d[",
        ScalarSize::Size128 => "",
    }
}

/// Appends the name of one lane of a vector register, as in `v3.s[1]`.
///
/// # Errors
///
/// Want of memory.
pub fn push_element(out: &mut String, idx: u8, size: ScalarSize, reg: Reg) -> Result<(), AllocError>
    ensures { OnOk result (string_bytes out.new
        ≡ string_bytes out.old ++ element_text idx size reg) }
{
    push_register(out, OperandSize::Size64, reg)?;
    push_numbered(out, element_suffix(size), idx)?;
    out.push_str("]")
}

/// The name of one lane of a vector register, as in `v3.s[1]`. A lane has at most 64 bits.
///
/// # Errors
///
/// Want of memory.
pub fn show_vreg_element(alloc: Global, reg: Reg, idx: u8, size: ScalarSize) -> Text
    requires class { class_of reg ≡ RegClass.Float }
    requires lane { HasLanes size }
    ensures { IfOk result (λ t. string_bytes t ≡ element_text idx size reg) }
{
    let mut text = String::new(alloc);
    push_element(&mut text, idx, size, reg)?;
    Ok(text)
}

/// The name of one lane of a vector register, as in `v3.s[1]`. A lane has at most 64 bits.
///
/// # Errors
///
/// Want of memory.
pub fn pretty_print_vreg_element(alloc: Global, reg: Reg, idx: usize, size: ScalarSize) -> Text
    requires class { class_of reg ≡ RegClass.Float }
    requires index { idx < 256 }
    requires lane { HasLanes size }
    ensures { IfOk result (λ t. string_bytes t ≡ element_text idx size reg) }
{
    show_vreg_element(alloc, reg, idx as u8, size)
}
