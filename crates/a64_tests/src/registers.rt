//! Texts of registers and operands as Cranelift prints them, and fields of the Arm manual's tables.

use a64_base::{
    APIKey, BranchTarget, Cond, ExtendOp, MachLabel, OperandSize, PrettyPrint, Reg, RegClass,
    ScalarSize, ShiftOp, ShiftOpAndAmt, ShiftOpShiftImm, Text, VectorSize, fp_reg, link_reg,
    pinned_reg, pretty_print_ireg, pretty_print_reg, pretty_print_reg_sized,
    pretty_print_vreg_element, pretty_print_vreg_scalar, pretty_print_vreg_vector, show_ireg_sized,
    show_vreg_element, show_vreg_scalar, show_vreg_vector, spilltmp_reg, stack_reg, tmp2_reg, vreg,
    writable_link_reg, xreg, zero_reg,
};
use std::alloc::{AllocError, Global};

/// Adds a text, and a space.
fn add(texts: &mut String, text: Text) -> Result<(), AllocError> {
    texts.push_str(text?.as_str())?;
    texts.push(' ')
}

/// Adds the names of a register of 64 bits and of 32.
fn add_names(alloc: Global, texts: &mut String, reg: &Reg) -> Result<(), AllocError> {
    add(texts, pretty_print_reg(alloc, *reg))?;
    add(texts, show_ireg_sized(alloc, *reg, OperandSize::Size32))
}

#[test]
fn integer_registers(rt: HostRuntime) -> Result<(), AllocError> {
    let alloc = rt.alloc();
    let mut texts = String::new(alloc);
    for reg in [
        xreg(5),
        fp_reg(),
        link_reg(),
        zero_reg(),
        stack_reg(),
        spilltmp_reg(),
        tmp2_reg(),
        pinned_reg(),
        vreg(31),
        Reg::virtual_reg(7, RegClass::Int),
    ] {
        add_names(alloc, &mut texts, &reg)?;
    }
    let (link, size) = (writable_link_reg().to_reg(), OperandSize::Size64);
    add(&mut texts, pretty_print_reg_sized(alloc, link, size))?;
    add(&mut texts, pretty_print_ireg(alloc, xreg(5), size))?;
    let want = "x5 w5 fp fp lr lr xzr wzr sp sp x16 w16 x17 w17 x21 w21 v31 v31 %i7 %i7 lr x5 ";
    assert_eq!(rt; texts.as_str(), want);
    Ok(())
}

#[test]
fn vector_registers(rt: HostRuntime) -> Result<(), AllocError> {
    let alloc = rt.alloc();
    let mut texts = String::new(alloc);
    add(
        &mut texts,
        show_vreg_scalar(alloc, xreg(3), ScalarSize::Size8),
    )?;
    add(
        &mut texts,
        show_vreg_scalar(
            alloc,
            Reg::virtual_reg(7, RegClass::Float),
            ScalarSize::Size8,
        ),
    )?;
    add(
        &mut texts,
        pretty_print_vreg_scalar(alloc, vreg(3), ScalarSize::Size64),
    )?;
    add(
        &mut texts,
        show_vreg_vector(alloc, vreg(31), VectorSize::Size8x16),
    )?;
    add(
        &mut texts,
        pretty_print_vreg_vector(alloc, vreg(3), VectorSize::Size16x8),
    )?;
    add(
        &mut texts,
        show_vreg_element(
            alloc,
            Reg::virtual_reg(7, RegClass::Float),
            15,
            ScalarSize::Size8,
        ),
    )?;
    add(
        &mut texts,
        pretty_print_vreg_element(alloc, vreg(3), 1, ScalarSize::Size32),
    )?;
    let want = "x3 %f7 d3 v31.16b v3.8h %f7.b[15] v3.s[1] ";
    assert_eq!(rt; texts.as_str(), want);
    Ok(())
}

/// Adds the text of an operand, and a space.
fn add_operand<T: PrettyPrint>(
    alloc: Global,
    texts: &mut String,
    operand: &T,
) -> Result<(), AllocError>
    requires { T.can_print operand.now 0 }
{
    add(texts, operand.pretty_print_default(alloc))
}

#[test]
fn operands(rt: HostRuntime) -> Result<(), AllocError> {
    let alloc = rt.alloc();
    let mut texts = String::new(alloc);
    let three = ShiftOpShiftImm::maybe_from_shift(3).unwrap();
    add_operand(alloc, &mut texts, &ShiftOpAndAmt::new(ShiftOp::LSL, three))?;
    add(&mut texts, ExtendOp::SXTW.pretty_print(alloc, 4))?;
    add_operand(alloc, &mut texts, &Cond::Hs)?;
    add_operand(alloc, &mut texts, &BranchTarget::Label(MachLabel(3)))?;
    add_operand(alloc, &mut texts, &BranchTarget::ResolvedOffset(-8))?;
    assert_eq!(rt; texts.as_str(), "LSL 3 SXTW hs label3 -8 ");
    Ok(())
}

#[test]
fn fields(rt: HostRuntime) {
    let back = BranchTarget::ResolvedOffset(-8);
    for (field, want) in [
        (back.as_offset14_or_zero(), 16_382),
        (back.as_offset19_or_zero(), 524_286),
        (back.as_offset26_or_zero(), 67_108_862),
        (BranchTarget::Label(MachLabel(3)).as_offset26_or_zero(), 0),
        (Cond::Ge.invert().bits(), 11),
        (ScalarSize::Size16.ftype(), 3),
        (VectorSize::Size64x2.enc_size().1, 3),
        (VectorSize::Size64x2.enc_float_size(), 1),
        (APIKey::ASP.enc_auti_hint(), 0xd503_23bf),
    ] {
        assert_eq!(rt; field, want);
    }
}
