//! The texts of loads and stores, and of the addresses of their modes.

ghost use Rattle.std.specs.Prelude.{◌≡◌, ◌++◌, [], ◌∷◌, if◌then◌else◌, true, is_some, OnOk};
ghost use Rattle.std.specs.List.{flat_map};
ghost use Rattle.std.specs.String.{string_bytes};
ghost use Rattle.a64_imms.specs.Scales.{type_bytes};
ghost use Rattle.a64_inst.specs.declared.group.Group.TheVariants.{Memory};
ghost use Rattle.a64_inst.specs.Accesses.{access_of, access_type};
ghost use Rattle.a64_inst.specs.FinalModes.{parts_of};
ghost use Rattle.a64_inst.specs.Groups.{group_of};
ghost use Rattle.a64_operand_text.specs.AccessTexts as accesses;
ghost use Rattle.a64_operand_text.specs.FrameTexts.{memory_text};
ghost use Rattle.a64_operand_text.specs.Lines.{line_text};
ghost use Rattle.a64_operand_text.specs.MemoryTexts as texts;

use crate::{access_names, access_operands, access_texts, access_types, memory_texts};
use a64_base::{IrType, OperandSize, Reg, ScalarSize, writable_spilltmp_reg};
use a64_inst::{AMode, AccessOp, AtomicCAS128Args, ConstStep, FrameLayout, Inst};
use a64_mode::{final_steps, shown_mode};
use a64_operand_text::Operand::{Base, Extend, PairMode, Scalar, Sized, Table, X};
use a64_operand_text::{
    Operand, line2, line3, line4, push_line, push_operand, push_step, push_steps, push_sum,
};
use std::alloc::AllocError;

/// One of two names.
fn one_of<'a>(is_first: bool, first: &'a str, second: &'a str) -> &'a str
    ensures { result.now ≡ (if is_first then first.now else second.now) }
{
    if is_first { first } else { second }
}

/// The name of a load or a store, where the mode that is written has a signed offset of 9 bits, or
/// has not.
fn access_name<'a>(unscaled: bool, op: AccessOp) -> &'a str
    ensures { result.now ≡ accesses.access_name unscaled op }
{
    access_names!(unscaled, op)
}

/// The register of a load or a store, at the size that is loaded into it or stored.
fn access_operand(op: AccessOp, reg: Reg) -> Operand
    ensures { result ≡ accesses.access_operand op reg }
{
    access_operands!(op, reg)
}

/// Whether the mode that is written has a signed offset of 9 bits.
fn is_unscaled(mem: &AMode) -> bool
    ensures { result ≡ texts.is_unscaled mem.now }
{
    matches!(mem, AMode::Unscaled { .. })
}

/// The type of the value that is loaded or stored, and its bytes.
fn access_type(op: AccessOp) -> (IrType, u8)
    ensures ty { result.0 ≡ access_type op }
    ensures bytes { result.1 ≡ type_bytes (access_type op) }
{
    access_types!(op)
}

/// Appends a step that a mode needs before it, and a semicolon.
fn push_step_before(out: &mut String, step: ConstStep) -> Result<(), AllocError>
    ensures { OnOk result
        (string_bytes out.new ≡ string_bytes out.old ++ texts.step_before step) }
{
    push_step(out, writable_spilltmp_reg(), step)?;
    out.push_str(" ; ")
}

/// Appends the steps that a mode needs before it, with a semicolon behind each.
fn push_steps_before(out: &mut String, steps: &[ConstStep]) -> Result<(), AllocError>
    ensures { OnOk result (string_bytes out.new
        ≡ string_bytes out.old ++ flat_map texts.step_before steps.now) }
{
    for step in steps {
        push_step_before(out, *step)?;
    }
    Ok(())
}

/// Appends a load or a store of one register, without the steps before it.
fn push_held(
    out: &mut String,
    frame: &FrameLayout,
    op: AccessOp,
    reg: Reg,
    mem: &AMode,
) -> Result<(), AllocError>
    ensures { OnOk result (string_bytes out.new
        ≡ string_bytes out.old ++ texts.held_text frame.now op reg mem.now) }
{
    let (ty, bytes) = access_type(op);
    out.push_str(access_name(is_unscaled(mem), op))?;
    out.push_str(" ")?;
    push_operand(out, access_operand(op, reg))?;
    out.push_str(", ")?;
    shown_mode(frame, ty, mem).push_text(out, bytes)
}

/// Appends a load or a store of one register.
#[tactic(auto, unfolding(a64_operand_text::specs::MemoryTexts::access_text))]
fn push_access(
    out: &mut String,
    frame: &FrameLayout,
    op: AccessOp,
    reg: Reg,
    mem: &AMode,
) -> Result<(), AllocError>
    ensures { OnOk result (string_bytes out.new
        ≡ string_bytes out.old ++ texts.access_text frame.now op reg mem.now) }
{
    let (ty, _) = access_type(op);
    push_steps_before(out, final_steps(frame, ty, mem).as_slice())?;
    push_held(out, frame, op, reg, mem)
}

/// Appends the address of a mode that stands in an instruction.
fn push_final_address(out: &mut String, rd: Reg, mode: AMode) -> Result<(), AllocError>
    ensures { OnOk result (string_bytes out.new
        ≡ string_bytes out.old ++ texts.final_address_text rd (parts_of mode)) }
{
    match mode {
        AMode::Unscaled { rn, simm9 } => push_sum(out, rd, rn, i32::from(simm9.value)),
        AMode::UnsignedOffset { rn, uimm12 } => push_sum(out, rd, rn, uimm12.value() as i32),
        AMode::RegExtended { rn, rm, extendop } => {
            line4(out, "add", X(rd), X(rn), X(rm), Extend(extendop))
        }
        _ => Ok(()),
    }
}

/// Appends the address of a mode, with the steps before it.
#[tactic(auto, unfolding(a64_operand_text::specs::MemoryTexts::address_text))]
fn push_address(
    out: &mut String,
    frame: &FrameLayout,
    rd: Reg,
    mem: &AMode,
) -> Result<(), AllocError>
    ensures { OnOk result (string_bytes out.new
        ≡ string_bytes out.old ++ texts.address_text frame.now rd mem.now) }
{
    push_steps(
        out,
        writable_spilltmp_reg(),
        final_steps(frame, IrType::I8, mem).as_slice(),
    )?;
    push_final_address(out, rd, shown_mode(frame, IrType::I8, mem))
}

/// What stands behind the name of an access of bytes and of halfwords.
fn width_suffix<'a>(ty: IrType) -> &'a str
    ensures { result.now ≡ texts.width_suffix ty }
{
    match ty {
        IrType::I8 => "b",
        IrType::I16 => "h",
        _ => "",
    }
}

/// The size of the registers of an atomic access.
fn width_size(ty: IrType) -> OperandSize
    ensures { result ≡ texts.width_size ty }
{
    match ty {
        IrType::I64 => OperandSize::Size64,
        _ => OperandSize::Size32,
    }
}

/// Appends a name with the suffix of a width, and two operands.
fn push_wide2(
    out: &mut String,
    name: &str,
    ty: IrType,
    first: Operand,
    second: Operand,
) -> Result<(), AllocError>
    ensures { OnOk result (string_bytes out.new ≡ string_bytes out.old
        ++ (name.now ++ line_text (texts.width_suffix ty) (first ∷ second ∷ []))) }
{
    out.push_str(name)?;
    line2(out, width_suffix(ty), first, second)
}

/// Appends a name with the suffix of a width, and three operands.
fn push_wide3(
    out: &mut String,
    name: &str,
    ty: IrType,
    first: Operand,
    second: Operand,
    third: Operand,
) -> Result<(), AllocError>
    ensures { OnOk result (string_bytes out.new ≡ string_bytes out.old
        ++ (name.now ++ line_text (texts.width_suffix ty) (first ∷ second ∷ third ∷ []))) }
{
    out.push_str(name)?;
    line3(out, width_suffix(ty), first, second, third)
}

/// Appends a comparison and exchange of one register.
fn push_cas(
    out: &mut String,
    ty: IrType,
    rd: Reg,
    rs: Reg,
    rt: Reg,
    rn: Reg,
) -> Result<(), AllocError>
    ensures { OnOk result (string_bytes out.new
        ≡ string_bytes out.old ++ texts.cas_text ty rd rs rt rn) }
{
    let size = width_size(ty);
    out.push_str("casal")?;
    line4(
        out,
        width_suffix(ty),
        Sized(size, rd),
        Sized(size, rs),
        Sized(size, rt),
        Base(rn),
    )
}

/// Appends a comparison and exchange of two registers.
fn push_cas128(out: &mut String, args: AtomicCAS128Args) -> Result<(), AllocError>
    ensures { OnOk result (string_bytes out.new ≡ string_bytes out.old ++ texts.cas128_text args) }
{
    push_line(
        out,
        "caspal",
        &[
            X(args.rd_lo.to_reg()),
            X(args.rd_hi.to_reg()),
            X(args.rs_lo),
            X(args.rs_hi),
            X(args.rt_lo),
            X(args.rt_hi),
            Base(args.rn),
        ],
    )
}

/// Appends the text of a load or a store of one register.
fn push_access_inst(out: &mut String, frame: &FrameLayout, inst: &Inst) -> Result<(), AllocError>
    requires { is_some (access_of inst.now) ≡ true }
    ensures { OnOk result
        (string_bytes out.new ≡ string_bytes out.old ++ memory_text frame.now inst.now) }
{
    access_texts!(out, frame, inst)
}

/// Appends the text of a load or a store, or of the address of a mode, in a frame: with the steps
/// that the mode needs before it.
///
/// # Errors
///
/// Want of memory.
pub fn push_memory(out: &mut String, frame: &FrameLayout, inst: &Inst) -> Result<(), AllocError>
    requires { group_of inst.now ≡ Memory }
    ensures { OnOk result
        (string_bytes out.new ≡ string_bytes out.old ++ memory_text frame.now inst.now) }
{
    memory_texts!(out, frame, inst)
}
