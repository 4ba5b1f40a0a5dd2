//! Operands in the text of an instruction, and the line of a name and its operands.

ghost use Rattle.std.specs.Prelude.{◌≡◌, ◌++◌, if◌then◌else◌, codes, OnOk};
ghost use Rattle.std.specs.String.{string_bytes};
ghost use Rattle.a64_operand_text.specs.declared.operand.Operand.TheVariants as operands;
ghost use Rattle.a64_operand_text.specs.Operands as texts;
ghost use Rattle.a64_operand_text.specs.Operands.{operand_text};
ghost use Rattle.a64_operand_text.specs.Lines.{line_text, two_lines_text};

use a64_base::{
    BranchTarget, Cond, ExtendOp, ExternalName, OperandSize, Reg, ScalarSize, ShiftOpAndAmt,
    TrapCode, VectorSize, push_element, push_numbered, push_register, push_scalar, push_vector,
};
use a64_imms::{ASIMDFPModImm, ASIMDMovModImm, MoveWideConst, NZCV};
use a64_inst::PairAMode;
use std::alloc::AllocError;

/// An operand of an instruction, as its text says it.
#[derive(Clone, Copy, Debug)]
pub enum Operand {
    /// A register, where an integer register has 64 bits: `x5`.
    X(Reg),
    /// A register, where an integer register has this size: `w5`.
    Sized(OperandSize, Reg),
    /// A register that holds a scalar: `d5`.
    Scalar(ScalarSize, Reg),
    /// A vector register with its sixteen bytes: `v5.16b`.
    Bytes(Reg),
    /// A vector register with its lanes: `v5.4s`.
    Vector(VectorSize, Reg),
    /// A lane of a vector register, by its index: `v5.s[1]`.
    Element(u8, ScalarSize, Reg),
    /// A table of one vector register: `{ v5.16b }`.
    Table(VectorSize, Reg),
    /// A table of two vector registers: `{ v5.16b, v6.16b }`.
    TablePair(Reg, Reg),
    /// A number: `#5`.
    Number(u64),
    /// The float 0: `#0.0`.
    FloatZero,
    /// A halfword and its place: `#5, LSL #16`.
    Wide(MoveWideConst),
    /// An immediate of lanes: `#5, MSL #8`.
    VectorImm(ASIMDMovModImm),
    /// A float, by its bits: `#0x3f800000`.
    FloatImm(ASIMDFPModImm),
    /// The four flags: `#nZcv`.
    Flags(NZCV),
    /// The flags as a register: `nzcv`.
    Nzcv,
    /// An address near the code, in bytes from it: `pc+8`.
    Near(i64),
    /// Where a branch goes: `label5`, or a distance in bytes.
    Target(BranchTarget),
    /// The code of a trap: `#trap=5`.
    Trap(TrapCode),
    /// A condition: `eq`.
    Condition(Cond),
    /// A shift and its amount: `LSL 3`.
    Shift(ShiftOpAndAmt),
    /// An extension: `UXTW`.
    Extend(ExtendOp),
    /// The address that a register holds: `[x5]`.
    Base(Reg),
    /// The address of an entry of four bytes in a table, by a base and an index:
    /// `[x5, x6, uxtw #2]`.
    TableEntry(Reg, Reg),
    /// The address of an access of a pair: `[x5, #16]`.
    PairMode(PairAMode),
    /// A symbol: `userextname5`.
    Symbol(ExternalName),
    /// A symbol and an offset in bytes: `userextname5+8`.
    SymbolOffset(ExternalName, i64),
}

/// Appends the address that a register holds.
fn push_base(out: &mut String, reg: Reg) -> Result<(), AllocError>
    ensures { OnOk result
        (string_bytes out.new ≡ string_bytes out.old ++ operand_text (operands.Base reg)) }
{
    out.push_str("[")?;
    push_register(out, OperandSize::Size64, reg)?;
    out.push_str("]")
}

/// Appends the address of an entry of a table.
fn push_table_entry(out: &mut String, base: Reg, index: Reg) -> Result<(), AllocError>
    ensures { OnOk result (string_bytes out.new
        ≡ string_bytes out.old ++ operand_text (operands.TableEntry base index)) }
{
    out.push_str("[")?;
    push_register(out, OperandSize::Size64, base)?;
    out.push_str(", ")?;
    push_register(out, OperandSize::Size64, index)?;
    out.push_str(", uxtw #2]")
}

/// Appends a table of one vector register.
fn push_table(out: &mut String, size: VectorSize, reg: Reg) -> Result<(), AllocError>
    ensures { OnOk result
        (string_bytes out.new ≡ string_bytes out.old ++ operand_text (operands.Table size reg)) }
{
    out.push_str("{ ")?;
    push_vector(out, size, reg)?;
    out.push_str(" }")
}

/// Appends a table of two vector registers.
fn push_table_pair(out: &mut String, reg: Reg, second: Reg) -> Result<(), AllocError>
    ensures { OnOk result (string_bytes out.new
        ≡ string_bytes out.old ++ operand_text (operands.TablePair reg second)) }
{
    out.push_str("{ ")?;
    push_vector(out, VectorSize::Size8x16, reg)?;
    out.push_str(", ")?;
    push_vector(out, VectorSize::Size8x16, second)?;
    out.push_str(" }")
}

/// Appends a float immediate; nothing at a size that has no floats.
fn push_float(out: &mut String, imm: ASIMDFPModImm) -> Result<(), AllocError>
    ensures { OnOk result
        (string_bytes out.new ≡ string_bytes out.old ++ texts.sized_float_text imm.size imm) }
{
    match imm.size {
        ScalarSize::Size8 | ScalarSize::Size128 => Ok(()),
        _ => imm.push_text(out),
    }
}

/// Appends a symbol and an offset.
fn push_symbol_offset(out: &mut String, name: ExternalName, offset: i64) -> Result<(), AllocError>
    ensures { OnOk result (string_bytes out.new
        ≡ string_bytes out.old ++ operand_text (operands.SymbolOffset name offset)) }
{
    push_numbered(out, "userextname", name.0)?;
    push_numbered(out, "+", offset)
}

/// Appends an operand.
///
/// # Errors
///
/// Want of memory.
pub fn push_operand(out: &mut String, operand: Operand) -> Result<(), AllocError>
    ensures { OnOk result (string_bytes out.new ≡ string_bytes out.old ++ operand_text operand) }
{
    match operand {
        Operand::X(reg) => push_register(out, OperandSize::Size64, reg),
        Operand::Sized(size, reg) => push_register(out, size, reg),
        Operand::Scalar(size, reg) => push_scalar(out, size, reg),
        Operand::Bytes(reg) => push_vector(out, VectorSize::Size8x16, reg),
        Operand::Vector(size, reg) => push_vector(out, size, reg),
        Operand::Element(idx, size, reg) => push_element(out, idx, size, reg),
        Operand::Table(size, reg) => push_table(out, size, reg),
        Operand::TablePair(reg, second) => push_table_pair(out, reg, second),
        Operand::Number(number) => push_numbered(out, "#", number),
        Operand::FloatZero => out.push_str("#0.0"),
        Operand::Wide(imm) => imm.push_text(out),
        Operand::VectorImm(imm) => imm.push_text(out),
        Operand::FloatImm(imm) => push_float(out, imm),
        Operand::Flags(nzcv) => nzcv.push_text(out),
        Operand::Nzcv => out.push_str("nzcv"),
        Operand::Near(offset) => push_numbered(out, "pc+", offset),
        Operand::Target(target) => target.push_text(out),
        Operand::Trap(code) => push_numbered(out, "#trap=", code.0),
        Operand::Condition(cond) => out.push_str(cond.name()),
        Operand::Shift(shifted) => shifted.push_text(out),
        Operand::Extend(op) => out.push_str(op.name()),
        Operand::Base(reg) => push_base(out, reg),
        Operand::TableEntry(base, index) => push_table_entry(out, base, index),
        Operand::PairMode(mem) => mem.push_text(out),
        Operand::Symbol(name) => push_numbered(out, "userextname", name.0),
        Operand::SymbolOffset(name, offset) => push_symbol_offset(out, name, offset),
    }
}

/// What stands before an operand.
fn separator<'a>(is_first: bool) -> &'a str
    ensures { result.now ≡ (if is_first then codes " " else codes ", ") }
{
    if is_first { " " } else { ", " }
}

/// Appends a name and the operands behind it.
///
/// # Errors
///
/// Want of memory.
pub fn push_line(out: &mut String, name: &str, operands: &[Operand]) -> Result<(), AllocError>
    ensures { OnOk result (string_bytes out.new
        ≡ string_bytes out.old ++ line_text name.now operands.now) }
{
    out.push_str(name)?;
    let mut is_first = true;
    for operand in operands {
        out.push_str(separator(is_first))?;
        push_operand(out, *operand)?;
        is_first = false;
    }
    Ok(())
}

/// Appends two lines of one instruction, as in `cbz x5, label1 ; b label2`.
///
/// # Errors
///
/// Want of memory.
#[tactic(auto, unfolding(crate::specs::Lines::two_lines_text))]
pub fn push_two_lines(
    out: &mut String,
    name: &str,
    operands: &[Operand],
    second_name: &str,
    second_operands: &[Operand],
) -> Result<(), AllocError>
    ensures { OnOk result (string_bytes out.new ≡ string_bytes out.old
        ++ two_lines_text name.now operands.now second_name.now second_operands.now) }
{
    push_line(out, name, operands)?;
    out.push_str(" ; ")?;
    push_line(out, second_name, second_operands)
}
