//! Addressing modes in listings.

ghost use Rattle.std.specs.Prelude.{◌≡◌, ◌++◌, ⊤, OnOk};
ghost use Rattle.std.specs.String.{string_bytes};
ghost use Rattle.a64_inst.specs.declared.mode.AMode.TheVariants as modes;
ghost use Rattle.a64_inst.specs.ModeTexts as texts;
ghost use Rattle.a64_inst.specs.ModeTexts.{CanPrintMode};

use crate::mode::{AMode, MemLabel, PairAMode};
use a64_base::{
    ExtendOp, OperandSize, PrettyPrint, Reg, Text, VCodeConstant, push_numbered, push_register,
};
use std::alloc::{AllocError, Global};

/// Appends the name of a base or of an index of 64 bits.
fn push_base(out: &mut String, reg: Reg) -> Result<(), AllocError>
    ensures { OnOk result
        (string_bytes out.new ≡ string_bytes out.old ++ texts.base_text reg) }
{
    push_register(out, OperandSize::Size64, reg)
}

/// Appends the offset behind a base, where it is not 0.
fn push_offset(out: &mut String, offset: i64) -> Result<(), AllocError>
    ensures { OnOk result
        (string_bytes out.new ≡ string_bytes out.old ++ texts.offset_part offset) }
{
    if offset == 0 {
        Ok(())
    } else {
        push_numbered(out, ", #", offset)
    }
}

/// Appends a base and an offset in bytes: `[x1, #8]`, or `[x1]` where it is 0.
fn push_base_offset(out: &mut String, base: Reg, offset: i64) -> Result<(), AllocError>
    ensures { OnOk result
        (string_bytes out.new ≡ string_bytes out.old ++ texts.offset_text base offset) }
{
    out.push_str("[")?;
    push_base(out, base)?;
    push_offset(out, offset)?;
    out.push_str("]")
}

/// Appends the stack pointer that is set before the access.
fn push_pre_indexed(out: &mut String, offset: i16) -> Result<(), AllocError>
    ensures { OnOk result
        (string_bytes out.new ≡ string_bytes out.old ++ texts.pre_text offset) }
{
    push_numbered(out, "[sp, #", offset)?;
    out.push_str("]!")
}

/// Appends the stack pointer that is changed after the access.
fn push_post_indexed(out: &mut String, offset: i16) -> Result<(), AllocError>
    ensures { OnOk result
        (string_bytes out.new ≡ string_bytes out.old ++ texts.post_text offset) }
{
    push_numbered(out, "[sp], #", offset)
}

/// Appends a constant.
fn push_constant(out: &mut String, addr: VCodeConstant) -> Result<(), AllocError>
    ensures { OnOk result
        (string_bytes out.new ≡ string_bytes out.old ++ texts.constant_text addr.0) }
{
    push_numbered(out, "[const(", addr.0)?;
    out.push_str(")]")
}

/// By how many places an index is shifted to the left, in units of so many bytes.
fn unit_shift(bytes: u8) -> u8
    ensures { result ≡ texts.unit_shift bytes }
{
    match bytes {
        2 => 1,
        4 => 2,
        8 => 3,
        16 => 4,
        _ => 0,
    }
}

/// The size of an index before it is extended.
fn index_size(op: ExtendOp) -> OperandSize
    ensures { result ≡ texts.index_size op }
{
    match op {
        ExtendOp::UXTW | ExtendOp::SXTW => OperandSize::Size32,
        _ => OperandSize::Size64,
    }
}

/// Appends a base and an index, up to what is said of the index.
fn push_index(out: &mut String, base: Reg, size: OperandSize, index: Reg) -> Result<(), AllocError>
    ensures { OnOk result
        (string_bytes out.new ≡ string_bytes out.old ++ texts.index_front base size index) }
{
    out.push_str("[")?;
    push_base(out, base)?;
    out.push_str(", ")?;
    push_register(out, size, index)
}

/// Appends a base and an index in units of so many bytes.
fn push_scaled(out: &mut String, base: Reg, index: Reg, bytes: u8) -> Result<(), AllocError>
    ensures { OnOk result (string_bytes out.new
        ≡ string_bytes out.old ++ texts.other_text bytes (modes.RegScaled base index)) }
{
    push_index(out, base, OperandSize::Size64, index)?;
    push_numbered(out, ", LSL #", unit_shift(bytes))?;
    out.push_str("]")
}

/// Appends a base and an extended index, up to the extension.
fn push_extended(out: &mut String, base: Reg, index: Reg, op: ExtendOp) -> Result<(), AllocError>
    ensures { OnOk result
        (string_bytes out.new ≡ string_bytes out.old ++ texts.extended_front base index op) }
{
    push_index(out, base, index_size(op), index)?;
    out.push_str(", ")?;
    out.push_str(op.name())
}

impl MemLabel {
    ghost use Rattle.a64_inst.specs.ModeTexts.{label_text};

    /// Appends its text: `pc+8`, `label(3)` or `[const(0)]`.
    ///
    /// # Errors
    ///
    /// Want of memory.
    pub fn push_text(&self, out: &mut String) -> Result<(), AllocError>
        ensures { OnOk result
            (string_bytes out.new ≡ string_bytes out.old ++ label_text self.now) }
    {
        match *self {
            MemLabel::PCRel(offset) => push_numbered(out, "pc+", offset),
            MemLabel::Mach(label) => {
                push_numbered(out, "label(", label.0)?;
                out.push_str(")")
            }
            MemLabel::Pool(addr) => push_constant(out, addr),
        }
    }
}

impl AMode {
    ghost use Rattle.a64_inst.specs.ModeTexts.{mode_text};

    /// Appends its text, in an access of so many bytes. The five modes with an offset of 64 bits, which
    /// stand in no instruction, have none.
    ///
    /// # Errors
    ///
    /// Want of memory.
    pub fn push_text(&self, out: &mut String, size_bytes: u8) -> Result<(), AllocError>
        ensures { OnOk result
            (string_bytes out.new ≡ string_bytes out.old ++ mode_text size_bytes self.now) }
    {
        match *self {
            AMode::Unscaled { rn, simm9 } => push_base_offset(out, rn, i64::from(simm9.value)),
            AMode::UnsignedOffset { rn, uimm12 } => {
                push_base_offset(out, rn, i64::from(uimm12.value()))
            }
            AMode::RegReg { rn, rm } => {
                push_index(out, rn, OperandSize::Size64, rm)?;
                out.push_str("]")
            }
            AMode::RegScaled { rn, rm } => push_scaled(out, rn, rm, size_bytes),
            AMode::RegScaledExtended { rn, rm, extendop } => {
                push_extended(out, rn, rm, extendop)?;
                push_numbered(out, " #", unit_shift(size_bytes))?;
                out.push_str("]")
            }
            AMode::RegExtended { rn, rm, extendop } => {
                push_extended(out, rn, rm, extendop)?;
                out.push_str("]")
            }
            AMode::Label { label } => label.push_text(out),
            AMode::SPPreIndexed { simm9 } => push_pre_indexed(out, simm9.value),
            AMode::SPPostIndexed { simm9 } => push_post_indexed(out, simm9.value),
            AMode::Const { addr } => push_constant(out, addr),
            AMode::RegOffset { .. }
            | AMode::SPOffset { .. }
            | AMode::FPOffset { .. }
            | AMode::IncomingArg { .. }
            | AMode::SlotOffset { .. } => Ok(()),
        }
    }
}

impl PairAMode {
    ghost use Rattle.a64_inst.specs.ModeTexts.{pair_text};

    /// Appends its text: `[x1, #16]`, `[sp, #-16]!` or `[sp], #16`.
    ///
    /// # Errors
    ///
    /// Want of memory.
    pub fn push_text(&self, out: &mut String) -> Result<(), AllocError>
        ensures { OnOk result
            (string_bytes out.new ≡ string_bytes out.old ++ pair_text self.now) }
    {
        match *self {
            PairAMode::SignedOffset { reg, simm7 } => {
                push_base_offset(out, reg, i64::from(simm7.value))
            }
            PairAMode::SPPreIndexed { simm7 } => push_pre_indexed(out, simm7.value),
            PairAMode::SPPostIndexed { simm7 } => push_post_indexed(out, simm7.value),
        }
    }
}

impl PrettyPrint for MemLabel {
    ghost text = { λ label _. texts.label_text label };

    ghost can_print = { λ _ _. ⊤ };

    fn pretty_print(&self, alloc: Global, _size_bytes: u8) -> Text {
        let mut text = String::new(alloc);
        self.push_text(&mut text)?;
        Ok(text)
    }
}

/// The mode stands in an instruction. Where its index is in units of the access, that has 1, 2, 4, 8 or 16
/// bytes; elsewhere the size is not looked at.
impl PrettyPrint for AMode {
    ghost text = { λ mode bytes. texts.mode_text bytes mode };

    ghost can_print = { CanPrintMode };

    fn pretty_print(&self, alloc: Global, size_bytes: u8) -> Text {
        let mut text = String::new(alloc);
        self.push_text(&mut text, size_bytes)?;
        Ok(text)
    }
}

impl PrettyPrint for PairAMode {
    ghost text = { λ mode _. texts.pair_text mode };

    ghost can_print = { λ _ _. ⊤ };

    fn pretty_print(&self, alloc: Global, _size_bytes: u8) -> Text {
        let mut text = String::new(alloc);
        self.push_text(&mut text)?;
        Ok(text)
    }
}
