//! Registers, and sets of them, as files have them.

ghost use Rattle.std.specs.Prelude.{◌≡◌, ◌<◌, [], ◌++◌, if◌then◌else◌, codes, OnOk};
ghost use Rattle.std.specs.String.{string_bytes};
ghost use Rattle.a64_read.specs.Clobbers as clobbers;
ghost use Rattle.a64_read.specs.Clobbers.{clobbers_text};
ghost use Rattle.a64_tokens.specs.Fields.{integer_text, preg_text, reg_text, virtual_text};

use a64_base::{PReg, PRegSet, Reg, RegClass, RegKind, push_numbered};
use std::alloc::AllocError;

/// How many registers of the machine there are.
const REGISTERS: u8 = 65;

/// Appends an integer register of the machine.
fn push_integer(out: &mut String, number: u8) -> Result<(), AllocError>
    ensures { OnOk result (string_bytes out.new ≡ string_bytes out.old ++ integer_text number) }
{
    match number {
        31 => out.push_str("xzr"),
        63 => out.push_str("sp"),
        _ => push_numbered(out, "x", number),
    }
}

/// Appends a virtual register.
fn push_virtual(out: &mut String, index: u32, class: RegClass) -> Result<(), AllocError>
    ensures { OnOk result
        (string_bytes out.new ≡ string_bytes out.old ++ virtual_text class index) }
{
    match class {
        RegClass::Int => push_numbered(out, "%i", index),
        RegClass::Float => push_numbered(out, "%f", index),
    }
}

/// Appends a register of the machine.
///
/// # Errors
///
/// Want of memory.
pub fn push_preg(out: &mut String, preg: PReg) -> Result<(), AllocError>
    ensures { OnOk result (string_bytes out.new ≡ string_bytes out.old ++ preg_text preg) }
{
    match preg.class() {
        RegClass::Int => push_integer(out, preg.hw_enc()),
        RegClass::Float => push_numbered(out, "v", preg.hw_enc()),
    }
}

/// Appends a register.
///
/// # Errors
///
/// Want of memory.
pub fn push_reg(out: &mut String, reg: Reg) -> Result<(), AllocError>
    ensures { OnOk result (string_bytes out.new ≡ string_bytes out.old ++ reg_text reg) }
{
    match reg.kind() {
        RegKind::Real(preg) => push_preg(out, preg),
        RegKind::Virtual { index, class } => push_virtual(out, index, class),
    }
}

/// The register of the machine at a place among all of them, in the order in which lists have them.
fn nth_register(place: u8) -> PReg
    requires { place < 65 }
    ensures { result ≡ clobbers.nth_register place }
{
    if place < 32 {
        PReg::new(place, RegClass::Int)
    } else if place == 32 {
        PReg::new(63, RegClass::Int)
    } else {
        PReg::new(place - 33, RegClass::Float)
    }
}

/// What stands before a register of a list.
fn separator(is_first: bool) -> &'static str
    ensures { result.now ≡ (if is_first then [] else codes ",") }
{
    if is_first { "" } else { "," }
}

/// Appends a register of a list, and the comma before it.
fn push_member(out: &mut String, is_first: bool, preg: PReg) -> Result<(), AllocError>
    ensures { OnOk result (string_bytes out.new
        ≡ string_bytes out.old ++ ((if is_first then [] else codes ",") ++ preg_text preg)) }
{
    out.push_str(separator(is_first))?;
    push_preg(out, preg)
}

/// Appends the registers of a set, with commas between, or `-` where there are none.
///
/// # Errors
///
/// Want of memory.
pub fn push_clobbers(out: &mut String, set: &PRegSet) -> Result<(), AllocError>
    ensures { OnOk result (string_bytes out.new ≡ string_bytes out.old ++ clobbers_text set.now) }
{
    let mut is_first = true;
    for place in 0..REGISTERS {
        let register = nth_register(place);
        if set.contains(register) {
            push_member(out, is_first, register)?;
            is_first = false;
        }
    }
    if is_first { out.push_str("-") } else { Ok(()) }
}
