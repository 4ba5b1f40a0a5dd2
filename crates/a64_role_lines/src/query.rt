//! The words of queries.

ghost use Rattle.std.specs.Prelude.{◌≡◌, ◌++◌, codes, OnOk};
ghost use Rattle.std.specs.List.{flat_map};
ghost use Rattle.std.specs.String.{string_bytes};
ghost use Rattle.a64_tokens.specs.Operators.{bool_text};
ghost use Rattle.a64_role_lines.specs.RoleLines as texts;
ghost use Rattle.a64_role_lines.specs.RoleLines.{course_words, query_words, test_words};
ghost use Rattle.a64_role_lines.specs.Words.{behind};

use crate::register::push_reg;
use a64_base::{Reg, Writable};
use a64_inst::Inst;
use a64_roles::{CallType, MachInst, MachTerminator};
use std::alloc::AllocError;

/// The name of the variant.
fn term_name(term: MachTerminator) -> &'static str
    ensures { result.now ≡ texts.term_text term }
{
    match term {
        MachTerminator::None => "None",
        MachTerminator::Ret => "Ret",
        MachTerminator::RetCall => "RetCall",
        MachTerminator::Branch => "Branch",
    }
}

/// The name of the variant.
fn call_name(call: CallType) -> &'static str
    ensures { result.now ≡ texts.call_text call }
{
    match call {
        CallType::None => "None",
        CallType::Regular => "Regular",
        CallType::TailCall => "TailCall",
    }
}

/// Whether something holds.
fn bool_name(holds: bool) -> &'static str
    ensures { result.now ≡ bool_text holds }
{
    if holds { "true" } else { "false" }
}

/// Appends a name and whether something holds.
fn push_test(out: &mut String, name: &str, holds: bool) -> Result<(), AllocError>
    ensures { OnOk result (string_bytes out.new
        ≡ string_bytes out.old ++ (name.now ++ bool_text holds)) }
{
    out.push_str(name)?;
    out.push_str(bool_name(holds))
}

/// Appends the registers of a move, or `-` where there is none.
fn push_registers(
    out: &mut String,
    registers: Option<(Writable<Reg>, Reg)>,
) -> Result<(), AllocError>
    ensures { OnOk result
        (string_bytes out.new ≡ string_bytes out.old ++ texts.move_text registers) }
{
    match registers {
        Some((rd, rm)) => {
            push_reg(out, rd.to_reg())?;
            out.push_str(",")?;
            push_reg(out, rm)
        }
        None => out.push_str("-"),
    }
}

/// Appends the registers of a move behind another word.
fn push_move(out: &mut String, registers: Option<(Writable<Reg>, Reg)>) -> Result<(), AllocError>
    ensures { OnOk result (string_bytes out.new
        ≡ string_bytes out.old ++ (codes " move=" ++ texts.move_text registers)) }
{
    out.push_str(" move=")?;
    push_registers(out, registers)
}

/// Appends where an instruction leads, each word behind another.
fn push_course(out: &mut String, inst: &Inst) -> Result<(), AllocError>
    ensures { OnOk result (string_bytes out.new
        ≡ string_bytes out.old ++ flat_map behind (course_words inst.now)) }
{
    out.push_str(" term=")?;
    out.push_str(term_name(inst.is_term()))?;
    out.push_str(" call=")?;
    out.push_str(call_name(inst.call_type()))?;
    push_move(out, inst.is_move())
}

/// Appends what an instruction is, each word behind another.
fn push_tests(out: &mut String, inst: &Inst) -> Result<(), AllocError>
    ensures { OnOk result (string_bytes out.new
        ≡ string_bytes out.old ++ flat_map behind (test_words inst.now)) }
{
    push_test(out, " trap=", inst.is_trap())?;
    push_test(out, " args=", inst.is_args())?;
    push_test(out, " mem=", inst.is_mem_access())?;
    push_test(out, " safepoint=", inst.is_safepoint())
}

/// Appends what each query answers of an instruction, each word behind another.
///
/// # Errors
///
/// Want of memory.
pub fn push_queries(out: &mut String, inst: &Inst) -> Result<(), AllocError>
    ensures { OnOk result (string_bytes out.new
        ≡ string_bytes out.old ++ flat_map behind (query_words inst.now)) }
{
    push_course(out, inst)?;
    push_tests(out, inst)
}
