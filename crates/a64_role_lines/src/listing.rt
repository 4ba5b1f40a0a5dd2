//! The lines of items.

ghost use Rattle.std.specs.Prelude.{◌≡◌, ◌∷◌, ◌++◌, map, IfOk, OnOk};
ghost use Rattle.std.specs.Fmt.{decimal};
ghost use Rattle.std.specs.String.{string_bytes};
ghost use Rattle.a64_role_lines.specs.RoleLines as texts;

use crate::query::push_queries;
use crate::role::push_roles;
use a64_base::push_numbered;
use a64_inst::{Inst, Item};
use a64_roles::{MachInst, Role, RoleList};
use std::alloc::{AllocError, Global};

/// Appends the line of an instruction with its number, where it has these roles.
fn push_line(out: &mut String, number: usize, roles: &[Role], inst: &Inst) -> Result<(), AllocError>
    ensures { OnOk result (string_bytes out.new ≡ string_bytes out.old ++ texts.line_of_words
        (decimal number ∷ (map texts.role_text roles.now ++ texts.query_words inst.now))) }
{
    push_numbered(out, "", number)?;
    push_roles(out, roles)?;
    push_queries(out, inst)?;
    out.push_str("\n")
}

/// Appends the line of an item with its number. A list of roles is lent, for those of the
/// instruction.
fn push_item(
    out: &mut String,
    roles: &mut RoleList,
    number: usize,
    item: &Item,
) -> Result<(), AllocError>
    ensures { OnOk result (string_bytes out.new
        ≡ string_bytes out.old ++ texts.item_line (number, item.now)) }
{
    match item {
        Item::Bind(_) => Ok(()),
        Item::Emit { inst, .. } => {
            roles.clear();
            inst.get_operands(roles)?;
            push_line(out, number, roles.roles(), inst)
        }
    }
}

/// The roles of items: a line for each instruction, ended by a line feed. It has the number of the
/// item, which counts from 0 and counts bindings too; a word for each role of the instruction's
/// registers, in their order; and a word for each query.
///
/// # Errors
///
/// Want of memory.
pub fn role_listing(alloc: Global, items: &[Item]) -> Result<String, AllocError>
    ensures { IfOk result (λ text. string_bytes text ≡ texts.role_listing_of items.now) }
{
    let mut text = String::new(alloc);
    let mut roles = RoleList::new(alloc);
    for (number, item) in items.iter().enumerate() {
        push_item(&mut text, &mut roles, number, item)?;
    }
    Ok(text)
}
