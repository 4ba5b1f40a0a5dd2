//! Makes loads, stores and addresses of their fields.

ghost use Rattle.std.specs.Prelude.{◌≡◌, ◌<◌};
ghost use Rattle.std.specs.Vec.{vec_len, vec_capacity};
ghost use Rattle.a64_text.specs.declared.name.Name.TheVariants as names;
ghost use Rattle.a64_text.specs.NameInsts.{memory_of};
ghost use Rattle.a64_text.specs.Puts.{Puts};

use crate::make::emit;
use crate::memory_insts;
use crate::name::MemoryName;
use a64_base::Writable;
use a64_inst::{Access, AccessOp, AtomicCAS128Args, Inst, Item};
use a64_read::at;
use a64_tokens::value::Value;

/// Puts the load or store of one register with these fields behind the items.
#[tactic(auto, unfolding(crate::specs::Makes::Makes))]
#[inline(never)]
pub fn put_access(items: &mut Vec<Item>, op: AccessOp, values: &[Value]) -> bool
    requires { vec_len items.old < vec_capacity items.old }
    ensures { Puts (names.Access op) values.now items.old.items items.new.items result }
{
    let access = Access {
        op,
        reg: at::get(values, 0),
        mem: at::get(values, 1),
        flags: at::get(values, 2),
    };
    emit(items, Inst::from_access(access))
}

/// The instruction of this name.
#[inline(always)]
fn memory_inst(name: MemoryName, values: &[Value]) -> Inst
    ensures { result ≡ memory_of name values.now }
{
    memory_insts!(name, values)
}

/// Puts the instruction of this name with these fields behind the items.
#[tactic(auto, unfolding(crate::specs::Makes::Makes))]
#[inline(never)]
pub fn put_memory(items: &mut Vec<Item>, name: MemoryName, values: &[Value]) -> bool
    requires { vec_len items.old < vec_capacity items.old }
    ensures { Puts (names.Memory name) values.now items.old.items items.new.items result }
{
    emit(items, memory_inst(name, values))
}
