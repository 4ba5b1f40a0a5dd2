//! Makes loads and stores of pairs of their fields.

ghost use Rattle.std.specs.Prelude.{◌≡◌, ◌<◌, option_map};
ghost use Rattle.std.specs.Vec.{vec_len, vec_capacity};
ghost use Rattle.a64_imms.specs.Scales.{IsPairScale};
ghost use Rattle.a64_text.specs.declared.name.Name.TheVariants as names;
ghost use Rattle.a64_text.specs.Makes.{emitted, Makes};
ghost use Rattle.a64_text.specs.NameInsts as name_insts;
ghost use Rattle.a64_text.specs.Pairs.{pair_scale};
ghost use Rattle.a64_text.specs.Puts.{Puts};

use crate::make::emit_some;
use crate::name::PairName;
use crate::pair_insts;
use a64_base::{IrType, MemFlagsData, Reg, Writable};
use a64_inst::{Inst, Item, PairAMode};
use a64_read::at;
use a64_tokens::pair_mode::WrittenPairMode;
use a64_tokens::value::Value;

/// The type whose size scales the offset of a pair.
fn scale_of(name: PairName) -> IrType
    ensures value { result ≡ pair_scale name }
    ensures scale { IsPairScale result }
{
    match name {
        PairName::LoadP64 | PairName::StoreP64 => IrType::I64,
        PairName::FpuLoadP64 | PairName::FpuStoreP64 => IrType::F64,
        PairName::FpuLoadP128 | PairName::FpuStoreP128 => IrType::I8X16,
    }
}

/// The load or store of these registers.
fn pair_of(name: PairName, rt: Reg, rt2: Reg, mem: PairAMode, flags: MemFlagsData) -> Inst
    ensures { result ≡ name_insts.pair_of name rt rt2 mem flags }
{
    pair_insts!(name, rt, rt2, mem, flags)
}

/// The load or store of this name, where its offset is one at its scale.
#[tactic(auto, unfolding(crate::specs::Makes::Makes))]
fn pair(name: PairName, values: &[Value]) -> Option<Inst>
    ensures { Makes (names.Pair name) values.now (option_map emitted result) }
{
    let mem = at::get::<WrittenPairMode>(values, 2).at_scale(scale_of(name))?;
    let (rt, rt2) = (at::get(values, 0), at::get(values, 1));
    Some(pair_of(name, rt, rt2, mem, at::get(values, 3)))
}

/// Puts the load or store of a pair of this name with these fields behind the items, where there is one.
#[inline(never)]
pub fn put_pair(items: &mut Vec<Item>, name: PairName, values: &[Value]) -> bool
    requires { vec_len items.old < vec_capacity items.old }
    ensures { Puts (names.Pair name) values.now items.old.items items.new.items result }
{
    emit_some(items, pair(name, values))
}
