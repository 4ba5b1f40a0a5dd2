//! What fills the free places of a vector that keeps its first instructions in the value.

use crate::inst::Inst;
use std::alloc::Global;
use std::default::MadeWith;

/// `nop`, which fills the free places of a vector that keeps its first instructions in the value.
impl MadeWith<Global> for Inst {
    ghost use Rattle.std.specs.Prelude.{◌≡◌};
    ghost use Rattle.a64_inst.specs.declared.inst.Inst.TheVariants.{Nop4};

    ghost is_made_with = { λ inst. inst ≡ Nop4 };

    fn made_with(_alloc: Global) -> Inst {
        Inst::Nop4
    }
}
