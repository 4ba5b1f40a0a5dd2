//! Items of code.

ghost use Rattle.std.specs.Prelude.{◌≡◌, None};
ghost use Rattle.a64_inst.specs.declared.item.Item.TheVariants.{Emit};

use crate::inst::Inst;
use a64_base::{MachLabel, UserStackMap};

/// An item of code, in the order in which it is to stand.
#[derive(Drop)]
pub enum Item {
    /// Binds a label to the place of the next item.
    Bind(MachLabel),
    /// An instruction.
    Emit {
        /// The instruction.
        inst: Inst,
        /// The map of the stack at the instruction, which counts at calls alone.
        map: Option<UserStackMap>,
    },
}

impl From<Inst> for Item {
    ghost from_gives = { λ inst item. item ≡ Emit inst None };

    /// An instruction without a map of the stack.
    fn from(inst: Inst) -> Item {
        Item::Emit { inst, map: None }
    }
}
