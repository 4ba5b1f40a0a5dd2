//! What a line of a file says.

ghost use Rattle.std.specs.Prelude.{◌≡◌};
ghost use Rattle.a64_text.specs.States.{once_name};

use a64_base::VCodeConstant;
use a64_inst::{Inst, Item};
use a64_list::ListVec;
use a64_tokens::emit_flag::EmitFlag;
use a64_tokens::frame_field::FrameField;

/// A name that a file gives at most once.
#[derive(Clone, Copy, Debug, PartialEq, Eq, PartialOrd, Ord)]
pub enum OnceName {
    /// The constant of this number.
    Constant(u32),
    /// A size of the frame.
    Frame(FrameField),
    /// A setting.
    Flag(EmitFlag),
}

/// What a line of a file says.
#[derive(Drop)]
pub enum Entry {
    /// An item of the code: an instruction or a binding.
    Item(Item),
    /// A constant, with its bytes.
    Constant(VCodeConstant, ListVec<u8>),
    /// A size of the frame, in bytes.
    Frame(FrameField, u32),
    /// A setting, which is true.
    Flag(EmitFlag),
    /// An instruction with which a return restores registers.
    Restore(Inst),
}

impl Entry {
    /// The name that the entry gives, where a file gives it at most once.
    #[inline(always)]
    pub fn once_name(&self) -> Option<OnceName>
        ensures { result ≡ once_name self.now }
    {
        match self {
            Entry::Item(_) | Entry::Restore(_) => None,
            Entry::Constant(addr, _) => Some(OnceName::Constant(addr.0)),
            Entry::Frame(field, _) => Some(OnceName::Frame(*field)),
            Entry::Flag(flag) => Some(OnceName::Flag(*flag)),
        }
    }
}
