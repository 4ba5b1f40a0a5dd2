//! The layout of a function's frame.

ghost use Rattle.std.specs.Prelude.{◌≡◌, [], IfOk};

use crate::inst::Inst;
use a64_list::ListVec;
use std::alloc::{AllocError, Global};

/// The sizes of the areas of a function's frame, in bytes, and what a return restores
/// (Cranelift's `FrameLayout`).
#[derive(Drop)]
pub struct FrameLayout {
    /// The frame pointer and the return address.
    pub setup_area_size: u32,
    /// The arguments of tail calls.
    pub tail_args_size: u32,
    /// The saved registers.
    pub clobber_size: u32,
    /// The stack slots.
    pub fixed_frame_storage_size: u32,
    /// The arguments of outgoing calls.
    pub outgoing_args_size: u32,
    /// The instructions that restore the saved registers.
    pub restore: ListVec<Inst>,
}

/// Instructions equal to those of a slice.
fn cloned_insts(alloc: Global, insts: &[Inst]) -> Result<ListVec<Inst>, AllocError>
    ensures { IfOk result (λ copy. copy ≡ insts.now) }
{
    let mut copy = ListVec::new(alloc);
    for inst in insts {
        copy.push(inst.try_clone(alloc)?)?;
    }
    Ok(copy)
}

impl FrameLayout {
    /// The layout of a function without a frame: each area has 0 bytes, and nothing is restored. It takes no
    /// memory.
    pub fn none(alloc: Global) -> FrameLayout
        ensures { result ≡ record {
          setup_area_size = 0;
          tail_args_size = 0;
          clobber_size = 0;
          fixed_frame_storage_size = 0;
          outgoing_args_size = 0;
          restore = [];
        } }
    {
        FrameLayout {
            setup_area_size: 0,
            tail_args_size: 0,
            clobber_size: 0,
            fixed_frame_storage_size: 0,
            outgoing_args_size: 0,
            restore: ListVec::new(alloc),
        }
    }

    /// An equal layout.
    ///
    /// # Errors
    ///
    /// Want of memory.
    pub fn try_clone(&self, alloc: Global) -> Result<FrameLayout, AllocError>
        ensures { IfOk result (λ frame. frame ≡ self.now) }
    {
        Ok(FrameLayout {
            setup_area_size: self.setup_area_size,
            tail_args_size: self.tail_args_size,
            clobber_size: self.clobber_size,
            fixed_frame_storage_size: self.fixed_frame_storage_size,
            outgoing_args_size: self.outgoing_args_size,
            restore: cloned_insts(alloc, self.restore.as_slice())?,
        })
    }
}
