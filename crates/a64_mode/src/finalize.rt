//! The mode that stands in an instruction for a base and an offset, with the instructions before it.

ghost use Rattle.std.specs.Prelude.{◌≡◌, ◌<◌, ◌^◌, [], true, map, None, IfSome, IsOk, IfOk, FitsSigned};
ghost use Rattle.std.specs.Int.{w64};
ghost use Rattle.a64_base.specs.Registers.{integer_register};
ghost use Rattle.a64_imms.specs.Scales.{type_bytes};
ghost use Rattle.a64_inst.specs.Constants.{step_into, HaveNoFault};
ghost use Rattle.a64_inst.specs.Modes.{base_offset_of, steps_to, FrameFits, IsAccessSize, StandsFor};
ghost use Rattle.a64_inst.specs.FinalModes.{parts_of, held_mode, mode_for, final_steps};
ghost use Rattle.a64_inst.specs.Addresses.{Reaches};

use crate::placed::{held_mode, placed_mode, wrapped};
use a64_base::{IrType, writable_spilltmp_reg};
use a64_inst::{AMode, EmitState, Inst, is_far, place_of};
use smallvec::SmallVec;
use std::alloc::{AllocError, Global};

/// The instructions that leave an offset in x16 where no instruction holds it, else none.
fn offset_insts(alloc: Global, ty: IrType, offset: i128) -> Result<SmallVec<Inst, 4>, AllocError>
    ensures succeeds { IsOk result }
    ensures insts { IfOk result
        (λ insts. insts.items ≡ map (step_into (integer_register 16)) (steps_to ty offset)) }
    ensures faultless { IfOk result (λ insts. HaveNoFault insts.items) }
{
    if is_far(ty, offset) {
        Inst::load_constant(alloc, writable_spilltmp_reg(), wrapped(offset))
    } else {
        Ok(SmallVec::new(alloc))
    }
}

/// The mode that stands in the instruction of a load or a store, and the instructions before it,
/// which leave in x16 an offset that no instruction holds. A mode without an offset of 64 bits
/// stays as it is, but in code a constant is a literal in the pool.
///
/// The type of the access has 1, 2, 4, 8 or 16 bytes. The offset from the base, once the frame is
/// counted in, is an `i64`. For `IncomingArg` the frame has fewer than 2^32 bytes. `for_code`
/// tells whether the mode is to be emitted and not only shown.
///
/// # Errors
///
/// None: at most four instructions have room in the answer itself, and no memory is asked for.
pub fn mem_finalize(
    alloc: Global,
    for_code: bool,
    mem: &AMode,
    access_ty: IrType,
    state: &EmitState,
) -> Result<(SmallVec<Inst, 4>, AMode), AllocError>
    requires access { IsAccessSize (type_bytes access_ty) }
    requires frame { FrameFits state.now.frame mem.now }
    requires offset { IfSome (base_offset_of state.now.frame mem.now)
        (λ place. FitsSigned w64 place.offset) }
    ensures succeeds { IsOk result }
    ensures others { base_offset_of state.now.frame mem.now ≡ None
        → IfOk result (λ final. (final.0.items ≡ [])
        × (final.1 ≡ held_mode for_code mem.now)) }
    ensures insts { IfSome (base_offset_of state.now.frame mem.now)
        (λ place. IfOk result (λ final.
        final.0.items ≡ map (step_into (integer_register 16))
        (steps_to access_ty place.offset))) }
    ensures mode { IfSome (base_offset_of state.now.frame mem.now)
        (λ place. IfOk result (λ final. StandsFor access_ty place final.1)) }
    // Once the steps of these instructions have run, the final mode's address is base plus offset.
    ensures address { IfSome (base_offset_of state.now.frame mem.now)
        (λ place. IfOk result (λ final.
        Reaches access_ty place (steps_to access_ty place.offset) final.1)) }
    ensures faultless { IfOk result (λ final. HaveNoFault final.0.items) }
    // Both at once, for any mode.
    ensures steps { IfOk result
        (λ final. final.0.items
        ≡ map (step_into (integer_register 16)) (final_steps state.now.frame access_ty mem.now)) }
    ensures parts { IfOk result
        (λ final. parts_of final.1 ≡ mode_for for_code state.now.frame access_ty mem.now) }
{
    let Some(place) = place_of(state.frame_layout(), mem) else {
        return Ok((SmallVec::new(alloc), held_mode(for_code, mem)));
    };
    let insts = offset_insts(alloc, access_ty, place.offset)?;
    let mode = placed_mode(access_ty, place.base, place.offset as i64);
    Ok((insts, mode))
}
