//! The addressing modes that stand in instructions, and the steps before them.

ghost use Rattle.std.specs.Prelude.{◌≡◌, ◌≤◌, ◌^◌, ◌⊎◌, true, false, [], length};
ghost use Rattle.a64_base.specs.declared.shift.ExtendOp.TheVariants.{SXTX};
ghost use Rattle.a64_base.specs.Registers.{integer_register};
ghost use Rattle.a64_imms.specs.Offsets.{residue};
ghost use Rattle.a64_imms.specs.Scales.{type_bytes};
ghost use Rattle.a64_plan.specs.Shapes.{IsShape};
ghost use Rattle.a64_inst.specs.declared.mode.AMode.TheVariants.{RegExtended};
ghost use Rattle.a64_inst.specs.Addresses.{Reaches};
ghost use Rattle.a64_inst.specs.Modes.{steps_to, IsAccessSize, StandsFor};
ghost use Rattle.a64_inst.specs.FinalModes as finals;
ghost use Rattle.a64_inst.specs.FinalModes.{parts_of};

use a64_base::{ExtendOp, IrType, Reg, spilltmp_reg};
use a64_imms::{SImm9, UImm12Scaled};
use a64_inst::{AMode, ConstStep, FrameLayout, MemLabel, const_plan, is_far, place_of};
use arrayvec::ArrayVec;

/// An offset modulo 2^64.
pub fn wrapped(offset: i128) -> u64
    ensures { result ≡ residue (2 ^ 64) offset }
{
    offset.rem_euclid(1 << 64) as u64
}

/// The mode with the offset in x16.
fn far_mode(base: Reg) -> AMode
    ensures { result ≡ RegExtended base (integer_register 16) SXTX }
{
    AMode::RegExtended {
        rn: base,
        rm: spilltmp_reg(),
        extendop: ExtendOp::SXTX,
    }
}

/// The mode that stands for a base and an offset.
#[tactic(auto, using(crate::proofs::FinalModes::stands_parts))]
pub fn placed_mode(ty: IrType, base: Reg, offset: i64) -> AMode
    requires { IsAccessSize (type_bytes ty) }
    ensures stands { StandsFor ty (record { base = base; offset = offset }) result }
    ensures address { Reaches ty (record { base = base; offset = offset })
        (steps_to ty offset) result }
    ensures parts { parts_of result
        ≡ finals.placed_mode ty (record { base = base; offset = offset }) }
{
    if let Some(simm9) = SImm9::maybe_from_i64(offset) {
        return AMode::Unscaled { rn: base, simm9 };
    }
    match UImm12Scaled::maybe_from_i64(offset, ty) {
        Some(uimm12) => AMode::UnsignedOffset { rn: base, uimm12 },
        None => far_mode(base),
    }
}

/// What stands for a mode without an offset of 64 bits: itself, but in code a constant is a literal in the pool.
pub fn held_mode(for_code: bool, mem: &AMode) -> AMode
    ensures { result ≡ finals.held_mode for_code mem.now }
{
    match *mem {
        AMode::Const { addr } if for_code => AMode::Label {
            label: MemLabel::Pool(addr),
        },
        mode => mode,
    }
}

/// The mode that stands in the instruction of an access, in code. The access has 1, 2, 4, 8 or 16 bytes.
pub fn final_mode(frame: &FrameLayout, ty: IrType, mem: &AMode) -> AMode
    requires { IsAccessSize (type_bytes ty) }
    ensures { parts_of result ≡ finals.final_mode frame.now ty mem.now }
{
    mode_for(true, frame, ty, mem)
}

/// The same where it is only shown: a constant stays one. The access has 1, 2, 4, 8 or 16 bytes.
pub fn shown_mode(frame: &FrameLayout, ty: IrType, mem: &AMode) -> AMode
    requires { IsAccessSize (type_bytes ty) }
    ensures { parts_of result ≡ finals.mode_for false frame.now ty mem.now }
{
    mode_for(false, frame, ty, mem)
}

/// The mode that stands in the instruction of an access, in code or where it is only shown.
fn mode_for(for_code: bool, frame: &FrameLayout, ty: IrType, mem: &AMode) -> AMode
    requires { IsAccessSize (type_bytes ty) }
    ensures { parts_of result ≡ finals.mode_for for_code frame.now ty mem.now }
{
    let Some(place) = place_of(frame, mem) else {
        return held_mode(for_code, mem);
    };
    if place.offset < -(1 << 63) || place.offset >= 1 << 63 {
        far_mode(place.base)
    } else {
        placed_mode(ty, place.base, place.offset as i64)
    }
}

/// The steps before an access, at most four, which leave in x16 an offset that no instruction holds. The access has 1, 2,
/// 4, 8 or 16 bytes.
pub fn final_steps(frame: &FrameLayout, ty: IrType, mem: &AMode) -> ArrayVec<ConstStep, 4>
    requires { IsAccessSize (type_bytes ty) }
    ensures steps { result.items ≡ finals.final_steps frame.now ty mem.now }
    ensures shape { (result.items ≡ []) ⊎ IsShape result.items }
    ensures few { length result.items ≤ 4 }
{
    match place_of(frame, mem) {
        Some(place) if is_far(ty, place.offset) => const_plan(wrapped(place.offset)),
        _ => ArrayVec::new(),
    }
}
