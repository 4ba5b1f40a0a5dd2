//! Of the scratch registers of loads and stores.

ghost use Rattle.std.specs.Prelude.{◌≡◌, ◌&&◌, ◌||◌, not};
ghost use Rattle.a64_base.specs.declared.ir_type.IrType.TheVariants.{I8};
ghost use Rattle.a64_ops.specs.Accesses.{loads};
ghost use Rattle.a64_inst.specs.Addresses.{is_numbered};
ghost use Rattle.a64_inst.specs.FinalModes.{final_mode};
ghost use Rattle.a64_inst.specs.MemoryOperands as sets;

use crate::access::AccessRef;
use crate::frame::FrameLayout;
use crate::mode::AMode;
use crate::place::{has_base, is_numbered, needs_x16};
use a64_base::{IrType, Reg};

/// Whether x16 is the base of an access, or what is stored.
#[inline(always)]
fn is_x16_in_use(frame: &FrameLayout, access: &AccessRef<'_>) -> bool
    ensures { result ≡ (sets.has_base 16 frame.now access.now.mem
        || (not (loads access.now.op) && is_numbered 16 access.now.reg)) }
{
    has_base(16, frame, access.mem) || !access.op.is_load() && is_numbered(16, &access.reg)
}

/// Of a load or a store of one register.
#[tactic(auto, unfolding(crate::specs::MemoryOperands::has_access_scratch))]
#[inline(always)]
pub fn access(frame: &FrameLayout, access: &AccessRef<'_>) -> bool
    ensures { result ≡ sets.has_access_scratch frame.now access.now }
{
    !(needs_x16(frame, access.ty(), access.mem) && is_x16_in_use(frame, access))
}

/// Whether an addition holds a number.
pub fn is_addend(n: u32) -> bool
    ensures { result ≡ sets.is_addend n }
{
    n < 4096 || n < 1 << 24 && n % 4096 == 0
}

/// Whether an address needs x17 for its offset. Only an unsigned offset that an instruction's
/// mode has itself can be so large.
pub fn needs_x17(frame: &FrameLayout, mem: &AMode) -> bool
    ensures { result ≡ sets.needs_x17 (final_mode frame.now I8 mem.now) }
{
    match *mem {
        AMode::UnsignedOffset { rn: _, uimm12 } => !is_addend(uimm12.value()),
        AMode::Unscaled { rn: _, simm9 } => !is_addend(u32::from(simm9.value.unsigned_abs())),
        _ => false,
    }
}

/// Whether an address needs x17 for its offset, and its base is the register with a number.
pub fn needs_x17_beside(number: u8, frame: &FrameLayout, mem: &AMode) -> bool
    ensures { result ≡ sets.needs_x17_beside number (final_mode frame.now I8 mem.now) }
{
    match *mem {
        AMode::UnsignedOffset { rn, uimm12 } => {
            !is_addend(uimm12.value()) && is_numbered(number, &rn)
        }
        AMode::Unscaled { rn, simm9 } => {
            !is_addend(u32::from(simm9.value.unsigned_abs())) && is_numbered(number, &rn)
        }
        _ => false,
    }
}

/// Of a `LoadAddr`.
#[tactic(auto, unfolding(crate::specs::MemoryOperands::has_address_scratch))]
pub fn address(frame: &FrameLayout, rd: &Reg, mem: &AMode) -> bool
    ensures { result ≡ sets.has_address_scratch frame.now rd.now mem.now }
{
    let x16_in_use = needs_x16(frame, IrType::I8, mem) && has_base(16, frame, mem);
    let x17_in_use = needs_x17_beside(17, frame, mem)
        || (needs_x17(frame, mem) && is_numbered(17, rd));
    !x16_in_use && !x17_in_use
}
