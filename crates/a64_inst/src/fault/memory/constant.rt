//! Of the constants that loads load.

ghost use Rattle.std.specs.Prelude.{◌≡◌, ◌||◌, is_none, is_some, option_map};
ghost use Rattle.a64_imms.specs.Scales.{type_bytes};
ghost use Rattle.a64_ops.specs.Accesses.{literal_of};
ghost use Rattle.a64_inst.specs.Accesses.{access_type};
ghost use Rattle.a64_inst.specs.Modes.{constant_in};
ghost use Rattle.a64_inst.specs.MemoryOperands as sets;

use crate::access::AccessRef;
use crate::mode::AMode;
use a64_ops::AccessOp;

/// Whether the load of a literal is no longer than its constant, where it loads one and that has a
/// size.
#[inline(always)]
pub fn is_within(constant: Option<u32>, access: &AccessRef<'_>) -> bool
    ensures { result ≡ sets.is_within constant access.now }
{
    if access.mem.constant().is_none() || access.op.literal_field().is_none() {
        return true;
    }
    match constant {
        Some(bytes) => access.ty().bytes() <= bytes,
        None => true,
    }
}

/// Whether the constant of a mode, where it loads one, has a size.
#[inline(always)]
pub fn is_known(constant: Option<u32>, mem: &AMode) -> bool
    ensures { result ≡ (is_none (constant_in mem.now) || is_some constant) }
{
    mem.constant().is_none() || constant.is_some()
}

/// How many bytes the load of a literal has, where there is one of this kind.
#[inline(always)]
pub fn literal_bytes(op: AccessOp) -> Option<u32>
    ensures { result ≡ option_map (λ _. type_bytes (access_type op)) (literal_of op) }
{
    match op {
        AccessOp::ULoad32 | AccessOp::SLoad32 | AccessOp::FpuLoad32 => Some(4),
        AccessOp::ULoad64 | AccessOp::FpuLoad64 => Some(8),
        AccessOp::FpuLoad128 => Some(16),
        _ => None,
    }
}
