//! The registers that have a part of their own, and makers of the others.

ghost use Rattle.std.specs.Prelude.{◌≡◌, ◌<◌};
ghost use Rattle.a64_base.specs.Registers.{integer_register, float_register};

use crate::reg::{PReg, Reg, RegClass, Writable};

/// The number of the pinned register, x21.
pub const PINNED_REG: u8 = 21;

/// The integer register with a number from 0 to 30. The zero register and the stack pointer have
/// makers of their own.
pub fn xreg(num: u8) -> Reg
    requires { num < 31 }
    ensures { result ≡ integer_register num }
{
    Reg::from_real_reg(PReg::new(num, RegClass::Int))
}

/// The register of [`xreg`], to be written.
pub fn writable_xreg(num: u8) -> Writable<Reg>
    requires { num < 31 }
    ensures { result ≡ integer_register num }
{
    Writable::from_reg(xreg(num))
}

/// The register of floats and vectors with a number from 0 to 31.
pub fn vreg(num: u8) -> Reg
    requires { num < 32 }
    ensures { result ≡ float_register num }
{
    Reg::from_real_reg(PReg::new(num, RegClass::Float))
}

/// The register of [`vreg`], to be written.
pub fn writable_vreg(num: u8) -> Writable<Reg>
    requires { num < 32 }
    ensures { result ≡ float_register num }
{
    Writable::from_reg(vreg(num))
}

/// The zero register, number 31.
pub fn zero_reg() -> Reg
    ensures { result ≡ integer_register 31 }
{
    Reg::from_real_reg(PReg::new(31, RegClass::Int))
}

/// The zero register, to be written: the result is dropped.
pub fn writable_zero_reg() -> Writable<Reg>
    ensures { result ≡ integer_register 31 }
{
    Writable::from_reg(zero_reg())
}

/// The stack pointer, number 63 here and 31 in an instruction.
pub fn stack_reg() -> Reg
    ensures { result ≡ integer_register 63 }
{
    Reg::from_real_reg(PReg::new(63, RegClass::Int))
}

/// The stack pointer, to be written.
pub fn writable_stack_reg() -> Writable<Reg>
    ensures { result ≡ integer_register 63 }
{
    Writable::from_reg(stack_reg())
}

/// The link register, x30, with the address to return to.
pub fn link_reg() -> Reg
    ensures { result ≡ integer_register 30 }
{
    xreg(30)
}

/// The link register, to be written.
pub fn writable_link_reg() -> Writable<Reg>
    ensures { result ≡ integer_register 30 }
{
    Writable::from_reg(link_reg())
}

/// The frame pointer, x29.
pub fn fp_reg() -> Reg
    ensures { result ≡ integer_register 29 }
{
    xreg(29)
}

/// The frame pointer, to be written.
pub fn writable_fp_reg() -> Writable<Reg>
    ensures { result ≡ integer_register 29 }
{
    Writable::from_reg(fp_reg())
}

/// The first scratch register, x16, which a linker's veneers may write too.
pub fn spilltmp_reg() -> Reg
    ensures { result ≡ integer_register 16 }
{
    xreg(16)
}

/// The first scratch register, to be written.
pub fn writable_spilltmp_reg() -> Writable<Reg>
    ensures { result ≡ integer_register 16 }
{
    Writable::from_reg(spilltmp_reg())
}

/// The second scratch register, x17, which a linker's veneers may write too.
pub fn tmp2_reg() -> Reg
    ensures { result ≡ integer_register 17 }
{
    xreg(17)
}

/// The second scratch register, to be written.
pub fn writable_tmp2_reg() -> Writable<Reg>
    ensures { result ≡ integer_register 17 }
{
    Writable::from_reg(tmp2_reg())
}

/// The pinned register, x21.
pub fn pinned_reg() -> Reg
    ensures { result ≡ integer_register 21 }
{
    xreg(PINNED_REG)
}
