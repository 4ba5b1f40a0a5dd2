//! Registers, real and virtual.

ghost use Rattle.std.specs.Prelude.{◌≡◌};

use std::marker::Model;

/// A class of registers (Cranelift's `RegClass`, without its class of vectors).
#[derive(Clone, Copy, Debug, PartialEq, Eq)]
pub enum RegClass {
    /// The general registers, with the zero register and the stack pointer.
    Int,
    /// The registers of floats and vectors.
    Float,
}

/// A register of the machine (Cranelift's `PReg`).
///
/// An integer register has a number from 0 to 31, or 63: 31 is the zero register, and 63 the
/// stack pointer, which instructions write as 31. A float register has a number from 0 to 31.
#[derive(Clone, Copy, Debug, PartialEq, Eq)]
pub struct PReg {
    hw: u8,
    class: RegClass,
}

impl Model for PReg {
    ghost use Rattle.a64_base.specs.RegisterNumbers.{RealRegister, IsRegisterNumber};

    ghost Value = { RealRegister };

    ghost view = { λ p. record { number = p.hw; class = p.class } };

    ghost invariant = { λ p. IsRegisterNumber p.class p.hw };

    ghost inverse = { λ r. record { hw = r.number; class = r.class } };
}

impl PReg {
    ghost use Rattle.a64_base.specs.RegisterNumbers.{IsRegisterNumber};

    /// The register of a class that has this number.
    pub fn new(hw: u8, class: RegClass) -> PReg
        requires { IsRegisterNumber class hw }
        ensures { result ≡ record { number = hw; class = class } }
    {
        PReg { hw, class }
    }

    /// Its number: 0 to 31, or 63 for the stack pointer.
    pub fn hw_enc(self) -> u8
        ensures value { result ≡ self.number }
        ensures in_range { IsRegisterNumber self.class result }
    {
        self.hw
    }

    /// Its class.
    pub fn class(self) -> RegClass
        ensures { result ≡ self.class }
    {
        self.class
    }
}

/// The machine's register behind a register that is not virtual (Cranelift's `RealReg`).
#[derive(Clone, Copy, Debug, PartialEq, Eq)]
pub struct RealReg(PReg);

impl Model for RealReg {
    ghost use Rattle.a64_base.specs.RegisterNumbers.{RealRegister};

    ghost Value = { RealRegister };

    ghost view = { λ r. r.0 };

    ghost inverse = { λ p. record { 0 = p } };
}

impl RealReg {
    ghost use Rattle.a64_base.specs.RegisterNumbers.{IsRegisterNumber};

    /// Its number: 0 to 31, or 63 for the stack pointer.
    pub fn hw_enc(self) -> u8
        ensures value { result ≡ self.number }
        ensures in_range { IsRegisterNumber self.class result }
    {
        self.0.hw_enc()
    }

    /// Its class.
    pub fn class(self) -> RegClass
        ensures { result ≡ self.class }
    {
        self.0.class()
    }
}

/// What a register is: one of the machine, or a virtual one that stands for some register of its class.
#[derive(Clone, Copy, Debug, PartialEq, Eq)]
pub enum RegKind {
    /// A register of the machine.
    Real(PReg),
    /// A virtual register.
    Virtual {
        /// Its number among the virtual registers.
        index: u32,
        /// The class of the registers that it stands for.
        class: RegClass,
    },
}

/// The registers that share a numbering: those of the machine, or the virtual ones, of one class.
#[derive(Clone, Copy, Debug, PartialEq, Eq)]
enum Bank {
    /// The machine's integer registers.
    Int,
    /// The machine's registers of floats and vectors.
    Float,
    /// The virtual registers that stand for integer registers.
    VirtualInt,
    /// The virtual registers that stand for registers of floats and vectors.
    VirtualFloat,
}

/// A register: one of the machine, or a virtual one that stands for some register of its class
/// (Cranelift's `Reg`). [`Reg::kind`] tells which. It takes 8 bytes.
#[derive(Clone, Copy, Debug, PartialEq, Eq)]
pub struct Reg {
    number: u32,
    bank: Bank,
}

impl Model for Reg {
    ghost use Rattle.a64_base.specs.Registers.{kind_of, number_of, bank_of, IsNumbered};
    ghost use Rattle.a64_base.specs.declared.reg.RegKind.{RegKind};

    ghost Value = { RegKind };

    ghost view = { λ r. kind_of r.bank r.number };

    ghost invariant = { λ r. IsNumbered r.bank r.number };

    ghost inverse = { λ kind. record { number = number_of kind; bank = bank_of kind } };
}

impl Reg {
    ghost use Rattle.a64_base.specs.Registers.{class_of, is_virtual_register, real_of};

    /// A register of the machine.
    pub fn from_real_reg(p: PReg) -> Reg
        ensures { result ≡ RegKind.Real p }
    {
        let bank = match p.class() {
            RegClass::Int => Bank::Int,
            RegClass::Float => Bank::Float,
        };
        Reg {
            number: u32::from(p.hw_enc()),
            bank,
        }
    }

    /// A virtual register.
    pub fn virtual_reg(index: u32, class: RegClass) -> Reg
        ensures { result ≡ RegKind.Virtual index class }
    {
        let bank = match class {
            RegClass::Int => Bank::VirtualInt,
            RegClass::Float => Bank::VirtualFloat,
        };
        Reg {
            number: index,
            bank,
        }
    }

    /// What it is.
    #[inline]
    pub fn kind(self) -> RegKind
        ensures { result ≡ self }
    {
        match self.bank {
            Bank::Int => RegKind::Real(PReg {
                hw: self.number as u8,
                class: RegClass::Int,
            }),
            Bank::Float => RegKind::Real(PReg {
                hw: self.number as u8,
                class: RegClass::Float,
            }),
            Bank::VirtualInt => RegKind::Virtual {
                index: self.number,
                class: RegClass::Int,
            },
            Bank::VirtualFloat => RegKind::Virtual {
                index: self.number,
                class: RegClass::Float,
            },
        }
    }

    /// Its class.
    pub fn class(&self) -> RegClass
        ensures { result ≡ class_of self.now }
    {
        match self.bank {
            Bank::Int | Bank::VirtualInt => RegClass::Int,
            Bank::Float | Bank::VirtualFloat => RegClass::Float,
        }
    }

    /// Whether it is virtual.
    pub fn is_virtual(&self) -> bool
        ensures { result ≡ is_virtual_register self.now }
    {
        matches!(self.bank, Bank::VirtualInt | Bank::VirtualFloat)
    }

    /// The machine's register, where it is one.
    pub fn to_real_reg(self) -> Option<RealReg>
        ensures { result ≡ real_of self }
    {
        match self.kind() {
            RegKind::Real(p) => Some(RealReg(p)),
            RegKind::Virtual { .. } => None,
        }
    }
}

/// A register that an instruction may write (Cranelift's `Writable`). A clause sees the register
/// itself.
#[derive(Clone, Copy, Debug, PartialEq, Eq)]
pub struct Writable<T> {
    reg: T,
}

impl<T> Model for Writable<T> {
    ghost Value = { T };

    ghost view = { λ w. w.reg };

    ghost inverse = { λ r. record { reg = r } };
}

impl<T: Copy> Writable<T> {
    /// The register, to be written.
    pub fn from_reg(reg: T) -> Writable<T>
        ensures { result ≡ reg }
    {
        Writable { reg }
    }

    /// The register that may be written.
    pub fn to_reg(&self) -> T
        ensures { result ≡ self.now }
    {
        self.reg
    }
}
