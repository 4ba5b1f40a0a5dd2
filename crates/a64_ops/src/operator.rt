//! The operators of instructions.

ghost use Rattle.std.specs.Prelude.{◌≡◌};

/// An integer operator with two or three operands (Cranelift's `ALUOp`).
#[derive(Clone, Copy, Debug, PartialEq, Eq)]
pub enum ALUOp {
    /// Addition.
    Add,
    /// Subtraction.
    Sub,
    /// Addition that sets the flags.
    AddS,
    /// Subtraction that sets the flags.
    SubS,
    /// And.
    And,
    /// Or.
    Orr,
    /// Exclusive or.
    Eor,
    /// And that sets the flags.
    AndS,
    /// And with the complement of the second operand.
    AndNot,
    /// Or with the complement of the second operand.
    OrrNot,
    /// Exclusive or with the complement of the second operand.
    EorNot,
    /// Addition with carry.
    Adc,
    /// Subtraction with carry.
    Sbc,
    /// Addition with carry that sets the flags.
    AdcS,
    /// Subtraction with carry that sets the flags.
    SbcS,
    /// Division of unsigned numbers.
    UDiv,
    /// Division of signed numbers.
    SDiv,
    /// Shift to the left.
    Lsl,
    /// Shift to the right, with zeros.
    Lsr,
    /// Shift to the right, with the sign.
    Asr,
    /// Extraction from a pair of registers; of registers alone, rotation to the right.
    Extr,
    /// The high half of a product of signed numbers, at 64 bits alone.
    SMulH,
    /// The high half of a product of unsigned numbers, at 64 bits alone.
    UMulH,
}

impl ALUOp {
    ghost use Rattle.a64_ops.specs.Names.{alu_op_name};

    /// Its name in assembly text.
    pub fn op_str(&self) -> &'static str
        ensures { result.now ≡ alu_op_name self.now }
    {
        match self {
            ALUOp::Add => "add",
            ALUOp::Sub => "sub",
            ALUOp::AddS => "adds",
            ALUOp::SubS => "subs",
            ALUOp::And => "and",
            ALUOp::Orr => "orr",
            ALUOp::Eor => "eor",
            ALUOp::AndS => "ands",
            ALUOp::AndNot => "bic",
            ALUOp::OrrNot => "orn",
            ALUOp::EorNot => "eon",
            ALUOp::Adc => "adc",
            ALUOp::Sbc => "sbc",
            ALUOp::AdcS => "adcs",
            ALUOp::SbcS => "sbcs",
            ALUOp::UDiv => "udiv",
            ALUOp::SDiv => "sdiv",
            ALUOp::Lsl => "lsl",
            ALUOp::Lsr => "lsr",
            ALUOp::Asr => "asr",
            ALUOp::Extr => "extr",
            ALUOp::SMulH => "smulh",
            ALUOp::UMulH => "umulh",
        }
    }
}

/// An integer operator with three operands (Cranelift's `ALUOp3`).
#[derive(Clone, Copy, Debug, PartialEq, Eq)]
pub enum ALUOp3 {
    /// A product that is added.
    MAdd,
    /// A product that is subtracted.
    MSub,
    /// The 64-bit product of unsigned 32-bit operands, which is added.
    UMAddL,
    /// The 64-bit product of signed 32-bit operands, which is added.
    SMAddL,
}

impl ALUOp3 {
    ghost use Rattle.a64_ops.specs.Names.{alu_op3_name};

    /// Its name in assembly text.
    pub fn op_str(&self) -> &'static str
        ensures { result.now ≡ alu_op3_name self.now }
    {
        match self {
            ALUOp3::MAdd => "madd",
            ALUOp3::MSub => "msub",
            ALUOp3::UMAddL => "umaddl",
            ALUOp3::SMAddL => "smaddl",
        }
    }
}

/// An operation on the bits of one register (Cranelift's `BitOp`).
#[derive(Clone, Copy, Debug, PartialEq, Eq)]
pub enum BitOp {
    /// The bits in reverse order.
    RBit,
    /// The number of leading zeros.
    Clz,
    /// The number of bits behind the sign that are as the sign.
    Cls,
    /// The bytes of each halfword in reverse order.
    Rev16,
    /// The bytes of each word in reverse order.
    Rev32,
    /// The bytes of the doubleword in reverse order, at 64 bits alone.
    Rev64,
}

impl BitOp {
    ghost use Rattle.a64_ops.specs.Names.{bit_op_name};

    /// Its name in assembly text.
    pub fn op_str(&self) -> &'static str
        ensures { result.now ≡ bit_op_name self.now }
    {
        match self {
            BitOp::RBit => "rbit",
            BitOp::Clz => "clz",
            BitOp::Cls => "cls",
            BitOp::Rev16 => "rev16",
            BitOp::Rev32 => "rev32",
            BitOp::Rev64 => "rev64",
        }
    }
}

/// A move of a bitfield that sets the whole register (Cranelift's `BfmOp`).
#[derive(Clone, Copy, Debug, PartialEq, Eq)]
pub enum BfmOp {
    /// With zeros elsewhere.
    UBfm,
    /// With the field's sign above it, and zeros below.
    SBfm,
}

impl BfmOp {
    ghost use Rattle.a64_ops.specs.Names.{bfm_op_name};

    /// Its name in assembly text.
    pub fn op_str(&self) -> &'static str
        ensures { result.now ≡ bfm_op_name self.now }
    {
        match self {
            BfmOp::UBfm => "ubfm",
            BfmOp::SBfm => "sbfm",
        }
    }
}

/// A wide move that sets the whole register (Cranelift's `MoveWideOp`).
#[derive(Clone, Copy, Debug, PartialEq, Eq)]
pub enum MoveWideOp {
    /// The halfword, and zeros elsewhere.
    MovZ,
    /// The complement of that.
    MovN,
}

impl MoveWideOp {
    ghost use Rattle.a64_ops.specs.Names.{move_wide_op_name};

    /// Its name in assembly text.
    pub fn op_str(&self) -> &'static str
        ensures { result.now ≡ move_wide_op_name self.now }
    {
        match self {
            MoveWideOp::MovZ => "movz",
            MoveWideOp::MovN => "movn",
        }
    }
}

/// An atomic operation of memory and a register (Cranelift's `AtomicRMWOp`).
#[derive(Clone, Copy, Debug, PartialEq, Eq)]
pub enum AtomicRMWOp {
    /// Addition.
    Add,
    /// And with the complement of the register.
    Clr,
    /// Exclusive or.
    Eor,
    /// Or.
    Set,
    /// The greater of two signed numbers.
    Smax,
    /// The lesser of two signed numbers.
    Smin,
    /// The greater of two unsigned numbers.
    Umax,
    /// The lesser of two unsigned numbers.
    Umin,
    /// The register in place of what was there.
    Swp,
}

impl AtomicRMWOp {
    ghost use Rattle.a64_ops.specs.Names.{atomic_rmw_op_name};

    /// Its name in assembly text.
    pub fn op_str(&self) -> &'static str
        ensures { result.now ≡ atomic_rmw_op_name self.now }
    {
        match self {
            AtomicRMWOp::Add => "ldaddal",
            AtomicRMWOp::Clr => "ldclral",
            AtomicRMWOp::Eor => "ldeoral",
            AtomicRMWOp::Set => "ldsetal",
            AtomicRMWOp::Smax => "ldsmaxal",
            AtomicRMWOp::Smin => "ldsminal",
            AtomicRMWOp::Umax => "ldumaxal",
            AtomicRMWOp::Umin => "lduminal",
            AtomicRMWOp::Swp => "swpal",
        }
    }
}

/// An atomic operation of memory and a register that is a loop of its own (Cranelift's `AtomicRMWLoopOp`).
#[derive(Clone, Copy, Debug, PartialEq, Eq)]
pub enum AtomicRMWLoopOp {
    /// Addition.
    Add,
    /// Subtraction of the operand.
    Sub,
    /// And.
    And,
    /// The complement of and.
    Nand,
    /// Exclusive or.
    Eor,
    /// Or.
    Orr,
    /// The greater of two signed numbers.
    Smax,
    /// The lesser of two signed numbers.
    Smin,
    /// The greater of two unsigned numbers.
    Umax,
    /// The lesser of two unsigned numbers.
    Umin,
    /// The operand in place of what was there.
    Xchg,
}

impl AtomicRMWLoopOp {
    ghost use Rattle.a64_ops.specs.Names.{atomic_rmw_loop_op_name};

    /// Its name in the text of a loop.
    pub fn op_str(&self) -> &'static str
        ensures { result.now ≡ atomic_rmw_loop_op_name self.now }
    {
        match self {
            AtomicRMWLoopOp::Add => "add",
            AtomicRMWLoopOp::Sub => "sub",
            AtomicRMWLoopOp::And => "and",
            AtomicRMWLoopOp::Nand => "nand",
            AtomicRMWLoopOp::Eor => "eor",
            AtomicRMWLoopOp::Orr => "orr",
            AtomicRMWLoopOp::Smax => "smax",
            AtomicRMWLoopOp::Smin => "smin",
            AtomicRMWLoopOp::Umax => "umax",
            AtomicRMWLoopOp::Umin => "umin",
            AtomicRMWLoopOp::Xchg => "xchg",
        }
    }
}
