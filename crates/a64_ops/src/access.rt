//! The loads and stores of one register.

ghost use Rattle.std.specs.Prelude.{◌≡◌};
ghost use Rattle.a64_ops.specs.AccessFields.{size_of, vector_of, opc_of};
ghost use Rattle.a64_ops.specs.Accesses.{moves_vector, loads, literal_of};

use crate::{access_literals, access_loads, access_opcs, access_sizes, access_vectors};

/// A load or a store of one register, named as Cranelift's instruction for it.
///
/// `U` loads fill the register with zeros above the value, `S` loads with its sign, up to 64 bits.
#[derive(Clone, Copy, Debug, PartialEq, Eq)]
pub enum AccessOp {
    /// Load of an unsigned byte.
    ULoad8,
    /// Load of a signed byte.
    SLoad8,
    /// Load of an unsigned halfword.
    ULoad16,
    /// Load of a signed halfword.
    SLoad16,
    /// Load of an unsigned word.
    ULoad32,
    /// Load of a signed word.
    SLoad32,
    /// Load of a doubleword.
    ULoad64,
    /// Load of 16 bits into a vector register.
    FpuLoad16,
    /// Load of 32 bits into a vector register.
    FpuLoad32,
    /// Load of 64 bits into a vector register.
    FpuLoad64,
    /// Load of a whole vector register.
    FpuLoad128,
    /// Store of the lowest byte.
    Store8,
    /// Store of the lowest halfword.
    Store16,
    /// Store of the lowest word.
    Store32,
    /// Store of a doubleword.
    Store64,
    /// Store of the lowest 16 bits of a vector register.
    FpuStore16,
    /// Store of the lowest 32 bits of a vector register.
    FpuStore32,
    /// Store of the lowest 64 bits of a vector register.
    FpuStore64,
    /// Store of a whole vector register.
    FpuStore128,
}

impl AccessOp {
    /// The size field of its word, 0 to 3.
    pub fn size_field(self) -> u32
        ensures { result ≡ size_of self }
    {
        access_sizes!(self)
    }

    /// The bit V of its word: 1 where its register is a vector register.
    pub fn vector_field(self) -> u32
        ensures { result ≡ vector_of self }
    {
        if self.is_vector() { 1 } else { 0 }
    }

    /// Whether its register is a vector register.
    pub fn is_vector(self) -> bool
        ensures { result ≡ moves_vector self }
    {
        access_vectors!(self)
    }

    /// The field opc of its word, 0 to 3.
    pub fn opc_field(self) -> u32
        ensures { result ≡ opc_of self }
    {
        access_opcs!(self)
    }

    /// Whether it loads.
    pub fn is_load(self) -> bool
        ensures { result ≡ loads self }
    {
        access_loads!(self)
    }

    /// The field opc of its word with a literal, 0 to 2, where it has such a form.
    #[inline(always)]
    pub fn literal_field(self) -> Option<u32>
        ensures { result ≡ literal_of self }
    {
        access_literals!(self)
    }
}
