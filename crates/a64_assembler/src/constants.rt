//! Constants that code may load, with numbers that are given out one after another.

ghost use Rattle.std.specs.Prelude.{◌≡◌, ◌+◌, Err, IfOk, OnOk, OnErr};
ghost use Rattle.std.specs.FinMap.{empty, insert};
ghost use Rattle.a64_assembler.specs.declared.error.AddError.TheVariants.{TooMany, BadLength};
ghost use Rattle.a64_buffer.specs.Constants.{IsConstant};
ghost use Rattle.a64_assembler.specs.Assembly.{IsFull};

use crate::error::AddError;
use a64_base::VCodeConstant;
use a64_buffer::Constants;
use std::alloc::Global;
use std::marker::Model;

/// The most constants that there may be.
const MOST: u32 = u32::MAX;

/// Constants that code may load (Cranelift's `VCodeConstants`): each gets the next number.
#[derive(Drop)]
pub struct VCodeConstants {
    constants: Constants,
    numbers: u32,
}

impl Model for VCodeConstants {
    ghost use Rattle.std.specs.Ordering.{nat_cmp};
    ghost use Rattle.std.specs.FinMap.{code};
    ghost use Rattle.std.specs.Coded.{codes, coded_ℕ, coded_list};
    ghost use Rattle.a64_assembler.specs.Assembly.{Pool, IsFresh};

    ghost Value = { Pool };

    ghost coded = { Prim.hlevel (codes, code {R = nat_cmp} coded_ℕ (coded_list coded_ℕ)) };

    ghost view = { λ a. record { constants = a.constants; numbers = a.numbers } };

    ghost invariant = { λ a. IsFresh a.constants a.numbers };
}

impl VCodeConstants {
    /// No constants. It takes no memory.
    pub fn new(alloc: Global) -> VCodeConstants
        ensures { result ≡ record { constants = empty; numbers = 0 } }
    {
        VCodeConstants {
            constants: Constants::new(alloc),
            numbers: 0,
        }
    }

    /// Adds a constant of 4, 8 or 16 bytes, and gives its number.
    ///
    /// # Errors
    ///
    /// [`AddError::BadLength`], [`AddError::TooMany`], or want of memory. Then nothing has changed.
    #[tactic(auto, using(crate::proofs::Fresh::still_fresh, crate::proofs::Fresh::inserted_is))]
    pub fn insert(&mut self, bytes: &[u8]) -> Result<VCodeConstant, AddError>
        ensures ok { IfOk result (λ constant. constant.0 ≡ self.old.numbers) }
        ensures added { OnOk result (IsConstant bytes.now × (self.new ≡ record {
          constants = insert self.old.constants self.old.numbers bytes.now;
          numbers = self.old.numbers + 1;
        })) }
        ensures err { OnErr result (self.new ≡ self.old) }
        ensures length { result ≡ Err BadLength → IsConstant bytes.now → ⊥ }
        ensures many { result ≡ Err TooMany → IsFull self.old.numbers 1 }
    {
        if !matches!(bytes.len(), 4 | 8 | 16) {
            return Err(AddError::BadLength);
        }
        if self.numbers == MOST {
            return Err(AddError::TooMany);
        }
        let constant = VCodeConstant(self.numbers);
        self.constants.insert(constant, bytes)?;
        self.numbers += 1;
        Ok(constant)
    }

    /// The constants by their numbers.
    pub fn constants(&self) -> &Constants
        ensures { result.now ≡ self.now.constants }
    {
        &self.constants
    }
}
