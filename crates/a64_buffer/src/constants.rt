//! The constants that code may load.

ghost use Rattle.std.specs.Prelude.{◌≡◌, ◌^◌, ◌<◌, ◌⊎◌, length, option_map, IfSome, IsSome, is_some, not, IfOk, OnOk, OnErr, if◌then◌else◌};
ghost use Rattle.std.specs.FinMap as map;
ghost use Rattle.a64_buffer.specs.Constants as constants;
ghost use Rattle.a64_buffer.specs.Constants.{IsConstant, inserted};

use crate::content::Content;
use a64_base::VCodeConstant;
use a64_label_map::LabelMap;
use std::alloc::{AllocError, Global};
use std::marker::Model;

/// The constants that code may load, by their numbers.
#[derive(Drop)]
pub struct Constants {
    /// The bytes of each, so that a load of one costs a step of a table.
    contents: LabelMap<Content>,
}

impl Model for Constants {
    ghost use Rattle.std.specs.Prelude.{ℕ, List};
    ghost use Rattle.std.specs.Ordering.{nat_cmp};
    ghost use Rattle.std.specs.FinMap.{FinMap, code};
    ghost use Rattle.std.specs.Coded.{coded_ℕ, coded_list};
    ghost use Rattle.a64_buffer.specs.Constants.{contents_bytes};

    ghost Value = { FinMap nat_cmp (List ℕ) };

    ghost coded = { code {R = nat_cmp} coded_ℕ (coded_list coded_ℕ) };

    ghost view = { λ c. contents_bytes c.contents };
}

impl Constants {
    /// No constants. It takes no memory.
    pub fn new(alloc: Global) -> Constants
        ensures { result ≡ map.empty }
    {
        Constants {
            contents: LabelMap::new(alloc),
        }
    }

    /// Adds a constant of 4, 8 or 16 bytes. Where its number has a constant already, it answers `false`,
    /// and nothing has changed.
    ///
    /// # Errors
    ///
    /// Want of memory, and then nothing has changed.
    pub fn insert(&mut self, constant: VCodeConstant, bytes: &[u8]) -> Result<bool, AllocError>
        requires { IsConstant bytes.now }
        ensures answer { IfOk result (λ new. new ≡ not (is_some (map.get self.old constant.0))) }
        ensures ok { OnOk result (self.new ≡ inserted self.old constant.0 bytes.now) }
        ensures err { OnErr result (self.new ≡ self.old) }
    {
        if self.contents.contains(constant.0) {
            return Ok(false);
        }
        self.contents.insert(constant.0, Content::new(bytes))?;
        Ok(true)
    }

    /// The bytes of a constant; `None` where its number has none.
    pub fn bytes_of(&self, constant: VCodeConstant) -> Option<&[u8]>
        ensures is { option_map (λ b. b.now) result ≡ map.get self.now constant.0 }
        ensures sized { IfSome result (λ b. IsConstant b.now) }
    {
        match self.contents.get_ref(constant.0) {
            Some(content) => Some(content.as_slice()),
            None => None,
        }
    }

    /// That each constant has 4, 8 or 16 bytes. The call does nothing else.
    #[inline(always)]
    pub(crate) fn are_sized(&self)
        ensures { constants.AreConstants self.now }
    {
        let _ = &self.contents;
    }

    /// How many bytes a constant has; `None` where its number has none.
    #[inline(always)]
    pub fn size_of(&self, constant: VCodeConstant) -> Option<u32>
        ensures { result ≡ option_map length (map.get self.now constant.0) }
    {
        match self.contents.get(constant.0) {
            Some(content) => Some(content.size()),
            None => None,
        }
    }
}
