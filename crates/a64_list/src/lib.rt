//! A vector that contracts see as the list of its items.
#![tactic(auto)]

ghost use Rattle.std.specs.Prelude.{◌≡◌, [], ◌∷◌, ◌++◌, IfOk, OnOk, OnErr, length, ◌==◌};

use std::alloc::{AllocError, Global};
use std::marker::Model;

/// A vector that contracts see as the list of its items.
///
/// A value that holds one, as an instruction with a list of labels, is then compared in
/// contracts by its items, and not by its address and capacity. It takes 16 bytes, and a new one no
/// memory: address, length and capacity of the items stand in a box, which the first item makes.
#[derive(Drop)]
pub struct ListVec<T> {
    alloc: Global,
    items: Option<Box<Vec<T>>>,
}

impl<T> Model for ListVec<T> {
    ghost use Rattle.std.specs.Prelude.{List};
    ghost use Rattle.a64_list.specs.Items.{items_or_none};

    ghost Value = { List T };

    ghost view = { λ l. items_or_none (λ vector. vector.value.items) l.items };
}

impl<T: Drop> ListVec<T> {
    /// The empty list. It takes no memory.
    pub fn new(alloc: Global) -> Self
        ensures { result ≡ [] }
    {
        ListVec { alloc, items: None }
    }

    /// The items of a vector.
    ///
    /// # Errors
    ///
    /// Want of memory.
    pub fn from_vec(alloc: Global, items: Vec<T>) -> Result<Self, AllocError>
        ensures { IfOk result (λ l. l ≡ items.items) }
    {
        let items = Box::new(alloc, items)?;
        Ok(ListVec {
            alloc,
            items: Some(items),
        })
    }

    /// The items.
    pub fn as_slice(&self) -> &[T]
        ensures { result.now ≡ self.now }
    {
        match &self.items {
            Some(items) => items.as_slice(),
            None => &[],
        }
    }

    /// The number of items.
    pub fn len(&self) -> usize
        ensures { result ≡ length self.now }
    {
        self.as_slice().len()
    }

    /// Whether there are no items.
    pub fn is_empty(&self) -> bool
        ensures { result ≡ (length self.now == 0) }
    {
        self.as_slice().is_empty()
    }

    /// Adds an item at the end.
    ///
    /// # Errors
    ///
    /// Want of memory, and then nothing has changed.
    pub fn push(&mut self, item: T) -> Result<(), AllocError>
        ensures ok { OnOk result (self.new ≡ self.old ++ item ∷ []) }
        ensures err { OnErr result (self.new ≡ self.old) }
    {
        match &mut self.items {
            Some(items) => items.push(item)?,
            None => {
                let mut items = Vec::new(self.alloc);
                items.push(item)?;
                self.items = Some(Box::new(self.alloc, items)?);
            }
        }
        Ok(())
    }
}

impl<T: Copy> ListVec<T> {
    /// A list of the same items.
    ///
    /// # Errors
    ///
    /// Want of memory.
    pub fn try_clone(&self, alloc: Global) -> Result<Self, AllocError>
        ensures { IfOk result (λ l. l ≡ self.now) }
    {
        let mut list = ListVec::new(alloc);
        if let Some(items) = &self.items {
            let mut copies = Vec::new(alloc);
            copies.extend_from_slice(items.as_slice())?;
            list.items = Some(Box::new(alloc, copies)?);
        }
        Ok(list)
    }
}
