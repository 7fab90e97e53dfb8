//! A list over a vector, which contracts see as the list of its items and nothing else.
//!
//! The crates above keep what they read and write in it: a `Vec` in a contract carries its room
//! and where it lies, which no answer of the product depends on.
ghost use Rattle.std.specs.Prelude.{◌≡◌, ◌≤◌, ◌==◌, ◌↔◌, [], ◌∷◌, ◌++◌, length, slice_get, IsNone, OnOk, OnErr};
ghost use Rattle.std.specs.Option.{option_copied};

use std::alloc::{AllocError, Global};
use std::marker::Model;

/// Items in order, of any number that memory holds.
#[derive(Debug, Drop)]
pub struct List<T: Drop> {
    items: Vec<T>,
}

impl<T: Drop> Model for List<T> {
    ghost use Rattle.std.specs.Prelude.{List as Items};

    ghost Value = { Items T };

    ghost view = { λ list. list.items.items };
}

impl<T: Drop> List<T> {
    /// No items. It takes no memory before the first `push`.
    pub fn new(alloc: Global) -> List<T>
        ensures { result ≡ [] }
    {
        List {
            items: Vec::new(alloc),
        }
    }

    /// The items as the vector that holds them.
    pub fn into_vec(self) -> Vec<T>
        ensures { result.items ≡ self }
    {
        let List { items } = self;
        items
    }

    /// Appends an item. Where memory runs out the item is dropped.
    pub fn push(&mut self, item: T) -> Result<(), AllocError>
        ensures ok { OnOk result (self.new ≡ self.old ++ item ∷ []) }
        ensures err { OnErr result (self.new ≡ self.old) }
    {
        self.items.push(item)?;
        Ok(())
    }

    /// The number of items.
    pub fn len(&self) -> usize
        ensures { result ≡ length self.now }
    {
        self.items.len()
    }

    /// Whether there is no item.
    pub fn is_empty(&self) -> bool
        ensures { result ≡ (length self.now == 0) }
    {
        self.items.is_empty()
    }

    /// The whole list.
    pub fn as_slice(&self) -> &[T]
        ensures { result.now ≡ self.now }
    {
        self.items.as_slice()
    }

    /// The item at a place, counted from 0.
    pub fn at(&self, place: usize) -> Option<&T>
        ensures item { option_copied result ≡ slice_get self.now place }
        ensures past { IsNone result ↔ (length self.now ≤ place) }
    {
        self.items.as_slice().get(place)
    }
}

/// The items of a vector, whose memory the list keeps.
impl<T: Drop> From<Vec<T>> for List<T> {
    ghost from_gives = { λ vec list. list ≡ vec.items };

    fn from(items: Vec<T>) -> List<T> {
        List { items }
    }
}
