//! The index of a map: from ids to slots, by rising id.
ghost use Rattle.std.specs.Prelude.{◌≡◌, ◌<◌, ◌^◌, [], None, IfOk, IfErr, IfNone, length, slice_get};
ghost use Rattle.std.specs.BTreeMap.{insert_entry, is_at};
ghost use Rattle.std.specs.List.Sorted.{IsStrictlySortedBy};
ghost use Rattle.std.specs.Map.{keys_of, lookup, remove_entry};
ghost use Rattle.std.specs.Ordering.{nat_cmp};
ghost use Rattle.res_objects.specs.Places.{IsAt, IsGapFor};

use std::alloc::{AllocError, Global};
use std::marker::Model;

/// A map from ids to slots, whose room is reserved when it is made.
#[derive(Drop)]
pub(crate) struct IdIndex {
    // an id and its slot, sorted by id
    entries: Vec<(u32, u32)>,
}

impl Model for IdIndex {
    ghost use Rattle.std.specs.Prelude.{vec_capacity};
    ghost use Rattle.res_objects.specs.Linked.{SlotIndex};
    ghost use Rattle.res_objects.specs.Places.{IsIdIndex};

    ghost Value = { SlotIndex };

    ghost view = { λ i. record { slots = i.entries.items; room = vec_capacity i.entries } };

    ghost invariant = { λ i. IsIdIndex i.entries.items };
}

impl IdIndex {
    /// No id, and room for this many.
    pub(crate) fn new(alloc: Global, room: usize) -> Result<IdIndex, AllocError>
        ensures empty { IfOk result (λ index. index.slots ≡ []) }
        ensures room { IfOk result (λ index. index.room ≡ room) }
    {
        Ok(IdIndex {
            entries: Vec::with_capacity(alloc, room)?,
        })
    }

    /// How many ids there are.
    pub(crate) fn len(&self) -> usize
        ensures { result ≡ length self.now.slots }
    {
        self.entries.len()
    }

    /// The slot of an id. There are 2^32 ids, so fewer are held where one isn't.
    pub(crate) fn slot_of(&self, id: u32) -> Option<u32>
        ensures value { result ≡ lookup (is_at (nat_cmp id)) self.now.slots }
        ensures spare { IfNone result (length self.now.slots < 2 ^ 32) }
    {
        match self.place_of(id) {
            Ok(place) => Some(self.entries[place].1),
            Err(_) => None,
        }
    }

    /// The id and the slot at a place, by rising id.
    pub(crate) fn at(&self, place: usize) -> Option<(u32, u32)>
        ensures { result ≡ slice_get self.now.slots place }
    {
        self.entries.get(place).copied()
    }

    /// Adds an id.
    pub(crate) fn insert(&mut self, id: u32, slot: u32)
        requires absent { lookup (is_at (nat_cmp id)) self.old.slots ≡ None }
        requires room { length self.old.slots < self.old.room }
        ensures slots { self.new.slots ≡ insert_entry nat_cmp self.old.slots id slot }
        ensures ordered { IsStrictlySortedBy nat_cmp (keys_of self.new.slots) }
        ensures room { self.new.room ≡ self.old.room }
    {
        if let Err(place) = self.place_of(id) {
            // The room is reserved, so this takes no memory and can't fail.
            self.entries.insert(place, (id, slot)).unwrap();
        }
    }

    /// Takes an id out, and gives its slot.
    pub(crate) fn remove(&mut self, id: u32) -> Option<u32>
        ensures value { result ≡ lookup (is_at (nat_cmp id)) self.old.slots }
        ensures slots { self.new.slots ≡ remove_entry (is_at (nat_cmp id)) self.old.slots }
        ensures missing { IfNone result (self.new ≡ self.old) }
        ensures ordered { IsStrictlySortedBy nat_cmp (keys_of self.new.slots) }
        ensures room { self.new.room ≡ self.old.room }
    {
        match self.place_of(id) {
            Ok(place) => Some(self.entries.remove(place).1),
            Err(_) => None,
        }
    }

    // Where the id stands, or where it would go. Found by halving.
    fn place_of(&self, id: u32) -> Result<usize, usize>
        ensures found { IfOk result (IsAt self.now.slots id) }
        ensures absent { IfErr result (IsGapFor self.now.slots id) }
    {
        self.entries.binary_search_by_key(&id, |&(held, _)| held)
    }
}
