//! Slots for objects, all reserved when they are made. A slot that was given back is used again.
ghost use Rattle.std.specs.Prelude.{◌≡◌, ◌+◌, ◌<◌, ◌≤◌, ◌^◌, [], Some, None, IsSome, IfOk};
ghost use Rattle.res_objects.specs.Linked.{object_in, held_count, ChangesSlot};

use std::alloc::{AllocError, Global};
use std::marker::Model;

/// Slots numbered from 0, each with an object or free.
#[derive(Drop)]
pub(crate) struct Slots<T> {
    // what stands in each slot that was ever used
    cells: Vec<Option<T>>,
    // the used slots that hold nothing now
    free: Vec<u32>,
}

impl<T> Model for Slots<T> {
    ghost use Rattle.std.specs.Prelude.{vec_capacity};
    ghost use Rattle.res_objects.specs.Linked.{SlotTable, slot_table_code, HasFree};

    ghost Value = { SlotTable T };

    ghost coded = { slot_table_code T.code };

    ghost view = { λ s. record { cells = s.cells.items; room = vec_capacity s.cells } };

    ghost invariant = { λ s. HasFree s.cells.items s.free.items (vec_capacity s.cells) (vec_capacity s.free) };
}

impl<T: Drop> Slots<T> {
    /// No object, and this many slots.
    pub(crate) fn new(alloc: Global, room: usize) -> Result<Slots<T>, AllocError>
        requires { room ≤ 2 ^ 32 }
        ensures empty { IfOk result (λ slots. slots.cells ≡ []) }
        ensures room { IfOk result (λ slots. slots.room ≡ room) }
    {
        Ok(Slots {
            cells: Vec::with_capacity(alloc, room)?,
            free: Vec::with_capacity(alloc, room)?,
        })
    }

    /// Puts an object into a free slot, and gives its number.
    pub(crate) fn put(&mut self, object: T) -> u32
        requires { held_count self.old.cells < self.old.room }
        ensures was_free { object_in self.old.cells result ≡ None }
        ensures changes { ChangesSlot self.old.cells self.new.cells result (Some object) }
        ensures count { held_count self.new.cells ≡ held_count self.old.cells + 1 }
        ensures room { self.new.room ≡ self.old.room }
    {
        match self.free.pop() {
            Some(slot) => {
                self.cells[slot as usize] = Some(object);
                slot
            }
            None => {
                let slot = self.cells.len() as u32;
                self.cells.push_reserved(Some(object));
                slot
            }
        }
    }

    /// The object in a slot.
    pub(crate) fn get(&self, slot: u32) -> &T
        requires { IsSome (object_in self.now.cells slot) }
        ensures { object_in self.now.cells slot ≡ Some result.now }
    {
        self.cells[slot as usize].as_ref().unwrap()
    }

    /// Puts another object into a slot, and gives the one that stood there.
    pub(crate) fn replace(&mut self, slot: u32, object: T) -> T
        requires { IsSome (object_in self.old.cells slot) }
        ensures before { object_in self.old.cells slot ≡ Some result }
        ensures changes { ChangesSlot self.old.cells self.new.cells slot (Some object) }
        ensures count { held_count self.new.cells ≡ held_count self.old.cells }
        ensures room { self.new.room ≡ self.old.room }
    {
        self.cells[slot as usize].replace(object).unwrap()
    }

    /// Takes the object out of a slot, which is free from then on.
    pub(crate) fn take(&mut self, slot: u32) -> T
        requires { IsSome (object_in self.old.cells slot) }
        ensures before { object_in self.old.cells slot ≡ Some result }
        ensures changes { ChangesSlot self.old.cells self.new.cells slot None }
        ensures count { held_count self.new.cells + 1 ≡ held_count self.old.cells }
        ensures room { self.new.room ≡ self.old.room }
    {
        let object = self.cells[slot as usize].take().unwrap();
        self.free.push_reserved(slot);
        object
    }
}
