//! A map of bounded size from ids to objects.
ghost use Rattle.std.specs.Prelude.{◌≡◌, ◌<◌, ◌↔◌, [], IsSome, IsNone, IfOk, OnOk, OnErr, length, slice_get};
ghost use Rattle.std.specs.Option.{ok_or, option_copied, option_map};
ghost use Rattle.res_objects.specs.Answers.{create_answer};
ghost use Rattle.res_objects.specs.BoundedMap.{object_of, with_object, without_object, deref_object, IsBounded};

use crate::error::ObjErr;
use crate::id_index::IdIndex;
use crate::slots::Slots;
use std::alloc::{AllocError, Global};
use std::marker::Model;

/// A map from ids to objects with a fixed room. No call but `new` takes memory.
#[derive(Drop)]
pub struct ObjMap<T> {
    index: IdIndex,
    slots: Slots<T>,
    room: usize,
}

impl<T> Model for ObjMap<T> {
    ghost use Rattle.res_objects.specs.BoundedMap.{BoundedMap, bounded_map_code};
    ghost use Rattle.res_objects.specs.Linked.{map_of, IsObjects};

    ghost Value = { BoundedMap T };

    ghost coded = { bounded_map_code T.code };

    ghost view = { λ m. map_of m.index m.slots m.room };

    ghost invariant = { λ m. IsObjects m.index m.slots m.room };
}

impl<T: Drop> ObjMap<T> {
    /// A map with no entry and room for `room` of them. All of the room is reserved here.
    pub fn new(alloc: Global, room: usize) -> Result<ObjMap<T>, AllocError>
        ensures empty { IfOk result (λ map. map.entries ≡ []) }
        ensures room { IfOk result (λ map. map.room ≡ room) }
        ensures bounded { IfOk result IsBounded }
    {
        // There are 2^32 ids, so no map has more entries.
        let most = room.min(1 << 32);
        Ok(ObjMap {
            index: IdIndex::new(alloc, most)?,
            slots: Slots::new(alloc, most)?,
            room,
        })
    }

    /// Holds an object under a new id.
    pub fn create(&mut self, id: u32, object: T) -> Result<(), ObjErr>
        ensures answer { result ≡ create_answer self.old id }
        ensures ok { OnOk result (self.new ≡ with_object self.old id object) }
        ensures err { OnErr result (self.new ≡ self.old) }

        // What `answer` says of each refusal, one at a time.
        ensures exists { (result ≡ Err ObjErr.Exists) ↔ IsSome (object_of self.old id) }
        ensures full { (result ≡ Err ObjErr.Full)
            ↔ (IsNone (object_of self.old id) × (length self.old.entries ≡ self.old.room)) }
        ensures bounded { IsBounded self.new }
    {
        if self.index.slot_of(id).is_some() {
            return Err(ObjErr::Exists);
        }
        let held = self.index.len();
        if held == self.room {
            return Err(ObjErr::Full);
        }
        let slot = self.slots.put(object);
        self.index.insert(id, slot);
        Ok(())
    }

    /// Puts another object in the place of the one under the id, and gives that one.
    pub fn modify(&mut self, id: u32, object: T) -> Result<T, ObjErr>
        ensures answer { result ≡ ok_or (object_of self.old id) ObjErr.Missing }
        ensures ok { OnOk result (self.new ≡ with_object self.old id object) }
        ensures err { OnErr result (self.new ≡ self.old) }
        ensures bounded { IsBounded self.new }
    {
        let Some(slot) = self.index.slot_of(id) else {
            return Err(ObjErr::Missing);
        };
        Ok(self.slots.replace(slot, object))
    }

    /// The object under the id.
    pub fn query(&self, id: u32) -> Option<&T>
        ensures value { option_copied result ≡ object_of self.now id }
        ensures bounded { IsBounded self.now }
    {
        match self.index.slot_of(id) {
            Some(slot) => Some(self.slots.get(slot)),
            None => None,
        }
    }

    /// Takes the object under the id out of the map.
    pub fn destroy(&mut self, id: u32) -> Result<T, ObjErr>
        ensures answer { result ≡ ok_or (object_of self.old id) ObjErr.Missing }
        ensures ok { OnOk result (self.new ≡ without_object self.old id) }
        ensures err { OnErr result (self.new ≡ self.old) }
        ensures bounded { IsBounded self.new }
    {
        match self.index.remove(id) {
            Some(slot) => Ok(self.slots.take(slot)),
            None => Err(ObjErr::Missing),
        }
    }

    /// How many entries there are.
    pub fn len(&self) -> usize
        ensures value { result ≡ length self.now.entries }
        ensures bounded { IsBounded self.now }
    {
        self.index.len()
    }

    /// The entry with the place-th least id, counted from 0.
    pub fn at(&self, place: usize) -> Option<(u32, &T)>
        ensures value { option_map deref_object result ≡ slice_get self.now.entries place }
        ensures variant { IsSome result ↔ (place < length self.now.entries) }
        ensures bounded { IsBounded self.now }
    {
        match self.index.at(place) {
            Some((id, slot)) => Some((id, self.slots.get(slot))),
            None => None,
        }
    }
}
