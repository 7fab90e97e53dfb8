//! A table of specs by location.
ghost use Rattle.std.specs.Prelude.{◌≡◌, ◌<◌, ◌≤◌, IfOk, IfSome, count_by, is_some, length, vec_len};
ghost use Rattle.std.specs.Option.{option_copied};
ghost use Rattle.ntuple_text.specs.Spellable.{IsSpellable, IsTable};
ghost use Rattle.ntuple_text.specs.TableMaps.{empty_table, free_slots, last_free, location_count, most_pairs, spec_at};
ghost use Rattle.ntuple_text.specs.TableMaps.{spec_count, with_spec, without_spec};

use crate::spec::Spec;
use crate::value::LOCATION_COUNT;
use std::alloc::{AllocError, Global};
use std::marker::Model;

/// A table of at most one spec for each of the locations 0 to 1023, for so many queue pairs.
#[derive(Debug, Drop)]
pub struct Table {
    pairs: u8,
    slots: Vec<Option<Spec>>,
}

impl Model for Table {
    ghost use Rattle.ntuple_text.specs.TableMaps.{TableMap};

    ghost Value = { TableMap };

    ghost use Rattle.ntuple_text.specs.Spellable.{IsTable};

    ghost view = { λ t. record { pairs = t.pairs; slots = t.slots.items } };

    ghost invariant = { λ t. IsTable t.pairs t.slots.items };
}

impl Table {
    /// A table without a spec for 1 to 16 queue pairs. It takes the room of all 1,024 locations, so `set` takes no
    /// memory.
    pub fn empty(alloc: Global, pairs: u8) -> Result<Table, AllocError>
        requires some_pairs { 1 ≤ pairs }
        requires few_pairs { pairs ≤ most_pairs }
        ensures { IfOk result (λ table. table ≡ empty_table pairs) }
    {
        Ok(Table {
            pairs,
            slots: free_slots(alloc, LOCATION_COUNT as usize)?,
        })
    }

    /// The spec at a location, if one stands there.
    pub fn at(&self, loc: u16) -> Option<&Spec>
        ensures value { option_copied result ≡ spec_at self.now loc }
        ensures spellable { IfSome result (λ spec. (spec.now.loc ≡ loc) × IsSpellable self.now.pairs spec.now) }
    {
        match self.slots.get(usize::from(loc)) {
            Some(slot) => slot.as_ref(),
            None => None,
        }
    }

    /// How many specs there are.
    pub fn len(&self) -> usize
        ensures value { result ≡ spec_count self.now }
        ensures most { result ≤ location_count }
    {
        count_specs(&self.slots)
    }

    /// The queue pairs that the table's queues are below.
    pub(crate) fn pairs(&self) -> u8
        ensures value { result ≡ self.now.pairs }
        ensures table { IsTable self.now.pairs self.now.slots }
    {
        self.pairs
    }

    /// What stands at each location, from 0 up.
    pub fn slots(&self) -> &[Option<Spec>]
        ensures value { result.now ≡ self.now.slots }
        ensures table { IsTable self.now.pairs self.now.slots }
    {
        &self.slots
    }

    /// Puts a spec, which a line can spell for the table's queue pairs, at its location, in the place of the one that
    /// stood there. All other locations stay as they are, and it takes no memory.
    pub fn set(&mut self, spec: Spec)
        requires { IsSpellable self.old.pairs spec }
        ensures { self.new ≡ with_spec self.old spec }
    {
        self.slots[usize::from(spec.loc)] = Some(spec);
    }

    /// Takes the spec at a location out of the table.
    pub(crate) fn remove(&mut self, loc: u16)
        requires { loc < location_count }
        ensures { self.new ≡ without_spec self.old loc }
    {
        self.slots[usize::from(loc)] = None;
    }

    /// The largest free location.
    pub(crate) fn last_free(&self) -> Option<u16>
        ensures { result ≡ last_free self.now.slots }
    {
        match last_free(&self.slots) {
            Some(place) => Some(place as u16),
            None => None,
        }
    }
}

// So many free locations.
fn free_slots(alloc: Global, count: usize) -> Result<Vec<Option<Spec>>, AllocError>
    ensures slots { IfOk result (λ slots. slots.items ≡ free_slots count) }
    ensures len { IfOk result (λ slots. vec_len slots ≡ count) }
{
    let mut slots = Vec::with_capacity(alloc, count)?;
    for _ in 0..count {
        slots.push_reserved(None);
    }
    Ok(slots)
}

fn count_specs(slots: &[Option<Spec>]) -> usize
    ensures { result ≡ count_by is_some slots.now }
{
    let mut count = 0;
    for slot in slots {
        if slot.is_some() {
            count += 1;
        }
    }
    count
}

// The largest place that is free.
fn last_free(slots: &[Option<Spec>]) -> Option<usize>
    ensures value { result ≡ last_free slots.now }
    ensures bound { IfSome result (λ place. place < length slots.now) }
{
    let mut end = slots.len();
    while end > 0 {
        end -= 1;
        if slots[end].is_none() {
            return Some(end);
        }
    }
    None
}
