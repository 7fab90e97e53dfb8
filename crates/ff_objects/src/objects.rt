//! The objects that a driver created.

ghost use Rattle.std.specs.Prelude.{◌≡◌, IsTrue, ◌↔◌, IfOk};
ghost use Rattle.ff_headers.specs.Objects.{IsWellFormed, no_objects};
ghost use Rattle.ff_store.specs.LimitedObjects.{none_within, with_change};

use ff_headers::{Change, Limits};
use ff_store::Store;
use std::alloc::{AllocError, Global};
use std::marker::Model;

/// Groups, classifiers and rules, within a device's limits. They are always well formed: each rule's group and
/// classifier are held, its key has the classifier's size, and no two groups have one priority.
#[derive(Drop)]
pub struct Objects {
    pub(crate) store: Store,
}

impl Model for Objects {
    ghost use Rattle.ff_store.specs.LimitedObjects.{LimitedObjects};

    ghost Value = { LimitedObjects };

    ghost view = { λ o. o.store };
}

impl Objects {
    /// Room for objects within the limits, and no object yet.
    pub fn new(alloc: Global, limits: &Limits) -> Result<Objects, AllocError>
        ensures { IfOk result (λ objects. objects ≡ none_within limits.now) }
    {
        Ok(Objects {
            store: Store::new(alloc, limits)?,
        })
    }

    /// Makes the change, where it is sound. Any other changes nothing.
    pub fn apply(&mut self, change: Change)
        ensures { self.new ≡ with_change self.old change }
    {
        self.store.apply(change)
    }

    /// Whether there is no object of any kind.
    pub fn is_empty(&self) -> bool
        ensures { IsTrue result ↔ (self.now.objects ≡ no_objects) }
    {
        self.store.is_empty()
    }

    /// The limits within which there is room.
    pub fn limits(&self) -> &Limits
        ensures value { result.now ≡ self.now.limits }
        ensures well_formed { IsWellFormed self.now.limits self.now.objects }
    {
        self.store.limits()
    }
}
