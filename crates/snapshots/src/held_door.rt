//! A door that is held shut for a while, for tests.

ghost use Rattle.std.specs.Prelude.{◌≡◌, ◌+◌, ◌<◌, ◌≤◌, MatchResult, IsErr};
ghost use Rattle.vnff_base.specs.Counts.{Rose};
ghost use Rattle.snapshots.specs.Reads.{IsRead};

use crate::door::{Door, Shut};
use crate::seen::Seen;
use crate::told::Told;
use ff_headers::Headers;
use std::marker::Model;

/// A door that refuses the first looks, and then hands on each call to the one within.
#[derive(Drop)]
pub struct HeldDoor<D: Door> {
    inner: D,
    /// Looks that are still to be refused.
    left: u64,
    /// Looks that this door refused.
    refusals: u64,
}

impl<D: Door> Model for HeldDoor<D> {
    ghost use Rattle.ff_headers.specs.Changes.{saturated};
    ghost use Rattle.snapshots.specs.Workers.{HeldState};
    ghost use Rattle.std.specs.Prelude.{◌+◌};

    ghost Value = { HeldState };

    ghost view = { λ h. record {
      door = record {
        identity = D.identity h.inner;
        limits = D.limits h.inner;
        floors = D.floors h.inner;
        refused = saturated (D.refused h.inner + h.refusals);
      };
      left = h.left;
    } };
}

impl<D: Door> HeldDoor<D> {
    /// A door that refuses so many looks before it hands any on.
    pub fn new(inner: D, n: u64) -> HeldDoor<D>
        ensures identity { result.door.identity ≡ D.identity inner }
        ensures limits { result.door.limits ≡ D.limits inner }
        ensures floors { result.door.floors ≡ D.floors inner }
        ensures left { result.left ≡ n }
    {
        HeldDoor {
            inner,
            left: n,
            refusals: 0,
        }
    }
}

impl<D: Door> Door for HeldDoor<D> {
    ghost identity = { λ h. h.door.identity };

    ghost limits = { λ h. h.door.limits };

    ghost floors = { λ h. h.door.floors };

    ghost refused = { λ h. h.door.refused };

    fn look(&mut self, headers: &Headers) -> Result<Seen, Shut>
        ensures same_identity { self.new.door.identity ≡ self.old.door.identity }
        ensures same_limits { self.new.door.limits ≡ self.old.door.limits }
        ensures counts { self.old.door.refused ≤ self.new.door.refused }
        ensures answer { MatchResult result
            (λ seen. IsRead self.old.door.limits self.old.door.floors self.new.door.floors headers.now seen)
            (λ _. Rose self.old.door.refused self.new.door.refused × (self.new.door.floors ≡ self.old.door.floors)) }
        ensures refuses { 0 < self.old.left → IsErr result × (self.new.left + 1 ≡ self.old.left) }
        ensures passes { self.old.left ≡ 0 → self.new.left ≡ 0 }
    {
        if self.left == 0 {
            return self.inner.look(headers);
        }
        self.left -= 1;
        self.refusals = self.refusals.saturating_add(1);
        Err(Shut)
    }

    fn learn(&mut self, told: Told) {
        self.inner.learn(told);
    }
}
