//! The lists that each later read of a door must begin with. They exist in contracts alone, and take no memory.

ghost use Rattle.std.specs.Prelude.{◌≡◌, [], ◌∷◌, ◌++◌};

use crate::trail::Trail;
use std::marker::Model;
use std::snapshot::Snapshot;

/// How the floors came about.
#[cycle(floors)]
#[derive(Drop)]
pub(crate) enum FloorSteps {
    First,
    Only(Snapshot<Trail>),
    More(Snapshot<Floors>, Snapshot<Trail>),
}

/// Lists of changes, in the order in which they came.
#[cycle(floors)]
#[derive(Drop)]
pub(crate) struct Floors {
    steps: FloorSteps,
}

impl Model for Floors {
    ghost use Rattle.std.specs.Prelude.{List, length};
    ghost use Rattle.ff_headers.specs.declared.change.Change.{Change};

    ghost Value = { List (List Change) };

    ghost use Rattle.snapshots.specs.FloorSteps.{floors_of};

    ghost view = { λ f. floors_of f.steps };

    ghost size = { length };

    ghost use Rattle.std.proofs.Common.{arith, length-append};

    ghost size_decreases = { λ a h. Prim.grind (arith, length-append) };
}

impl Floors {
    /// The empty list, with which each list begins.
    pub(crate) fn first() -> Floors
        ensures { result ≡ [] ∷ [] }
    {
        Floors {
            steps: FloorSteps::First,
        }
    }

    /// This list alone.
    pub(crate) fn only(trail: &Trail) -> Floors
        ensures { result ≡ trail.now.list ∷ [] }
    {
        Floors {
            steps: FloorSteps::Only(Snapshot::of(trail)),
        }
    }

    /// One list more.
    pub(crate) fn and(&self, trail: &Trail) -> Floors
        ensures { result ≡ self.now ++ trail.now.list ∷ [] }
    {
        Floors {
            steps: FloorSteps::More(Snapshot::of(self), Snapshot::of(trail)),
        }
    }
}
