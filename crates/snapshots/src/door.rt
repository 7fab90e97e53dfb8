//! Doors, through which a worker looks at the published tables.

ghost use Rattle.std.specs.Prelude.{◌≡◌, ◌<◌, ◌≤◌, ◌++◌, ◌∷◌, [], MatchResult, IfSome, IsSomeAnd};
ghost use Rattle.vnff_base.specs.Counts.{Rose};
ghost use mathlib.Core.List.{IsPrefix};
ghost use Rattle.snapshots.specs.Lists.{ClosesLast};
ghost use Rattle.snapshots.specs.Reads.{IsRead, seen_after};
ghost use Rattle.snapshots.specs.Seats.{copy_of};
ghost use Rattle.left_right.specs.Sides.{view as seat_view};
ghost use Rattle.snapshots.specs.Doors.{KnowsTables};

use crate::copied::Copied;
use crate::floors::Floors;
use crate::rule::{Enter, Place};
use crate::seen::Seen;
use crate::told::Told;
use crate::trail::Trail;
use ff_headers::{Headers, Limits, Steps};
use matcher::laws::changes_leave_what_their_list_does;
use std::marker::{Brand, Model};
use std::sync::ledger::{Blank, Ledger};

/// A reader was not let in this time.
#[derive(Clone, Copy, Debug, Drop, PartialEq, Eq)]
pub struct Shut;

/// A way to the published tables.
pub trait Door: Drop {
    ghost use Rattle.std.specs.Prelude.{ℕ, List};
    ghost use Rattle.ff_headers.specs.declared.limits.Limits.{Limits};
    ghost use Rattle.ff_headers.specs.declared.change.Change.{Change};
    ghost use Rattle.snapshots.specs.Lists.{Identity};

    // Which tables they are.
    ghost identity: { Self → Identity };
    // The limits that they were opened for.
    ghost limits: { Self → Limits };
    // The lists that each later read must begin with.
    ghost floors: { Self → List (List Change) };
    // How many looks were refused; a count that stands still at 2^64 - 1.
    ghost refused: { Self → ℕ };

    /// What the tables that are published now give for a frame with these headers. It waits for nobody and takes no
    /// memory.
    ///
    /// # Errors
    ///
    /// `Shut` where the door refused, which it then counted.
    fn look(&mut self, headers: &Headers) -> Result<Seen, Shut>
        ensures same_identity { identity self.new ≡ identity self.old }
        ensures same_limits { limits self.new ≡ limits self.old }
        ensures counts { refused self.old ≤ refused self.new }
        ensures answer { MatchResult result
            (λ seen. IsRead (limits self.old) (floors self.old) (floors self.new) headers.now seen)
            (λ _. Rose (refused self.old) (refused self.new) × (floors self.new ≡ floors self.old)) };

    /// Takes in a list that was told of the same tables: each later read begins with it too.
    fn learn(&mut self, told: Told)
        requires { told.identity ≡ identity self.old }
        ensures same_identity { identity self.new ≡ identity self.old }
        ensures same_limits { limits self.new ≡ limits self.old }
        ensures counts { refused self.old ≤ refused self.new }
        ensures floors { floors self.new ≡ floors self.old ++ told.list ∷ [] };
}

/// The door over a reader of `left_right`, with a count of the times that the reader wasn't let in.
#[derive(Drop)]
pub struct PairDoor {
    /// It is there between two calls.
    reader: Option<Place>,
    limits: Limits,
    /// The longest list that was seen or told.
    last: Trail,
    floors: Floors,
    refused: u64,
}

impl Model for PairDoor {
    ghost use Rattle.snapshots.specs.Workers.{DoorState};

    ghost Value = { DoorState };

    ghost use Rattle.std.specs.Prelude.{IsSomeAnd, All};
    ghost use mathlib.Core.List.{IsPrefix};
    ghost use Rattle.left_right.specs.Sides.{view as seat_view};
    ghost use Rattle.snapshots.specs.Doors.{KnowsTables};

    ghost view = { λ d. record {
      identity = d.last.identity;
      limits = d.limits;
      floors = d.floors;
      refused = d.refused;
    } };

    ghost invariant = { λ d. IsSomeAnd d.reader (λ r. KnowsTables d.last.identity d.limits (seat_view r.place))
        × All (λ floor. IsPrefix floor d.last.list) d.floors };
}

impl PairDoor {
    /// The door of a reader that knows the tables, before any read.
    pub(crate) fn new(reader: Place, limits: Limits, first: Trail) -> PairDoor
        requires { KnowsTables first.identity limits (seat_view reader.place) }
        ensures identity { result.identity ≡ first.identity }
        ensures limits { result.limits ≡ limits }
        ensures floors { result.floors ≡ [] ∷ [] }
    {
        PairDoor {
            reader: Some(reader),
            limits,
            last: first,
            floors: Floors::first(),
            refused: 0,
        }
    }
}

impl Door for PairDoor {
    ghost identity = { λ d. d.identity };

    ghost limits = { λ d. d.limits };

    ghost floors = { λ d. d.floors };

    ghost refused = { λ d. d.refused };

    fn look(&mut self, headers: &Headers) -> Result<Seen, Shut> {
        match read(&mut self.reader, &self.limits, &self.last, headers) {
            Some((trail, seen)) => {
                self.floors = Floors::only(&trail);
                self.last = trail;
                Ok(seen)
            }
            None => {
                self.refused = self.refused.saturating_add(1);
                Err(Shut)
            }
        }
    }

    fn learn(&mut self, told: Told) {
        let Told { trail } = told;
        self.floors = self.floors.and(&trail);
        if self.last.begins(&trail) {
            self.last = trail;
        }
    }
}

/// Enters the published copy, searches it and leaves it. None where the reader isn't let in, or the copy stands for a
/// list that doesn't begin with the last one, which never happens.
fn read(
    reader: &mut Option<Place>,
    limits: &Limits,
    last: &Trail,
    headers: &Headers,
) -> Option<(Trail, Seen)>
    requires { IsSomeAnd reader.old (λ r. KnowsTables last.now.identity limits.now (seat_view r.place)) }
    ensures seated { IsSomeAnd reader.new (λ r. KnowsTables last.now.identity limits.now (seat_view r.place)) }
    ensures read { IfSome result (λ t. (t.0.identity ≡ last.now.identity) × IsPrefix last.now.list t.0.list
        × ClosesLast t.0.list × (t.1 ≡ seen_after limits.now t.0.list headers.now)) }
{
    let place = reader.take()?;
    match place.enter_as::<Enter>() {
        Ok(reading) => {
            let answer = read_copy::<Brand>(reading.get(), last, headers, Blank::new(1));
            *reader = Some(reading.leave());
            answer
        }
        Err(place) => {
            *reader = Some(place);
            None
        }
    }
}

/// What a copy gives, where its list covers the last one.
fn read_copy<L: Ledger>(
    shown: &Copied,
    last: &Trail,
    headers: &Headers,
    blank: Blank,
) -> Option<(Trail, Seen)>
    requires stands { shown.now ≡ copy_of shown.now.tables.limits shown.now.trail }
    requires same { last.now.identity ≡ shown.now.trail.identity }
    requires name { blank.name ≡ L.name }
    requires parts { blank.parts ≡ L.parts }
    requires some { 0 < blank.parts }
    ensures { IfSome result (λ t. (t.0 ≡ shown.now.trail) × IsPrefix last.now.list t.0.list
        × ClosesLast t.0.list × (t.1 ≡ seen_after shown.now.tables.limits t.0.list headers.now)) }
{
    changes_leave_what_their_list_does();
    if !last.begins(&shown.trail) {
        return None;
    }
    let mut steps = Steps::<L>::new(blank);
    let found = shown.tables.find(headers, &mut steps);
    let seen = Seen {
        after: shown.tables.count(),
        action: found.action,
        rule: found.rule,
    };
    Some((shown.trail.again(), seen))
}
