//! A list of changes that were logged: a number, and a token of no bytes.

ghost use Rattle.std.specs.Prelude.{◌≡◌, IfSome, true, false};
ghost use mathlib.Core.List.{IsPrefix};
ghost use Rattle.snapshots.specs.Law.{count_word};
ghost use Rattle.snapshots.specs.Lists.{ClosesLast, is_open, with_more};

use crate::law::{Add, Law, Nothing};
use ff_headers::Change;
use logbook::{Offer, Word};
use std::marker::Model;

/// A beginning of the one list of changes that a book has logged. Contracts see it as that list.
#[derive(Drop)]
pub(crate) struct Trail {
    pub(crate) len: u64,
    pub(crate) seen: logbook::Seen<Change, u64, Law>,
}

impl Model for Trail {
    ghost use Rattle.snapshots.specs.Lists.{ToldList};
    ghost use Rattle.snapshots.specs.Trails.{IsTrail};

    ghost Value = { ToldList };

    ghost view = { λ t. record { identity = t.seen.book; list = t.seen.log } };

    ghost invariant = { λ t. IsTrail t.len t.seen.log };
}

impl Trail {
    /// A copy.
    pub(crate) fn again(&self) -> Trail
        ensures { result ≡ self.now }
    {
        Trail {
            len: self.len,
            seen: self.seen.again(),
        }
    }

    /// Whether this list is no longer than another of the same book, so that the other begins with it. Otherwise it
    /// begins with the other.
    pub(crate) fn begins(&self, other: &Trail) -> bool
        requires { self.now.identity ≡ other.now.identity }
        ensures begins { result ≡ true → IsPrefix self.now.list other.now.list }
        ensures longer { result ≡ false → IsPrefix other.now.list self.now.list }
        ensures closes_last { ClosesLast other.now.list }
    {
        let mut both = self.seen.again();
        both.learn(&other.seen);
        self.len <= other.len
    }

    /// Logs a change in the book of this head, behind the list, and gives the longer list. None where the book has gone
    /// on behind the list, or 2^64 - 1 changes were logged.
    pub(crate) fn log(&self, head: &Word<Change, u64, Law>, change: &Change) -> Option<Trail>
        requires head { head.now ≡ count_word self.now.identity }
        requires open { is_open self.now.list ≡ true }
        ensures { IfSome result (λ trail. trail ≡ with_more self.now change.now) }
    {
        if self.len == u64::MAX {
            return None;
        }
        let next = self.len + 1;
        let mut seen = self.seen.again();
        let mut offer: Offer<Change, u64, Law, Nothing> = seen.plain::<Nothing, Change, Add>(
            change,
        );
        let mut nib = seen.no_pen();
        let found = head.compare_exchange::<Add, Nothing>(
            self.len, next, &mut seen, &mut offer, &mut nib,
        );
        if found != self.len {
            return None;
        }
        Some(Trail { len: next, seen })
    }
}
