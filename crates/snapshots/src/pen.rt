//! The right to log changes, with the list that was logged so far.

ghost use Rattle.std.specs.Prelude.{◌≡◌, [], IfSome, true};
ghost use Rattle.snapshots.specs.Lists.{is_open, with_more};

use crate::law::Law;
use crate::trail::Trail;
use ff_headers::Change;
use logbook::{Start, Word};
use std::marker::Model;

/// The head of a book, and the list that was published. Contracts see it as that list.
#[derive(Drop)]
pub(crate) struct Pen {
    head: Word<Change, u64, Law>,
    trail: Trail,
}

impl Model for Pen {
    ghost use Rattle.std.specs.Prelude.{◌≡◌};
    ghost use Rattle.snapshots.specs.Lists.{ToldList};
    ghost use Rattle.snapshots.specs.Law.{count_word};

    ghost Value = { ToldList };

    ghost view = { λ p. p.trail };

    ghost invariant = { λ p. p.head ≡ count_word p.trail.identity };
}

impl Pen {
    /// A new book, with no change.
    pub(crate) fn new() -> Pen
        ensures { result.list ≡ [] }
    {
        let (seen, mut first, _second) = logbook::Seen::open(Start::alone(), 0, 0);
        Pen {
            head: Word::tracked(0, &mut first),
            trail: Trail { len: 0, seen },
        }
    }

    /// The list that was published.
    pub(crate) fn trail(&self) -> &Trail
        ensures { result.now ≡ self.now }
    {
        &self.trail
    }

    /// Logs a change behind the list, and gives the longer list. None where the book has gone on without this pen, or
    /// 2^64 - 1 changes were logged.
    pub(crate) fn log(&self, change: &Change) -> Option<Trail>
        requires { is_open self.now.list ≡ true }
        ensures { IfSome result (λ trail. trail ≡ with_more self.now change.now) }
    {
        self.trail.log(&self.head, change)
    }

    /// Takes the longer list for the one that was published.
    pub(crate) fn set_trail(&mut self, trail: Trail)
        requires { trail.identity ≡ self.old.identity }
        ensures { self.new ≡ trail }
    {
        self.trail = trail;
    }
}
