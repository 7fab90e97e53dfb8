//! How many steps a search takes, as a number that only contracts see.

ghost use Rattle.std.specs.Prelude.{◌≡◌, ℕ, ◌+◌, ◌<◌};
ghost use Rattle.std.specs.Cmp.Lexicographic.{slice_cmp};
ghost use Rattle.std.specs.Ordering.{nat_cmp};

use crate::rule::Key;
use std::cmp::Ordering;
use std::marker::Model;
use std::sync::ledger::{Blank, Book, Ledger, Share};

/// How many steps were taken: each is one comparison of two keys, by `cmp_key`. It takes no bytes.
#[derive(Drop)]
pub struct Steps<L: Ledger> {
    book: Book<L>,
    share: Share<L>,
}

impl<L: Ledger> Model for Steps<L> {
    ghost Value = { ℕ };

    ghost view = { λ s. s.book.total };

    ghost invariant = { λ s. 0 < s.share.parts };
}

impl<L: Ledger> Steps<L> {
    /// No step so far, on a ledger that nothing was written into.
    pub fn new(blank: Blank) -> Steps<L>
        requires name { blank.name ≡ L.name }
        requires parts { blank.parts ≡ L.parts }
        requires some { 0 < blank.parts }
        ensures { result ≡ 0 }
    {
        let (book, share) = blank.open();
        Steps { book, share }
    }

    /// One step more.
    pub(crate) fn tick(&mut self)
        ensures { self.new ≡ self.old + 1 }
    {
        self.book.add(&mut self.share, 1);
    }
}

/// How two keys compare, byte by byte, the first difference deciding; a key that the other begins with is less. It is
/// one step.
pub fn cmp_key<L: Ledger>(a: &Key, b: &Key, steps: &mut Steps<L>) -> Ordering
    ensures order { result ≡ slice_cmp nat_cmp a.now.items b.now.items }
    ensures cost { steps.new ≡ steps.old + 1 }
{
    steps.tick();
    a.as_slice().cmp(b.as_slice())
}
