//! The two ends that publish: one that still can, and one that has closed the list.

ghost use Rattle.std.specs.Prelude.{◌≡◌, ◌++◌, ◌∷◌, [], MatchResult, true, false};
ghost use Rattle.ff_headers.specs.Changes.{is_close};
ghost use Rattle.ff_headers.specs.declared.change.Change.TheVariants.{Close};
ghost use Rattle.snapshots.specs.Ends.{told_by, with_list};
ghost use Rattle.snapshots.specs.Lists.{is_open, IsClosed};

use crate::published::Published;
use crate::told::Told;
use ff_headers::Change;
use std::alloc::AllocError;
use std::marker::Model;
use std::sync::Wait;

/// The end that publishes changes. Contracts see which tables they are, the limits that `open` was given, and the
/// changes that were published. It is not `Drop`: close it, or end it.
pub struct AdminEnd {
    published: Published,
}

impl Model for AdminEnd {
    ghost use Rattle.std.specs.Prelude.{◌≡◌, true};
    ghost use Rattle.snapshots.specs.Ends.{EndState};
    ghost use Rattle.snapshots.specs.Lists.{is_open};

    ghost Value = { EndState };

    ghost view = { λ e. e.published };

    ghost invariant = { λ e. is_open e.published.list ≡ true };
}

/// The end of a list that is closed: nothing more is published, and workers can still read. It is not `Drop`: end it.
pub struct Closed {
    published: Published,
}

impl Model for Closed {
    ghost use Rattle.snapshots.specs.Ends.{EndState};
    ghost use Rattle.snapshots.specs.Lists.{IsClosed};

    ghost Value = { EndState };

    ghost view = { λ c. c.published };

    ghost invariant = { λ c. IsClosed c.published.list };
}

impl AdminEnd {
    /// The end over what publishes, while its list is open.
    pub(crate) fn over(published: Published) -> AdminEnd
        requires { is_open published.list ≡ true }
        ensures { result ≡ published }
    {
        AdminEnd { published }
    }

    /// Publishes a change behind the ones before, and tells the new list. It may wait for readers.
    ///
    /// # Errors
    ///
    /// The change, where memory runs out. Nothing was published then.
    pub fn put<R: Wait>(&mut self, rt: &R, change: Change) -> Result<Told, (Change, AllocError)>
        requires { is_close change ≡ false }
        ensures { MatchResult result
            (λ told. (self.new ≡ with_list self.old (self.old.list ++ change ∷ [])) × (told ≡ told_by self.new))
            (λ refused. (refused.0 ≡ change) × (self.new ≡ self.old)) }
    {
        self.published.add(rt, change)
    }

    /// Publishes `Close`, the last change, and tells the new list. It may wait for readers.
    ///
    /// # Errors
    ///
    /// The end, as it was, where memory runs out.
    pub fn close<R: Wait>(self, rt: &R) -> Result<(Closed, Told), (AdminEnd, AllocError)>
        ensures { MatchResult result
            (λ done. (done.0 ≡ with_list self (self.list ++ Close ∷ [])) × (done.1 ≡ told_by done.0))
            (λ refused. refused.0 ≡ self) }
    {
        let AdminEnd { mut published } = self;
        match published.add(rt, Change::Close) {
            Ok(told) => Ok((Closed { published }, told)),
            Err((_, error)) => Err((AdminEnd { published }, error)),
        }
    }

    /// A further note of the list that was published so far. It waits for nobody.
    pub fn tell(&mut self) -> Told
        ensures told { result ≡ told_by self.old }
        ensures same { self.new ≡ self.old }
        ensures open { is_open self.old.list ≡ true }
    {
        self.published.tell()
    }

    /// Gives the writing side up, and publishes nothing. It may wait for readers.
    pub fn end<R: Wait>(self, rt: &R) {
        let AdminEnd { published } = self;
        published.end(rt);
    }
}

impl Closed {
    /// A further note of the list that was published. It waits for nobody.
    pub fn tell(&mut self) -> Told
        ensures told { result ≡ told_by self.old }
        ensures same { self.new ≡ self.old }
        ensures closed { IsClosed self.old.list }
    {
        self.published.tell()
    }

    /// Gives the writing side up, and publishes nothing. It may wait for readers.
    pub fn end<R: Wait>(self, rt: &R) {
        let Closed { published } = self;
        published.end(rt);
    }
}
