//! The writing side: both copies, and the pen with which changes are logged.

ghost use Rattle.std.specs.Prelude.{◌≡◌, ◌++◌, ◌∷◌, [], drop, MatchResult, IsSomeAnd, Some, true};
ghost use Rattle.ff_headers.specs.declared.limits.Limits.{Limits};
ghost use Rattle.snapshots.specs.Lists.{ToldList, is_open};
ghost use Rattle.snapshots.specs.Ends.{told_by, with_list};
ghost use Rattle.snapshots.specs.Fresh.{end_of};
ghost use Rattle.ff_headers.specs.declared.change.Change.{Change};
ghost use Rattle.snapshots.specs.Copying.{HasChange};
ghost use Rattle.snapshots.specs.Seats.{copy_of, MayShow};
ghost use Rattle.snapshots.specs.declared.copied.Entry.TheVariants.{Made};

use crate::copied::Entry;
use crate::pen::Pen;
use crate::rule::{Copies, Show};
use crate::told::Told;
use crate::trail::Trail;
use ff_headers::{Change, Limits};
use std::alloc::AllocError;
use std::marker::Model;
use std::sync::Wait;

/// What publishes. It is not `Drop`: end it by `end`.
pub(crate) struct Published {
    /// They are there between two calls.
    copies: Option<Copies>,
    pen: Pen,
    limits: Limits,
}

impl Model for Published {
    ghost use Rattle.snapshots.specs.Ends.{EndState};

    ghost Value = { EndState };

    ghost use Rattle.std.specs.Prelude.{◌≡◌, [], IsSomeAnd, drop};
    ghost use Rattle.snapshots.specs.Seats.{copy_of};

    ghost view = { λ p. record { identity = p.pen.identity; limits = p.limits; list = p.pen.list } };

    ghost invariant = { λ p. IsSomeAnd p.copies
        (λ c. (drop c.behind c.log.items ≡ []) × (c.desk.shown.value ≡ copy_of p.limits p.pen)) };
}

impl Published {
    /// What publishes with these copies, which stand for the pen's list.
    pub(crate) fn over(copies: Copies, pen: Pen, limits: Limits) -> Published
        requires waits { drop copies.behind copies.log.items ≡ [] }
        requires shown { copies.desk.shown.value ≡ copy_of limits pen }
        ensures { result ≡ end_of pen limits }
    {
        Published {
            copies: Some(copies),
            pen,
            limits,
        }
    }

    /// Publishes a change behind the ones before.
    pub(crate) fn add<R: Wait>(
        &mut self,
        rt: &R,
        change: Change,
    ) -> Result<Told, (Change, AllocError)>
        requires { is_open self.old.list ≡ true }
        ensures { MatchResult result
            (λ told. (self.new ≡ with_list self.old (self.old.list ++ change ∷ [])) × (told ≡ told_by self.new))
            (λ refused. (refused.0 ≡ change) × (self.new ≡ self.old)) }
    {
        let Some(trail) = self.pen.log(&change) else {
            return Err((change, AllocError));
        };
        if let Err(change) = publish(&mut self.copies, rt, change, trail.again()) {
            return Err((change, AllocError));
        }
        self.pen.set_trail(trail);
        Ok(self.tell())
    }

    /// What was published so far.
    pub(crate) fn tell(&self) -> Told
        ensures { result ≡ told_by self.now }
    {
        Told {
            trail: self.pen.trail().again(),
        }
    }

    /// Gives the writing side up, and publishes nothing.
    pub(crate) fn end<R: Wait>(self, rt: &R) {
        let Published {
            copies,
            pen: _pen,
            limits: _,
        } = self;
        if let Some(copies) = copies {
            drop(copies.take(rt));
        }
    }
}

/// Publishes a change with the list that it ends. The change comes back where there is no memory; then nothing was
/// published, and nothing waits.
fn publish<R: Wait>(
    copies: &mut Option<Copies>,
    rt: &R,
    change: Change,
    trail: Trail,
) -> Result<(), Change>
    requires { IsSomeAnd copies.old (λ c. (drop c.behind c.log.items ≡ []) × MayShow c.desk.shown.value change trail) }
    ensures { (limits : Limits) (told : ToldList) → IsSomeAnd copies.old (λ c. c.desk.shown.value ≡ copy_of limits told)
        → MatchResult result
        (λ _. IsSomeAnd copies.new (λ c. (drop c.behind c.log.items ≡ [])
        × (c.desk.shown.value ≡ copy_of limits trail)))
        (λ back. (back ≡ change) × IsSomeAnd copies.new (λ c. (drop c.behind c.log.items ≡ [])
        × (c.desk.shown.value ≡ copy_of limits told))) }
{
    let mut writer = copies.take().unwrap();
    if let Err(entry) = writer.append(Entry::Made(change, trail)) {
        put_back(copies, rt, writer);
        return Err(change_in(entry));
    }
    let (writer, outcome) = writer.publish_as::<Show, R>(rt);
    let _ = outcome;
    put_back(copies, rt, writer);
    Ok(())
}

/// Puts the copies back in their place, which is empty meanwhile.
fn put_back<R: Wait>(place: &mut Option<Copies>, rt: &R, copies: Copies)
    ensures { place.new ≡ Some copies }
{
    if let Some(others) = place.replace(copies) {
        drop(others.take(rt));
    }
}

/// The change of an entry that has one.
fn change_in(entry: Entry) -> Change
    requires { HasChange entry }
    ensures { (change : Change) (trail : ToldList) → entry ≡ Made change trail → result ≡ change }
{
    match entry {
        Entry::Made(change, _trail) => change,
        Entry::Blank => unreachable!(),
    }
}
