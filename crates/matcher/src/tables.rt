//! Tables of rules: what changes leave, and what is found in them.

ghost use Rattle.std.specs.Prelude.{◌≡◌, ◌↔◌, IfOk, IfSome, IsNone};
ghost use Rattle.ff_headers.specs.Objects.{IsWellFormed};
ghost use Rattle.ff_headers.specs.Places.{RuleEntry, IsMatching, action_of};
ghost use Rattle.matcher.specs.Tables.{no_changes, applied};
ghost use Rattle.matcher.specs.Findings.{found_in, IsFirstUnder};
ghost use Rattle.matcher.specs.Comparisons.{IsBounded};

use crate::found::{Found, found_with};
use crate::index::RowIndex;
use crate::keys::have_sizes;
use crate::scan::first_candidate;
use ff_headers::{Change, Headers, Limits, Steps};
use ff_store::Store;
use std::alloc::{AllocError, Global};
use std::marker::Model;
use std::sync::ledger::Ledger;

/// Groups, classifiers and rules within limits, with a count of the changes that were made to them.
#[derive(Drop)]
pub struct Tables {
    store: Store,
    index: RowIndex,
    count: u64,
}

impl Model for Tables {
    ghost use Rattle.matcher.specs.Tables.{TableState, tables_with};
    ghost use Rattle.matcher.specs.Rows.{kept_under};
    ghost use Rattle.matcher.specs.Indexes.{IsRowIndex};

    ghost Value = { TableState };

    ghost view = { λ t. tables_with t.store.limits t.store.objects t.count };

    ghost invariant = { λ t. IsRowIndex t.store.limits (kept_under t.store.objects) t.index };
}

impl Tables {
    /// Tables with no rule, and room for the limits. No later call takes memory.
    pub fn new(alloc: Global, limits: &Limits) -> Result<Tables, AllocError>
        ensures { IfOk result (λ tables. tables ≡ no_changes limits.now) }
    {
        Ok(Tables {
            store: Store::new(alloc, limits)?,
            index: RowIndex::new(alloc, limits)?,
            count: 0,
        })
    }

    /// The limits for which there is room.
    pub fn limits(&self) -> &Limits
        ensures value { result.now ≡ self.now.limits }
        ensures well_formed { IsWellFormed self.now.limits self.now.objects }
    {
        self.store.limits()
    }

    /// How many changes were made, sound or not. `Close` is none, and the count stands still at 2^64 - 1.
    pub fn count(&self) -> u64
        ensures { result ≡ self.now.count }
    {
        self.count
    }

    /// Makes a change, where it is sound, and counts it.
    pub fn apply(&mut self, change: Change)
        ensures { self.new ≡ applied self.old change }
    {
        self.apply_copy(&change);
    }

    /// Like [`Tables::apply`], with a change that stays the caller's.
    pub fn apply_copy(&mut self, change: &Change)
        ensures { self.new ≡ applied self.old change.now }
    {
        self.count = change.count_after(self.count);
        if self.store.is_sound(change) {
            self.index.apply_sound(&self.store, change);
            self.store.apply_sound(change);
        }
    }

    /// The first rule that matches a frame with these headers, and what happens to the frame. A step is a comparison of
    /// two keys: at least one for each list of kinds and masks of a rule's classifier whose headers the frame has, and
    /// at most d + 1 for each such list, where there are fewer than 2^d rules.
    pub fn find<L: Ledger>(&self, headers: &Headers, steps: &mut Steps<L>) -> Found
        ensures value { result ≡ found_in self.now.objects headers.now }
        ensures action { result.action ≡ action_of self.now.objects headers.now }
        ensures first { IfSome result.rule (IsFirstUnder self.now.objects headers.now) }
        ensures none { IsNone result.rule ↔ ((entry : RuleEntry) → ¬ IsMatching self.now.objects headers.now entry) }
        ensures cost { IsBounded self.now.objects headers.now steps.old steps.new }
    {
        let _well_formed = self.store.limits();
        have_sizes(headers);
        found_with(self.index.first(headers, steps))
    }

    /// What [`Tables::find`] gives, by a walk over all rules: the plain program of its definition, which tests compare
    /// with it.
    pub fn find_by_walk(&self, headers: &Headers) -> Found
        ensures { result ≡ found_in self.now.objects headers.now }
    {
        let _well_formed = self.store.limits();
        found_with(first_candidate(&self.store, headers))
    }
}
