//! The rows of the rules that a store holds, with the shapes of their classifiers.

ghost use Rattle.std.specs.Prelude.{◌≡◌, ℕ, ◌<◌, ◌≤◌, Option, Some, None, true, IfOk, IfSome, Contains, ◌≢◌, length, slice_get, vec_len, vec_capacity};
ghost use Rattle.ff_headers.specs.Matching.{key_size};
ghost use Rattle.ff_headers.specs.Objects.{IsWellFormed, IsBacked, no_objects};
ghost use Rattle.ff_headers.specs.Changes.{has_room, is_sound, step, with_change_made};
ghost use Rattle.ff_headers.specs.declared.change.Change.TheVariants as changes;
ghost use Rattle.ff_headers.specs.Places.{RuleEntry};
ghost use Rattle.matcher.specs.Keys.{masked_key};
ghost use Rattle.matcher.specs.declared.rows.Row.{Row};
ghost use Rattle.matcher.specs.Rows.{Kept, id_of, with_kept, candidate_with, kept_with, kept_by, kept_under, moved, AreHeld, AreRows, AreRising, AreDistinctShapes, IsNew, AreUsed};
ghost use Rattle.matcher.specs.Searches.{FitsRow, FitsBelow, IsFirstAmong, IsShapeCost, IsTotalCost};
ghost use Rattle.matcher.specs.Indexes.{IsRowIndex};

use crate::keys::{frame_key, masked_key};
use crate::rows::{Row, drop_row, place_for, set_row};
use crate::scan::{Candidate, action_with, earlier};
use crate::search::first_with;
use crate::shapes::{number_for, number_of};
use ff_headers::{Change, Headers, Limits, RuleObj, Selectors, Steps};
use ff_store::Store;
use std::alloc::{AllocError, Global};
use std::sync::ledger::Ledger;

/// Rows by shape, key and place, and the shapes by number.
#[derive(Drop)]
pub(crate) struct RowIndex {
    pub(crate) shapes: Vec<Selectors>,
    pub(crate) rows: Vec<Row>,
}

impl RowIndex {
    /// No row, and room for as many rules and shapes as the limits allow.
    pub(crate) fn new(alloc: Global, limits: &Limits) -> Result<RowIndex, AllocError>
        ensures { IfOk result (IsRowIndex limits.now (kept_under no_objects)) }
    {
        Ok(RowIndex {
            shapes: Vec::with_capacity(alloc, limits.classifiers as usize)?,
            rows: Vec::with_capacity(alloc, limits.rules as usize)?,
        })
    }

    /// The first of the rules' rows that fit the headers, shape by shape.
    pub(crate) fn first<L: Ledger>(
        &self,
        headers: &Headers,
        steps: &mut Steps<L>,
    ) -> Option<Candidate>
        requires rising { AreRising self.now.rows.items }
        requires apart { AreDistinctShapes self.now.shapes.items }
        ensures first { IsFirstAmong self.now.rows.items
            (FitsBelow (length self.now.shapes.items) self.now.shapes.items headers.now) result }
        ensures cost { IsTotalCost self.now.shapes.items self.now.rows.items headers.now (length self.now.shapes.items)
            steps.old steps.new }
    {
        let mut first = None;
        for number in 0..self.shapes.len() {
            first = earlier(first, self.first_in(number, headers, steps));
        }
        first
    }

    /// The first of the rows of one shape that fit the headers.
    fn first_in<L: Ledger>(
        &self,
        number: usize,
        headers: &Headers,
        steps: &mut Steps<L>,
    ) -> Option<Candidate>
        requires inside { number < length self.now.shapes.items }
        requires rising { AreRising self.now.rows.items }
        ensures first { IsFirstAmong self.now.rows.items
            (λ row. (row.shape ≡ number) × FitsRow self.now.shapes.items headers.now row) result }
        ensures cost { IsShapeCost self.now.shapes.items self.now.rows.items headers.now number steps.old steps.new }
    {
        match frame_key(&self.shapes[number], headers) {
            Some(key) => first_with(&self.rows, number, &key, steps),
            None => None,
        }
    }

    /// Makes the rows those of what a sound change leaves of a store's objects.
    pub(crate) fn apply_sound(&mut self, store: &Store, change: &Change)
        requires sound { is_sound store.now.limits store.now.objects change.now ≡ true }
        requires rows { IsRowIndex store.now.limits (kept_under store.now.objects) self.old }
        ensures { let after = step store.now.limits store.now.objects change.now in
            IsRowIndex store.now.limits (kept_under after) self.new }
    {
        let _well_formed = store.limits();
        match change {
            Change::PutRule(id, rule) => self.put_rule(store, *id, rule),
            Change::DropRule(id) => self.drop_rule(store, *id),
            Change::PutGroup(id, priority) => self.move_group(store, *id, *priority),
            Change::DropGroup(_) => {}
            Change::PutClassifier(_, _) => {}
            Change::DropClassifier(_) => {}
            Change::Close => {}
        }
    }

    /// A sound put of a rule.
    fn put_rule(&mut self, store: &Store, id: u32, rule: &RuleObj)
        requires well_formed { IsWellFormed store.now.limits store.now.objects }
        requires sound { is_sound store.now.limits store.now.objects (changes.PutRule id rule.now) ≡ true }
        requires rows { IsRowIndex store.now.limits (kept_under store.now.objects) self.old }
        ensures { IsRowIndex store.now.limits
            (kept_under (with_change_made store.now.objects (changes.PutRule id rule.now))) self.new }
    {
        let group_priority = store.group_priority(rule.group()).unwrap_or(0);
        self.renew(store, id, rule, group_priority);
    }

    /// A drop of a rule.
    fn drop_rule(&mut self, store: &Store, id: u32)
        requires { IsWellFormed store.now.limits store.now.objects }
        ensures { (kept : ℕ → Option Kept) → IsRowIndex store.now.limits kept self.old
            → IsRowIndex store.now.limits (with_kept kept id None) self.new }
    {
        let likely = self.likely_place(store, id).unwrap_or(0);
        drop_row(&mut self.rows, id, likely);
    }

    /// A group's rules take another priority.
    fn move_group(&mut self, store: &Store, group: u32, priority: u16)
        requires well_formed { IsWellFormed store.now.limits store.now.objects }
        requires rows { IsRowIndex store.now.limits (kept_under store.now.objects) self.old }
        ensures { IsRowIndex store.now.limits
            (kept_under (with_change_made store.now.objects (changes.PutGroup group priority))) self.new }
    {
        for at in 0..store.rule_count() {
            self.move_rule(store, at, group, priority);
        }
    }

    /// The rule that is so many rules behind the one of least id takes another priority, where it is of the group.
    fn move_rule(&mut self, store: &Store, at: usize, group: u32, priority: u16)
        requires well_formed { IsWellFormed store.now.limits store.now.objects }
        requires held { (kept : ℕ → Option Kept) × IsRowIndex store.now.limits kept self.old
            × AreHeld store.now.objects kept }
        ensures { (entry : RuleEntry) (kept : ℕ → Option Kept) → slice_get store.now.objects.rules at ≡ Some entry
            → IsRowIndex store.now.limits kept self.old
            → IsRowIndex store.now.limits (moved store.now.objects group priority entry kept) self.new }
    {
        if let Some((id, rule)) = store.rule_at(at) {
            if rule.group() == group {
                self.renew(store, id, rule, priority);
            }
        }
    }

    /// Keeps a rule whose group has a priority, in place of the one under its id.
    fn renew(&mut self, store: &Store, id: u32, rule: &RuleObj, group_priority: u16)
        requires well_formed { IsWellFormed store.now.limits store.now.objects }
        requires backed { IsBacked store.now.objects rule.now }
        requires fits { has_room store.now.objects.rules id store.now.limits.rules ≡ true }
        requires held { (kept : ℕ → Option Kept) × IsRowIndex store.now.limits kept self.old
            × AreHeld store.now.objects kept }
        ensures { (kept : ℕ → Option Kept) → IsRowIndex store.now.limits kept self.old
            → IsRowIndex store.now.limits
            (with_kept kept id (kept_by store.now.objects group_priority (id, rule.now))) self.new }
    {
        if let Some(selectors) = store.selectors(rule.classifier()) {
            let likely = self.likely_place(store, id).unwrap_or(0);
            self.put(id, rule, selectors, group_priority, likely);
        }
    }

    /// Keeps a rule under an id. Where none is kept under it, there is room for it.
    fn put(
        &mut self,
        id: u32,
        rule: &RuleObj,
        selectors: &Selectors,
        group_priority: u16,
        likely: usize,
    )
        requires key_fits { length rule.now.key ≡ key_size selectors.now }
        requires row_fits { ((held : Row) → Contains self.old.rows.items held → id_of held ≢ id)
            → length self.old.rows.items < vec_capacity self.old.rows }
        requires shape_fits { IsNew self.old.shapes.items selectors.now
            → AreUsed self.old.shapes.items self.old.rows.items
            → vec_len self.old.shapes < vec_capacity self.old.shapes }
        ensures rows { (kept : ℕ → Option Kept) → AreRows kept self.old.shapes.items self.old.rows.items
            → AreRows (with_kept kept id (Some (kept_with group_priority (id, rule.now) selectors.now)))
            self.new.shapes.items self.new.rows.items }
        ensures rows_room { vec_capacity self.new.rows ≡ vec_capacity self.old.rows }
        ensures shapes_room { vec_capacity self.new.shapes ≡ vec_capacity self.old.shapes }
    {
        let shape = number_for(&mut self.shapes, &self.rows, selectors);
        let row = row_with(shape, selectors, group_priority, id, rule);
        set_row(&mut self.rows, row, likely);
    }

    /// Where the row of the rule that a store holds under an id stands, unless it has moved.
    fn likely_place(&self, store: &Store, id: u32) -> Option<usize>
        requires { IsWellFormed store.now.limits store.now.objects }
        ensures { IfSome result (λ place. place ≤ length self.now.rows.items) }
    {
        let rule = store.rule(id)?;
        self.place_with(store, id, rule)
    }

    /// Where the row of a rule under an id goes by the store's groups and classifiers.
    fn place_with(&self, store: &Store, id: u32, rule: &RuleObj) -> Option<usize>
        requires { IsBacked store.now.objects rule.now }
        ensures { IfSome result (λ place. place ≤ length self.now.rows.items) }
    {
        let selectors = store.selectors(rule.classifier())?;
        let group_priority = store.group_priority(rule.group())?;
        let shape = number_of(&self.shapes, selectors)?;
        let row = row_with(shape, selectors, group_priority, id, rule);
        Some(place_for(&self.rows, &row))
    }
}

/// The row of a rule with these selectors, whose group has a priority.
fn row_with(
    shape: usize,
    selectors: &Selectors,
    group_priority: u16,
    id: u32,
    rule: &RuleObj,
) -> Row
    requires { length rule.now.key ≡ key_size selectors.now }
    ensures shape { result.shape ≡ shape }
    ensures key { result.key.items ≡ masked_key selectors.now rule.now.key }
    ensures candidate { result.candidate ≡ candidate_with group_priority (id, rule.now) }
{
    Row {
        shape,
        key: masked_key(selectors, rule.key()),
        candidate: candidate_with(group_priority, id, rule),
    }
}

/// What is kept of a rule whose group has a priority.
fn candidate_with(group_priority: u16, id: u32, rule: &RuleObj) -> Candidate
    ensures { result ≡ candidate_with group_priority (id, rule.now) }
{
    Candidate {
        place: (group_priority, rule.priority(), id),
        action: action_with(rule.action(), rule.vq()),
    }
}
