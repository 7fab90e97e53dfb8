//! A search by halving among the rows.

ghost use Rattle.std.specs.Prelude.{◌≡◌, ℕ, ◌+◌, ◌*◌, ◌-◌, ◌^◌, ◌<◌, ◌≤◌, IsTrue, true, false, length, slice_index_or, Contains};
ghost use Rattle.matcher.specs.declared.rows.Row.{Row};
ghost use Rattle.matcher.specs.Rows.{AreRising};
ghost use Rattle.matcher.specs.Searches.{precedes, HasKey, IsFirstAmong, IsCost};

use crate::rows::Row;
use crate::scan::Candidate;
use ff_headers::{Key, Steps, cmp_key};
use std::sync::ledger::Ledger;

/// The first of the rows with a shape's number and a key.
pub(crate) fn first_with<L: Ledger>(
    rows: &[Row],
    number: usize,
    key: &Key,
    steps: &mut Steps<L>,
) -> Option<Candidate>
    requires { AreRising rows.now }
    ensures first { IsFirstAmong rows.now (HasKey number key.now.items) result }
    ensures cost { IsCost rows.now number steps.old steps.new }
{
    let place = row_place(rows, number, key, steps);
    if place == rows.len() {
        return None;
    }
    let row = &rows[place];
    if has_key(row, number, key, steps) {
        Some(row.candidate)
    } else {
        None
    }
}

/// Whether a row has the number and key. Where it has the number, it is one step.
fn has_key<L: Ledger>(row: &Row, number: usize, key: &Key, steps: &mut Steps<L>) -> bool
    ensures yes { IsTrue result → HasKey number key.now.items row.now }
    ensures no { HasKey number key.now.items row.now → IsTrue result }
    ensures counted { row.now.shape ≡ number → steps.new ≡ steps.old + 1 }
    ensures free { ¬ (row.now.shape ≡ number) → steps.new ≡ steps.old }
{
    if row.shape == number {
        cmp_key(&row.key, key, steps).is_eq()
    } else {
        false
    }
}

/// Where the first row with a shape's number and a key is, or would be.
fn row_place<L: Ledger>(rows: &[Row], number: usize, key: &Key, steps: &mut Steps<L>) -> usize
    requires { AreRising rows.now }
    ensures within { result ≤ length rows.now }
    ensures before { (k : ℕ) (d : Row) → k < result
        → precedes number key.now.items (slice_index_or rows.now k d) ≡ true }
    ensures behind { (k : ℕ) (d : Row) → result ≤ k → k < length rows.now
        → precedes number key.now.items (slice_index_or rows.now k d) ≡ false }
    ensures rising { steps.old ≤ steps.new }
    ensures some { (k : ℕ) (d : Row) → k < result → (slice_index_or rows.now k d).shape ≡ number
        → steps.old + 1 ≤ steps.new }
    ensures none { ((row : Row) → Contains rows.now row → ¬ (row.shape ≡ number)) → steps.new ≡ steps.old }
    ensures few { 2 ^ (steps.new - steps.old) ≤ 2 * length rows.now + 1 }
{
    let mut low = 0;
    let mut high = rows.len();
    while low < high {
        let middle = low + (high - low) / 2;
        if precedes(&rows[middle], number, key, steps) {
            low = middle + 1;
        } else {
            high = middle;
        }
    }
    low
}

/// Whether a row stands before all rows with the number and key. Where it has the number, it is one step.
#[tactic(auto, unfolding(crate::specs::Searches::precedes))]
fn precedes<L: Ledger>(row: &Row, number: usize, key: &Key, steps: &mut Steps<L>) -> bool
    ensures value { result ≡ precedes number key.now.items row.now }
    ensures counted { row.now.shape ≡ number → steps.new ≡ steps.old + 1 }
    ensures free { ¬ (row.now.shape ≡ number) → steps.new ≡ steps.old }
{
    if row.shape == number {
        cmp_key(&row.key, key, steps).is_lt()
    } else {
        row.shape < number
    }
}
