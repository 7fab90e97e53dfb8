//! Rules as rows: sorted by the number of their shape, then by masked key, then by place.

ghost use Rattle.std.specs.Prelude.{◌≡◌, ℕ, ◌+◌, ◌-◌, ◌<◌, ◌≤◌, ◌≢◌, IsTrue, Contains, Option, None, Some, true, false, IfSome, IfNone, List, length, slice_index_or, vec_capacity};
ghost use Rattle.matcher.specs.declared.rows.Row.{Row};
ghost use Rattle.std.specs.List.Sorted.{IsPartitionedBy, IsPartitionPoint};
ghost use Rattle.ff_headers.specs.SelectorParts.{SelectorParts};
ghost use Rattle.matcher.specs.Rows.{Kept, with_kept, id_of, row_cmp, cmp_in_shape, stands_before, IsRow, AreRows};

use crate::scan::Candidate;
use ff_headers::Key;
use std::cmp::Ordering;

/// A rule as it is kept for a search.
#[derive(Drop)]
pub(crate) struct Row {
    /// The number of its classifier's shape.
    pub(crate) shape: usize,
    /// Its key under the shape's masks.
    pub(crate) key: Key,
    /// Its place and what it does.
    pub(crate) candidate: Candidate,
}

/// Puts a row in its place. There is room for it.
pub(crate) fn put_row(rows: &mut Vec<Row>, row: Row)
    requires { length rows.old.items < vec_capacity rows.old }
    ensures rows { (kept : ℕ → Option Kept) (shapes : List (List SelectorParts)) (one : Kept)
        → AreRows kept shapes rows.old.items → kept (id_of row) ≡ None → IsRow shapes row one
        → AreRows (with_kept kept (id_of row) (Some one)) shapes rows.new.items }
    ensures room { vec_capacity rows.new ≡ vec_capacity rows.old }
{
    let place = place_for(rows, &row);
    rows.insert(place, row).unwrap();
}

/// Keeps a row in place of its rule's row, if there is one. Where there is none, there is room for it. The old row is
/// looked for at the likely place first.
pub(crate) fn set_row(rows: &mut Vec<Row>, row: Row, likely: usize)
    requires { ((held : Row) → Contains rows.old.items held → id_of held ≢ id_of row)
        → length rows.old.items < vec_capacity rows.old }
    ensures rows { (kept : ℕ → Option Kept) (shapes : List (List SelectorParts)) (one : Kept)
        → AreRows kept shapes rows.old.items → IsRow shapes row one
        → AreRows (with_kept kept (id_of row) (Some one)) shapes rows.new.items }
    ensures room { vec_capacity rows.new ≡ vec_capacity rows.old }
{
    match row_of(rows, row.candidate.place.2, likely) {
        Some(place) => replace_row(rows, place, row),
        None => put_row(rows, row),
    }
}

/// Puts a row in place of its rule's row, which stands at a place.
fn replace_row(rows: &mut Vec<Row>, place: usize, row: Row)
    requires inside { place < length rows.old.items }
    requires same { (d : Row) → id_of (slice_index_or rows.old.items place d) ≡ id_of row }
    ensures rows { (kept : ℕ → Option Kept) (shapes : List (List SelectorParts)) (one : Kept)
        → AreRows kept shapes rows.old.items → IsRow shapes row one
        → AreRows (with_kept kept (id_of row) (Some one)) shapes rows.new.items }
    ensures room { vec_capacity rows.new ≡ vec_capacity rows.old }
{
    if may_stand_at(rows, place, &row) {
        rows[place] = row;
        return;
    }
    rows.remove(place);
    put_row(rows, row);
}

/// Whether a row may stand at a place, between the rows beside it.
fn may_stand_at(rows: &[Row], place: usize, row: &Row) -> bool
    requires { place < length rows.now }
    ensures before { IsTrue result → (d : Row) → 0 < place
        → stands_before (slice_index_or rows.now (place - 1) d) row.now ≡ true }
    ensures behind { IsTrue result → (d : Row) → place + 1 < length rows.now
        → stands_before row.now (slice_index_or rows.now (place + 1) d) ≡ true }
{
    if place > 0 && !stands_before(&rows[place - 1], row) {
        return false;
    }
    match rows.get(place + 1) {
        Some(next) => stands_before(row, next),
        None => true,
    }
}

/// Takes out the row of the rule under an id, if there is one. It is looked for at the likely place first.
pub(crate) fn drop_row(rows: &mut Vec<Row>, id: u32, likely: usize)
    ensures rows { (kept : ℕ → Option Kept) (shapes : List (List SelectorParts))
        → AreRows kept shapes rows.old.items → AreRows (with_kept kept id None) shapes rows.new.items }
    ensures room { vec_capacity rows.new ≡ vec_capacity rows.old }
{
    if let Some(place) = row_of(rows, id, likely) {
        rows.remove(place);
    }
}

/// Where the row of the rule under an id is. It is looked for at the likely place first.
fn row_of(rows: &[Row], id: u32, likely: usize) -> Option<usize>
    ensures found { IfSome result (λ place. (place < length rows.now)
        × ((d : Row) → id_of (slice_index_or rows.now place d) ≡ id)) }
    ensures none { IfNone result ((place : ℕ) (d : Row) → place < length rows.now
        → id_of (slice_index_or rows.now place d) ≢ id) }
{
    if is_of(rows, likely, id) {
        return Some(likely);
    }
    for (place, row) in rows.iter().enumerate() {
        if row.candidate.place.2 == id {
            return Some(place);
        }
    }
    None
}

/// Whether the row at a place is that of the rule under an id.
fn is_of(rows: &[Row], place: usize, id: u32) -> bool
    ensures { IsTrue result → (place < length rows.now) × ((d : Row) → id_of (slice_index_or rows.now place d) ≡ id) }
{
    match rows.get(place) {
        Some(row) => row.candidate.place.2 == id,
        None => false,
    }
}

/// Where a row goes: behind those that come before it.
pub(crate) fn place_for(rows: &[Row], row: &Row) -> usize
    ensures bound { result ≤ length rows.now }
    ensures parted { IsPartitionedBy (λ held. stands_before held row.now) rows.now
        → IsPartitionPoint (λ held. stands_before held row.now ≡ true) (λ held. stands_before held row.now ≡ false)
        rows.now result }
{
    rows.partition_point(|held| stands_before(held, row))
}

/// Whether one row comes before another.
#[tactic(auto, unfolding(crate::specs::Rows::stands_before))]
fn stands_before(a: &Row, b: &Row) -> bool
    ensures { result ≡ stands_before a.now b.now }
{
    cmp_rows(a, b).is_lt()
}

/// How two rows compare.
fn cmp_rows(a: &Row, b: &Row) -> Ordering
    ensures { result ≡ row_cmp a.now b.now }
{
    match a.shape.cmp(&b.shape) {
        Ordering::Equal => cmp_in_shape(a, b),
        other => other,
    }
}

/// How two rows of one shape compare.
fn cmp_in_shape(a: &Row, b: &Row) -> Ordering
    ensures { result ≡ cmp_in_shape a.now b.now }
{
    match a.key.as_slice().cmp(b.key.as_slice()) {
        Ordering::Equal => a.candidate.place.cmp(&b.candidate.place),
        other => other,
    }
}
