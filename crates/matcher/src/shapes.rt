//! The shapes of the classifiers that rules name: each has one number.

ghost use Rattle.std.specs.Prelude.{◌≡◌, ℕ, ◌<◌, ◌==◌, IsTrue, ◌↔◌, true, false, Option, IfSome, IfNone, length, vec_len, vec_capacity};
ghost use Rattle.std.specs.List.{list_any};
ghost use Rattle.matcher.specs.Keys.{shape_of, kind_and_mask};
ghost use Rattle.matcher.specs.Rows.{Kept, selectors_at, IsNew, AreUsed, AreRows};

use crate::rows::Row;
use ff_headers::{Selector, Selectors};

/// The number of the selectors' shape, which gets one if it has none yet: an unused one, or a new one.
pub(crate) fn number_for(shapes: &mut Vec<Selectors>, rows: &[Row], selectors: &Selectors) -> usize
    requires { IsNew shapes.old.items selectors.now → AreUsed shapes.old.items rows.now
        → vec_len shapes.old < vec_capacity shapes.old }
    ensures inside { result < length shapes.new.items }
    ensures shape { shape_of (selectors_at shapes.new.items result) ≡ shape_of selectors.now }
    ensures rows { (kept : ℕ → Option Kept) → AreRows kept shapes.old.items rows.now
        → AreRows kept shapes.new.items rows.now }
    ensures room { vec_capacity shapes.new ≡ vec_capacity shapes.old }
{
    if let Some(number) = number_of(shapes, selectors) {
        return number;
    }
    if let Some(number) = unused_number(shapes.len(), rows) {
        shapes[number] = selectors.copy();
        return number;
    }
    shapes.push_reserved(selectors.copy());
    shapes.len() - 1
}

/// The number of the selectors' shape, if it has one.
pub(crate) fn number_of(shapes: &[Selectors], selectors: &Selectors) -> Option<usize>
    ensures found { IfSome result (λ number. (number < length shapes.now)
        × (shape_of (selectors_at shapes.now number) ≡ shape_of selectors.now)) }
    ensures none { IfNone result (IsNew shapes.now selectors.now) }
{
    for number in 0..shapes.len() {
        if has_shape(&shapes[number], selectors) {
            return Some(number);
        }
    }
    None
}

/// A number below the count that no row has.
fn unused_number(count: usize, rows: &[Row]) -> Option<usize>
    ensures found { IfSome result (λ number. (number < count)
        × (list_any (λ row. row.shape == number) rows.now ≡ false)) }
    ensures none { IfNone result ((number : ℕ) → number < count
        → list_any (λ row. row.shape == number) rows.now ≡ true) }
{
    for number in 0..count {
        if !is_used(rows, number) {
            return Some(number);
        }
    }
    None
}

/// Whether some row has the number.
fn is_used(rows: &[Row], number: usize) -> bool
    ensures { result ≡ list_any (λ row. row.shape == number) rows.now }
{
    rows.iter().any(|row| row.shape == number)
}

/// Whether the kinds and masks of two lists of selectors are the same.
fn has_shape(a: &Selectors, b: &Selectors) -> bool
    ensures { IsTrue result ↔ (shape_of a.now ≡ shape_of b.now) }
{
    let (a, b) = (a.as_slice(), b.as_slice());
    if a.len() != b.len() {
        return false;
    }
    for i in 0..a.len() {
        if !has_part(&a[i], &b[i]) {
            return false;
        }
    }
    true
}

/// Whether the kinds and masks of two selectors are the same.
fn has_part(a: &Selector, b: &Selector) -> bool
    ensures { IsTrue result ↔ (kind_and_mask a.now ≡ kind_and_mask b.now) }
{
    a.kind() == b.kind() && a.mask() == b.mask()
}
