//! Which masks a capability's selector allows.

ghost use Rattle.std.specs.Prelude.{◌≡◌, ◌↔◌, length, All, IsTrue};
ghost use Rattle.std.specs.List.{list_all};
ghost use Rattle.ff_headers.specs.Fields.{LiesWithin, is_partial, has_bits, keeps_field, is_allowed, IsAllowed};

use crate::field::{Field, fields_of};
use crate::selector::Selector;

/// The flag of a selector by which any part of its mask may be asked for (`VIRTIO_NET_FF_MASK_F_PARTIAL_MASK`).
pub const PARTIAL_MASK: u8 = 1;

/// Whether a capability's selector allows the mask of a wanted one, of the same header. With PARTIAL_MASK among its
/// flags it does where every bit of the wanted mask is one of its own; without it, where of each field the wanted
/// mask has nothing or just what its own has.
pub fn allowed(have: &Selector, want: &Selector) -> bool
    requires { have.now.kind ≡ want.now.kind }
    ensures value { result ≡ is_allowed have.now want.now }
    ensures meaning { IsTrue result ↔ IsAllowed have.now want.now }
{
    if is_partial(have) {
        has_bits(have.mask(), want.mask())
    } else {
        keeps_fields(have.mask(), want.mask(), fields_of(have.kind()))
    }
}

/// Whether the selector's PARTIAL_MASK is set.
pub fn is_partial(selector: &Selector) -> bool
    ensures { result ≡ is_partial selector.now }
{
    selector.flags() & PARTIAL_MASK == PARTIAL_MASK
}

/// Whether every bit of the wanted mask is one of the other.
fn has_bits(have: &[u8], want: &[u8]) -> bool
    ensures { result ≡ has_bits have.now want.now }
{
    have.iter()
        .zip(want)
        .all(|(have, want)| have & want == *want)
}

/// Whether the wanted mask has nothing, or just what the other has, of each field.
fn keeps_fields(have: &[u8], want: &[u8], fields: &[Field]) -> bool
    requires same { length have.now ≡ length want.now }
    requires within { All (LiesWithin (length want.now)) fields.now }
    ensures { result ≡ list_all (keeps_field have.now want.now) fields.now }
{
    for field in fields {
        if !keeps_field(have, want, field) {
            return false;
        }
    }
    true
}

fn keeps_field(have: &[u8], want: &[u8], field: &Field) -> bool
    requires same { length have.now ≡ length want.now }
    requires within { LiesWithin (length want.now) field.now }
    ensures { result ≡ keeps_field have.now want.now field.now }
{
    let wanted = field.value_at(want);
    wanted == 0 || wanted == field.value_at(have)
}
