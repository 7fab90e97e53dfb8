//! Whether a capability has a selector.

ghost use Rattle.std.specs.Prelude.{◌≡◌, ◌==◌, IfSome};
ghost use Rattle.std.specs.Option.{option_copied};
ghost use Rattle.cap_table.specs.Caps.{is_supported, selector_of_kind};

use ff_headers::{Kind, Selector, allowed};

/// Whether a capability with the selectors `have` has the selector that stands at a place of a list, counted from 0:
/// the place is within the limit on the list's length, there is a selector of its kind, and that one allows its mask.
pub fn is_supported(limit: u8, have: &[Selector], place: usize, selector: &Selector) -> bool
    ensures { result ≡ is_supported limit have.now place selector.now }
{
    if place >= usize::from(limit) {
        return false;
    }
    match selector_of_kind(have, selector.kind()) {
        Some(one) => allowed(one, selector),
        None => false,
    }
}

/// The selector of a kind.
pub(crate) fn selector_of_kind(have: &[Selector], kind: Kind) -> Option<&Selector>
    ensures found { option_copied result ≡ selector_of_kind kind have.now }
    ensures kind { IfSome result (λ one. one.now.kind ≡ kind) }
{
    have.iter().find(|one| one.kind().code() == kind.code())
}
