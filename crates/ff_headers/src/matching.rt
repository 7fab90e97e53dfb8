ghost use Rattle.std.specs.Prelude.{◌≡◌, ◌↔◌, length, IsTrue};
ghost use Rattle.ff_headers.specs.Kinds.{kind_size};
ghost use Rattle.ff_headers.specs.Matching.{SameUnder, PartFits, fits, matches, Matches, key_size};

use crate::headers::Headers;
use crate::rule::Key;
use crate::selector::Selector;
use crate::selectors::Selectors;

/// Whether each selector's header is there and equals the key's part for it under the mask. The key's parts stand in
/// the selectors' order, each of its header's size.
pub fn matches(selectors: &Selectors, key: &Key, headers: &Headers) -> bool
    requires { length key.now.items ≡ key_size selectors.now }
    ensures value { result ≡ matches selectors.now key.now.items headers.now }
    ensures meaning { IsTrue result ↔ Matches selectors.now key.now.items headers.now }
{
    let mut rest = key.as_slice();
    for selector in selectors.as_slice() {
        let (part, later) = rest.split_at(selector.kind().size());
        if !fits(selector, part, headers) {
            return false;
        }
        rest = later;
    }
    true
}

/// Whether the selector's header is there and equals the part under the mask.
fn fits(selector: &Selector, part: &[u8], headers: &Headers) -> bool
    requires { length part.now ≡ kind_size selector.now.kind }
    ensures value { result ≡ fits selector.now part.now headers.now }
    ensures meaning { IsTrue result ↔ PartFits selector.now part.now headers.now }
{
    match headers.get(selector.kind()) {
        Some(header) => equal_under(selector.mask(), header, part),
        None => false,
    }
}

/// Whether the bits of the mask are the same in both.
fn equal_under(mask: &[u8], header: &[u8], part: &[u8]) -> bool
    requires header_long { length header.now ≡ length mask.now }
    requires part_long { length part.now ≡ length mask.now }
    ensures { IsTrue result ↔ SameUnder mask.now header.now part.now }
{
    for (j, bits) in mask.iter().enumerate() {
        if header[j] & bits != part[j] & bits {
            return false;
        }
    }
    true
}
