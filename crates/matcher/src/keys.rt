//! Keys under masks: the bits of a rule's key, or of a frame's headers, that selectors compare.

ghost use Rattle.std.specs.Prelude.{◌≡◌, ◌+◌, ◌≤◌, ◌++◌, IfSome, length};
ghost use Rattle.std.specs.Option.{option_map};
ghost use Rattle.ff_headers.specs.Matching.{masked, key_size};
ghost use Rattle.ff_headers.specs.Kinds.{kind_size};
ghost use Rattle.ff_headers.specs.Frames.{header_at};
ghost use Rattle.ff_headers.specs.declared.kind.Kind.{Kind};
ghost use Rattle.matcher.specs.Keys.{masked_key, frame_key};

use ff_headers::{Headers, Key, Kind, Selectors};

/// The bits of a rule's key that its classifier's selectors compare.
pub(crate) fn masked_key(selectors: &Selectors, key: &Key) -> Key
    requires { length key.now.items ≡ key_size selectors.now }
    ensures { result.items ≡ masked_key selectors.now key.now.items }
{
    let mut bits = Key::new();
    let mut rest = key.as_slice();
    for selector in selectors.as_slice() {
        let (part, later) = rest.split_at(selector.kind().size());
        push_masked(&mut bits, part, selector.mask());
        rest = later;
    }
    bits
}

/// The bits of a frame's headers that the selectors compare, where the frame has all of these headers.
pub(crate) fn frame_key(selectors: &Selectors, headers: &Headers) -> Option<Key>
    ensures { option_map (λ key. key.items) result ≡ frame_key selectors.now headers.now }
{
    let _size = selectors.key_size();
    let mut bits = Key::new();
    for selector in selectors.as_slice() {
        match headers.get(selector.kind()) {
            Some(header) => push_masked(&mut bits, header, selector.mask()),
            None => return None,
        }
    }
    Some(bits)
}

/// Appends the bits of bytes that a mask has.
fn push_masked(bits: &mut Key, bytes: &[u8], mask: &[u8])
    requires long { length bytes.now ≡ length mask.now }
    requires room { length bits.old.items + length bytes.now ≤ 74 }
    ensures { bits.new.items ≡ bits.old.items ++ masked mask.now bytes.now }
{
    let start = bits.len();
    bits.try_extend_from_slice(bytes).unwrap();
    mask_bytes(&mut bits.as_mut_slice()[start..], mask);
}

/// Leaves the bits of the bytes that a mask has.
fn mask_bytes(bytes: &mut [u8], mask: &[u8])
    requires { length bytes.old ≡ length mask.now }
    ensures { bytes.new ≡ masked mask.now bytes.old }
{
    for j in 0..bytes.len() {
        bytes[j] &= mask[j];
    }
}

/// Each header that is held has its kind's size. It does nothing: its contract says so to contracts.
pub(crate) fn have_sizes(headers: &Headers)
    ensures { (kind : Kind) → IfSome (header_at headers.now kind) (λ value. length value ≡ kind_size kind) }
{
    let _eth = headers.get(Kind::Eth);
    let _ipv4 = headers.get(Kind::Ipv4);
    let _ipv6 = headers.get(Kind::Ipv6);
    let _tcp = headers.get(Kind::Tcp);
    let _udp = headers.get(Kind::Udp);
}
