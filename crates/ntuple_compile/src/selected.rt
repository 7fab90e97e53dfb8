//! What the selectors and the key of a spec are made of.

ghost use Rattle.std.specs.Prelude.{◌≡◌, ◌-◌, ◌^◌, ◌<◌, ◌≤◌, length, All};
ghost use Rattle.std.specs.List.{list_any};
ghost use Rattle.ff_headers.specs.Fields.{LiesWithin};
ghost use Rattle.ff_headers.specs.Kinds.{kind_size};
ghost use Rattle.ntuple_compile.specs.SpecFits.{kinds_of, named_fields};
ghost use Rattle.ntuple_compile.specs.Selected.{AreGiven, AreGivenIn, IsPartOf, flags_for, given_for, is_part_of_field};
ghost use Rattle.ntuple_compile.specs.Selected.{key_field, key_for, key_part, mask_field, mask_for, selector_of_mask, selectors_of};

use crate::header::{HeaderBytes, put_field};
use arrayvec::ArrayVec;
use ff_headers::{Field, Key, Kind, PARTIAL_MASK, Selector, fields_of};
use ntuple_text::{Flow, Part, Spec};

const ETHER: [Kind; 1] = [Kind::Eth];

const IP4: [Kind; 1] = [Kind::Ipv4];

const TCP4: [Kind; 2] = [Kind::Ipv4, Kind::Tcp];

const UDP4: [Kind; 2] = [Kind::Ipv4, Kind::Udp];

const IP6: [Kind; 1] = [Kind::Ipv6];

const TCP6: [Kind; 2] = [Kind::Ipv6, Kind::Tcp];

const UDP6: [Kind; 2] = [Kind::Ipv6, Kind::Udp];

/// The headers that a flow names.
pub(crate) fn kinds_of(flow: Flow) -> &'static [Kind]
    ensures { result.now ≡ kinds_of flow }
{
    match flow {
        Flow::Ether => &ETHER,
        Flow::Ip4 => &IP4,
        Flow::Tcp4 => &TCP4,
        Flow::Udp4 => &UDP4,
        Flow::Ip6 => &IP6,
        Flow::Tcp6 => &TCP6,
        Flow::Udp6 => &UDP6,
    }
}

/// The selectors of a spec.
pub(crate) fn selectors_of(spec: &Spec) -> ArrayVec<Selector, 5>
    requires { AreGiven spec.now }
    ensures { result.items ≡ selectors_of spec.now }
{
    let mut list = ArrayVec::new();
    for kind in kinds_of(spec.flow) {
        let mask = mask_for(spec, *kind);
        list.push(selector_of_mask(*kind, mask.as_slice()));
    }
    list
}

/// The key of a spec, for its selectors.
pub(crate) fn key_for(spec: &Spec) -> Key
    requires { AreGiven spec.now }
    ensures { result.items ≡ key_for spec.now }
{
    let mut key = ArrayVec::new();
    for kind in kinds_of(spec.flow) {
        let part = key_part(spec, *kind);
        key.try_extend_from_slice(part.as_slice()).unwrap();
    }
    key
}

/// The selector of a header with this mask.
fn selector_of_mask(kind: Kind, mask: &[u8]) -> Selector
    requires { length mask.now ≡ kind_size kind }
    ensures { result ≡ selector_of_mask kind mask.now }
{
    Selector::new(kind, flags_for(kind, mask), mask)
}

/// What a spec gives for the field of a header that begins at this bit.
fn given_for(spec: &Spec, kind: Kind, field: &Field) -> Option<Part>
    ensures { result ≡ given_for (named_fields spec.now kind) field.now }
{
    match (kind, field.first) {
        (Kind::Eth, 0) => spec.dst,
        (Kind::Eth, 48) => spec.src,
        (Kind::Eth, 96) => spec.proto,
        (Kind::Ipv4, 8) => spec.class,
        (Kind::Ipv4, 72) => spec.proto,
        (Kind::Ipv4, 96) => spec.src,
        (Kind::Ipv4, 128) => spec.dst,
        (Kind::Ipv6, 4) => spec.class,
        (Kind::Ipv6, 48) => spec.proto,
        (Kind::Ipv6, 64) => spec.src,
        (Kind::Ipv6, 192) => spec.dst,
        (Kind::Tcp | Kind::Udp, 0) => spec.src_port,
        (Kind::Tcp | Kind::Udp, 16) => spec.dst_port,
        _ => None,
    }
}

/// The mask for a header.
pub(crate) fn mask_for(spec: &Spec, kind: Kind) -> HeaderBytes
    requires { AreGivenIn spec.now kind }
    ensures value { result.items ≡ mask_for spec.now kind }
    ensures whole { length result.items ≡ kind_size kind }
{
    let mut bytes = ArrayVec::new();
    let mut rest = 0;
    for field in fields_of(kind) {
        let value = mask_field(field.bits, given_for(spec, kind, field));
        rest = put_field(&mut bytes, rest, field, value);
    }
    bytes
}

/// The key's part for a header.
pub(crate) fn key_part(spec: &Spec, kind: Kind) -> HeaderBytes
    requires { AreGivenIn spec.now kind }
    ensures value { result.items ≡ key_part spec.now kind }
    ensures whole { length result.items ≡ kind_size kind }
{
    let mut bytes = ArrayVec::new();
    let mut rest = 0;
    for field in fields_of(kind) {
        let value = key_field(field.bits, given_for(spec, kind, field));
        rest = put_field(&mut bytes, rest, field, value);
    }
    bytes
}

/// A mask's field: a one for each bit that is compared.
pub(crate) fn mask_field(bits: usize, given: Option<Part>) -> u128
    requires few { bits ≤ 128 }
    requires part { IsPartOf bits given }
    ensures { result ≡ mask_field bits given }
{
    match given {
        Some(part) => ones(bits) - part.skip,
        None => 0,
    }
}

/// A key's field: the value's bits where the mask has ones.
pub(crate) fn key_field(bits: usize, given: Option<Part>) -> u128
    requires few { bits ≤ 128 }
    requires part { IsPartOf bits given }
    ensures { result ≡ key_field bits given }
{
    match given {
        Some(part) => part.value & mask_field(bits, given),
        None => 0,
    }
}

/// The number of so many ones.
fn ones(bits: usize) -> u128
    requires { bits ≤ 128 }
    ensures { result ≡ 2 ^ bits - 1 }
{
    if bits < 128 {
        (1 << bits) - 1
    } else {
        u128::MAX
    }
}

/// The flags of the selector of a header with this mask.
pub(crate) fn flags_for(kind: Kind, mask: &[u8]) -> u8
    requires { length mask.now ≡ kind_size kind }
    ensures { result ≡ flags_for kind mask.now }
{
    if has_part(mask, fields_of(kind)) {
        PARTIAL_MASK
    } else {
        0
    }
}

/// Whether the mask has a part of one of the fields.
fn has_part(mask: &[u8], fields: &[Field]) -> bool
    requires { All (LiesWithin (length mask.now)) fields.now }
    ensures { result ≡ list_any (is_part_of_field mask.now) fields.now }
{
    for field in fields {
        if is_part_of_field(mask, field) {
            return true;
        }
    }
    false
}

/// Whether the mask has some bits of the field, and not all.
fn is_part_of_field(mask: &[u8], field: &Field) -> bool
    requires { LiesWithin (length mask.now) field.now }
    ensures { result ≡ is_part_of_field mask.now field.now }
{
    let value = field.value_at(mask);
    value != 0 && value != ones(field.bits)
}
