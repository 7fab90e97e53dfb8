//! Each public call once, on a frame of two addresses and the type 0x0800, and the headers of whole frames.

ghost use Rattle.std.specs.Prelude.{◌≡◌, ◌<◌};

use ff_headers::{
    Action, Change, Headers, Key, Kind, Limits, RuleAction, RuleObj, Selector, Selectors, ShapeErr,
    Steps, allowed, cmp_key, is_partial, matches, rises,
};
use std::cmp::Ordering;
use std::marker::Brand;
use std::mem::size_of;
use std::sync::ledger::{Blank, Ledger};
use std::test::Fail;

const FRAME: [u8; 14] = [1, 2, 3, 4, 5, 6, 7, 8, 9, 10, 11, 12, 8, 0];

/// A TCP segment over IPv4, from 10.0.0.7 and port 12345 to 192.168.0.1 and port 80.
pub(crate) const TCP_FRAME: [u8; 54] = [
    0x02, 0, 0, 0, 0, 0xaa, 0x02, 0, 0, 0, 0, 0xbb, 0x08, 0x00, // Ethernet
    0x45, 0, 0, 0x28, 0, 0, 0, 0, 0x40, 0x06, 0, 0, 10, 0, 0, 7, 192, 168, 0, 1, // IPv4
    0x30, 0x39, 0, 80, 0, 0, 0, 0, 0, 0, 0, 0, 0, 0, 0, 0, 0, 0, 0, 0, // TCP
];

/// The same with four bytes of IPv4 options.
pub(crate) const WITH_OPTIONS: [u8; 58] = [
    0x02, 0, 0, 0, 0, 0xaa, 0x02, 0, 0, 0, 0, 0xbb, 0x08, 0x00, // Ethernet
    0x46, 0, 0, 0x28, 0, 0, 0, 0, 0x40, 0x06, 0, 0, 10, 0, 0, 7, 192, 168, 0, 1, // IPv4
    0, 0, 0, 0, // options
    0x30, 0x39, 0, 80, 0, 0, 0, 0, 0, 0, 0, 0, 0, 0, 0, 0, 0, 0, 0, 0, // TCP
];

const TYPE_MASK: [u8; 14] = [15, 0, 0, 0, 0, 0, 0, 0, 0, 0, 0, 0, 255, 255];

#[test]
fn kinds_have_codes(rt: HostRuntime) -> Result<(), Fail> {
    assert_eq!(rt; Kind::of_code(3), Some(Kind::Ipv6));
    assert_eq!(rt; Kind::Ipv6.code(), 3);
    assert_eq!(rt; Kind::Ipv6.size(), 40);
    assert_eq!(rt; Kind::of_code(6), None);
    Ok(())
}

#[test]
fn a_masked_rule_matches(rt: HostRuntime) -> Result<(), Fail> {
    let selector = Selector::new(Kind::Eth, 1, &TYPE_MASK);
    assert_eq!(rt; selector.kind(), Kind::Eth);
    assert_eq!(rt; selector.flags(), 1);
    assert_eq!(rt; selector.mask(), TYPE_MASK.as_slice());
    let list = [selector.copy()];
    let selectors = Selectors::of(&list).ok().ok_or("shape")?;
    assert_eq!(rt; selectors.key_size(), 14);
    assert_eq!(rt; selectors.as_slice().len(), 1);
    assert_eq!(rt; selectors.copy(), selectors);

    let mut key = Key::new();
    let bytes = [241, 9, 9, 9, 9, 9, 9, 9, 9, 9, 9, 9, 8, 0];
    key.try_extend_from_slice(&bytes).ok().ok_or("room")?;
    let headers = Headers::parse(&FRAME);
    assert_eq!(rt; headers.get(Kind::Eth).is_some(), true);
    assert_eq!(rt; headers.get(Kind::Udp).is_some(), false);
    assert!(rt; key.len() == selectors.key_size());
    assert!(rt; matches(&selectors, &key, &headers));
    assert!(rt; !matches(&selectors, &key, &Headers::parse(&[])));
    Ok(())
}

#[test]
fn headers_are_held(rt: HostRuntime) -> Result<(), Fail> {
    let whole = Headers::parse(&TCP_FRAME);
    assert_eq!(rt; whole.get(Kind::Eth), Some(&TCP_FRAME[..14]));
    assert_eq!(rt; whole.get(Kind::Ipv4), Some(&TCP_FRAME[14..34]));
    assert_eq!(rt; whole.get(Kind::Ipv6), None);
    assert_eq!(rt; whole.get(Kind::Tcp), Some(&TCP_FRAME[34..]));
    assert_eq!(rt; whole.get(Kind::Udp), None);
    let behind_options = Headers::parse(&WITH_OPTIONS);
    assert_eq!(rt; behind_options.get(Kind::Tcp), Some(&TCP_FRAME[34..]));
    let mut later_fragment = TCP_FRAME;
    later_fragment[21] = 1;
    let fragment = Headers::parse(&later_fragment);
    assert_eq!(rt; fragment.get(Kind::Ipv4).is_some(), true);
    assert_eq!(rt; fragment.get(Kind::Tcp), None);
    assert_eq!(rt; Headers::parse(&TCP_FRAME[..53]).get(Kind::Tcp), None);
    Ok(())
}

#[test]
fn shapes_are_refused(rt: HostRuntime) -> Result<(), Fail> {
    assert_eq!(rt; Selectors::of(&[]), Err(ShapeErr::Empty));
    let twice = [Selector::default(), Selector::default()];
    assert_eq!(rt; Selectors::of(&twice), Err(ShapeErr::Order));
    assert!(rt; !rises(&twice));
    Ok(())
}

#[test]
fn a_copy_is_equal(rt: HostRuntime) -> Result<(), Fail> {
    let rule = RuleObj::new(7, 1, 2, RuleAction::Queue, 4, Key::new());
    assert_eq!(rt; rule.group(), 7);
    assert_eq!(rt; rule.classifier(), 1);
    assert_eq!(rt; rule.priority(), 2);
    assert_eq!(rt; rule.action(), RuleAction::Queue);
    assert_eq!(rt; rule.vq(), 4);
    assert_eq!(rt; rule.key().len(), 0);
    let change = Change::PutRule(5, rule);
    assert_eq!(rt; change.copy(), change);
    Ok(())
}

#[test]
fn masks_are_allowed(rt: HostRuntime) -> Result<(), Fail> {
    let whole_type = Selector::new(Kind::Eth, 0, &TYPE_MASK);
    let mut half_type = TYPE_MASK;
    half_type[13] = 0;
    let half = Selector::new(Kind::Eth, 0, &half_type);
    assert!(rt; allowed(&whole_type, &whole_type));
    assert!(rt; !allowed(&whole_type, &half));
    assert!(rt; !is_partial(&whole_type));
    assert!(rt; allowed(&Selector::new(Kind::Eth, 1, &TYPE_MASK), &half));
    Ok(())
}

#[test]
fn close_is_not_counted(rt: HostRuntime) -> Result<(), Fail> {
    assert!(rt; Change::Close.is_close());
    assert_eq!(rt; Change::Close.count_after(7), 7);
    assert_eq!(rt; Change::DropRule(1).count_after(7), 8);
    assert_eq!(rt; Change::DropRule(1).count_after(u64::MAX), u64::MAX);
    Ok(())
}

/// Compares two keys, which is a step. At run time only the order is seen.
fn compared<L: Ledger>(a: &Key, b: &Key, blank: Blank) -> Ordering
    requires name { blank.name ≡ L.name }
    requires parts { blank.parts ≡ L.parts }
    requires some { 0 < blank.parts }
{
    let mut steps = Steps::<L>::new(blank);
    cmp_key(a, b, &mut steps)
}

#[test]
fn steps_take_no_bytes(rt: HostRuntime) -> Result<(), Fail> {
    let mut greater = Key::new();
    greater.try_extend_from_slice(&[1]).ok().ok_or("room")?;
    assert_eq!(rt;
        compared::<Brand>(&Key::new(), &greater, Blank::new(1)),
        Ordering::Less
    );
    assert_eq!(rt; size_of::<Steps<Brand>>(), 0);
    Ok(())
}
