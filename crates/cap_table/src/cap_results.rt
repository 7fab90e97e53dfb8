//! What the device tells of its capabilities.

ghost use Rattle.std.specs.Prelude.{◌≡◌, ◌≢◌, ◌+◌, ◌≤◌, ◌↔◌, ◌++◌, length, None};
ghost use Rattle.std.specs.List.{flat_map};
ghost use Rattle.std.specs.Int.{w64, to_le_bytes};
ghost use Rattle.admin_wire.specs.Codes.{limits_cap, selectors_cap, actions_cap, most_selectors, most_result_bytes};
ghost use Rattle.admin_wire.specs.Fields.{written};
ghost use Rattle.cap_table.specs.CapResults.{list_words, limits_result, offered_fields, selectors_result, actions_result, cap_result};

use crate::capabilities::DeviceCaps;
use admin_wire::{
    VIRTIO_NET_FF_ACTION_CAP, VIRTIO_NET_FF_ACTION_DROP, VIRTIO_NET_FF_ACTION_RX_VQ,
    VIRTIO_NET_FF_RESOURCE_CAP, VIRTIO_NET_FF_SELECTOR_CAP,
};
use arrayvec::ArrayVec;
use ff_headers::{Limits, Selector};

/// The bytes of a capability.
type CapBytes = ArrayVec<u8, 264>;

/// The ids of the device's capabilities as a bitmap: bit b of word k is the id 64 k + b.
pub fn list_words() -> [u64; 33]
    ensures { result ≡ list_words }
{
    let mut words = [0; 33];
    // 0x800, 0x801 and 0x802
    words[32] = 0b111;
    words
}

/// The bytes of that bitmap.
pub fn list_bytes() -> ArrayVec<u8, 264>
    ensures { result.items ≡ flat_map (to_le_bytes w64) list_words }
{
    let words = list_words();
    let mut bytes = CapBytes::new();
    for word in &words {
        bytes.try_extend_from_slice(&word.to_le_bytes()).unwrap();
    }
    bytes
}

/// The bytes of the device's capability with this id. There are none exactly where the id is that of none of the three.
#[tactic(auto, using(crate::proofs::CapResultLemmas::few_selectors), unfolding(crate::specs::CapResults::cap_result))]
pub fn cap_result(device: &DeviceCaps, id: u16) -> Option<ArrayVec<u8, 264>>
    ensures value { result ≡ cap_result device.now id }
    ensures none { (result ≡ None) ↔ (id ≢ limits_cap) × (id ≢ selectors_cap) × (id ≢ actions_cap) }
{
    match id {
        VIRTIO_NET_FF_RESOURCE_CAP => Some(limits_result(device.limits())),
        VIRTIO_NET_FF_SELECTOR_CAP => Some(selectors_result(device.selectors())),
        VIRTIO_NET_FF_ACTION_CAP => Some(actions_result()),
        _ => None,
    }
}

/// The limits, and two reserved bytes.
fn limits_result(limits: &Limits) -> CapBytes
    ensures { result.items ≡ limits_result limits.now }
{
    let mut bytes = CapBytes::new();
    bytes
        .try_extend_from_slice(&limits.groups.to_le_bytes())
        .unwrap();
    bytes
        .try_extend_from_slice(&limits.classifiers.to_le_bytes())
        .unwrap();
    bytes
        .try_extend_from_slice(&limits.rules.to_le_bytes())
        .unwrap();
    bytes
        .try_extend_from_slice(&limits.per_group.to_le_bytes())
        .unwrap();
    bytes.push(limits.last_priority);
    bytes.push(limits.selectors);
    bytes.try_extend_from_slice(&[0; 2]).unwrap();
    bytes
}

/// How many selectors there are, and each of them.
fn selectors_result(selectors: &[Selector]) -> CapBytes
    requires { length selectors.now ≤ most_selectors }
    ensures { result.items ≡ selectors_result selectors.now }
{
    let mut bytes = CapBytes::new();
    bytes.push(selectors.len() as u8);
    bytes.try_extend_from_slice(&[0; 7]).unwrap();
    for selector in selectors {
        put_selector(&mut bytes, selector);
    }
    bytes
}

/// Appends a selector, with PARTIAL_MASK as its only flag.
fn put_selector(bytes: &mut CapBytes, selector: &Selector)
    requires { length bytes.old.items + 48 ≤ most_result_bytes }
    ensures bytes { bytes.new.items ≡ bytes.old.items ++ written (offered_fields selector.now) }
    ensures size { length bytes.new.items ≤ length bytes.old.items + 48 }
{
    let mask = selector.mask();
    bytes.push(selector.kind().code());
    bytes.push(selector.flags() % 2);
    bytes.try_extend_from_slice(&[0; 2]).unwrap();
    bytes.push(mask.len() as u8);
    bytes.try_extend_from_slice(&[0; 3]).unwrap();
    bytes.try_extend_from_slice(mask).unwrap();
}

/// Both actions.
fn actions_result() -> CapBytes
    ensures { result.items ≡ actions_result }
{
    let mut bytes = CapBytes::new();
    bytes.push(2);
    bytes.try_extend_from_slice(&[0; 7]).unwrap();
    bytes.push(VIRTIO_NET_FF_ACTION_DROP);
    bytes.push(VIRTIO_NET_FF_ACTION_RX_VQ);
    bytes
}
