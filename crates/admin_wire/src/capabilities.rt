//! The data of capabilities in the bytes.

ghost use Rattle.std.specs.Prelude.{◌≡◌, ◌+◌, ◌≤◌, ◌++◌, length};
ghost use Rattle.std.specs.List.{list_any};
ghost use Rattle.admin_wire.specs.Capabilities.{is_other_action, limits_of, selectors_data, raw_actions, actions_of, cap_data_of, cap_of};
ghost use Rattle.admin_wire.specs.Codes.{cap_head_size, limits_size, list_head_size, most_command_bytes};
ghost use Rattle.admin_wire.specs.Fields.{WritesFields, written};
ghost use Rattle.admin_wire.specs.LaidOut.{HasCapBytes, HasCapLayout};
ghost use Rattle.admin_wire.specs.Layouts.{cap_id, cap_head_fields, limits_fields, actions_fields, action_bytes, cap_fields};

use crate::codes::{
    CAP_HEAD_LEN, LIMITS_LEN, LIST_HEAD_LEN, VIRTIO_NET_FF_ACTION_CAP, VIRTIO_NET_FF_ACTION_DROP,
    VIRTIO_NET_FF_ACTION_RX_VQ, VIRTIO_NET_FF_RESOURCE_CAP, VIRTIO_NET_FF_SELECTOR_CAP,
};
use crate::command::{CapData, CommandBytes, RawActions};
use crate::error::WireErr;
use crate::lists::{list_of, put_list};
use crate::put_field::{put_8, put_16, put_32, put_raw, put_reserved};
use arrayvec::ArrayVec;
use byte_numbers::{le16_at, le32_at};
use ff_headers::Limits;

/// A set of limits.
#[tactic(auto, unfolding(crate::specs::Capabilities::limits_of))]
fn limits_of(bytes: &[u8]) -> Result<CapData, WireErr>
    ensures { result ≡ limits_of bytes.now }
{
    if bytes.len() < LIMITS_LEN {
        return Err(WireErr::ShortData);
    }
    Ok(CapData::Limits(Limits {
        groups: le32_at(bytes, 0),
        classifiers: le32_at(bytes, 4),
        rules: le32_at(bytes, 8),
        per_group: le32_at(bytes, 12),
        last_priority: bytes[16],
        selectors: bytes[17],
    }))
}

/// A list of selectors.
#[tactic(auto, unfolding(crate::specs::Capabilities::selectors_data))]
fn selectors_data(bytes: &[u8]) -> Result<CapData, WireErr>
    ensures { result ≡ selectors_data bytes.now }
{
    let list = list_of(bytes)?;
    Ok(CapData::Selectors(list))
}

/// Whether some action byte is neither of the two.
fn has_other(given: &[u8]) -> bool
    ensures { result ≡ list_any is_other_action given.now }
{
    given.iter().any(|action| {
        *action != VIRTIO_NET_FF_ACTION_DROP && *action != VIRTIO_NET_FF_ACTION_RX_VQ
    })
}

/// Which action bytes stand in a list.
#[tactic(auto, unfolding(crate::specs::Capabilities::raw_actions))]
fn raw_actions(given: &[u8]) -> RawActions
    ensures { result ≡ raw_actions given.now }
{
    RawActions {
        drop: given.contains(&VIRTIO_NET_FF_ACTION_DROP),
        queue: given.contains(&VIRTIO_NET_FF_ACTION_RX_VQ),
        other: has_other(given),
    }
}

/// A list of actions.
#[tactic(auto, unfolding(crate::specs::Capabilities::actions_of))]
fn actions_of(bytes: &[u8]) -> Result<CapData, WireErr>
    ensures { result ≡ actions_of bytes.now }
{
    if bytes.len() < LIST_HEAD_LEN {
        return Err(WireErr::ShortData);
    }
    let count = usize::from(bytes[0]);
    let after = &bytes[LIST_HEAD_LEN..];
    if after.len() < count {
        return Err(WireErr::ShortData);
    }
    Ok(CapData::Actions(raw_actions(&after[..count])))
}

/// The data of the capability with this id, which begins the bytes.
#[tactic(auto, unfolding(crate::specs::Capabilities::cap_data_of))]
fn cap_data_of(id: u16, bytes: &[u8]) -> Result<CapData, WireErr>
    ensures { result ≡ cap_data_of id bytes.now }
{
    match id {
        VIRTIO_NET_FF_RESOURCE_CAP => limits_of(bytes),
        VIRTIO_NET_FF_SELECTOR_CAP => selectors_data(bytes),
        VIRTIO_NET_FF_ACTION_CAP => actions_of(bytes),
        _ => Ok(CapData::Other(id)),
    }
}

/// The capability that is set, whose id begins the bytes.
#[tactic(auto, unfolding(crate::specs::Capabilities::cap_of))]
pub(crate) fn cap_of(bytes: &[u8]) -> Result<CapData, WireErr>
    ensures { result ≡ cap_of bytes.now }
{
    if bytes.len() < CAP_HEAD_LEN {
        return Err(WireErr::ShortData);
    }
    cap_data_of(le16_at(bytes, 0), &bytes[CAP_HEAD_LEN..])
}

/// The id of the capability that is set.
fn cap_id(cap: &CapData) -> u16
    ensures { result ≡ cap_id cap.now }
{
    match cap {
        CapData::Limits(_) => VIRTIO_NET_FF_RESOURCE_CAP,
        CapData::Selectors(_) => VIRTIO_NET_FF_SELECTOR_CAP,
        CapData::Actions(_) => VIRTIO_NET_FF_ACTION_CAP,
        CapData::Other(id) => *id,
    }
}

/// Appends a capability's id.
pub(crate) fn put_cap_head(bytes: &mut CommandBytes, id: u16)
    requires { length bytes.old.items + cap_head_size ≤ most_command_bytes }
    ensures { WritesFields bytes.old.items (cap_head_fields id) bytes.new.items }
{
    put_16(bytes, id);
    put_reserved::<6>(bytes);
}

/// Appends a set of limits.
fn put_limits(bytes: &mut CommandBytes, limits: &Limits)
    requires { length bytes.old.items + limits_size ≤ most_command_bytes }
    ensures { WritesFields bytes.old.items (limits_fields limits.now) bytes.new.items }
{
    put_32(bytes, limits.groups);
    put_32(bytes, limits.classifiers);
    put_32(bytes, limits.rules);
    put_32(bytes, limits.per_group);
    put_8(bytes, limits.last_priority);
    put_8(bytes, limits.selectors);
}

/// The action bytes, drop before queue.
fn action_bytes(actions: RawActions) -> ArrayVec<u8, 2>
    ensures { result.items ≡ action_bytes actions }
{
    let mut given = ArrayVec::new();
    if actions.drop {
        given.push(VIRTIO_NET_FF_ACTION_DROP);
    }
    if actions.queue {
        given.push(VIRTIO_NET_FF_ACTION_RX_VQ);
    }
    given
}

/// Appends a list of actions.
fn put_actions(bytes: &mut CommandBytes, actions: RawActions)
    requires { length bytes.old.items + list_head_size + length (action_bytes actions) ≤ most_command_bytes }
    ensures { WritesFields bytes.old.items (actions_fields (action_bytes actions)) bytes.new.items }
{
    let given = action_bytes(actions);
    put_8(bytes, given.len() as u8);
    put_reserved::<7>(bytes);
    put_raw(bytes, given.as_slice());
}

/// Appends a capability: its id and its data.
pub(crate) fn put_cap(bytes: &mut CommandBytes, cap: &CapData)
    requires { length bytes.old.items + cap_head_size + length (written (cap_fields cap.now)) ≤ most_command_bytes }
    ensures writes { let fields = cap_head_fields (cap_id cap.now) ++ cap_fields cap.now in
        WritesFields bytes.old.items fields bytes.new.items }
    ensures layout { HasCapBytes cap.now → HasCapLayout cap.now }
{
    put_cap_head(bytes, cap_id(cap));
    match cap {
        CapData::Limits(limits) => put_limits(bytes, limits),
        CapData::Selectors(list) => put_list(bytes, list),
        CapData::Actions(actions) => put_actions(bytes, *actions),
        CapData::Other(_) => {}
    }
}
