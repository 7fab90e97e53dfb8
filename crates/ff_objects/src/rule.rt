//! The content of a rule.

ghost use Rattle.std.specs.Prelude.{◌≡◌};
ghost use Rattle.cap_table.specs.Answers.{rule_parts, action_of_byte};
ghost use Rattle.cap_table.specs.States.{is_receive_queue};
ghost use Rattle.cap_table.specs.Verdicts.{unless_refused, rule_faults, rule_rows};

use admin_wire::{RawKey, RawRule, VIRTIO_NET_FF_ACTION_DROP, VIRTIO_NET_FF_ACTION_RX_VQ};
use cap_table::{DeviceCaps, DriverCaps, Verdict};
use ff_headers::{RuleAction, RuleObj, copied_bytes};
use ff_store::Store;

/// The rule that may be held under the id, or the verdict of the first row of its content that holds.
pub(crate) fn rule_in(
    store: &Store,
    id: u32,
    rule: &RawRule,
    device: &DeviceCaps,
    driver: &DriverCaps,
) -> Result<RuleObj, Verdict>
    ensures { result ≡ unless_refused
        (rule_rows (rule_faults device.now driver.now store.now.objects id rule.now))
        (rule_parts rule.now) }
{
    let RawKey::Good(key) = &rule.key else {
        return Err(Verdict::INVALID_FIELD);
    };
    if store.group_priority(rule.group).is_none() {
        return Err(Verdict::NO_OBJECT);
    }
    let Some(selectors) = store.selectors(rule.classifier) else {
        return Err(Verdict::NO_OBJECT);
    };
    if rule.priority > driver.limits().last_priority {
        return Err(Verdict::INVALID_FIELD);
    }
    if key.len() != selectors.key_size() {
        return Err(Verdict::INVALID_FIELD);
    }
    if !driver.has_action(rule.action) {
        return Err(Verdict::INVALID_FIELD);
    }
    if rule.action == VIRTIO_NET_FF_ACTION_RX_VQ && !is_receive_queue(device.pairs(), rule.vq) {
        return Err(Verdict::INVALID_FIELD);
    }
    if store.other_rules_in_group(id, rule.group) >= driver.limits().per_group {
        return Err(Verdict::NO_SPACE);
    }
    Ok(RuleObj::new(
        rule.group,
        rule.classifier,
        rule.priority,
        action_of_byte(rule.action),
        rule.vq,
        copied_bytes(key),
    ))
}

/// Whether the index of a virtqueue is that of a receive queue.
fn is_receive_queue(pairs: u8, vq: u16) -> bool
    ensures { result ≡ is_receive_queue pairs vq }
{
    vq % 2 == 0 && vq < 2 * u16::from(pairs)
}

/// The action of an action byte that is set.
fn action_of_byte(action: u8) -> RuleAction
    ensures { result ≡ action_of_byte action }
{
    if action == VIRTIO_NET_FF_ACTION_DROP {
        RuleAction::Drop
    } else {
        RuleAction::Queue
    }
}
