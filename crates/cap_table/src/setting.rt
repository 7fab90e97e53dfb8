//! Whether the driver may set a capability.

ghost use Rattle.std.specs.Prelude.{◌≡◌, IsOk};
ghost use Rattle.std.specs.List.{list_any};
ghost use Rattle.std.specs.Result.{result_err};
ghost use Rattle.admin_wire.specs.declared.command.CapData.TheVariants as caps;
ghost use Rattle.cap_table.specs.CapSets.{is_some_above, is_type_missing, is_mask_refused, cap_fault, IsSettable};

use crate::capabilities::DeviceCaps;
use crate::error::CapErr;
use crate::support::selector_of_kind;
use admin_wire::{CapData, RawList};
use ff_headers::{Limits, Selector, allowed, is_partial, rises};

/// Whether the device lets its driver set the capability, or else why not.
#[tactic(auto, unfolding(crate::specs::CapSets::cap_fault))]
pub fn may_set(device: &DeviceCaps, wanted: &CapData) -> Result<(), CapErr>
    ensures first { result_err result ≡ cap_fault device.now wanted.now }
    ensures settable { IsOk result → IsSettable wanted.now }
{
    match wanted {
        CapData::Limits(limits) if is_some_above(device.limits(), limits) => Err(CapErr::Above),
        CapData::Selectors(list) => may_set_selectors(device, list),
        CapData::Actions(actions) if actions.other => Err(CapErr::Action),
        CapData::Other(_) => Err(CapErr::Id),
        _ => Ok(()),
    }
}

/// Whether the device lets its driver set these selectors, or else why not.
#[tactic(auto, unfolding(crate::specs::CapSets::cap_fault))]
fn may_set_selectors(device: &DeviceCaps, list: &RawList) -> Result<(), CapErr>
    ensures { result_err result ≡ cap_fault device.now (caps.Selectors list.now) }
{
    let RawList::Good(list) = list else {
        return Err(CapErr::SelectorType);
    };
    let have = device.selectors();
    let wanted = list.as_slice();
    if !rises(wanted) || has_type_missing(have, wanted) {
        return Err(CapErr::SelectorType);
    }
    if has_mask_refused(have, wanted) {
        return Err(CapErr::Mask);
    }
    Ok(())
}

/// Whether some limit is above the other's.
fn is_some_above(most: &Limits, limits: &Limits) -> bool
    ensures { result ≡ is_some_above most.now limits.now }
{
    most.groups < limits.groups
        || most.classifiers < limits.classifiers
        || most.rules < limits.rules
        || most.per_group < limits.per_group
        || most.last_priority < limits.last_priority
        || most.selectors < limits.selectors
}

/// Whether a capability lacks the type of some wanted selector.
fn has_type_missing(have: &[Selector], wanted: &[Selector]) -> bool
    ensures { result ≡ list_any (is_type_missing have.now) wanted.now }
{
    wanted.iter().any(|one| is_type_missing(have, one))
}

/// Whether a capability has no selector of the wanted one's type.
fn is_type_missing(have: &[Selector], wanted: &Selector) -> bool
    ensures { result ≡ is_type_missing have.now wanted.now }
{
    selector_of_kind(have, wanted.kind()).is_none()
}

/// Whether some wanted mask is beyond that of the capability's selector of its type.
fn has_mask_refused(have: &[Selector], wanted: &[Selector]) -> bool
    ensures { result ≡ list_any (is_mask_refused have.now) wanted.now }
{
    wanted.iter().any(|one| is_mask_refused(have, one))
}

/// Whether the wanted mask is beyond that of the capability's selector of its type.
fn is_mask_refused(have: &[Selector], wanted: &Selector) -> bool
    ensures { result ≡ is_mask_refused have.now wanted.now }
{
    match selector_of_kind(have, wanted.kind()) {
        Some(one) => !allowed(one, wanted) || (is_partial(wanted) && !is_partial(one)),
        None => false,
    }
}
