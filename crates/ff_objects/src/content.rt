//! The content of an object that a create or a modify gives, and the put of it.

ghost use Rattle.std.specs.Prelude.{◌≡◌, if◌then◌else◌, Some, None, is_some};
ghost use Rattle.ff_headers.specs.Shapes.{shape_fault};
ghost use Rattle.ff_headers.specs.declared.change.Change.TheVariants as changes;
ghost use Rattle.cap_table.specs.Answers.{rule_parts};
ghost use Rattle.cap_table.specs.Verdicts.{unless_refused, group_rows, classifier_rows, selectors_in};
ghost use Rattle.cap_table.specs.Verdicts.{rule_rows, rule_faults};

use crate::rule::rule_in;
use admin_wire::{RawList, RawRule};
use cap_table::{DeviceCaps, DriverCaps, Verdict};
use ff_headers::{Change, Selector, Selectors};
use ff_store::Store;

/// The put of a group.
pub(crate) fn group_put(store: &Store, id: u32, priority: u16) -> Result<Change, Verdict>
    ensures { result ≡ unless_refused (group_rows store.now.objects id priority) (changes.PutGroup id priority) }
{
    if store.is_priority_taken(id, priority) {
        return Err(Verdict::INVALID_FIELD);
    }
    Ok(Change::PutGroup(id, priority))
}

/// The put of a classifier.
pub(crate) fn classifier_put(
    id: u32,
    list: &RawList,
    driver: &DriverCaps,
) -> Result<Change, Verdict>
    ensures { result ≡ unless_refused (classifier_rows driver.now list.now)
        (changes.PutClassifier id (selectors_in list.now)) }
{
    let selectors = selectors_in(list, driver)?;
    Ok(Change::PutClassifier(id, selectors))
}

/// The put of a rule.
pub(crate) fn rule_put(
    store: &Store,
    id: u32,
    rule: &RawRule,
    device: &DeviceCaps,
    driver: &DriverCaps,
) -> Result<Change, Verdict>
    ensures { result ≡ unless_refused
        (rule_rows (rule_faults device.now driver.now store.now.objects id rule.now))
        (changes.PutRule id (rule_parts rule.now)) }
{
    let rule = rule_in(store, id, rule, device, driver)?;
    Ok(Change::PutRule(id, rule))
}

/// The selectors of a list that has good shape, where the driver's capability has them all.
fn selectors_in(list: &RawList, driver: &DriverCaps) -> Result<Selectors, Verdict>
    ensures { result ≡ unless_refused (classifier_rows driver.now list.now) (selectors_in list.now) }
{
    let RawList::Good(list) = list else {
        return Err(Verdict::INVALID_FIELD);
    };
    let Some(selectors) = shaped(list) else {
        return Err(Verdict::INVALID_FIELD);
    };
    if !driver.has_selectors(list) {
        return Err(Verdict::INVALID_FIELD);
    }
    Ok(selectors)
}

/// The selectors of a list that has good shape.
#[tactic(auto, using(crate::proofs::CheckLemmas::shaped_or_none))]
fn shaped(list: &[Selector]) -> Option<Selectors>
    ensures { result ≡ (if is_some (shape_fault list.now) then None else Some list.now) }
{
    Selectors::of(list).ok()
}
