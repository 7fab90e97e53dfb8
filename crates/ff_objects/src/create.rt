//! The put of a create.

ghost use Rattle.std.specs.Prelude.{◌≡◌, ◌∷◌, [], Some, nat_le, IfOk};
ghost use Rattle.std.specs.Result.{result_err};
ghost use Rattle.admin_wire.specs.declared.command.Command.TheVariants.{Create};
ghost use Rattle.cap_table.specs.Answers.{put_of};
ghost use Rattle.cap_table.specs.Statuses.{already_there, no_space};
ghost use Rattle.cap_table.specs.Verdicts.{first_verdict, command_rows};

use crate::content::{classifier_put, group_put, rule_put};
use admin_wire::{ObjData, ObjHead};
use cap_table::{DeviceCaps, DriverCaps, Verdict};
use ff_headers::Change;
use ff_store::Store;

/// The put of a create, or the verdict of the first row that holds.
pub(crate) fn created(
    store: &Store,
    head: &ObjHead,
    object: &ObjData,
    device: &DeviceCaps,
    driver: &DriverCaps,
) -> Result<Change, Verdict>
    ensures refused { result_err result
        ≡ first_verdict (command_rows device.now driver.now store.now.objects (Create head.now object.now)) }
    ensures change { IfOk result (λ change. put_of head.now.id object.now ≡ Some change) }
{
    if head.flags != 0 {
        return Err(Verdict::INVALID_FIELD);
    }
    let limits = driver.limits();
    match object {
        ObjData::Group(priority) => {
            let is_held = store.group_priority(head.id).is_some();
            check_new(is_held, store.group_count(), limits.groups)?;
            group_put(store, head.id, *priority)
        }
        ObjData::Classifier(list) => {
            let is_held = store.selectors(head.id).is_some();
            check_new(is_held, store.classifier_count(), limits.classifiers)?;
            classifier_put(head.id, list, driver)
        }
        ObjData::Rule(rule) => {
            let is_held = store.rule(head.id).is_some();
            check_new(is_held, store.rule_count(), limits.rules)?;
            rule_put(store, head.id, rule, device, driver)
        }
        ObjData::Other => Err(Verdict::INVALID_FIELD),
    }
}

/// Whether an object may be new: its id isn't held, and there are fewer objects than the limit.
fn check_new(is_held: bool, count: usize, limit: u32) -> Result<(), Verdict>
    ensures { result_err result ≡ first_verdict ((is_held, already_there) ∷ (nat_le limit count, no_space) ∷ []) }
{
    if is_held {
        return Err(Verdict::ALREADY_THERE);
    }
    if count >= limit as usize {
        return Err(Verdict::NO_SPACE);
    }
    Ok(())
}
