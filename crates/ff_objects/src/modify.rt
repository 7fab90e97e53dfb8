//! The put of a modify.

ghost use Rattle.std.specs.Prelude.{◌≡◌, Some, IfOk};
ghost use Rattle.std.specs.Result.{result_err};
ghost use Rattle.admin_wire.specs.declared.command.Command.TheVariants.{Modify};
ghost use Rattle.cap_table.specs.Answers.{put_of};
ghost use Rattle.cap_table.specs.Verdicts.{first_verdict, command_rows};

use crate::content::{classifier_put, group_put, rule_put};
use crate::target::{check_held, check_unnamed};
use admin_wire::{ObjData, ObjHead};
use cap_table::{DeviceCaps, DriverCaps, Verdict};
use ff_headers::Change;
use ff_store::Store;

/// The put of a modify, or the verdict of the first row that holds.
pub(crate) fn modified(
    store: &Store,
    head: &ObjHead,
    object: &ObjData,
    device: &DeviceCaps,
    driver: &DriverCaps,
) -> Result<Change, Verdict>
    ensures refused { result_err result
        ≡ first_verdict (command_rows device.now driver.now store.now.objects (Modify head.now object.now)) }
    ensures change { IfOk result (λ change. put_of head.now.id object.now ≡ Some change) }
{
    if head.flags != 0 {
        return Err(Verdict::INVALID_FIELD);
    }
    match object {
        ObjData::Group(priority) => {
            check_held(store.group_priority(head.id).is_some())?;
            group_put(store, head.id, *priority)
        }
        ObjData::Classifier(list) => {
            check_held(store.selectors(head.id).is_some())?;
            check_unnamed(store.names_classifier(head.id))?;
            classifier_put(head.id, list, driver)
        }
        ObjData::Rule(rule) => {
            check_held(store.rule(head.id).is_some())?;
            rule_put(store, head.id, rule, device, driver)
        }
        ObjData::Other => Err(Verdict::INVALID_FIELD),
    }
}
