//! The drop of a destroy.

ghost use Rattle.std.specs.Prelude.{◌≡◌, Some, IfOk};
ghost use Rattle.std.specs.Result.{result_err};
ghost use Rattle.admin_wire.specs.declared.command.Command.TheVariants.{Destroy};
ghost use Rattle.cap_table.specs.Caps.{CapsParts, DriverParts};
ghost use Rattle.cap_table.specs.Answers.{drop_of};
ghost use Rattle.cap_table.specs.Verdicts.{first_verdict, command_rows};

use crate::target::{check_held, check_unnamed};
use admin_wire::{
    ObjHead, VIRTIO_NET_RESOURCE_OBJ_FF_CLASSIFIER, VIRTIO_NET_RESOURCE_OBJ_FF_GROUP,
    VIRTIO_NET_RESOURCE_OBJ_FF_RULE,
};
use cap_table::Verdict;
use ff_headers::Change;
use ff_store::Store;

/// The drop of a destroy, or the verdict of the first row that holds. The rows read no capability.
pub(crate) fn destroyed(store: &Store, head: &ObjHead) -> Result<Change, Verdict>
    ensures refused { (caps : CapsParts) (driver : DriverParts) → result_err result
        ≡ first_verdict (command_rows caps driver store.now.objects (Destroy head.now)) }
    ensures change { IfOk result (λ change. drop_of head.now.type_code head.now.id ≡ Some change) }
{
    match head.type_code {
        VIRTIO_NET_RESOURCE_OBJ_FF_GROUP => {
            check_held(store.group_priority(head.id).is_some())?;
            check_unnamed(store.names_group(head.id))?;
            Ok(Change::DropGroup(head.id))
        }
        VIRTIO_NET_RESOURCE_OBJ_FF_CLASSIFIER => {
            check_held(store.selectors(head.id).is_some())?;
            check_unnamed(store.names_classifier(head.id))?;
            Ok(Change::DropClassifier(head.id))
        }
        VIRTIO_NET_RESOURCE_OBJ_FF_RULE => {
            check_held(store.rule(head.id).is_some())?;
            Ok(Change::DropRule(head.id))
        }
        _ => Err(Verdict::INVALID_FIELD),
    }
}
