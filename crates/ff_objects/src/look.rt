//! The object that a query asks for.

ghost use Rattle.std.specs.Prelude.{◌≡◌, ◌≤◌, ◌∷◌, [], not, length, is_some, IfOk};
ghost use Rattle.std.specs.Result.{result_err};
ghost use Rattle.admin_wire.specs.declared.command.Command.TheVariants.{Query};
ghost use Rattle.ff_headers.specs.Objects.{object_under};
ghost use Rattle.admin_wire.specs.Codes.{group_type, classifier_type, rule_type, most_command_bytes};
ghost use Rattle.admin_wire.specs.Fields.{written};
ghost use Rattle.admin_wire.specs.Layouts.{object_fields};
ghost use Rattle.cap_table.specs.Caps.{CapsParts, DriverParts};
ghost use Rattle.cap_table.specs.Answers.{object_data, object_bytes, classifier_data, rule_data, byte_of_action};
ghost use Rattle.cap_table.specs.Statuses.{no_object};
ghost use Rattle.cap_table.specs.Verdicts.{first_verdict, command_rows};

use crate::objects::Objects;
use admin_wire::{
    ObjData, ObjHead, RawKey, RawList, RawRule, VIRTIO_NET_FF_ACTION_DROP,
    VIRTIO_NET_FF_ACTION_RX_VQ, VIRTIO_NET_RESOURCE_OBJ_FF_CLASSIFIER,
    VIRTIO_NET_RESOURCE_OBJ_FF_GROUP, VIRTIO_NET_RESOURCE_OBJ_FF_RULE, put_object_data,
};
use arrayvec::ArrayVec;
use cap_table::Verdict;
use ff_headers::{RuleAction, RuleObj, Selectors, copied_bytes, copied_selectors};
use ff_store::Store;

impl Objects {
    /// The data of the object that a query asks for, in the bytes of the create that would put it, or the verdict of
    /// the first row that holds. Reserved bytes are 0; a selector's flags and a rule's virtqueue index are as they were
    /// put.
    pub fn look(&self, head: &ObjHead) -> Result<ArrayVec<u8, 264>, Verdict>
        ensures refused { (caps : CapsParts) (driver : DriverParts) → result_err result
            ≡ first_verdict (command_rows caps driver self.now.objects (Query head.now)) }
        ensures told { IfOk result (λ told. told.items ≡ object_bytes self.now.objects head.now) }
    {
        let object = held_object(&self.store, head)?;
        Ok(put_object_data(&object))
    }
}

/// The object that a query asks for.
fn held_object(store: &Store, head: &ObjHead) -> Result<ObjData, Verdict>
    ensures refused { (caps : CapsParts) (driver : DriverParts) → result_err result
        ≡ first_verdict (command_rows caps driver store.now.objects (Query head.now)) }
    ensures value { IfOk result (λ object. object ≡ object_data store.now.objects head.now.type_code head.now.id) }
    ensures fits { IfOk result (λ object. length (written (object_fields object)) ≤ most_command_bytes) }
{
    if head.flags != 0 {
        return Err(Verdict::INVALID_FIELD);
    }
    match head.type_code {
        VIRTIO_NET_RESOURCE_OBJ_FF_GROUP => held_group(store, head.id),
        VIRTIO_NET_RESOURCE_OBJ_FF_CLASSIFIER => held_classifier(store, head.id),
        VIRTIO_NET_RESOURCE_OBJ_FF_RULE => held_rule(store, head.id),
        _ => Err(Verdict::INVALID_FIELD),
    }
}

/// The group under the id.
fn held_group(store: &Store, id: u32) -> Result<ObjData, Verdict>
    ensures refused { result_err result
        ≡ first_verdict ((not (is_some (object_under store.now.objects.groups id)), no_object) ∷ []) }
    ensures value { IfOk result (λ object. object ≡ object_data store.now.objects group_type id) }
    ensures fits { IfOk result (λ object. length (written (object_fields object)) ≤ most_command_bytes) }
{
    match store.group_priority(id) {
        Some(priority) => Ok(ObjData::Group(priority)),
        None => Err(Verdict::NO_OBJECT),
    }
}

/// The classifier under the id.
fn held_classifier(store: &Store, id: u32) -> Result<ObjData, Verdict>
    ensures refused { result_err result
        ≡ first_verdict ((not (is_some (object_under store.now.objects.classifiers id)), no_object) ∷ []) }
    ensures value { IfOk result (λ object. object ≡ object_data store.now.objects classifier_type id) }
    ensures fits { IfOk result (λ object. length (written (object_fields object)) ≤ most_command_bytes) }
{
    match store.selectors(id) {
        Some(selectors) => Ok(classifier_data(selectors)),
        None => Err(Verdict::NO_OBJECT),
    }
}

/// The rule under the id.
fn held_rule(store: &Store, id: u32) -> Result<ObjData, Verdict>
    ensures refused { result_err result
        ≡ first_verdict ((not (is_some (object_under store.now.objects.rules id)), no_object) ∷ []) }
    ensures value { IfOk result (λ object. object ≡ object_data store.now.objects rule_type id) }
    ensures fits { IfOk result (λ object. length (written (object_fields object)) ≤ most_command_bytes) }
{
    match store.rule(id) {
        Some(rule) => Ok(rule_data(rule)),
        None => Err(Verdict::NO_OBJECT),
    }
}

/// A classifier as the data that lays it out.
#[tactic(auto, using(crate::proofs::LookLemmas::classifier_fits))]
fn classifier_data(selectors: &Selectors) -> ObjData
    ensures value { result ≡ classifier_data selectors.now }
    ensures fits { length (written (object_fields result)) ≤ most_command_bytes }
{
    ObjData::Classifier(RawList::Good(copied_selectors(selectors.as_slice())))
}

/// A rule as the data that lays it out.
#[tactic(auto, using(crate::proofs::LookLemmas::rule_fits))]
fn rule_data(rule: &RuleObj) -> ObjData
    ensures value { result ≡ rule_data rule.now }
    ensures fits { length (written (object_fields result)) ≤ most_command_bytes }
{
    ObjData::Rule(RawRule {
        group: rule.group(),
        classifier: rule.classifier(),
        priority: rule.priority(),
        action: byte_of_action(rule.action()),
        vq: rule.vq(),
        key: RawKey::Good(copied_bytes(rule.key())),
    })
}

/// The byte of an action.
fn byte_of_action(action: RuleAction) -> u8
    ensures { result ≡ byte_of_action action }
{
    match action {
        RuleAction::Drop => VIRTIO_NET_FF_ACTION_DROP,
        RuleAction::Queue => VIRTIO_NET_FF_ACTION_RX_VQ,
    }
}
