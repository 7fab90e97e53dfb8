//! The commands that create the objects of specs.

ghost use Rattle.std.specs.Prelude.{◌≡◌, ◌+◌, ◌/◌, ◌%◌, ◌<◌, ◌≤◌, ◌++◌, IfOk, OnOk, All, length, map};
ghost use Rattle.std.specs.Int.{div_ceil};
ghost use Rattle.std.specs.List.{enumerate_from, range_with_len};
ghost use Rattle.ntuple_text.specs.TableMaps.{location_count};
ghost use Rattle.ntuple_compile.specs.Compiled.{create_classifier, create_group, create_head, create_rule, creates_of};
ghost use Rattle.ntuple_compile.specs.Compiled.{action_byte, action_of_spec, objects_of, raw_rule, rules_per_group};
ghost use Rattle.ntuple_compile.specs.Compiled.{shapes_of, spec_rule, virtqueue_of};
ghost use Rattle.ntuple_compile.specs.Selected.{AreGiven, selectors_of};
ghost use Rattle.ntuple_compile.specs.ShapeBytes.{IsNumbered, number_under};

use crate::selected::{key_for, selectors_of};
use crate::shapes::Shapes;
use admin_wire::{
    Command, ObjData, ObjHead, RawKey, RawList, RawRule, VIRTIO_NET_FF_ACTION_DROP,
    VIRTIO_NET_FF_ACTION_RX_VQ, VIRTIO_NET_RESOURCE_OBJ_FF_CLASSIFIER,
    VIRTIO_NET_RESOURCE_OBJ_FF_GROUP, VIRTIO_NET_RESOURCE_OBJ_FF_RULE,
};
use ff_headers::Limits;
use ntuple_text::{Spec, TableDo};
use std::alloc::{AllocError, Global};
use vnff_base::List;

/// The commands that create the objects of specs.
pub(crate) fn commands_for(
    alloc: Global,
    limits: &Limits,
    specs: &[Spec],
    shapes: &Shapes,
) -> Result<List<Command>, AllocError>
    requires given { All AreGiven specs.now }
    requires few { length specs.now ≤ location_count }
    requires room { rules_per_group limits.now ≡ 0 → length specs.now ≡ 0 }
    requires shapes { map selectors_of shapes.now.firsts.items ≡ shapes_of specs.now }
    requires few_shapes { length shapes.now.firsts.items ≤ location_count }
    requires numbered { IsNumbered shapes.now.firsts.items (number_under shapes.now.numbers) }
    ensures { IfOk result (λ commands. commands ≡ creates_of (objects_of limits.now specs.now)) }
{
    let size = rules_per_group(limits);
    let mut commands = List::new(alloc);
    create_groups(&mut commands, group_count(specs.len(), size))?;
    create_classifiers(&mut commands, shapes.firsts())?;
    create_rules(&mut commands, size, specs, shapes)?;
    Ok(commands)
}

/// How many rules stand in a group.
fn rules_per_group(limits: &Limits) -> usize
    ensures value { result ≡ rules_per_group limits.now }
    ensures few { result ≤ 256 }
{
    let levels = u32::from(limits.last_priority) + 1;
    levels.min(limits.per_group) as usize
}

/// How many groups so many rules fill. No rule, no group: so also where none could stand in one.
fn group_count(rules: usize, size: usize) -> u16
    requires few { rules ≤ location_count }
    requires room { size ≡ 0 → rules ≡ 0 }
    ensures { result ≡ div_ceil rules size }
{
    if size == 0 {
        0
    } else {
        rules.div_ceil(size) as u16
    }
}

/// Creates so many groups, each with its id as priority.
fn create_groups(commands: &mut List<Command>, count: u16) -> Result<(), AllocError>
    ensures { OnOk result (commands.new
        ≡ commands.old ++ map create_group (map (λ g. (g, g)) (range_with_len 0 count))) }
{
    for id in 0..count {
        let head = create_head(VIRTIO_NET_RESOURCE_OBJ_FF_GROUP, u32::from(id));
        commands.push(Command::Create(head, ObjData::Group(id)))?;
    }
    Ok(())
}

/// Creates a classifier for the shape of each of these specs.
fn create_classifiers(commands: &mut List<Command>, firsts: &[Spec]) -> Result<(), AllocError>
    requires given { All AreGiven firsts.now }
    requires few { length firsts.now ≤ location_count }
    ensures { OnOk result (commands.new
        ≡ commands.old ++ map create_classifier (enumerate_from 0 (map selectors_of firsts.now))) }
{
    for (id, spec) in firsts.iter().enumerate() {
        let head = create_head(VIRTIO_NET_RESOURCE_OBJ_FF_CLASSIFIER, id as u32);
        let list = RawList::Good(selectors_of(spec));
        commands.push(Command::Create(head, ObjData::Classifier(list)))?;
    }
    Ok(())
}

/// Creates a rule for each spec, so many in a group.
fn create_rules(
    commands: &mut List<Command>,
    size: usize,
    specs: &[Spec],
    shapes: &Shapes,
) -> Result<(), AllocError>
    requires given { All AreGiven specs.now }
    requires few { length specs.now ≤ location_count }
    requires small { size ≤ 256 }
    requires room { size ≡ 0 → length specs.now ≡ 0 }
    requires few_shapes { length shapes.now.firsts.items ≤ location_count }
    requires numbered { IsNumbered shapes.now.firsts.items (number_under shapes.now.numbers) }
    ensures { OnOk result (commands.new ≡ commands.old ++ map create_rule
        (map (λ e. (e.0, spec_rule size (map selectors_of shapes.now.firsts.items) e.0 e.1))
        (enumerate_from 0 specs.now))) }
{
    for (id, spec) in specs.iter().enumerate() {
        let head = create_head(VIRTIO_NET_RESOURCE_OBJ_FF_RULE, id as u32);
        let rule = rule_of_spec(size, shapes, id, spec);
        commands.push(Command::Create(head, ObjData::Rule(rule)))?;
    }
    Ok(())
}

/// The rule of the spec with this number.
fn rule_of_spec(size: usize, shapes: &Shapes, number: usize, spec: &Spec) -> RawRule
    requires given { AreGiven spec.now }
    requires some { 0 < size }
    requires small { size ≤ 256 }
    requires few { number < location_count }
    requires few_shapes { length shapes.now.firsts.items ≤ location_count }
    requires numbered { IsNumbered shapes.now.firsts.items (number_under shapes.now.numbers) }
    ensures { result ≡ raw_rule (spec_rule size (map selectors_of shapes.now.firsts.items) number spec.now) }
{
    let (action, vq) = action_of_spec(spec.action);
    RawRule {
        group: (number / size) as u32,
        classifier: shapes.number(spec) as u32,
        priority: (number % size) as u8,
        action,
        vq,
        key: RawKey::Good(key_for(spec)),
    }
}

/// The action byte and the virtqueue index of what a spec does: the receive queue q is virtqueue 2 q.
fn action_of_spec(action: TableDo) -> (u8, u16)
    ensures { result ≡ (action_byte (action_of_spec action), virtqueue_of action) }
{
    match action {
        TableDo::Drop => (VIRTIO_NET_FF_ACTION_DROP, 0),
        TableDo::Queue(queue) => (VIRTIO_NET_FF_ACTION_RX_VQ, 2 * u16::from(queue)),
    }
}

/// The head of a create, without flags.
fn create_head(type_code: u16, id: u32) -> ObjHead
    ensures { result ≡ create_head type_code id }
{
    ObjHead {
        type_code,
        id,
        flags: 0,
    }
}
