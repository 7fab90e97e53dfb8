//! What a store holds, and the calls that read it.

ghost use Rattle.std.specs.Prelude.{◌≡◌, ◌↔◌, IsTrue, IfOk, length, slice_get, ◌==◌, false};
ghost use Rattle.std.specs.Option.{option_copied, option_map, option_map_or};
ghost use Rattle.ff_headers.specs.Objects.{IsWellFormed, IsById, object_under, no_objects};
ghost use Rattle.ff_headers.specs.Dependents.{rules_in_group, rules_with_classifier, other_rules_in_group};
ghost use Rattle.res_objects.specs.BoundedMap.{deref_object};
ghost use Rattle.ff_store.specs.LimitedObjects.{none_within};

use crate::counted::{Counted, count_of, object_at, object_of};
use ff_headers::{Limits, RuleObj, Selectors};
use res_objects::ObjMap;
use std::alloc::{AllocError, Global};
use std::marker::Model;

/// Groups, classifiers and rules, within a device's limits. They are always well formed: each rule's group and
/// classifier are held, its key has the classifier's size, and no two groups have one priority.
#[derive(Drop)]
pub struct Store {
    pub(crate) limits: Limits,
    pub(crate) groups: ObjMap<Counted<u16>>,
    pub(crate) classifiers: ObjMap<Counted<Selectors>>,
    pub(crate) rules: ObjMap<RuleObj>,
}

impl Model for Store {
    ghost use Rattle.ff_store.specs.LimitedObjects.{LimitedObjects};
    ghost use Rattle.ff_store.specs.Stores.{objects_in, IsStore};

    ghost Value = { LimitedObjects };

    ghost view = { λ s. record { limits = s.limits; objects = objects_in s.groups s.classifiers s.rules } };

    ghost invariant = { λ s. IsStore s.limits s.groups s.classifiers s.rules };
}

impl Store {
    /// Room for objects within the limits, and no object yet. No later call takes memory.
    pub fn new(alloc: Global, limits: &Limits) -> Result<Store, AllocError>
        ensures { IfOk result (λ store. store ≡ none_within limits.now) }
    {
        Ok(Store {
            limits: *limits,
            groups: ObjMap::new(alloc, limits.groups as usize)?,
            classifiers: ObjMap::new(alloc, limits.classifiers as usize)?,
            rules: ObjMap::new(alloc, limits.rules as usize)?,
        })
    }

    /// The limits within which there is room.
    pub fn limits(&self) -> &Limits
        ensures value { result.now ≡ self.now.limits }
        ensures well_formed { IsWellFormed self.now.limits self.now.objects }
    {
        &self.limits
    }

    /// Whether no group, classifier or rule is held.
    pub fn is_empty(&self) -> bool
        ensures { IsTrue result ↔ (self.now.objects ≡ no_objects) }
    {
        self.group_count() == 0 && self.classifier_count() == 0 && self.rule_count() == 0
    }

    /// How many groups are held.
    pub fn group_count(&self) -> usize
        ensures { result ≡ length self.now.objects.groups }
    {
        self.groups.len()
    }

    /// How many classifiers are held.
    pub fn classifier_count(&self) -> usize
        ensures { result ≡ length self.now.objects.classifiers }
    {
        self.classifiers.len()
    }

    /// How many rules are held.
    pub fn rule_count(&self) -> usize
        ensures { result ≡ length self.now.objects.rules }
    {
        self.rules.len()
    }

    /// The priority of a group.
    pub fn group_priority(&self, id: u32) -> Option<u16>
        ensures { result ≡ object_under self.now.objects.groups id }
    {
        object_of(&self.groups, id).copied()
    }

    /// The selectors of a classifier.
    pub fn selectors(&self, id: u32) -> Option<&Selectors>
        ensures { option_copied result ≡ object_under self.now.objects.classifiers id }
    {
        object_of(&self.classifiers, id)
    }

    /// The rule under the id.
    pub fn rule(&self, id: u32) -> Option<&RuleObj>
        ensures { option_copied result ≡ object_under self.now.objects.rules id }
    {
        self.rules.query(id)
    }

    /// The id and the priority of the group at a place, by rising id.
    pub fn group_at(&self, place: usize) -> Option<(u32, u16)>
        ensures { result ≡ slice_get self.now.objects.groups place }
    {
        match object_at(&self.groups, place) {
            Some((id, priority)) => Some((id, *priority)),
            None => None,
        }
    }

    /// The id and the selectors of the classifier at a place, by rising id.
    pub fn classifier_at(&self, place: usize) -> Option<(u32, &Selectors)>
        ensures { option_map deref_object result ≡ slice_get self.now.objects.classifiers place }
    {
        object_at(&self.classifiers, place)
    }

    /// The id of the rule at a place, by rising id, and the rule.
    pub fn rule_at(&self, place: usize) -> Option<(u32, &RuleObj)>
        ensures { option_map deref_object result ≡ slice_get self.now.objects.rules place }
    {
        self.rules.at(place)
    }

    /// How many rules name the group.
    pub fn rules_in_group(&self, id: u32) -> u32
        ensures { result ≡ rules_in_group self.now.objects id }
    {
        count_of(&self.groups, id)
    }

    /// How many rules name the classifier.
    pub fn rules_with_classifier(&self, id: u32) -> u32
        ensures { result ≡ rules_with_classifier self.now.objects id }
    {
        count_of(&self.classifiers, id)
    }

    /// How many rules of another id name the group.
    pub fn other_rules_in_group(&self, id: u32, group: u32) -> u32
        ensures { result ≡ other_rules_in_group self.now.objects id group }
    {
        self.rules_in_group(group) - u32::from(self.is_in_group(id, group))
    }

    /// Whether the rule under the id names the group.
    fn is_in_group(&self, id: u32, group: u32) -> bool
        ensures value { result
            ≡ option_map_or (λ rule. rule.group == group) (object_under self.now.objects.rules id) false }
        ensures rising { IsById self.now.objects.rules }
    {
        match self.rules.query(id) {
            Some(rule) => rule.group() == group,
            None => false,
        }
    }
}
