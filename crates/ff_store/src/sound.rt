//! Whether a change is sound.

ghost use Rattle.std.specs.Prelude.{◌≡◌, not, ◌&&◌, ◌||◌, ◌==◌, if◌then◌else◌, false};
ghost use Rattle.std.specs.Prelude.{is_some, length, nat_lt, slice_get};
ghost use Rattle.std.specs.Option.{option_map_or};
ghost use Rattle.ff_headers.specs.Objects.{object_under};
ghost use Rattle.ff_headers.specs.Changes.{is_sound, is_priority_taken, is_backed, has_room, names_group, names_classifier};

use crate::store::Store;
use ff_headers::{Change, RuleObj};

impl Store {
    /// Whether the change is sound, so that [`Store::apply`] makes it. A put of a group walks the groups; nothing walks
    /// the rules.
    #[tactic(auto, unfolding(ff_headers::specs::Changes::is_sound))]
    pub fn is_sound(&self, change: &Change) -> bool
        ensures { result ≡ is_sound self.now.limits self.now.objects change.now }
    {
        match change {
            Change::PutGroup(id, priority) => self.may_put_group(*id, *priority),
            Change::DropGroup(id) => !self.names_group(*id),
            Change::PutClassifier(id, _) => self.may_put_classifier(*id),
            Change::DropClassifier(id) => !self.names_classifier(*id),
            Change::PutRule(id, rule) => self.may_put_rule(*id, rule),
            Change::DropRule(_) => true,
            Change::Close => false,
        }
    }

    /// Whether a group of another id has the priority. It walks the groups.
    #[tactic(auto, using(crate::proofs::LoopLemmas::any_next, crate::proofs::LoopLemmas::any_found))]
    pub fn is_priority_taken(&self, id: u32, priority: u16) -> bool
        ensures { result ≡ is_priority_taken self.now.objects id priority }
    {
        for place in 0..self.group_count() {
            if self.has_priority_at(place, id, priority) {
                return true;
            }
        }
        false
    }

    /// Whether the group at a place has another id and the priority.
    fn has_priority_at(&self, place: usize, id: u32, priority: u16) -> bool
        ensures { result ≡ option_map_or (λ group. not (group.0 == id) && (group.1 == priority))
            (slice_get self.now.objects.groups place) false }
    {
        match self.group_at(place) {
            Some((other, taken)) => other != id && taken == priority,
            None => false,
        }
    }

    /// Whether there is room for the group, and no other has its priority.
    fn may_put_group(&self, id: u32, priority: u16) -> bool
        ensures { result ≡ (has_room self.now.objects.groups id self.now.limits.groups
            && not (is_priority_taken self.now.objects id priority)) }
    {
        let is_held = self.group_priority(id).is_some();
        has_room(is_held, self.group_count(), self.limits().groups)
            && !self.is_priority_taken(id, priority)
    }

    /// Whether no rule names the classifier that would be replaced, or there is room for a new one.
    fn may_put_classifier(&self, id: u32) -> bool
        ensures { result ≡ (if is_some (object_under self.now.objects.classifiers id)
            then not (names_classifier self.now.objects id)
            else nat_lt (length self.now.objects.classifiers) self.now.limits.classifiers) }
    {
        if self.selectors(id).is_some() {
            !self.names_classifier(id)
        } else {
            self.classifier_count() < self.limits().classifiers as usize
        }
    }

    /// Whether the rule's group and classifier back it, and there is room for it.
    fn may_put_rule(&self, id: u32, rule: &RuleObj) -> bool
        ensures { result ≡ (is_backed self.now.objects rule.now
            && has_room self.now.objects.rules id self.now.limits.rules) }
    {
        let is_held = self.rule(id).is_some();
        self.is_backed(rule) && has_room(is_held, self.rule_count(), self.limits().rules)
    }

    /// Whether the rule's group and classifier are held, and its key has the classifier's size.
    fn is_backed(&self, rule: &RuleObj) -> bool
        ensures { result ≡ is_backed self.now.objects rule.now }
    {
        if self.group_priority(rule.group()).is_none() {
            return false;
        }
        match self.selectors(rule.classifier()) {
            Some(selectors) => rule.key().len() == selectors.key_size(),
            None => false,
        }
    }

    /// Whether some rule names the group.
    pub fn names_group(&self, id: u32) -> bool
        ensures { result ≡ names_group self.now.objects id }
    {
        self.rules_in_group(id) != 0
    }

    /// Whether some rule names the classifier.
    pub fn names_classifier(&self, id: u32) -> bool
        ensures { result ≡ names_classifier self.now.objects id }
    {
        self.rules_with_classifier(id) != 0
    }
}

/// Whether an object that is held may be replaced, or one more is within the limit.
fn has_room(is_held: bool, count: usize, limit: u32) -> bool
    ensures { result ≡ (is_held || nat_lt count limit) }
{
    is_held || count < limit as usize
}
