//! What a change does to the objects.

ghost use Rattle.std.specs.Prelude.{◌≡◌, ℕ, ◌≤◌, ◌==◌, true};
ghost use Rattle.ff_headers.specs.Changes.{is_sound};
ghost use Rattle.ff_headers.specs.declared.change.Change.TheVariants as changes;
ghost use Rattle.ff_store.specs.LimitedObjects.{with_change};
ghost use Rattle.ff_store.specs.Counts.{count_of, one_if, IsUncounted};

use crate::counted::{Counted, lower, put, put_object, raise, remove, remove_object};
use crate::store::Store;
use ff_headers::{Change, RuleObj, Selectors};
use res_objects::ObjMap;

impl Store {
    /// Makes the change, where it is sound. Any other changes nothing.
    pub fn apply(&mut self, change: Change)
        ensures { self.new ≡ with_change self.old change }
    {
        if self.is_sound(&change) {
            self.apply_sound(&change);
        }
    }

    /// Makes a sound change, and keeps a copy of what it puts.
    pub fn apply_sound(&mut self, change: &Change)
        requires { is_sound self.old.limits self.old.objects change.now ≡ true }
        ensures { self.new ≡ with_change self.old change.now }
    {
        match change {
            Change::PutGroup(id, priority) => self.put_group(*id, *priority),
            Change::DropGroup(id) => self.drop_group(*id),
            Change::PutClassifier(id, selectors) => self.put_classifier(*id, selectors.copy()),
            Change::DropClassifier(id) => self.drop_classifier(*id),
            Change::PutRule(id, rule) => self.put_rule(*id, rule.copy()),
            Change::DropRule(id) => self.drop_rule(*id),
            Change::Close => {}
        }
    }

    /// A sound put of a group.
    fn put_group(&mut self, id: u32, priority: u16)
        requires { is_sound self.old.limits self.old.objects (changes.PutGroup id priority) ≡ true }
        ensures { self.new ≡ with_change self.old (changes.PutGroup id priority) }
    {
        put_object(&mut self.groups, id, priority);
    }

    /// A sound drop of a group.
    fn drop_group(&mut self, id: u32)
        requires { is_sound self.old.limits self.old.objects (changes.DropGroup id) ≡ true }
        ensures { self.new ≡ with_change self.old (changes.DropGroup id) }
    {
        remove_object(&mut self.groups, id);
    }

    /// A sound put of a classifier.
    fn put_classifier(&mut self, id: u32, selectors: Selectors)
        requires { is_sound self.old.limits self.old.objects (changes.PutClassifier id selectors) ≡ true }
        ensures { self.new ≡ with_change self.old (changes.PutClassifier id selectors) }
    {
        let _shape = selectors.as_slice();
        put_object(&mut self.classifiers, id, selectors);
    }

    /// A sound drop of a classifier.
    fn drop_classifier(&mut self, id: u32)
        requires { is_sound self.old.limits self.old.objects (changes.DropClassifier id) ≡ true }
        ensures { self.new ≡ with_change self.old (changes.DropClassifier id) }
    {
        remove_object(&mut self.classifiers, id);
    }

    /// A sound put of a rule.
    fn put_rule(&mut self, id: u32, rule: RuleObj)
        requires { is_sound self.old.limits self.old.objects (changes.PutRule id rule) ≡ true }
        ensures { self.new ≡ with_change self.old (changes.PutRule id rule) }
    {
        let group = rule.group();
        let classifier = rule.classifier();
        let replaced = put(&mut self.rules, id, rule);
        uncount(&mut self.groups, &mut self.classifiers, replaced);
        raise(&mut self.groups, group);
        raise(&mut self.classifiers, classifier);
    }

    /// A drop of a rule.
    fn drop_rule(&mut self, id: u32)
        ensures { self.new ≡ with_change self.old (changes.DropRule id) }
    {
        let removed = remove(&mut self.rules, id);
        uncount(&mut self.groups, &mut self.classifiers, removed);
    }
}

/// Lowers the counts of the group and the classifier that a rule named which is held no longer.
fn uncount(
    groups: &mut ObjMap<Counted<u16>>,
    classifiers: &mut ObjMap<Counted<Selectors>>,
    rule: Option<RuleObj>,
)
    requires groups { (q : ℕ) → one_if (λ r. r.group == q) rule ≤ count_of groups.old.entries q }
    requires classifiers { (q : ℕ) → one_if (λ r. r.classifier == q) rule ≤ count_of classifiers.old.entries q }
    ensures groups { IsUncounted groups.old groups.new (λ q. one_if (λ r. r.group == q) rule) }
    ensures classifiers { IsUncounted classifiers.old classifiers.new (λ q. one_if (λ r. r.classifier == q) rule) }
{
    if let Some(rule) = rule {
        lower(groups, rule.group());
        lower(classifiers, rule.classifier());
    }
}
