//! Each public call on its happy path.

use ff_headers::{Change, Key, Kind, Limits, RuleAction, RuleObj, Selector, Selectors};
use ff_store::Store;
use std::test::Fail;

const LIMITS: Limits = Limits {
    groups: 2,
    classifiers: 1,
    rules: 2,
    per_group: 2,
    last_priority: 9,
    selectors: 3,
};

fn ethernet() -> Selectors {
    Selectors::of(&[Selector::new(Kind::Eth, 0, &[255; 14])]).unwrap()
}

fn rule_in(group: u32) -> RuleObj {
    let mut key = Key::new();
    key.try_extend_from_slice(&[0; 14]).unwrap();
    RuleObj::new(group, 5, 0, RuleAction::Drop, 0, key)
}

#[test]
fn changes_are_made_and_read(rt: HostRuntime) -> Result<(), Fail> {
    let mut store = Store::new(rt.alloc(), &LIMITS)?;
    assert!(rt; store.is_empty());
    assert_eq!(rt; *store.limits(), LIMITS);
    store.apply(Change::PutGroup(7, 70));
    store.apply(Change::PutGroup(3, 30));
    store.apply(Change::PutClassifier(5, ethernet()));
    store.apply(Change::PutRule(9, rule_in(7)));
    assert!(rt; !store.is_empty());
    assert_eq!(rt; store.group_count(), 2);
    assert_eq!(rt; store.classifier_count(), 1);
    assert_eq!(rt; store.rule_count(), 1);
    assert_eq!(rt; store.group_priority(7), Some(70));
    assert_eq!(rt; store.selectors(5), Some(&ethernet()));
    assert_eq!(rt; store.rule(9), Some(&rule_in(7)));
    assert_eq!(rt; store.group_at(0), Some((3, 30)));
    assert_eq!(rt; store.classifier_at(0), Some((5, &ethernet())));
    assert_eq!(rt; store.rule_at(0), Some((9, &rule_in(7))));
    Ok(())
}

#[test]
fn counts_follow_the_rules(rt: HostRuntime) -> Result<(), Fail> {
    let mut store = Store::new(rt.alloc(), &LIMITS)?;
    store.apply(Change::PutGroup(7, 70));
    store.apply(Change::PutGroup(3, 30));
    store.apply(Change::PutClassifier(5, ethernet()));
    store.apply(Change::PutRule(9, rule_in(7)));
    store.apply(Change::PutRule(8, rule_in(7)));
    assert_eq!(rt; store.rules_in_group(7), 2);
    assert_eq!(rt; store.other_rules_in_group(9, 7), 1);
    assert_eq!(rt; store.rules_with_classifier(5), 2);
    assert!(rt; store.is_priority_taken(3, 70));
    assert!(rt; !store.is_sound(&Change::DropGroup(7)));
    store.apply(Change::PutRule(9, rule_in(3)));
    store.apply(Change::DropRule(8));
    assert_eq!(rt; store.rules_in_group(7), 0);
    assert_eq!(rt; store.rules_in_group(3), 1);
    assert!(rt; store.is_sound(&Change::DropGroup(7)));
    store.apply(Change::DropGroup(7));
    assert_eq!(rt; store.group_count(), 1);
    store.apply(Change::DropClassifier(5));
    assert_eq!(rt; store.classifier_count(), 1);
    Ok(())
}
