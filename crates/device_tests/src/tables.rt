//! Each public call once: two groups, and rules for all frames that have an Ethernet header.

ghost use Rattle.std.specs.Prelude.{◌≡◌, ◌<◌};

use ff_headers::{
    Action, Change, Headers, Key, Limits, RuleAction, RuleObj, Selector, Selectors, Steps,
};
use matcher::{Found, Tables};
use std::alloc::Global;
use std::marker::Brand;
use std::sync::ledger::{Blank, Ledger};
use std::test::Fail;

const LIMITS: Limits = Limits {
    groups: 2,
    classifiers: 1,
    rules: 3,
    per_group: 3,
    last_priority: 255,
    selectors: 1,
};

/// What is found. The steps are counted for contracts alone, and nobody asks for their number here.
fn found<L: Ledger>(tables: &Tables, frame: &[u8], blank: Blank) -> Found
    requires name { blank.name ≡ L.name }
    requires parts { blank.parts ≡ L.parts }
    requires some { 0 < blank.parts }
{
    let mut steps = Steps::<L>::new(blank);
    tables.find(&Headers::parse(frame), &mut steps)
}

/// Tables can be read by many threads at once.
fn may_be_shared<T: Sync>(_tables: &T) {}

/// A rule of this group. Its classifier compares nothing, so it matches each frame that has an Ethernet header.
fn rule(group: u32, action: RuleAction, vq: u16) -> Option<RuleObj> {
    let mut key = Key::new();
    key.try_extend_from_slice(&[0; 14]).ok()?;
    Some(RuleObj::new(group, 1, 7, action, vq, key))
}

/// A rule that drops in the later group, and one that queues in the earlier group.
fn two_rules(alloc: Global) -> Result<Tables, Fail> {
    let mut tables = Tables::new(alloc, &LIMITS)?;
    let selectors = Selectors::of(&[Selector::default()]).ok();
    tables.apply(Change::PutGroup(1, 9));
    tables.apply(Change::PutGroup(2, 3));
    tables.apply(Change::PutClassifier(1, selectors.ok_or("shape")?));
    tables.apply(Change::PutRule(5, rule(1, RuleAction::Drop, 0).ok_or("key")?));
    tables.apply(Change::PutRule(6, rule(2, RuleAction::Queue, 4).ok_or("key")?));
    Ok(tables)
}

#[test]
fn the_first_rule_is_found(rt: HostRuntime) -> Result<(), Fail> {
    let tables = two_rules(rt.alloc())?;
    may_be_shared(&tables);
    assert_eq!(rt; *tables.limits(), LIMITS);
    assert_eq!(rt; tables.count(), 5);
    let first = found::<Brand>(&tables, &[0; 14], Blank::new(1));
    assert_eq!(rt; first.action, Action::Queue(2));
    assert_eq!(rt; first.rule, Some(6));
    let none = found::<Brand>(&tables, &[], Blank::new(1));
    assert_eq!(rt; none.action, Action::Default);
    assert_eq!(rt; none.rule, None);
    Ok(())
}
