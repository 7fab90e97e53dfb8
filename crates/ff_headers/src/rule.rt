ghost use Rattle.std.specs.Prelude.{◌≡◌, ◌≤◌, length};
ghost use Rattle.ff_headers.specs.RuleParts.{RuleParts, rule_with};

use crate::selector::copied_bytes;
use arrayvec::ArrayVec;
use std::marker::Model;

/// The bytes that a rule compares: the parts for its classifier's selectors, joined.
pub type Key = ArrayVec<u8, 74>;

/// What a rule does with the frames that it matches.
#[derive(Clone, Copy, Debug, PartialEq, Eq)]
pub enum RuleAction {
    Drop,
    /// Deliver to the receive queue of the rule's virtqueue index.
    Queue,
}

/// What happens to a frame.
#[derive(Clone, Copy, Debug, PartialEq, Eq)]
pub enum Action {
    /// No rule matches.
    Default,
    Drop,
    /// Deliver to the receive queue of this number.
    Queue(u16),
}

/// A flow-filter rule. The virtqueue index of a rule that drops has no meaning and is kept as it was given.
#[derive(Debug, Drop, PartialEq, Eq)]
pub struct RuleObj {
    group: u32,
    classifier: u32,
    priority: u8,
    action: RuleAction,
    vq: u16,
    key: Key,
}

impl Model for RuleObj {
    ghost Value = { RuleParts };

    ghost view = { λ r. rule_with r.group r.classifier r.priority r.action r.vq r.key.items };

    ghost inverse = { λ r. record {
      group = r.group;
      classifier = r.classifier;
      priority = r.priority;
      action = r.action;
      vq = r.vq;
      key = record { items = r.key };
    } };
}

impl RuleObj {
    /// A rule of a group and a classifier, both by id. `vq` is a virtqueue index.
    pub fn new(
        group: u32,
        classifier: u32,
        priority: u8,
        action: RuleAction,
        vq: u16,
        key: Key,
    ) -> RuleObj
        ensures { result ≡ rule_with group classifier priority action vq key.items }
    {
        RuleObj {
            group,
            classifier,
            priority,
            action,
            vq,
            key,
        }
    }

    /// The id of the rule's group.
    pub fn group(&self) -> u32
        ensures { result ≡ self.now.group }
    {
        self.group
    }

    /// The id of the rule's classifier.
    pub fn classifier(&self) -> u32
        ensures { result ≡ self.now.classifier }
    {
        self.classifier
    }

    /// The priority in the group. The smaller number comes first.
    pub fn priority(&self) -> u8
        ensures { result ≡ self.now.priority }
    {
        self.priority
    }

    /// What the rule does with a frame that it matches.
    pub fn action(&self) -> RuleAction
        ensures { result ≡ self.now.action }
    {
        self.action
    }

    /// The virtqueue index, as it was given.
    pub fn vq(&self) -> u16
        ensures { result ≡ self.now.vq }
    {
        self.vq
    }

    /// The key: the parts for the classifier's selectors, joined.
    pub fn key(&self) -> &Key
        ensures value { result.now.items ≡ self.now.key }
        ensures fits { length self.now.key ≤ 74 }
    {
        let _fits = self.key.len();
        &self.key
    }

    /// An equal rule. It takes no memory.
    pub fn copy(&self) -> RuleObj
        ensures { result ≡ self.now }
    {
        let key = copied_bytes(self.key.as_slice());
        RuleObj::new(
            self.group,
            self.classifier,
            self.priority,
            self.action,
            self.vq,
            key,
        )
    }
}
