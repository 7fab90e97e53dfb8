ghost use Rattle.std.specs.Prelude.{◌≡◌};
ghost use Rattle.ff_headers.specs.Changes.{is_close, count_after};

use crate::rule::RuleObj;
use crate::selectors::Selectors;

/// One change to the groups, classifiers and rules. A put sets the object of an id, which may be new or held; a drop
/// removes it.
#[derive(Debug, Drop, PartialEq, Eq)]
pub enum Change {
    /// A group's id and priority.
    PutGroup(u32, u16),
    DropGroup(u32),
    /// A classifier's id and selectors.
    PutClassifier(u32, Selectors),
    DropClassifier(u32),
    /// A rule's id, and the rule.
    PutRule(u32, RuleObj),
    DropRule(u32),
    /// No further change follows.
    Close,
}

impl Change {
    /// An equal change. It takes no memory.
    pub fn copy(&self) -> Change
        ensures { result ≡ self.now }
    {
        match self {
            Change::PutGroup(id, priority) => Change::PutGroup(*id, *priority),
            Change::DropGroup(id) => Change::DropGroup(*id),
            Change::PutClassifier(id, selectors) => Change::PutClassifier(*id, selectors.copy()),
            Change::DropClassifier(id) => Change::DropClassifier(*id),
            Change::PutRule(id, rule) => Change::PutRule(*id, rule.copy()),
            Change::DropRule(id) => Change::DropRule(*id),
            Change::Close => Change::Close,
        }
    }

    /// Whether no further change follows.
    pub fn is_close(&self) -> bool
        ensures { result ≡ is_close self.now }
    {
        matches!(self, Change::Close)
    }

    /// How many changes there are with this one, which counts unless it is `Close`. The count stands still at 2^64 - 1.
    pub fn count_after(&self, count: u64) -> u64
        ensures { result ≡ count_after count self.now }
    {
        if self.is_close() {
            count
        } else {
            count.saturating_add(1)
        }
    }
}
