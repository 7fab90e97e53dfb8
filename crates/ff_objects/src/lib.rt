//! The groups, classifiers and rules of a device, and the verdict on a command that is to change them.
//!
//! The objects and commands are those of the Virtio 1.4 draft's flow filters (resource objects); the rows of the
//! verdict, their order, statuses and qualifiers are this project's own.
//!
//! It promises that [`Objects::check`] answers the change of a create, a modify or a destroy, or the verdict of the
//! first row that holds; that the change is sound, and never drops a group or a classifier that a rule names; that
//! [`Objects::look`] answers a query with the object's bytes, or with such a verdict; and that [`Objects::apply`] is
//! one more change. All room is taken by [`Objects::new`]; no later call takes memory. Whether an id is held, and
//! whether a rule names it, is asked of the store's maps and counts, so that no call walks the rules.
//!
//! The modules, lowest first: `objects` (what is held), `rule` and `content` (what a create or a modify gives),
//! `target` (what a modify and a destroy ask), `create`, `modify`, `destroy`, `check` (all three), `look` (a query).
//!
//! The definitions are those of the crates below: the rows in cap_table's `Verdicts`, what commands change and are
//! answered in its `Answers`, objects and changes in ff_headers, and what contracts see of the objects in ff_store's
//! `LimitedObjects`. In specs/ `Drops` says which objects are never dropped.
#![tactic(auto)]

mod check;
mod content;
mod create;
mod destroy;
mod look;
mod modify;
mod objects;
mod rule;
mod target;

pub use cap_table::Verdict;
pub use objects::Objects;
