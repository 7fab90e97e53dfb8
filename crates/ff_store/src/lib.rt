//! The store of flow-filter objects: groups, classifiers and rules by id, within a device's limits.
//!
//! The objects are those of the flow filters in the Virtio 1.4 draft; which change is sound is this project's own. The
//! device and the tables that are searched keep their objects here, so the test of a change and its step stand once.
//!
//! [`Store::is_sound`] answers whether a change is sound, [`Store::apply`] makes a sound change and ignores any other,
//! and [`Store::apply_sound`] makes one that stays the caller's, all exactly as ff_headers defines them (`is_sound` and
//! `step` of its `Changes`). So the objects are always well formed: each rule's group and classifier are held, its key
//! has the classifier's size, and no two groups have one priority.
//!
//! All room is taken by [`Store::new`]; no later call takes memory. With each group and each classifier stands how many
//! rules name it, so no call walks the rules. Only the test whether another group has a priority walks the groups.
//!
//! The modules, lowest first: `counted` (a map of objects with their counts), `store` (what is held, and how it is
//! read), `sound` (the test), `apply` (the step). The definitions are those of ff_headers (`Objects`, `Changes`,
//! `Dependents`); in specs/ `LimitedObjects` is what contracts see of a store, `Counts` and `Stores` are how it is
//! kept.
#![tactic(auto)]

mod apply;
mod counted;
mod sound;
mod store;

pub use store::Store;
