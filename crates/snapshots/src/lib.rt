//! Tables of rules that workers read while they change: a writing side publishes changes one by one, and each worker
//! reads a snapshot without a lock and waits for nobody.
//!
//! There are two copies of the tables, which `left_right` keeps; a reader enters one of them in one atomic step, and a
//! change is published in one. Which list of changes a copy stands for is a token of no bytes inside it, of the kit's
//! `logbook`, whose log is the one list of published changes. These rules are this project's own.
//!
//! It promises that [`AdminEnd::put`] publishes exactly its change behind the ones before, or nothing; that
//! [`AdminEnd::close`] publishes the last; that [`Worker::classify`] gives the first matching rule after all changes of
//! a published list which begins with all that the worker saw or was told before; and what a worker's log stands for.
//! That `left_right` lets a reader in is not promised: [`PairDoor`] counts each refusal.
//!
//! In specs/, `Lists` says what lists of changes are and what covers a floor, `Reads` what one read gives, `Ends` and
//! `Workers` what contracts see of both sides, with when a log is Logged, and `Fresh` what `open` gives; the laws that
//! stand on no other call are those of `laws`. `Law`, `Trails`, `Copying`, `Seats`, `FloorSteps`, `Logs` and `Doors`
//! are what the parts keep.
#![tactic(auto)]

mod copied;
mod door;
mod ends;
mod floors;
mod held_door;
mod law;
pub mod laws;
mod opening;
mod pen;
mod published;
mod rule;
mod seen;
mod told;
mod trail;
mod worker;

pub use door::{Door, PairDoor, Shut};
pub use ends::{AdminEnd, Closed};
pub use held_door::HeldDoor;
pub use opening::open;
pub use seen::Seen;
pub use told::Told;
pub use worker::Worker;
