//! Both ends of a split virtqueue over guest memory.
//!
//! The layout is that of the Virtio 1.4 draft ("Split Virtqueues"): a table of descriptors, the ring in which the
//! driver makes chains available, and the ring in which the device gives them back. The event index is left out, so
//! neither end looks at the event fields. Which faults of a ring a device reports, and their order, are this project's
//! own.
//!
//! [`DeviceEnd::pop`] promises the chain of the layout, or its first fault, whatever bytes a hostile guest wrote: a
//! chain that loops, leaves the memory or is too long is refused, and the end is then as it was.
//! [`DeviceEnd::pop_into`] promises the same of a chain that the caller keeps, which is faster: a chain has 2 KB.
//! [`DeviceEnd::push_used`] writes one element and the index. [`DriverEnd::post`] writes the descriptors of a chain,
//! its head and the available index, and nothing else; [`DriverEnd::take`] takes back what the device gave back. No
//! call but [`DriverEnd::new`] asks for memory. In which order one call writes its bytes, no contract says.
//!
//! Both ends of a fresh queue agree, and bytes outside of the queue don't change that. After a round of post, pop, push
//! and take they agree again: the take gives the chain that was pushed, and as many descriptors are free as before
//! ([`rounds_keep_agreement`]). Where the device writes a reply into the chain's writable pieces, command and reply lie
//! in the queue afterwards, in just the pieces that were posted ([`rounds_leave_the_answer`]).
//!
//! The modules, lowest first: `error` (what both ends refuse), `queue_place` (where a queue lies), `setup` (whether it
//! may lie there), `number` (in memory), `descriptor`, `ring`, `chain` (what a device gets), `walk` (from a head to its
//! chain), `device_end`; `pool` (which descriptors are free), `driver_end`; `agreement` (laws of both ends together).
//! The definitions stand in specs/, those of a module under its name: `QueuePlaces`, `Setup`, `Descriptors`,
//! `Rings`, `Chains`, `Errors` (what each fault says), `Walks` (what a walk is, in its own words, and the chain of a
//! head), `DeviceEnds`, `Pools`, `DriverEnds`, `Agreement`.
#![tactic(auto)]

mod agreement;
mod chain;
mod descriptor;
mod device_end;
mod driver_end;
mod error;
mod number;
mod pool;
mod queue_place;
mod ring;
mod setup;
mod walk;

pub use agreement::{
    other_bytes_keep_agreement, rounds_keep_agreement, rounds_leave_the_answer,
    writable_pieces_keep_the_queue,
};
pub use chain::{Chain, MOST_DESCRIPTORS, MOST_READABLE, Piece};
pub use device_end::DeviceEnd;
pub use driver_end::DriverEnd;
pub use error::{DriverErr, PostErr, RingErr, SetupErr, TakeErr};
pub use queue_place::Place;
