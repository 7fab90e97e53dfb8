//! Sinks of received frames: one for each receive queue, in a rack.
//!
//! The program hands on the frames of a capture to the queues that its rules steer them to. Where these frames go is
//! behind one trait, [`RxSink`]: [`MemSink`] keeps them in memory, and tests let it fail at chosen calls;
//! [`CaptureSink`] writes them as a capture to any output; [`CountSink`] counts them alone. A [`Rack`] has one boxed
//! sink for each queue. All of this is this project's own; the format of captures is that of the crate `capture`.
//!
//! It promises that a delivered frame stands behind those before it in the one sink that it was delivered to, and that
//! every other sink is as before; that each of the first sinks is finished just once, whatever each answers; and what
//! each of them holds after a failure: the frames from before, or, of a capture that broke, a front of its bytes.
//!
//! Definitions, in specs/: `Sinks` (what a sink is, and what each call does to it), `Racks` (of several sinks),
//! `MemSinks`, `CountSinks` and `CaptureSinks` (what contracts see of each kind).
#![tactic(auto)]

pub mod capture_sink;
pub mod count_sink;
pub mod mem_sink;
pub mod rack;
pub mod rx_sink;

pub use capture_sink::CaptureSink;
pub use count_sink::CountSink;
pub use mem_sink::MemSink;
pub use rack::{Rack, SinkList};
pub use rx_sink::RxSink;
