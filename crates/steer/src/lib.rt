//! A network device and the ring through which its commands come; and live runs, in which workers read frames while
//! commands change the rules.
//!
//! A [`Bench`] is one device, the tables that its frames are searched in, and a split virtqueue of 64 descriptors in
//! 8,192 bytes of guest memory. The rings are laid out as in the Virtio 1.4 draft ("Split Virtqueues"); the places of
//! the bench, and how a command is cut into pieces, are this project's own.
//!
//! [`Bench::admin`] promises that the reply and the state that it leaves are one step of the object machine, and that
//! the command really lies in the ring: the descriptors of the chain that was posted last hold the command in pieces of
//! 64 bytes from its place on, for the device to read, and the room in pieces of 256, for it to write; the writable
//! buffers begin with the reply, and the used element that was written last names the chain and the reply's length.
//! [`Bench::frame`] promises the action of the first rule of the state's objects that matches, and that a queue is
//! below the device's queue pairs. That the tables stand for the state's objects is the type's invariant; no clause
//! names tables, and `frame`, which searches them alone, shows it. Only [`Bench::new`] takes memory.
//!
//! [`live`] carries commands out on a device whose changes are published, and has every worker read its frames on a
//! thread of its own. It promises that replies and packet lines are a legal run, whatever the schedule: each reply is
//! the machine's, or refuses a change for want of memory, and then nothing changed; each frame's action is that of the
//! first matching rule after so many of the accepted changes, a number that never falls for a worker and covers the
//! changes of the commands that the worker was told of. The packet lines are the workers' logs. That workers and
//! commands really run beside each other no clause says. A [`Gate`] may hold a live run at each command and each frame.
//!
//! The way of a live run: `live_run` (its three phases), `admin_side` (commands), `reading` and `workers` (what one
//! worker does, and what all do before and after their frames), `beside` (threads), `live_result`.
//!
//! In specs/, `BenchPlaces` has the places and the pieces, `BenchState` what contracts see of a bench and what it keeps
//! between two commands, `HeldCommands` when a command lies in the ring, and `Rounds` the memory on the way.
//! `LiveCommands` says how commands are answered and which changes they made, `LiveRuns` what a legal run is, `Shares`
//! which frames a worker reads, and `Results` where packet lines stand in the logs; `AdminSides`, `LiveSteps` and
//! `LivePhases` are what the parts of a live run leave. Worked rows stand in `proofs/LiveExamples.antt`.
#![tactic(auto)]

mod admin_line;
mod admin_side;
mod bench;
mod beside;
mod fresh;
mod gate;
pub mod laws;
mod live_result;
mod live_run;
mod pieces;
mod reading;
mod round;
mod workers;

pub use admin_line::AdminLine;
pub use bench::Bench;
pub use gate::{Gate, Open};
pub use live_result::{LiveResult, read_at};
pub use live_run::live;
