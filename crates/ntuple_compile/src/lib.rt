//! Tables of flow steering rules, compiled to commands for a device.
//!
//! A table has specs, each of which names fields of a frame's headers; the one at the least location that fits a frame
//! acts, as with the ntuple options of ethtool(8). A device compares headers with keys under masks, and knows groups,
//! classifiers and rules, which administration commands create (Virtio 1.4 draft, flow filters). Which objects stand
//! for a table, their numbers, and the refusals are this project's own.
//!
//! It promises that [`compile`] gives the commands of a table, or exactly the first reason why the device can't have
//! them; that each command has bytes; that a device which starts ready answers each with OK; and that after them it
//! does with every frame what the table does. In `laws` it promises that a given field agrees with a frame's bit by
//! bit, that the least location decides, and that a frame matches the selectors and the key of a spec exactly where it
//! fits the spec, if a line can spell that one.
//!
//! Definitions, in specs/: `HeaderFields` and `SpecFits` (when a frame fits a spec, and what a table does with it:
//! fields as numbers, with no selector, key or mask of bytes), `Selected` (the selectors and the key of a spec),
//! `Compiled` (the objects and commands of a table, and the refusals) and `Acceptance` (when commands can be written,
//! when a device obeys them, and when it acts as a table). How the code goes about it: `Written` (numbers that are
//! written bit by bit) and `ShapeBytes` (bytes by which the classifier of a spec is found).
//!
//! Worked examples stand in `proofs/CompileExamples.antt`.
#![tactic(auto)]

mod commands;
mod compiling;
mod error;
mod header;
pub mod laws;
mod refusals;
mod selected;
mod shapes;

pub use compiling::compile;
pub use error::CompileErr;
