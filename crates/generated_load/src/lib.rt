//! A load that is drawn from a seed: a table of flow steering rules, and frames to classify by it.
//!
//! All that is drawn is a function of the seed and a number. The generator, the table, the frames and the device are
//! this project's own; what a table does with a frame is said in `ntuple_compile`, which headers a frame has in
//! `ff_headers`.
//!
//! It promises that [`draw`], [`drawn_table`] and [`drawn_frame`] give what is defined for their state, one frame at a
//! time, and, in `laws`, that the device of a load can have each table that is drawn. [`ActionCounts`] counts what
//! happens to frames.
//!
//! Definitions, in specs/: `Draws` (numbers), `DrawnTables` (a table, and the device), `DrawnFrames` (frames) and
//! `Counts`. Worked examples stand in `proofs/DrawnExamples.antt`.
#![tactic(auto)]

mod counts;
mod draws;
mod frame;
pub mod laws;
mod table;

pub use counts::ActionCounts;
pub use draws::draw;
pub use frame::{FRAME_BYTES, drawn_frame};
pub use table::{drawn_table, load_caps};
