//! Tables of flow steering rules, in the words of `ethtool -N`.
//!
//! A table's text has a line for each rule that is added or removed, as the ntuple options of ethtool(8) spell them.
//! Which words there are, how numbers and addresses are spelled, that a table has 1,024 locations, and that the largest
//! free one is taken, is this project's own.
//!
//! It promises that [`read_table`] gives the table of a text, or its first bad line with that line's first fault, from
//! left to right; and that [`put_spec`] and [`put_table`] write the canonical line of a spec, and those of a table by
//! rising location, or a front of them where the output failed. What they write is read as the same table, and, of a
//! spec that lines can spell, as the same spec.
//!
//! Definitions, in specs/: `Numerals`, `Pieces` and `Addresses` (how numbers and addresses are spelled), `Keys` (flows,
//! fields and their words), `Values` (of an option), `Drafts` (the options of a line), `TableMaps` (a table by
//! location), `TableLines` (what a line does, and a whole text), `SpecTexts` (canonical lines) and `Spellable` (what
//! every table holds).
//! Worked examples stand in `proofs/ValueExamples.antt`, `proofs/TableExamples.antt` and `proofs/TextExamples.antt`.
#![tactic(auto)]

mod address;
mod draft;
mod error;
mod key;
mod numeral;
mod piece;
mod put;
mod put_piece;
mod read;
mod spec;
mod table;
mod value;

pub use error::TextErr;
pub use put::{put_spec, put_table};
pub use read::read_table;
pub use spec::{Flow, Part, Spec, TableDo};
pub use table::Table;
