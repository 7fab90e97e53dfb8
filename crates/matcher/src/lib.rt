//! Tables of flow-filter rules that are searched: changes are made to them one by one, and a frame's headers find the
//! first rule that matches.
//!
//! The rules are those of the flow filters in the Virtio 1.4 draft (network device, "Flow filter"); that the smaller
//! priority comes first, and the order of rules by id where priorities are equal, are this project's own.
//!
//! It promises that [`Tables::find`] gives the first of all rules that match, by group priority, rule priority and id,
//! or none exactly where no rule matches, with at most so many comparisons of keys; that [`Tables::apply`] leaves what
//! ff_headers defines as a change's effect; and that [`Tables::count`] is how many changes were made. Tables are made
//! with room for their limits, and no later call takes memory.
//!
//! The modules, lowest first: `scan` (the plain search, a walk over all rules, with which the other is compared),
//! `keys` (the bits of keys and headers under masks), `rows` (rules as sorted rows), `shapes` (a number for each list
//! of kinds and masks), `search` (halving), `index` (rows and shapes through each change), `tables`.
//!
//! In specs/, `Tables` is what contracts see of tables, `Findings` what a search gives, `Comparisons` how many keys it
//! compares; `Candidates`, `Keys`, `Rows`, `Searches` and `Indexes` are how rules are kept and searched.
#![tactic(auto)]

mod found;
mod index;
mod keys;
pub mod laws;
mod rows;
mod scan;
mod search;
mod shapes;
mod tables;

pub use found::Found;
pub use tables::Tables;
