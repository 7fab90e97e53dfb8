//! What a device offers and what its driver set, and the object machine over them as definitions.
//!
//! The capabilities, commands and resource objects are those of the Virtio 1.4 draft's flow filters (device
//! capabilities, administration commands); ranges, statuses, qualifiers and the order of refusals are this project's
//! own.
//!
//! It promises that [`DeviceCaps`] and [`DriverCaps`] hold what they were given, with a device's ranges and selectors
//! of rising types in every value, and that [`is_supported`], `DriverCaps::{has_action, has_selectors}`,
//! [`has_opcode`], [`has_other_opcode`] and [`is_opcode_in`] say what a capability, the device and a bitmap of opcodes
//! have; [`opcodes_used`] keeps the two opcodes that are always in use. [`may_set`]
//! refuses a capability that the driver wants to set exactly where it has a fault, with the first one, and
//! `DriverCaps::set` replaces that capability alone; [`list_words`], [`list_bytes`] and [`cap_result`] give what the
//! device tells of its capabilities, and [`opcode_bytes`] of its opcodes.
//!
//! The machine is defined here, below all crates that carry it out, since it speaks of capabilities and commands
//! alone: its state, the rows of the verdict table, one step, and runs. That runs keep states valid is proved over
//! these definitions; the device that carries them out states it on its calls.
//!
//! Definitions, in specs/: `Caps` (capabilities), `CapSets` (why one isn't set, and what a set leaves), `CapResults`
//! (what the device tells of them), `States` (state, start, validity), `Statuses` (the refusals), `Verdicts` (the rows
//! of the verdict table), `Answers` (what a command is answered where no row holds), `Steps` (reply, next state,
//! runs). The lemmas on them for the crates above stand in proofs/: `SettingLemmas` (what isn't refused can be set, and
//! stays within the device's, which `laws` says), `RowLemmas` (no row holds), `AcceptedChanges` (an accepted command's
//! change is sound), `EveryAnswer` and `ValidSteps`.
#![tactic(auto)]

mod answer;
mod cap_results;
mod capabilities;
mod error;
pub mod laws;
mod opcodes;
mod setting;
mod start;
mod support;
mod verdict;

pub use answer::{Answer, Effect};
pub use cap_results::{cap_result, list_bytes, list_words};
pub use capabilities::{DeviceCaps, DriverCaps, GREATEST_LIMITS, MOST_PAIRS};
pub use error::CapErr;
pub use opcodes::{has_opcode, has_other_opcode, is_opcode_in, opcode_bytes, opcodes_used};
pub use setting::may_set;
pub use start::Start;
pub use support::is_supported;
pub use verdict::Verdict;
