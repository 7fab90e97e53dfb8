//! Tests of the public calls of the crates that know nothing of flow filters: each call once on its happy path, since a
//! body that always wants memory is proved too, and what no clause says. Nothing stands on this crate, so that no other
//! is proved a second time for its tests.
#![tactic(auto)]

#[cfg(test)]
mod captures;
#[cfg(test)]
mod files;
#[cfg(test)]
mod memory;
#[cfg(test)]
mod numbers;
#[cfg(test)]
mod outputs;
#[cfg(test)]
mod queue;
#[cfg(test)]
mod sinks;
#[cfg(test)]
mod tables;
#[cfg(test)]
mod words;
