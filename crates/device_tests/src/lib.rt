//! Tests of the public calls of the crates of flow filters that stand below the program: each call once on its happy
//! path, since a body that always wants memory is proved too, and what no clause says. Nothing stands on this crate, so
//! that no other is proved a second time for its tests.
#![tactic(auto)]

#[cfg(test)]
mod bench;
#[cfg(test)]
mod capabilities;
#[cfg(test)]
mod commands;
#[cfg(test)]
mod compiled;
#[cfg(test)]
mod device;
#[cfg(test)]
mod headers;
#[cfg(test)]
mod limits;
#[cfg(test)]
mod loads;
#[cfg(test)]
mod maps;
#[cfg(test)]
mod numbers;
#[cfg(test)]
mod published;
#[cfg(test)]
mod store;
#[cfg(test)]
mod tables;
