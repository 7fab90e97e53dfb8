//! Tests of the program's calls: each once on its happy path, since a body that always wants memory is proved too, and
//! what no clause says. Nothing stands on this crate, so that no other is proved a second time for its tests.
#![tactic(auto)]

#[cfg(test)]
mod failing;
#[cfg(test)]
mod live;
#[cfg(test)]
mod run;
#[cfg(test)]
mod steered;
