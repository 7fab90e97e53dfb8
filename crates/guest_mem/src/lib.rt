//! Guest memory: the bytes that a guest shares with its devices.
//!
//! A driver lays rings, commands and room for replies into its memory, and gives a device their addresses. The crate
//! knows no layout: it is a list of bytes of fixed length with addresses from 0 on. The abstraction is this project's
//! own.
//!
//! [`GuestMem`] promises that a read gives the bytes at its address, that a write puts bytes there and leaves all
//! others, and that either is refused exactly where it would pass the memory's end; then nothing is changed. No call
//! but [`GuestMem::zeros`] asks the host for memory. The definitions that the contracts cite stand in
//! `specs/Memory.antt`; lemmas on them for the crates above, on bytes that are read and written and on which ones are
//! changed, in `proofs/Bytes.antt` and `proofs/Changes.antt`.
#![tactic(auto)]

mod error;
mod guest_mem;

pub use error::MemErr;
pub use guest_mem::GuestMem;
