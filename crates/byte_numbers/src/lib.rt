//! Numbers in bytes, little and big endian, at a place.
//!
//! Commands, rings and files all hold numbers of 16, 32 and 64 bits as bytes. This crate says once what the number at a
//! place of a list of bytes is, and reads it. It follows "Structure Specifications" of the Virtio 1.4 draft: all its
//! numbers are little endian, the lowest byte first. Captures have numbers of 16 and 32 bits in either order.
//!
//! Each call gives the number of the bytes at its place, and needs those bytes to be there. The definitions are in
//! specs/: `Numbers`, and `Bytes` (what a list of bytes is). What crates above need of them stands in
//! `proofs/NumberLaws.antt`: a number depends on its own bytes alone, and the bytes of a number give it back.
#![tactic(auto)]

mod numbers;

pub use numbers::{be16_at, be32_at, le16_at, le32_at, le64_at};
