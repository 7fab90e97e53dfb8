//! Files in, bytes out, and the words that the product's files are made of.
//!
//! The program reaches files and outputs through two traits alone, [`Shelf`] and [`Out`], so that what it reads and
//! writes can be said of any of them: `MemShelf` and `MemOut` hold everything in memory, and tests let them fail at
//! chosen calls; `DirShelf`, `StdOut` and `FileOut` are the trusted edge to real files and to standard output. The
//! spelling of bytes, numbers, lines and words is this project's own.
//!
//! It promises that `read_all` gives the bytes that the shelf tells under the name, and says when it gives none; that
//! each call that writes appended its text, or a front of it where the output failed, also where the text was gathered
//! first; that `hex_put` and `hex_read`, and `num_read`, are the spelling of bytes and of numbers; and that lines and
//! words are those of the text.
//!
//! Definitions, in specs/: `Shelves` and `Reads` (what is read), `Outputs` (what is written), `Gatherings` (what is
//! written in large pieces), `Counts` (of failures and of bytes given), `MemShelves`, `MemOuts` and `OpenedFiles`;
//! `Hex`, `Numbers` and `Lines`. The laws of writing stand in `proofs/Writing.antt`, those of gathering in
//! `proofs/Gathering.antt`, those of lines and words in `proofs/LineLemmas.antt` and `proofs/TextLaws.antt`, for the
//! crates above.
#![tactic(auto)]

pub mod dir_shelf;
pub mod error;
pub mod file_out;
pub mod gathered;
pub mod hex;
pub mod list;
pub mod mem_out;
pub mod mem_shelf;
pub mod number;
pub mod out;
pub mod shelf;
pub mod std_out;
pub mod text;
pub mod whole_file;

pub use dir_shelf::DirShelf;
pub use error::{HexErr, ReadErr};
pub use file_out::FileOut;
pub use gathered::Gathered;
pub use hex::{hex_digit, hex_gather, hex_put, hex_read, is_hex};
pub use list::List;
pub use mem_out::MemOut;
pub use mem_shelf::MemShelf;
pub use number::num_read;
pub use out::{Failed, Out};
pub use shelf::Shelf;
pub use std_out::StdOut;
pub use text::{Line, LineReader, first_line, first_word};
pub use whole_file::{FILE_LIMIT, FILE_PIECE, new_piece, read_all};
