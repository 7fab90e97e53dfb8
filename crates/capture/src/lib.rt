//! Captures of Ethernet frames, read and written in the pcap 2.4 format.
//!
//! The format is the published one of `pcap` 2.4: a header of 24 bytes, whose first four bytes tell the byte order of
//! all numbers and the unit of time, and then a record for each frame, of 16 bytes and the frame. The profile is this
//! project's own: Ethernet alone, frames of at most 262,144 bytes; times, zone, accuracy, snap length and a frame's
//! length on the wire are ignored.
//!
//! It promises that `read_frames` gives the frames of the capture or its first fault, unless memory runs out, and
//! `read_header` and `next_frame` the same of the header and of one record; that [`Feed`] gives the same of bytes that
//! come in pieces, however they are cut, and never keeps a whole record beside the frames; that [`read_capture`] so
//! reads a file of a shelf; and that what `write_header` and then `write_frame` append is a capture of the frames, or a
//! front of it where the output failed.
//!
//! Definitions, in specs/: `FileHeaders` (a good header), `Records` (a record for each frame), `Captures` (what bytes
//! read as, and what is written); `Pieces` says how frames are kept, `Feeds` which bytes a feed stands for, and `Files`
//! what reading a file answers; `Sizes` has the sizes. `laws` has the laws that stand on no other call: in the format's
//! words, which bytes are a capture, what stands before a fault, what is written, and that pieces are read together.
#![tactic(auto)]

mod capture_file;
mod error;
mod feed;
mod frames;
mod header;
pub mod laws;
mod number;
mod reading;
mod record;
mod writing;

pub use capture_file::read_capture;
pub use error::{CaptureErr, CaptureReadErr, FramesErr};
pub use feed::Feed;
pub use frames::{Frames, piece_at};
pub use header::{CaptureHeader, read_header};
pub use reading::read_frames;
pub use record::{LONGEST_FRAME, next_frame};
pub use writing::{write_frame, write_header};
