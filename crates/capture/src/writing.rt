//! Captures as they are written: little endian, microseconds, every time 0.

ghost use Rattle.std.specs.Prelude.{◌≡◌, ◌+◌, ◌≤◌, ◌++◌, length, take};
ghost use Rattle.vnff_base.specs.Outputs.{Writes};
ghost use Rattle.capture.specs.Sizes.{record_size, longest_frame};
ghost use Rattle.capture.specs.Captures.{header_text, record_head, record_text};

use crate::header::HEADER_SIZE;
use crate::record::RECORD_SIZE;
use vnff_base::{Failed, Out};

/// The longest frame that is put together with the 16 bytes before it. No frame of usual Ethernet is longer.
const LONGEST_TOGETHER: usize = 2_048;

/// Little-endian microseconds, version 2.4, zone and accuracy 0, snap length 262,144, link type Ethernet.
const HEADER: [u8; HEADER_SIZE] = [
    0xd4, 0xc3, 0xb2, 0xa1, 2, 0, 4, 0, 0, 0, 0, 0, 0, 0, 0, 0, 0, 0, 4, 0, 1, 0, 0, 0,
];

/// Writes the header of a capture. The failure is the output's, and a front of the header was then written.
#[tactic(auto, unfolding(crate::specs::Captures::header_text))]
pub fn write_header<O: Out>(out: &mut O) -> Result<(), Failed>
    ensures { Writes (O.state out.old) (O.state out.new) header_text result }
{
    out.put(&HEADER)
}

/// Writes the record of a frame of at most 262,144 bytes, behind a header that was written and the records so far. The
/// failure is the output's, and a front of the record was then written. The record of a frame of at most 2,048 bytes is
/// one piece.
pub fn write_frame<O: Out>(out: &mut O, frame: &[u8]) -> Result<(), Failed>
    requires { length frame.now ≤ longest_frame }
    ensures { Writes (O.state out.old) (O.state out.new) (record_text frame.now) result }
{
    let head = record_head(frame.len() as u32);
    if frame.len() <= LONGEST_TOGETHER {
        return put_together(out, &head, frame);
    }
    out.put(&head)?;
    out.put(frame)
}

/// Puts the 16 bytes before a short frame, and the frame, as one piece.
fn put_together<O: Out>(out: &mut O, head: &[u8; RECORD_SIZE], frame: &[u8]) -> Result<(), Failed>
    requires { length frame.now ≤ 2048 }
    ensures { Writes (O.state out.old) (O.state out.new) (head.now ++ frame.now) result }
{
    let mut record = [0u8; RECORD_SIZE + LONGEST_TOGETHER];
    join(head, frame, &mut record);
    out.put(&record[..RECORD_SIZE + frame.len()])
}

/// Writes the 16 bytes before a frame, and the frame, into the front of a buffer.
fn join(head: &[u8; RECORD_SIZE], frame: &[u8], buffer: &mut [u8])
    requires { record_size + length frame.now ≤ length buffer.old }
    ensures { take (record_size + length frame.now) buffer.new ≡ head.now ++ frame.now }
{
    let (first, rest) = buffer.split_at_mut(RECORD_SIZE);
    first.copy_from_slice(head);
    rest[..frame.len()].copy_from_slice(frame);
}

/// The 16 bytes before a frame: the time 0, and the frame's length twice.
#[tactic(auto, unfolding(crate::specs::Captures::record_head))]
fn record_head(size: u32) -> [u8; RECORD_SIZE]
    ensures { result ≡ record_head size }
{
    let [first, second, third, fourth] = size.to_le_bytes();
    [
        0, 0, 0, 0, 0, 0, 0, 0, first, second, third, fourth, first, second, third, fourth,
    ]
}
