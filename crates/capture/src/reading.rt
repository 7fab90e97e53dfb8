//! All frames of a capture.

ghost use Rattle.std.specs.Prelude.{◌≡◌, ◌+◌, ◌*◌, ◌≤◌, length, drop, IfOk, Err, MatchResult};
ghost use Rattle.capture.specs.Sizes.{file_header_size, record_size};
ghost use Rattle.capture.specs.Records.{map_ok, with_front, records_of};
ghost use Rattle.capture.specs.Captures.{Refuses, GivesFrames, IsCaptureBad, capture_of};

use crate::error::{CaptureErr, FramesErr};
use crate::frames::Frames;
use crate::header::{CaptureHeader, HEADER_SIZE, read_header};
use crate::record::{RECORD_SIZE, next_frame};
use std::alloc::Global;

/// Reads a whole capture: its frames, or its first fault. A faulty capture takes no memory; the frames are one copy of
/// their bytes, with 8 bytes for each frame.
#[tactic(auto, using(crate::proofs::CaptureLemmas::captures))]
pub fn read_frames(alloc: Global, bytes: &[u8]) -> Result<Frames, FramesErr>
    ensures read { GivesFrames result (capture_of bytes.now) }
    // A fault is told, whatever memory there is.
    ensures bad { (fault : CaptureErr) → IsCaptureBad bytes.now fault → result ≡ Err (FramesErr.Bad fault) }
{
    let header = read_header(bytes).map_err(FramesErr::Bad)?;
    let count = count_frames(bytes, &header).map_err(FramesErr::Bad)?;
    let size = bytes.len() - (HEADER_SIZE + RECORD_SIZE * count);
    let mut frames = Frames::with_room(alloc, count, size).map_err(|_| FramesErr::Memory)?;
    add_frames(&mut frames, bytes, &header)?;
    Ok(frames)
}

/// How many frames a capture has, for which room is made.
#[tactic(auto, using(crate::proofs::RecordLemmas::reading))]
fn count_frames(bytes: &[u8], header: &CaptureHeader) -> Result<usize, CaptureErr>
    requires { file_header_size ≤ length bytes.now }
    ensures count { let records = records_of header.now.big file_header_size (drop file_header_size bytes.now) in
        result ≡ map_ok length records }
    ensures room { IfOk result (λ count. file_header_size + record_size * count ≤ length bytes.now) }
{
    let mut count = 0;
    let mut at = HEADER_SIZE;
    while let Some(frame) = next_frame(bytes, header, at)? {
        at += RECORD_SIZE + frame.len();
        count += 1;
    }
    Ok(count)
}

/// Appends the frames of a capture.
#[tactic(auto, using(crate::proofs::RecordLemmas::reading))]
fn add_frames(frames: &mut Frames, bytes: &[u8], header: &CaptureHeader) -> Result<(), FramesErr>
    requires { file_header_size ≤ length bytes.now }
    ensures { MatchResult result
        (λ _. with_front frames.old (records_of header.now.big file_header_size (drop file_header_size bytes.now))
        ≡ Ok frames.new)
        (λ err. Refuses err (records_of header.now.big file_header_size (drop file_header_size bytes.now))) }
{
    let mut at = HEADER_SIZE;
    while let Some(frame) = next_frame(bytes, header, at).map_err(FramesErr::Bad)? {
        frames.push(frame).map_err(|_| FramesErr::Memory)?;
        at += RECORD_SIZE + frame.len();
    }
    Ok(())
}
