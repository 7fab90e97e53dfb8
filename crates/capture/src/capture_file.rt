//! A capture that is a file of a shelf, read in pieces.

ghost use Rattle.std.specs.Prelude.{◌≡◌, ◌+◌, ◌<◌, ◌≤◌, length, Ok, Err, IfOk, IsErrOf};
ghost use Rattle.vnff_base.specs.Counts.{count_with};
ghost use Rattle.vnff_base.specs.Reads.{OfFile};
ghost use Rattle.vnff_base.specs.Shelves.{HasCause, file_limit};
ghost use Rattle.capture.specs.Files.{WasRead};

use crate::error::{CaptureErr, CaptureReadErr};
use crate::feed::Feed;
use crate::frames::Frames;
use std::alloc::Global;
use vnff_base::{Shelf, new_piece};

/// Reads the capture that is the file of that name, from its first byte to its end, at most `limit` bytes of it, in
/// pieces of at most 65,536 bytes. The limit is 64 MiB at most. The file is never held whole: beside the frames there
/// are a piece and what came of one record. A faulty file is read to its end all the same, since it may be too long.
pub fn read_capture<S: Shelf>(
    alloc: Global,
    shelf: &mut S,
    name: &str,
    limit: u64,
) -> Result<Frames, CaptureReadErr>
    requires { limit ≤ file_limit }
    ensures frames { IfOk result (λ frames. WasRead (S.state shelf.old) name.now limit (Ok frames)) }
    ensures bad { (fault : CaptureErr) → IsErrOf result (CaptureReadErr.Bad fault)
        → WasRead (S.state shelf.old) name.now limit (Err fault) }
    ensures fault { IsErrOf result CaptureReadErr.ReadFault
        → HasCause (S.state shelf.old) (S.state shelf.new) name.now }
    ensures longer { IsErrOf result CaptureReadErr.TooLong
        → OfFile (S.state shelf.old) name.now (λ file. limit < length file) }
    ensures taken { IsErrOf result CaptureReadErr.TooLong
        → count_with (S.state shelf.old).given (limit + 1) ≤ (S.state shelf.new).given }

    // Only a read that failed touches the count of failures.
    ensures same_count { (IsErrOf result CaptureReadErr.ReadFault → ⊥)
        → (S.state shelf.new).faults ≡ (S.state shelf.old).faults }
    ensures grew { (S.state shelf.old).faults ≤ (S.state shelf.new).faults }
    ensures same_files { (S.state shelf.new).files ≡ (S.state shelf.old).files }
{
    let Ok(mut piece) = new_piece(alloc) else {
        return Err(CaptureReadErr::Memory);
    };
    let mut feed = Feed::new(alloc);
    let mut at = 0;
    loop {
        let Ok(taken) = shelf.read_at(name, at, piece.as_mut_slice()) else {
            return Err(CaptureReadErr::ReadFault);
        };
        if taken == 0 {
            return match feed.finish() {
                Ok(frames) => Ok(frames),
                Err(fault) => Err(CaptureReadErr::Bad(fault)),
            };
        }
        if taken as u64 > limit - at {
            return Err(CaptureReadErr::TooLong);
        }
        let Ok(fed) = feed.feed(&piece.as_slice()[..taken]) else {
            return Err(CaptureReadErr::Memory);
        };
        feed = fed;
        at += taken as u64;
    }
}
