//! Laws of the definitions. Each call does nothing: its contract is the law.

ghost use Rattle.std.specs.Prelude.{◌≡◌, ◌↔◌, ◌≤◌, ◌⊎◌, ℕ, List, [], length, All, Result, Ok, Err};
ghost use Rattle.std.specs.List.{concat};
ghost use Rattle.capture.specs.declared.error.CaptureErr.{CaptureErr};
ghost use Rattle.capture.specs.Sizes.{longest_frame};
ghost use Rattle.capture.specs.FileHeaders.{file_header};
ghost use Rattle.capture.specs.Feeds.{FeedState, StandsFor, AreFed, IsEnded};
ghost use Rattle.capture.specs.Captures.{capture_of, capture_text, IsCapture, IsCaptureBad, IsRecordFault};

/// A list of bytes reads as frames exactly where it is a good header followed by one record for each frame.
pub fn captures_are_a_header_and_records()
    ensures { (bytes : List ℕ) (frames : List (List ℕ)) → (capture_of bytes ≡ Ok frames ↔ IsCapture bytes frames) }
{}

/// A list of bytes that doesn't read as frames has a fault in its header, or in the record at some offset, and then the
/// bytes before that record are a capture. The offset that a fault carries is that of the record.
pub fn a_fault_is_the_first()
    ensures { (bytes : List ℕ) (fault : CaptureErr) → IsCaptureBad bytes fault
        → ((file_header bytes ≡ Err fault) ⊎ IsRecordFault bytes fault) }
{}

/// What is written of frames is a capture of these frames.
pub fn what_is_written_is_a_capture()
    ensures { (frames : List (List ℕ)) → All (λ frame. length frame ≤ longest_frame) frames
        → IsCapture (capture_text frames) frames }
{}

/// The frames of a capture have at most 262,144 bytes each.
pub fn frames_of_a_capture_are_short()
    ensures { (bytes : List ℕ) (frames : List (List ℕ)) → IsCapture bytes frames
        → All (λ frame. length frame ≤ longest_frame) frames }
{}

/// A feed that stands for no bytes, and then is fed pieces, says at its end what the pieces read as together, however
/// they were cut. `Feed::new`, `Feed::feed` and `Feed::finish` are such a first feed, such a step and such an end.
pub fn pieces_are_read_together()
    ensures { (first last : FeedState) (pieces : List (List ℕ)) (said : Result (List (List ℕ)) CaptureErr)
        → StandsFor first [] → AreFed first last pieces → IsEnded last said → said ≡ capture_of (concat pieces) }
{}
