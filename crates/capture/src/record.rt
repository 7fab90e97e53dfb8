//! The records of a capture: 16 bytes, and then the frame.

ghost use Rattle.std.specs.Prelude.{◌≡◌, ◌+◌, ◌≤◌, ◌↔◌, length, IfOk, IfSome, Ok, None};
ghost use Rattle.std.specs.Option.{option_copied};
ghost use Rattle.capture.specs.Sizes.{file_header_size, record_size};
ghost use Rattle.capture.specs.Records.{map_ok, frame_of, next_of};

use crate::error::CaptureErr;
use crate::header::CaptureHeader;
use crate::number::number32_at;

/// How many bytes a record has before its frame.
pub const RECORD_SIZE: usize = 16;

/// The most bytes that a frame has.
pub const LONGEST_FRAME: usize = 262_144;

/// The frame of the record at an offset, and None exactly at the end of the bytes. The next record stands 16 bytes and
/// the frame's length further on. The faults, at the record's offset, are looked for in this order: fewer than 16 bytes
/// are left, the frame is longer than 262,144 bytes, the frame passes the end.
#[tactic(auto, unfolding(crate::specs::Records::next_of, crate::specs::Records::frame_of))]
pub fn next_frame<'a>(
    bytes: &'a [u8],
    header: &CaptureHeader,
    at: usize,
) -> Result<Option<&'a [u8]>, CaptureErr>
    requires from { file_header_size ≤ at }
    requires within { at ≤ length bytes.now }
    ensures value { map_ok option_copied result ≡ next_of header.now.big bytes.now at }
    ensures end { (result ≡ Ok None) ↔ (at ≡ length bytes.now) }
    ensures next { IfOk result (λ found. IfSome found (λ frame.
        at + record_size + length frame.now ≤ length bytes.now)) }
{
    if at == bytes.len() {
        return Ok(None);
    }
    let frame = first_frame(&bytes[at..], header.big, at as u64)?;
    Ok(Some(frame))
}

/// The frame of the record that the bytes begin with.
#[tactic(auto, unfolding(crate::specs::Records::frame_of, crate::specs::Records::captured_length))]
pub(crate) fn first_frame(bytes: &[u8], big: bool, at: u64) -> Result<&[u8], CaptureErr>
    ensures value { map_ok (λ frame. frame.now) result ≡ frame_of big at bytes.now }
    ensures within { IfOk result (λ frame. record_size + length frame.now ≤ length bytes.now) }
{
    if bytes.len() < RECORD_SIZE {
        return Err(CaptureErr::Truncated(at));
    }
    let size = number32_at(bytes, 8, big) as usize;
    if size > LONGEST_FRAME {
        return Err(CaptureErr::TooLong(at));
    }
    if bytes.len() < RECORD_SIZE + size {
        return Err(CaptureErr::Truncated(at));
    }
    Ok(&bytes[RECORD_SIZE..RECORD_SIZE + size])
}
