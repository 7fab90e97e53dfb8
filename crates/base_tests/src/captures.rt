//! Captures of one frame in both byte orders, cut at each length; and what is written, byte by byte.

ghost use Rattle.std.specs.Prelude.{◌<◌, ◌≤◌, length};

use capture::{
    CaptureErr, CaptureHeader, CaptureReadErr, Feed, Frames, FramesErr, next_frame, read_capture,
    read_frames, read_header, write_frame, write_header,
};
use std::alloc::Global;
use std::process::Abort;
use std::test::Fail;
use vnff_base::{MemOut, MemShelf};

pub const FRAME: [u8; 14] = [255, 255, 255, 255, 255, 255, 2, 0, 0, 0, 0, 1, 8, 0];

/// A capture of the frame: little endian, microseconds.
pub const CAPTURE: [u8; 54] = [
    0xd4, 0xc3, 0xb2, 0xa1, 2, 0, 4, 0, 0, 0, 0, 0, 0, 0, 0, 0, 0, 0, 4, 0, 1, 0, 0, 0, // header
    0, 0, 0, 0, 0, 0, 0, 0, 14, 0, 0, 0, 14, 0, 0, 0, // record
    255, 255, 255, 255, 255, 255, 2, 0, 0, 0, 0, 1, 8, 0,
];

/// The same in big endian, with nanoseconds.
const BIG_NANOS: [u8; 54] = [
    0xa1, 0xb2, 0x3c, 0x4d, 0, 2, 0, 4, 0, 0, 0, 0, 0, 0, 0, 0, 0, 4, 0, 0, 0, 0, 0, 1, // header
    0, 0, 0, 0, 0, 0, 0, 0, 0, 0, 0, 14, 0, 0, 0, 14, // record
    255, 255, 255, 255, 255, 255, 2, 0, 0, 0, 0, 1, 8, 0,
];

/// The frames that were read, or the fault that no frame was read for.
fn check(rt: &impl Abort, read: Result<Frames, FramesErr>, wanted: Result<usize, FramesErr>) {
    match read {
        Err(err) => assert_eq!(rt; Err(err), wanted),
        Ok(frames) => {
            assert_eq!(rt; Ok(frames.len()), wanted);
            assert_eq!(rt; frames.is_empty(), frames.len() == 0);
            for place in 0..frames.len() {
                assert!(rt; frames.at(place) == Some(FRAME.as_slice()));
            }
            assert!(rt; frames.at(frames.len()).is_none());
        }
    }
}

#[test]
fn a_capture_cut_at_each_length(rt: HostRuntime) -> Result<(), Fail> {
    for size in 0..55 {
        let wanted = match size {
            0..24 => Err(FramesErr::Bad(CaptureErr::Truncated(0))),
            24 => Ok(0),
            25..54 => Err(FramesErr::Bad(CaptureErr::Truncated(24))),
            _ => Ok(1),
        };
        check(&rt, read_frames(rt.alloc(), &CAPTURE[..size]), wanted);
        check(&rt, read_frames(rt.alloc(), &BIG_NANOS[..size]), wanted);
    }
    Ok(())
}

#[test]
fn a_frame_that_is_too_long(rt: HostRuntime) {
    let mut bytes = CAPTURE;
    bytes[34] = 4;
    let wanted = Err(FramesErr::Bad(CaptureErr::TooLong(24)));
    check(&rt, read_frames(rt.alloc(), &bytes), wanted);
}

/// What a feed gives of bytes that come in pieces of so many, of which the last may be shorter.
fn fed(alloc: Global, bytes: &[u8], size: usize) -> Result<Frames, FramesErr>
    requires some { 0 < size }
    requires short { length bytes.now ≤ 54 }
{
    let mut feed = Feed::new(alloc);
    let mut at = 0;
    while at < bytes.len() {
        let next = at + size.min(bytes.len() - at);
        let Ok(more) = feed.feed(&bytes[at..next]) else {
            return Err(FramesErr::Memory);
        };
        feed = more;
        at = next;
    }
    feed.finish().map_err(FramesErr::Bad)
}

#[test]
fn a_capture_in_pieces(rt: HostRuntime) {
    for size in 1..55 {
        check(&rt, fed(rt.alloc(), &CAPTURE, size), Ok(1));
        let cut = Err(FramesErr::Bad(CaptureErr::Truncated(24)));
        check(&rt, fed(rt.alloc(), &CAPTURE[..53], size), cut);
    }
}

#[test]
fn a_capture_that_is_a_file(rt: HostRuntime) -> Result<(), Fail> {
    let mut shelf = MemShelf::new(rt.alloc());
    shelf.add("c", &CAPTURE)?;
    let frames = read_capture(rt.alloc(), &mut shelf, "c", 54)?;
    check(&rt, Ok(frames), Ok(1));
    let refused = read_capture(rt.alloc(), &mut shelf, "c", 53).map(|frames| frames.len());
    assert_eq!(rt; refused, Err(CaptureReadErr::TooLong));
    Ok(())
}

#[test]
fn one_record_at_a_time(rt: HostRuntime) -> Result<(), Fail> {
    let header = read_header(&BIG_NANOS)?;
    let wanted = CaptureHeader {
        big: true,
        nanos: true,
    };
    assert_eq!(rt; header, wanted);
    assert!(rt; next_frame(&BIG_NANOS, &header, 24)? == Some(FRAME.as_slice()));
    assert!(rt; next_frame(&BIG_NANOS, &header, 54)?.is_none());
    Ok(())
}

#[test]
fn what_is_written(rt: HostRuntime) -> Result<(), Fail> {
    let mut out = MemOut::new(rt.alloc(), 54)?;
    write_header(&mut out).ok().ok_or("header")?;
    write_frame(&mut out, &FRAME).ok().ok_or("frame")?;
    assert_eq!(rt; out.bytes(), CAPTURE.as_slice());
    assert!(rt; write_frame(&mut out, &[]).is_err());
    assert_eq!(rt; out.bytes().len(), 54);
    Ok(())
}
