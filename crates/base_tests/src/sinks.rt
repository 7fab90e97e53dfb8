//! Sinks of received frames: each kind once, a rack of them, and what a failure leaves in a rack.

use crate::captures::{CAPTURE, FRAME};
use rx_sinks::{CaptureSink, CountSink, MemSink, Rack, RxSink};
use std::alloc::{AllocError, Global};
use std::process::Abort;
use std::test::Fail;
use std::{env, fs};
use vnff_base::{Failed, FileOut, MemOut};

#[test]
fn keeps_frames_in_memory(rt: HostRuntime) -> Result<(), Fail> {
    let mut sink = MemSink::new(rt.alloc(), 2, 5)?;
    assert_eq!(rt; sink.deliver(b"abc"), Ok(()));
    assert_eq!(rt; sink.deliver(b"def"), Err(Failed));
    assert_eq!(rt; sink.deliver(b"de"), Ok(()));
    assert_eq!(rt; sink.deliver(b""), Err(Failed));
    assert!(rt; sink.told(0) == Some(b"abc".as_slice()));
    assert!(rt; sink.told(1) == Some(b"de".as_slice()));
    assert!(rt; sink.told(2).is_none());
    Ok(())
}

#[test]
fn fails_at_chosen_calls(rt: HostRuntime) -> Result<(), Fail> {
    let mut sink = MemSink::new(rt.alloc(), 2, 5)?;
    sink.fail_at(0)?;
    sink.fail_at(2)?;
    assert_eq!(rt; sink.deliver(b"a"), Err(Failed));
    assert_eq!(rt; sink.finish(), Ok(()));
    assert_eq!(rt; sink.finish(), Err(Failed));
    assert!(rt; sink.ended() == Some(2));
    Ok(())
}

#[test]
fn counts_frames(rt: HostRuntime) {
    let mut sink = CountSink::new();
    assert_eq!(rt; sink.deliver(&FRAME), Ok(()));
    assert_eq!(rt; sink.finish(), Ok(()));
    assert_eq!(rt; sink.count(), 1);
    assert!(rt; sink.told(0).is_none());
    assert!(rt; sink.ended() == Some(1));
}

#[test]
fn writes_a_capture(rt: HostRuntime) -> Result<(), Fail> {
    let mut sink = CaptureSink::new(MemOut::new(rt.alloc(), 54)?);
    assert_eq!(rt; sink.deliver(&FRAME), Ok(()));
    assert_eq!(rt; sink.out().bytes(), CAPTURE.as_slice());
    assert_eq!(rt; sink.finish(), Ok(()));
    assert_eq!(rt; sink.out().bytes(), CAPTURE.as_slice());
    assert!(rt; sink.told(0).is_none());
    assert!(rt; sink.ended().is_none());
    Ok(())
}

#[test]
fn writes_a_capture_of_no_frame(rt: HostRuntime) -> Result<(), Fail> {
    let mut sink = CaptureSink::new(MemOut::new(rt.alloc(), 54)?);
    assert_eq!(rt; sink.out().bytes().len(), 0);
    assert_eq!(rt; sink.finish(), Ok(()));
    assert_eq!(rt; sink.out().bytes(), &CAPTURE[..24]);
    Ok(())
}

/// The header is put 0, and each short frame one put more.
#[test]
fn breaks_where_a_put_fails(rt: HostRuntime) -> Result<(), Fail> {
    let mut out = MemOut::new(rt.alloc(), 1_000)?;
    out.fail_at(2)?;
    let mut sink = CaptureSink::new(out);
    assert_eq!(rt; sink.deliver(&FRAME), Ok(()));
    assert_eq!(rt; sink.deliver(&FRAME), Err(Failed));
    assert!(rt; sink.is_broken());
    assert_eq!(rt; sink.deliver(&FRAME), Err(Failed));
    assert_eq!(rt; sink.out().bytes(), CAPTURE.as_slice());
    Ok(())
}

/// A frame of more than 2,048 bytes is a put of its own behind the 16 bytes before it.
#[test]
fn writes_a_long_frame(rt: HostRuntime) -> Result<(), Fail> {
    let mut out = MemOut::new(rt.alloc(), 10_000)?;
    out.fail_at(3)?;
    let mut sink = CaptureSink::new(out);
    assert_eq!(rt; sink.deliver(&[7; 2_048]), Ok(()));
    assert_eq!(rt; sink.deliver(&[7; 2_049]), Err(Failed));
    assert_eq!(rt; sink.out().bytes().len(), 24 + 16 + 2_048 + 16);
    Ok(())
}

#[test]
fn writes_a_capture_file(rt: HostRuntime) -> Result<(), Fail> {
    let mut path = env::temp_dir(&rt)?;
    path.push("vnff_rx_sinks_capture")?;
    let name = path.to_string_lossy();
    let out = FileOut::new(rt.clone()?, String::from_str(rt.alloc(), name)?);
    let mut sink = CaptureSink::new(out);
    assert_eq!(rt; sink.deliver(&FRAME), Ok(()));
    assert_eq!(rt; fs::read(&rt, name)?.as_slice(), CAPTURE.as_slice());
    fs::remove_file(&rt, name)?;
    Ok(())
}

/// A sink with room for two frames, whose call of a number is to fail.
fn sink_failing_at(alloc: Global, call: u64) -> Result<MemSink, AllocError> {
    let mut sink = MemSink::new(alloc, 2, 28)?;
    sink.fail_at(call)?;
    Ok(sink)
}

/// What became of three frames in a rack of three sinks: whether all were delivered and the first two sinks finished,
/// and which frames stand where.
#[derive(Debug, Drop, PartialEq)]
struct Held {
    delivered: bool,
    finished: bool,
    first_of_0: bool,
    first_of_1: bool,
    second_of_1: bool,
}

/// Three frames, the second for sink 0 and the others for sink 1, are delivered until a call fails; then these two
/// sinks are finished, which fail at the calls of these numbers. A third one, which fails at once, isn't called.
fn steered(rt: &impl Abort, alloc: Global, first: u64, second: u64) -> Result<Held, AllocError> {
    let mut sinks: Vec<Box<dyn RxSink>> = Vec::new(alloc);
    sinks.push(Box::new(alloc, sink_failing_at(alloc, first)?)?)?;
    sinks.push(Box::new(alloc, sink_failing_at(alloc, second)?)?)?;
    sinks.push(Box::new(alloc, sink_failing_at(alloc, 0)?)?)?;
    let mut rack = Rack::new(sinks);
    let delivered = rack.deliver(1, b"F").is_ok()
        && rack.deliver(0, b"A").is_ok()
        && rack.deliver(1, b"F").is_ok();
    let finished = rack.finish(2).is_ok();
    check_ended(rt, &rack);
    Ok(Held {
        delivered,
        finished,
        first_of_0: is_held(&rack, 0, 0),
        first_of_1: is_held(&rack, 1, 0),
        second_of_1: is_held(&rack, 1, 1),
    })
}

/// The first two of three sinks were finished once, and the third wasn't.
fn check_ended(rt: &impl Abort, rack: &Rack) {
    assert_eq!(rt; rack.queue_count(), 3);
    assert!(rt; ended(rack, 0) == Some(1));
    assert!(rt; ended(rack, 1) == Some(1));
    assert!(rt; ended(rack, 2) == Some(0));
}

/// How often a sink was finished, of one that is there.
fn ended(rack: &Rack, queue: u16) -> Option<u64> {
    if usize::from(queue) < rack.queue_count() {
        rack.ended(queue)
    } else {
        None
    }
}

/// Whether a sink gives a frame at a place.
fn is_held(rack: &Rack, queue: u16, place: usize) -> bool {
    usize::from(queue) < rack.queue_count() && rack.told(queue, place).is_some()
}

#[test]
fn a_rack_of_sinks_that_fail(rt: HostRuntime) -> Result<(), Fail> {
    for (first, second, delivered, finished, held) in [
        (9, 9, true, true, (true, true, true)),
        (9, 0, false, true, (false, false, false)),
        (9, 1, false, true, (true, true, false)),
        (1, 9, true, false, (true, true, true)),
        (9, 2, true, false, (true, true, true)),
    ] {
        let wanted = Held {
            delivered,
            finished,
            first_of_0: held.0,
            first_of_1: held.1,
            second_of_1: held.2,
        };
        assert!(rt; steered(&rt, rt.alloc(), first, second)? == wanted);
    }
    Ok(())
}
