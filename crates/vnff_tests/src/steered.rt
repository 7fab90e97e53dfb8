//! Frames that are steered to sinks in memory, where no sink fails and where one does.

use crate::run::SCRIPT;
use rx_sinks::{MemSink, Rack, RxSink};
use std::alloc::{AllocError, Global};
use std::test::Fail;
use vnff_base::{MemOut, MemShelf};
use vnff_run::{DONE, WRITE_FAULT, plain};

/// The capture's header, and a record of a frame of 14 bytes, of which the last is its type's.
const HEADER: [u8; 24] = [
    0xd4, 0xc3, 0xb2, 0xa1, 2, 0, 4, 0, 0, 0, 0, 0, 0, 0, 0, 0, 0, 0, 4, 0, 1, 0, 0, 0,
];

const RECORD: [u8; 30] = [
    0, 0, 0, 0, 0, 0, 0, 0, 14, 0, 0, 0, 14, 0, 0, 0, 255, 255, 255, 255, 255, 255, 2, 0, 0, 0, 0,
    1, 8, 0,
];

const WRITTEN: &[u8] = b"queue 0 1\nqueue 1 2\nqueue 2 0\nqueue 3 0\ndrop 0\n";

/// The capture of a frame for queue 1, one that no rule matches, and the first one again.
pub fn capture(alloc: Global) -> Result<Vec<u8>, AllocError> {
    let mut bytes = Vec::new(alloc);
    bytes.extend_from_slice(&HEADER)?;
    for last in [0, 6, 0] {
        bytes.extend_from_slice(&RECORD[..29])?;
        bytes.push(last)?;
    }
    Ok(bytes)
}

/// A run's status, whether it wrote all or nothing, how many frames sinks 0 and 1 hold, and how many sinks were
/// finished.
#[derive(Debug, Drop, PartialEq)]
struct Run {
    status: u8,
    wrote_all: bool,
    wrote_nothing: bool,
    held: (usize, usize),
    finished: usize,
}

/// How many frames a sink gives, of at most two.
fn held(rack: &Rack, queue: u16) -> usize {
    (0..2)
        .filter(|place| usize::from(queue) < rack.queue_count()
            && rack.told(queue, *place).is_some())
        .count()
}

/// How many sinks were finished once.
fn finished(rack: &Rack) -> usize {
    (0..16)
        .filter(|queue| usize::from(*queue) < rack.queue_count() && rack.ended(*queue) == Some(1))
        .count()
}

/// Steers the capture's frames, where one sink fails at the call of a number.
fn steered(alloc: Global, failing: u8, call: u64) -> Result<Run, AllocError> {
    let mut shelf = MemShelf::new(alloc);
    shelf.add("s", SCRIPT)?;
    shelf.add("c", capture(alloc)?.as_slice())?;
    let mut out = MemOut::new(alloc, 1024)?;
    let mut words = Vec::new(alloc);
    for word in ["steer", "s", "c"] {
        words.push(String::from_str(alloc, word)?)?;
    }
    let mut sinks: Vec<Box<dyn RxSink>> = Vec::new(alloc);
    for queue in 0..16u8 {
        let mut sink = MemSink::new(alloc, 2, 28)?;
        if queue == failing {
            sink.fail_at(call)?;
        }
        sinks.push(Box::new(alloc, sink)?)?;
    }
    let mut rack = Rack::new(sinks);
    let status = plain(alloc, words.as_slice(), &mut shelf, &mut out, &mut rack);
    Ok(Run {
        status,
        wrote_all: out.bytes() == WRITTEN,
        wrote_nothing: out.bytes().is_empty(),
        held: (held(&rack, 0), held(&rack, 1)),
        finished: finished(&rack),
    })
}

// A sink of a queue that the device lacks, which is not called; the first and the second frame of queue 1; a finish.
#[test]
fn steers_frames_to_sinks(rt: HostRuntime) -> Result<(), Fail> {
    for (failing, call, status, held) in [
        (9, 0, DONE, (1, 2)),
        (1, 0, WRITE_FAULT, (0, 0)),
        (1, 1, WRITE_FAULT, (1, 1)),
        (2, 0, WRITE_FAULT, (1, 2)),
    ] {
        let wanted = Run {
            status,
            wrote_all: status == DONE,
            wrote_nothing: status != DONE,
            held,
            finished: 4,
        };
        assert!(rt; steered(rt.alloc(), failing, call)? == wanted);
    }
    Ok(())
}
