//! A live run whose workers go on beside its commands.

use crate::run::SCRIPT;
use rx_sinks::{CountSink, Rack, RxSink};
use std::alloc::{AllocError, Global};
use std::sync::Wait;
use std::sync::atomic::{AtomicU64, Ordering};
use std::test::Fail;
use std::thread::{self, Threads};
use steer::Gate;
use vnff_base::{MemOut, MemShelf};
use vnff_run::{DONE, top};

// Two frames, which the last command's rule sends to queue 1.
const CAPTURE: &[u8] = b"\xd4\xc3\xb2\xa1\x02\0\x04\0\0\0\0\0\0\0\0\0\0\0\x04\0\x01\0\0\0\
    \0\0\0\0\0\0\0\0\x0e\0\0\0\x0e\0\0\0\xff\xff\xff\xff\xff\xff\x02\0\0\0\0\x01\x08\0\
    \0\0\0\0\0\0\0\0\x0e\0\0\0\x0e\0\0\0\xff\xff\xff\xff\xff\xff\x02\0\0\0\0\x01\x08\0";

const REPLIES: &[u8] = b"reply 0000000000000000\nreply 0000000000000000\nreply 0000000000000000\n";

// The most turns of a wait.
const TURNS: u32 = 10_000_000;

// The second command waits until the second frame's turn has come, which waits until that of the third command has: on
// one thread, one of both waits in vain.
#[derive(Drop)]
struct InTurn {
    frame: AtomicU64,
    command: AtomicU64,
    late: AtomicU64,
}

impl InTurn {
    fn new() -> InTurn {
        InTurn {
            frame: AtomicU64::new(0),
            command: AtomicU64::new(0),
            late: AtomicU64::new(0),
        }
    }

    // Waits for a mark, for so many turns at most.
    fn wait_for(&self, mark: &AtomicU64) {
        for _ in 0..TURNS {
            if mark.load(Ordering::SeqCst) == 1 {
                return;
            }
            thread::yield_now();
        }
        self.late.store(1, Ordering::SeqCst);
    }
}

impl Gate for InTurn {
    fn before_command(&self, n: u32) {
        if n == 1 {
            self.wait_for(&self.frame);
        }
        if n == 2 {
            self.command.store(1, Ordering::SeqCst);
        }
    }

    fn before_frame(&self, _worker: u8, i: u64) {
        if i == 1 {
            self.frame.store(1, Ordering::SeqCst);
            self.wait_for(&self.command);
        }
    }
}

fn words(alloc: Global) -> Result<Vec<String>, AllocError> {
    let mut words = Vec::new(alloc);
    for word in ["live", "1", "1", "script", "capture"] {
        words.push(String::from_str(alloc, word)?)?;
    }
    Ok(words)
}

/// What the program's call answers, over sinks that keep nothing.
pub fn status<R: Threads + Wait + Sync, G: Gate>(
    rt: &R,
    alloc: Global,
    words: &[String],
    shelf: &mut MemShelf,
    out: &mut MemOut,
    gate: &G,
) -> Result<u8, AllocError> {
    let mut sinks: Vec<Box<dyn RxSink>> = Vec::new(alloc);
    for _queue in 0..16u8 {
        sinks.push(Box::new(alloc, CountSink::new())?)?;
    }
    let mut rack = Rack::new(sinks);
    Ok(top(rt, alloc, words, shelf, out, &mut rack, gate))
}

#[test]
fn workers_go_on_beside_commands(rt: HostRuntime) -> Result<(), Fail> {
    let alloc = rt.alloc();
    let mut shelf = MemShelf::new(alloc);
    shelf.add("script", SCRIPT)?;
    shelf.add("capture", CAPTURE)?;
    let mut out = MemOut::new(alloc, 256)?;
    let gate = InTurn::new();
    let words = words(alloc)?;
    assert_eq!(rt;
        status(&rt, alloc, words.as_slice(), &mut shelf, &mut out, &gate)?,
        DONE
    );
    assert_eq!(rt; gate.late.load(Ordering::SeqCst), 0);
    let packets = out.bytes().strip_prefix(REPLIES);
    assert!(rt;
        packets == Some(b"packet 0 after 1 default\npacket 1 after 2 default\n".as_slice())
            || packets == Some(b"packet 0 after 1 default\npacket 1 after 3 queue 1\n".as_slice())
    );
    Ok(())
}
