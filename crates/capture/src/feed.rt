//! Captures that come in pieces, and are never held whole.

ghost use Rattle.std.specs.Prelude.{◌≡◌, ◌≢◌, ◌+◌, ◌^◌, ◌<◌, ◌≤◌, ℕ, List, [], ◌++◌, Some, None, Ok, length, drop, IfOk};
ghost use Rattle.capture.specs.FileHeaders.{file_header};
ghost use Rattle.capture.specs.Captures.{capture_of};
ghost use Rattle.capture.specs.Feeds.{StandsFor, IsFeed, IsFedOn, IsEnded, WereCut, is_lasting};

use crate::error::CaptureErr;
use crate::frames::Frames;
use crate::header::{CaptureHeader, HEADER_SIZE, read_header};
use crate::record::{RECORD_SIZE, first_frame};
use std::alloc::{AllocError, Global};
use std::marker::Model;

/// A capture as far as it has come: the frames of its whole records, and a rest below a whole record.
#[derive(Debug, Drop)]
pub struct Feed {
    header: Option<CaptureHeader>,
    frames: Frames,
    // how many bytes came before the rest
    before: u64,
    rest: Vec<u8>,
    fault: Option<CaptureErr>,
}

impl Model for Feed {
    ghost use Rattle.capture.specs.Feeds.{FeedState, IsFeed};

    ghost Value = { FeedState };

    ghost view = { λ f. record {
      header = f.header;
      frames = f.frames;
      before = f.before;
      rest = f.rest.items;
      fault = f.fault;
    } };

    ghost invariant = { λ f. IsFeed (record {
      header = f.header;
      frames = f.frames;
      before = f.before;
      rest = f.rest.items;
      fault = f.fault;
    }) };
}

impl Feed {
    /// Nothing yet. It takes no memory.
    pub fn new(alloc: Global) -> Feed
        ensures stands { StandsFor result [] }
        ensures none { (result.before ≡ 0) × (result.rest ≡ []) × (result.fault ≡ None) }
        ensures kept { IsFeed result }
    {
        Feed {
            header: None,
            frames: Frames::new(alloc),
            before: 0,
            rest: Vec::new(alloc),
            fault: None,
        }
    }

    /// The feed with a further piece. After the first fault that no later byte can heal, pieces are dropped. Where
    /// memory runs out the feed is given up.
    pub fn feed(self, piece: &[u8]) -> Result<Feed, AllocError>
        requires { self.fault ≡ None → self.before + length self.rest + length piece.now < 2 ^ 64 }
        ensures stands { IfOk result (λ feed. IsFedOn self feed piece.now) }
        // No memory is wanted then.
        ensures dropped { self.fault ≢ None → result ≡ Ok self }
        ensures kept { IfOk result (λ feed. IsFeed feed) }
        ensures count { IfOk result (λ feed. feed.fault ≡ None
            → feed.before + length feed.rest ≡ self.before + length self.rest + length piece.now) }
    {
        if self.fault.is_some() {
            return Ok(self);
        }
        let Feed {
            header,
            frames,
            before,
            rest,
            fault: _,
        } = self;
        let mut bytes = rest;
        bytes.extend_from_slice(piece)?;
        match header {
            Some(kind) => go_on(kind, frames, before, bytes),
            None => begin(frames, bytes),
        }
    }

    /// The frames of the capture, or its first fault. It takes no memory.
    pub fn finish(self) -> Result<Frames, CaptureErr>
        ensures { IsEnded self result }
    {
        let Feed {
            header,
            frames,
            before,
            rest,
            fault,
        } = self;
        if let Some(fault) = fault {
            return Err(fault);
        }
        if header.is_some() && rest.is_empty() {
            return Ok(frames);
        }
        Err(CaptureErr::Truncated(before))
    }
}

/// A feed of these bytes, from the capture's first one on.
fn begin(frames: Frames, bytes: Vec<u8>) -> Result<Feed, AllocError>
    requires none { frames ≡ [] }
    requires short { length bytes.items < 2 ^ 64 }
    ensures stands { IfOk result (λ feed. StandsFor feed bytes.items) }
    ensures count { IfOk result (λ feed. feed.fault ≡ None → feed.before + length feed.rest ≡ length bytes.items) }
{
    if bytes.len() < HEADER_SIZE {
        return Ok(Feed {
            header: None,
            frames,
            before: 0,
            rest: bytes,
            fault: None,
        });
    }
    match read_header(&bytes) {
        Ok(kind) => {
            let mut rest = bytes;
            drop_front(&mut rest, HEADER_SIZE);
            go_on(kind, frames, HEADER_SIZE as u64, rest)
        }
        Err(fault) => Ok(faulty(None, frames, bytes, fault)),
    }
}

/// A feed with a header whose whole records are these frames, and with these bytes behind them.
fn go_on(
    kind: CaptureHeader,
    frames: Frames,
    before: u64,
    bytes: Vec<u8>,
) -> Result<Feed, AllocError>
    requires short { before + length bytes.items < 2 ^ 64 }
    ensures stands { IfOk result (λ feed. (front : List ℕ) → length front ≡ before → file_header front ≡ Ok kind
        → capture_of front ≡ Ok frames → StandsFor feed (front ++ bytes.items)) }
    ensures count { IfOk result (λ feed. feed.fault ≡ None
        → feed.before + length feed.rest ≡ before + length bytes.items) }
{
    let mut frames = frames;
    let (at, stop) = cut_records(&mut frames, &bytes, kind.big, before)?;
    if is_lasting(stop) {
        return Ok(faulty(Some(kind), frames, bytes, stop));
    }
    let mut rest = bytes;
    drop_front(&mut rest, at);
    Ok(Feed {
        header: Some(kind),
        frames,
        before: before + at as u64,
        rest,
        fault: None,
    })
}

/// Whether no later byte can heal the fault.
fn is_lasting(fault: CaptureErr) -> bool
    ensures { result ≡ is_lasting fault }
{
    match fault {
        CaptureErr::Truncated(_) => false,
        _ => true,
    }
}

/// A feed with a fault, which keeps no bytes.
fn faulty(header: Option<CaptureHeader>, frames: Frames, bytes: Vec<u8>, fault: CaptureErr) -> Feed
    requires { header ≡ None → frames ≡ [] }
    ensures { result.fault ≡ Some fault }
{
    let mut rest = bytes;
    rest.clear();
    Feed {
        header,
        frames,
        before: 0,
        rest,
        fault: Some(fault),
    }
}

/// Appends the frames of the whole records that the bytes begin with. It gives how many bytes these have, and why there
/// is no further one.
fn cut_records(
    frames: &mut Frames,
    bytes: &[u8],
    big: bool,
    before: u64,
) -> Result<(usize, CaptureErr), AllocError>
    requires { before + length bytes.now < 2 ^ 64 }
    ensures { IfOk result (λ cut. WereCut big before bytes.now frames.old frames.new cut.0 cut.1) }
{
    let mut at = 0;
    loop {
        match first_frame(&bytes[at..], big, before + at as u64) {
            Ok(frame) => {
                frames.push(frame)?;
                at += RECORD_SIZE + frame.len();
            }
            Err(stop) => return Ok((at, stop)),
        }
    }
}

/// Takes so many bytes from the front away.
fn drop_front(bytes: &mut Vec<u8>, count: usize)
    requires { count ≤ length bytes.old.items }
    ensures { bytes.new.items ≡ drop count bytes.old.items }
{
    if count == 0 {
        return;
    }
    let left = bytes.len() - count;
    bytes.copy_within(count.., 0);
    bytes.truncate(left);
}
