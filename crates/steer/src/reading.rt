//! The side of a live run that reads frames.

ghost use Rattle.std.specs.Prelude.{◌≡◌, ◌<◌, ◌≤◌, ◌∷◌, [], length};
ghost use Rattle.steer.specs.LiveSteps.{HasEntered, HasReadOn};
ghost use Rattle.steer.specs.Shares.{share, share_len};

use crate::gate::Gate;
use capture::Frames;
use ff_headers::Headers;
use snapshots::{PairDoor, Worker};
use std::sync::Wait;

/// How many of `n` frames are those of the worker at a place, of so many workers.
pub(crate) fn share_len(n: usize, workers: u8, place: u8) -> usize
    requires { place < workers }
    ensures value { result ≡ share_len n workers place }
    ensures most { result ≤ n }
{
    let workers = usize::from(workers);
    n / workers + usize::from(usize::from(place) < n % workers)
}

/// Reads the frames of the worker at a place, in order.
pub(crate) fn read_share<R: Wait, G: Gate>(
    rt: &R,
    frames: &Frames,
    workers: u8,
    place: u8,
    gate: &G,
    worker: &mut Worker<PairDoor>,
)
    requires place { place < workers }
    requires room { share_len (length frames.now) workers place < worker.old.spare }
    ensures { HasReadOn worker.old worker.new (share frames.now workers place) }
{
    for turn in 0..share_len(frames.len(), workers, place) {
        let i = usize::from(place) + turn * usize::from(workers);
        gate.before_frame(place, i as u64);
        read(rt, frames.at(i).unwrap(), worker);
    }
}

/// Reads a frame, and logs what was read. It asks again where the door didn't let the worker in.
pub(crate) fn read<R: Wait>(rt: &R, frame: &[u8], worker: &mut Worker<PairDoor>)
    requires { 0 < worker.old.spare }
    ensures read { HasReadOn worker.old worker.new (frame.now ∷ []) }
    ensures entered { HasEntered worker.old.floors worker.new.floors }
{
    let headers = Headers::parse(frame);
    for _ in rt.forever() {
        if worker.classify(&headers).is_some() {
            return;
        }
    }
    unreachable!()
}
