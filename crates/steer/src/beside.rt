//! Workers, each on a thread of its own, beside the thread that carries commands out.

ghost use Rattle.std.specs.Prelude.{◌≡◌, ◌+◌, ◌-◌, ◌^◌, ◌<◌, ◌≤◌, length, vec_capacity};
ghost use Rattle.std.specs.Thread.{IsSync};
ghost use Rattle.steer.specs.AdminSides.{HasCarriedOut};
ghost use Rattle.steer.specs.LiveSteps.{HasReadOn, HaveRead, HaveRoom};
ghost use Rattle.steer.specs.Shares.{share, share_len};

use crate::admin_line::AdminLine;
use crate::admin_side::{AdminSide, obey_lines};
use crate::gate::Gate;
use crate::reading::read_share;
use capture::Frames;
use snapshots::{PairDoor, Worker};
use std::sync::Wait;
use std::thread::{Threads, join_mut};
use vnff_base::List;

/// Carries out the commands from a place on, while the workers from a place on read their shares of the frames. The
/// first worker reads on a thread of its own, beside the commands and the other workers; where no thread can be made,
/// it reads after them.
#[cycle(beside)]
pub(crate) fn beside<R: Threads + Wait + Sync, G: Gate>(
    rt: &R,
    lines: &List<AdminLine>,
    from: u32,
    frames: &Frames,
    workers: u8,
    place: u8,
    gate: &G,
    side: &mut AdminSide,
    readers: &mut [Worker<PairDoor>],
)
    requires there { from ≤ length lines.now }
    requires few { length lines.now < 2 ^ 32 }
    requires room { length side.old.replies.items + (length lines.now - from) ≤ vec_capacity side.old.replies }
    requires places { place + length readers.old ≡ workers }
    requires logs { HaveRoom (length frames.now) workers place readers.old }
    ensures commands { HasCarriedOut lines.now from (length lines.now) side.old side.new }
    ensures reads { HaveRead frames.now workers place readers.old readers.new }
{
    match readers.split_first_mut() {
        None => obey_lines(rt, lines, from, lines.len() as u32, gate, side),
        Some((first, others)) => {
            beside_first(
                rt, lines, from, frames, workers, place, gate, side, first, others,
            )
        }
    }
}

/// The same, where there is a first worker. The two calls stand in closures, each with all that it needs.
#[cycle(beside)]
fn beside_first<R: Threads + Wait + Sync, G: Gate>(
    rt: &R,
    lines: &List<AdminLine>,
    from: u32,
    frames: &Frames,
    workers: u8,
    place: u8,
    gate: &G,
    side: &mut AdminSide,
    first: &mut Worker<PairDoor>,
    others: &mut [Worker<PairDoor>],
)
    requires there { from ≤ length lines.now }
    requires few { length lines.now < 2 ^ 32 }
    requires room { length side.old.replies.items + (length lines.now - from) ≤ vec_capacity side.old.replies }
    requires places { place + 1 + length others.old ≡ workers }
    requires log { share_len (length frames.now) workers place < first.old.spare }
    requires logs { HaveRoom (length frames.now) workers (place + 1) others.old }
    ensures commands { HasCarriedOut lines.now from (length lines.now) side.old side.new }
    ensures read { HasReadOn first.old first.new (share frames.now workers place) }
    ensures reads { HaveRead frames.now workers (place + 1) others.old others.new }
{
    let mut reads = ||
        requires { IsSync R.row × IsSync G.row × (place < workers)
            × (share_len (length frames.now) workers place < first.now.spare) }
        ensures { HasReadOn first.entry.now first.exit.now (share frames.entry.now workers place) }
    { read_share(rt, frames, workers, place, gate, first) };
    let mut rest = ||
        requires { IsSync R.row × IsSync G.row × (from ≤ length lines.now) × (length lines.now < 2 ^ 32)
            × (length side.now.replies.items + (length lines.now - from) ≤ vec_capacity side.now.replies)
            × (place + 1 + length others.now ≡ workers)
            × HaveRoom (length frames.now) workers (place + 1) others.now }
        ensures { HasCarriedOut lines.entry.now from (length lines.entry.now) side.entry.now side.exit.now
            × HaveRead frames.entry.now workers (place + 1) others.entry.now others.exit.now }
    {
        beside(
            rt,
            lines,
            from,
            frames,
            workers,
            place + 1,
            gate,
            side,
            others,
        )
    };
    join_mut(rt, &mut reads, &mut rest);
}
