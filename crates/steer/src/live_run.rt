//! Live runs: commands change the rules while workers read frames.

ghost use Rattle.std.specs.Prelude.{◌≡◌, ℕ, ◌<◌, ◌≤◌, ◌^◌, ◌%◌, ◌/◌, ◌++◌, ◌∷◌, [], All, IfOk, Some, length, slice_get, vec_capacity};
ghost use Rattle.steer.specs.LivePhases.{IsLiveStart, HasBeenLive, HasClosed};
ghost use Rattle.steer.specs.LiveSteps.{HaveRoom};
ghost use Rattle.ff_headers.specs.declared.change.Change.TheVariants.{Close};
ghost use Rattle.snapshots.specs.Workers.{WorkerState};
ghost use Rattle.steer.specs.LiveRuns.{IsLiveRun, accepted_changes};
ghost use Rattle.steer.specs.Shares.{share};
ghost use Rattle.steer.specs.Results.{replies_in, log_at, read_of, packet_lines, HasRead};

use crate::admin_line::AdminLine;
use crate::admin_side::{AdminSide, obey_lines};
use crate::beside::beside;
use crate::gate::Gate;
use crate::live_result::LiveResult;
use crate::workers::{keep_all, read_last, tell_all};
use admin_dev::{Device, Start};
use cap_table::DeviceCaps;
use capture::Frames;
use snapshots::{PairDoor, Worker, open};
use std::alloc::{AllocError, Global};
use std::sync::Wait;
use std::thread::Threads;
use vnff_base::List;

/// Carries commands out on a device at its start, while so many workers read frames in the device's published tables.
/// Frame `i` belongs to worker `i % workers`; the first `after` commands are carried out, and every worker is told of
/// them, before any frame is read. The others run beside the workers; then the list of changes is closed, and each
/// worker reads the empty frame once more. A worker whose thread can't be started is run by the calling thread after
/// the last command. It may wait.
///
/// # Errors
///
/// Where memory runs out. The published tables have ended then.
pub fn live<R: Threads + Wait + Sync, G: Gate>(
    rt: &R,
    alloc: Global,
    caps: DeviceCaps,
    start: Start,
    commands: &List<AdminLine>,
    frames: &Frames,
    workers: u8,
    after: u32,
    gate: &G,
) -> Result<LiveResult, AllocError>
    requires some { 1 ≤ workers }
    requires few { workers ≤ 16 }
    requires commands { length commands.now < 2 ^ 32 }
    requires after { after ≤ length commands.now }

    // Replies and packet lines are a legal run. The packet lines are the workers' logs.
    ensures legal { IfOk result (λ run. IsLiveRun caps start commands.now frames.now workers after
        (replies_in run.replies) (packet_lines run.workers workers (length frames.now))) }

    // The published list is the changes of the commands that were accepted, and its close.
    ensures published { IfOk result (λ run. run.closed.list
        ≡ accepted_changes caps start commands.now (replies_in run.replies) ++ Close ∷ []) }
    ensures limits { IfOk result (λ run. run.closed.limits ≡ caps.limits) }
    ensures workers { IfOk result (λ run. length run.workers ≡ workers) }

    // Each worker reads the tables of `closed`, has seen all of them in its last read, and logged its frames and the
    // empty one.
    ensures read { IfOk result (λ run. (place : ℕ) (worker : WorkerState) → slice_get run.workers place ≡ Some worker
        → HasRead run.closed worker (share frames.now workers place ++ [] ∷ [])) }

    // Each frame was read and logged by its worker.
    ensures logged { IfOk result (λ run. (i : ℕ) → i < length frames.now
        → slice_get (log_at run.workers (i % workers)) (i / workers) ≡ Some (read_of run.workers workers i)) }
{
    let (mut side, mut readers) = open_run(
        rt,
        alloc,
        caps,
        start,
        commands.len(),
        frames.len(),
        workers,
    )?;
    run(
        rt,
        commands,
        after,
        frames,
        workers,
        gate,
        &mut side,
        readers.as_mut_slice(),
    );
    close_run(rt, side, readers)
}

/// A device at its start, with room for so many replies; its published tables, which are empty; and so many workers,
/// each with room in its log for its share of `n` frames and one read more.
fn open_run<R: Wait>(
    rt: &R,
    alloc: Global,
    caps: DeviceCaps,
    start: Start,
    commands: usize,
    n: usize,
    workers: u8,
) -> Result<(AdminSide, Vec<Worker<PairDoor>>), AllocError>
    requires some { 1 ≤ workers }
    requires few { workers ≤ 16 }
    ensures { IfOk result (λ t. IsLiveStart caps start commands n workers t.0 t.1.items) }
{
    let replies = Vec::with_capacity(alloc, commands)?;
    let limits = *caps.limits();
    let device = Device::new(alloc, caps, start)?;
    let (end, mut readers) = open(rt, alloc, &limits, workers)?;
    if keep_all(alloc, n, workers, readers.as_mut_slice()).is_err() {
        end.end(rt);
        return Err(AllocError);
    }
    Ok((
        AdminSide {
            device,
            end,
            replies,
        },
        readers,
    ))
}

/// Carries the first commands out, tells every worker of them, and carries the others out beside the workers.
fn run<R: Threads + Wait + Sync, G: Gate>(
    rt: &R,
    commands: &List<AdminLine>,
    first: u32,
    frames: &Frames,
    workers: u8,
    gate: &G,
    side: &mut AdminSide,
    readers: &mut [Worker<PairDoor>],
)
    requires there { first ≤ length commands.now }
    requires few { length commands.now < 2 ^ 32 }
    requires replies { side.old.replies.items ≡ [] }
    requires room { length commands.now ≤ vec_capacity side.old.replies }
    requires as_many { length readers.old ≡ workers }
    requires identity { All (λ worker. worker.identity ≡ side.old.end.identity) readers.old }
    requires logs { HaveRoom (length frames.now) workers 0 readers.old }
    ensures { HasBeenLive commands.now frames.now workers first side.old side.new readers.old readers.new }
{
    obey_lines(rt, commands, 0, first, gate, side);
    tell_all(&mut side.end, readers);
    beside(rt, commands, first, frames, workers, 0, gate, side, readers);
}

/// Closes the list of changes, and lets each worker read once more.
fn close_run<R: Wait>(
    rt: &R,
    side: AdminSide,
    mut readers: Vec<Worker<PairDoor>>,
) -> Result<LiveResult, AllocError>
    requires identity { All (λ worker. worker.identity ≡ side.end.identity) readers.items }
    requires room { All (λ worker. 0 < worker.spare) readers.items }
    ensures { IfOk result (HasClosed side readers.items) }
{
    let AdminSide {
        device: _device,
        end,
        replies,
    } = side;
    match end.close(rt) {
        Ok((mut closed, _told)) => {
            read_last(rt, &mut closed, readers.as_mut_slice());
            Ok(LiveResult {
                replies: List::from(replies),
                closed,
                workers: List::from(readers),
            })
        }
        Err((end, error)) => {
            end.end(rt);
            Err(error)
        }
    }
}
