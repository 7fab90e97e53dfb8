//! What each worker of a live run does before and after its frames.

ghost use Rattle.std.specs.Prelude.{◌≡◌, ◌<◌, [], All, OnOk, length};
ghost use Rattle.steer.specs.LiveSteps.{HaveTurned, HasKept, HasLearned, HasReadLast};

use crate::reading::{read, share_len};
use snapshots::{AdminEnd, Closed, PairDoor, Told, Worker};
use std::alloc::{AllocError, Global};
use std::sync::Wait;

/// Makes room in each log for the worker's share of `n` frames, and one read more.
pub(crate) fn keep_all(
    alloc: Global,
    n: usize,
    workers: u8,
    readers: &mut [Worker<PairDoor>],
) -> Result<(), AllocError>
    requires as_many { length readers.old ≡ workers }
    requires empty { All (λ worker. worker.log ≡ []) readers.old }
    ensures { OnOk result (HaveTurned (HasKept n workers) workers readers.old readers.new) }
{
    for place in 0..workers {
        // no memory holds 2^64 reads
        let reads = share_len(n, workers, place)
            .checked_add(1)
            .ok_or(AllocError)?;
        readers[usize::from(place)].keep(alloc, reads)?;
    }
    Ok(())
}

/// Tells each worker of the list that was published so far.
pub(crate) fn tell_all(end: &mut AdminEnd, readers: &mut [Worker<PairDoor>])
    requires { All (λ worker. worker.identity ≡ end.old.identity) readers.old }
    ensures same { end.new ≡ end.old }
    ensures told { HaveTurned (λ _. HasLearned end.old.list) (length readers.old) readers.old readers.new }
{
    for place in 0..readers.len() {
        let told = end.tell();
        readers[place].learn(told);
    }
}

/// Tells each worker of the closed list, and lets it read the empty frame.
pub(crate) fn read_last<R: Wait>(rt: &R, closed: &mut Closed, readers: &mut [Worker<PairDoor>])
    requires identity { All (λ worker. worker.identity ≡ closed.old.identity) readers.old }
    requires room { All (λ worker. 0 < worker.spare) readers.old }
    ensures same { closed.new ≡ closed.old }
    ensures read { HaveTurned (λ _. HasReadLast closed.old.list) (length readers.old) readers.old readers.new }
{
    for place in 0..readers.len() {
        let told = closed.tell();
        learn_and_read(rt, told, &mut readers[place]);
    }
}

/// Tells a worker of a list, and lets it read the empty frame.
fn learn_and_read<R: Wait>(rt: &R, told: Told, worker: &mut Worker<PairDoor>)
    requires identity { told.identity ≡ worker.old.identity }
    requires room { 0 < worker.old.spare }
    ensures { HasReadLast told.list worker.old worker.new }
{
    worker.learn(told);
    read(rt, &[], worker);
}
