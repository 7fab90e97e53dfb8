//! What a live run gives.

ghost use Rattle.std.specs.Prelude.{◌≡◌, ◌<◌, ◌%◌, ◌/◌, length, slice_get};
ghost use Rattle.steer.specs.Results.{log_at};

use admin_wire::ReplyBytes;
use snapshots::{Closed, PairDoor, Seen, Worker};
use vnff_base::List;

/// The replies in the order of the commands, the end of the published list, which is closed, and the workers with what
/// they read. It isn't `Drop`: end `closed`.
pub struct LiveResult {
    pub replies: List<ReplyBytes>,
    pub closed: Closed,
    pub workers: List<Worker<PairDoor>>,
}

/// What was read of frame `i`, counted from 0, by the worker to whom it belongs: of the worker's frames it is the one
/// with number `i / workers`. None past what was logged.
pub fn read_at(workers: &List<Worker<PairDoor>>, i: usize) -> Option<Seen>
    requires { 0 < length workers.now }
    ensures { result ≡ slice_get (log_at workers.now (i % length workers.now)) (i / length workers.now) }
{
    let worker = workers.at(i % workers.len()).unwrap();
    worker.log().get(i / workers.len()).copied()
}
