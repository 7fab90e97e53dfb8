//! A worker: a door, and a log of what was read through it.

ghost use Rattle.std.specs.Prelude.{◌≡◌, ℕ, ◌-◌, ◌<◌, ◌≤◌, ◌^◌, List, [], ◌++◌, ◌∷◌, length, IsSome, MatchOption, MatchResult};
ghost use Rattle.vnff_base.specs.Counts.{Rose};
ghost use Rattle.ff_headers.specs.Frames.{headers_of};
ghost use Rattle.snapshots.specs.Reads.{IsRead};
ghost use Rattle.snapshots.specs.Workers.{Logged, log_after, first_floor};
ghost use Rattle.snapshots.specs.Logs.{items_of, Fits};

use crate::door::Door;
use crate::seen::Seen;
use crate::told::Told;
use ff_headers::Headers;
use std::alloc::{AllocError, Global};
use std::marker::Model;

/// Reads the published tables through its door, and logs what it reads where there is room. Contracts see the door's
/// meanings, the log, and the number of reads that the log has room for.
#[derive(Drop)]
pub struct Worker<D: Door> {
    door: D,
    log: Option<Vec<Seen>>,
    spare: usize,
}

impl<D: Door> Model for Worker<D> {
    ghost use Rattle.snapshots.specs.Workers.{WorkerState};
    ghost use Rattle.snapshots.specs.Logs.{items_of, Fits};

    ghost Value = { WorkerState };

    ghost view = { λ w. record {
      identity = D.identity w.door;
      limits = D.limits w.door;
      floors = D.floors w.door;
      refused = D.refused w.door;
      log = items_of w.log;
      spare = w.spare;
    } };

    ghost invariant = { λ w. Fits w.log w.spare };
}

impl<D: Door> Worker<D> {
    /// A worker at a door, with an empty log and no room in it.
    pub fn new(door: D) -> Worker<D>
        ensures { result ≡ record {
          identity = D.identity door;
          limits = D.limits door;
          floors = D.floors door;
          refused = D.refused door;
          log = [];
          spare = 0;
        } }
    {
        Worker {
            door,
            log: None,
            spare: 0,
        }
    }

    /// The worker's door. The log is given up.
    pub fn into_door(self) -> D
        ensures identity { D.identity result ≡ self.identity }
        ensures limits { D.limits result ≡ self.limits }
        ensures floors { D.floors result ≡ self.floors }
        ensures refused { D.refused result ≡ self.refused }
    {
        let Worker {
            door,
            log: _log,
            spare: _,
        } = self;
        door
    }

    /// Takes in a list that was told of the same tables: each later read begins with it too. It waits for nobody.
    pub fn learn(&mut self, told: Told)
        requires { told.identity ≡ self.old.identity }
        ensures same_identity { self.new.identity ≡ self.old.identity }
        ensures same_limits { self.new.limits ≡ self.old.limits }
        ensures counts { self.old.refused ≤ self.new.refused }
        ensures floors { self.new.floors ≡ self.old.floors ++ told.list ∷ [] }
        ensures log { self.new.log ≡ self.old.log }
        ensures spare { self.new.spare ≡ self.old.spare }
        ensures logged { (frames : List (List ℕ)) → Logged self.old frames → Logged self.new frames }
    {
        self.door.learn(told);
    }

    /// Makes room in the empty log for so many reads.
    ///
    /// # Errors
    ///
    /// Where memory runs out; nothing has changed then.
    pub fn keep(&mut self, alloc: Global, reads: usize) -> Result<(), AllocError>
        requires { self.old.log ≡ [] }
        ensures { MatchResult result (λ _. self.new ≡ record self.old { spare = reads }) (λ _. self.new ≡ self.old) }
    {
        let log = Vec::with_capacity(alloc, reads)?;
        self.log = Some(log);
        self.spare = reads;
        Ok(())
    }

    /// What the tables that are published now give for a frame with these headers: the first matching rule after all
    /// changes of a list that begins with all that was seen or told before. Where the log has room it is logged too.
    /// None where the door refused. It waits for nobody and takes no memory.
    pub fn classify(&mut self, headers: &Headers) -> Option<Seen>
        ensures same_identity { self.new.identity ≡ self.old.identity }
        ensures same_limits { self.new.limits ≡ self.old.limits }
        ensures counts { self.old.refused ≤ self.new.refused }
        ensures answer { MatchOption result
            (Rose self.old.refused self.new.refused × (self.new.floors ≡ self.old.floors))
            (λ seen. IsRead self.old.limits self.old.floors self.new.floors headers.now seen) }
        ensures log { MatchOption result
            ((self.new.log ≡ self.old.log) × (self.new.spare ≡ self.old.spare))
            (λ seen. (self.new.log ≡ log_after self.old.log self.old.spare seen)
            × (self.new.spare ≡ self.old.spare - 1)) }
        ensures logged { (frames : List (List ℕ)) (frame : List ℕ) → Logged self.old frames → 0 < self.old.spare
            → headers.now ≡ headers_of frame → IsSome result → length (first_floor self.new.floors) < 2 ^ 64 - 1
            → Logged self.new (frames ++ frame ∷ []) }
    {
        let Ok(seen) = self.door.look(headers) else {
            return None;
        };
        note(&mut self.log, &mut self.spare, seen);
        Some(seen)
    }

    /// All that was read while the log had room.
    pub fn log(&self) -> &[Seen]
        ensures { result.now ≡ self.now.log }
    {
        match &self.log {
            Some(log) => log.as_slice(),
            None => &[],
        }
    }
}

/// Logs a read where there is room.
fn note(log: &mut Option<Vec<Seen>>, spare: &mut usize, seen: Seen)
    requires { Fits log.old spare.old }
    ensures fits { Fits log.new spare.new }
    ensures log { items_of log.new ≡ log_after (items_of log.old) spare.old seen }
    ensures spare { spare.new ≡ spare.old - 1 }
{
    if let Some(log) = log
        && *spare > 0
    {
        log.push_reserved(seen);
        *spare -= 1;
    }
}
