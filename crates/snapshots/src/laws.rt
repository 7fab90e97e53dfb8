//! Laws of the definitions. Each call does nothing: its contract is the law.

ghost use Rattle.std.specs.Prelude.{◌≡◌, ℕ, ◌≤◌, List, []};
ghost use mathlib.Core.List.{IsPrefix};
ghost use Rattle.ff_headers.specs.Changes.{change_count, after};
ghost use Rattle.ff_headers.specs.declared.limits.Limits.{Limits};
ghost use Rattle.ff_headers.specs.declared.change.Change.{Change};
ghost use Rattle.snapshots.specs.Lists.{ClosesLast, Covers};
ghost use Rattle.snapshots.specs.Workers.{WorkerState, Logged};

/// An empty log stands for no frame.
pub fn empty_logs_stand_for_no_frame()
    ensures { (worker : WorkerState) → worker.log ≡ [] → Logged worker [] }
{}

/// Where no change follows the one that closes a list, the list covers each of its beginnings, and a longer list leaves
/// after as many changes what its beginning does.
pub fn beginnings_are_covered()
    ensures covers { (list floor : List Change) → IsPrefix floor list → ClosesLast list → Covers list floor }
    ensures leaves { (limits : Limits) (list floor : List Change) (k : ℕ) → IsPrefix floor list → k ≤ change_count floor
        → after limits floor k ≡ after limits list k }
{}
