//! A shelf: a place that files are read from.

ghost use Rattle.std.specs.Prelude.{◌≡◌, ◌≤◌, length, IfOk, OnErr, MatchResult};
ghost use Rattle.vnff_base.specs.Counts.{count_with};
ghost use Rattle.vnff_base.specs.Shelves.{ShelfState, ReadsFile, HasCause};

use crate::out::Failed;

/// A place that files are read from, each under a name.
pub trait Shelf {
    // The files, where the shelf tells them; how often it failed, and how many bytes it gave. Neither count falls, and
    // each stands still at 2^64 - 1.
    ghost state: { Self → ShelfState };

    /// Reads bytes of a file, from the place `at` on, into the front of the buffer, and says how many. Of a buffer that
    /// isn't empty, none means the end of the file. A name that isn't there is a failure. Nothing is promised of what
    /// is behind these bytes in the buffer, nor of the buffer after a failure.
    fn read_at(&mut self, name: &str, at: u64, buf: &mut [u8]) -> Result<usize, Failed>
        ensures fits { IfOk result (λ n. n ≤ length buf.new) }
        ensures bytes { IfOk result (λ n. ReadsFile (state self.old) name.now at n buf.new) }
        ensures given { MatchResult result
            (λ n. (state self.new).given ≡ count_with (state self.old).given n)
            (λ _. (state self.new).given ≡ (state self.old).given) }
        ensures faults { MatchResult result
            (λ _. (state self.new).faults ≡ (state self.old).faults)
            (λ _. (state self.old).faults ≤ (state self.new).faults) }
        ensures cause { OnErr result (HasCause (state self.old) (state self.new) name.now) }
        ensures same_files { (state self.new).files ≡ (state self.old).files };
}
