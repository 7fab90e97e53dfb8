//! Standard output: the edge where proofs end.

ghost use Rattle.std.specs.Prelude.{◌≡◌, None};

use crate::out::{Failed, Out};

/// Standard output. It tells no contract what was written.
#[derive(Drop)]
pub struct StdOut<R> {
    rt: R,
    faults: u64,
}

impl<R: Print> StdOut<R> {
    /// Standard output of the runtime, with no failure yet.
    pub fn new(rt: R) -> StdOut<R>
        ensures { ⟦<StdOut<R> as Out>⟧.state result ≡ record { told = None; faults = 0 } }
    {
        StdOut { rt, faults: 0 }
    }
}

impl<R: Print> Out for StdOut<R> {
    ghost state = { λ o. record { told = None; faults = o.faults } };

    fn put(&mut self, piece: &[u8]) -> Result<(), Failed> {
        match self.rt.write_all(piece) {
            Ok(()) => Ok(()),
            Err(_) => {
                self.faults = self.faults.saturating_add(1);
                Err(Failed)
            }
        }
    }
}
