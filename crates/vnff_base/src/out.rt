//! An output: a place that bytes are written to.

ghost use Rattle.vnff_base.specs.Outputs.{OutputState, Writes};

/// A read or a write that failed. The count of the shelf or of the output says more.
#[derive(Clone, Copy, Debug, PartialEq, Eq)]
pub struct Failed;

/// A place that bytes are written to, one piece after another.
pub trait Out {
    // The bytes written so far, where the output tells them, and how often it failed; the count never falls, and stands
    // still at 2^64 - 1.
    ghost state: { Self → OutputState };

    /// Appends the piece. A put that failed appended a front of it.
    fn put(&mut self, piece: &[u8]) -> Result<(), Failed>
        ensures { Writes (state self.old) (state self.new) piece.now result };
}
