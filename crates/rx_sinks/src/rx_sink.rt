//! A sink of received frames.

ghost use Rattle.std.specs.Prelude.{◌≡◌, ◌≤◌, ◌↔◌, length, IsTrue, IsSome, IsNone, IfSome};
ghost use Rattle.std.specs.Option.{option_copied};
ghost use Rattle.capture.specs.Sizes.{longest_frame};
ghost use Rattle.rx_sinks.specs.Sinks.{SinkState, Delivers, Finishes, frame_at};

use vnff_base::Failed;

/// A place that the frames of one receive queue go to, one after another.
pub trait RxSink: Drop {
    // The frames delivered so far, where the sink tells them; how often it failed and how often it was finished, where
    // it tells that; and whether it gives its frames by `told`. Neither count falls, and each stands still at 2^64 - 1.
    ghost state: { Self → SinkState };

    /// Appends a frame of at most 262,144 bytes. A failed call appends nothing, and the sink may tell its frames no
    /// more.
    fn deliver(&mut self, frame: &[u8]) -> Result<(), Failed>
        requires { length frame.now ≤ longest_frame }
        ensures { Delivers (state self.old) (state self.new) frame.now result };

    /// Ends the frames, which stay. It counts as one finish, whatever it answers.
    fn finish(&mut self) -> Result<(), Failed>
        ensures { Finishes (state self.old) (state self.new) result };

    /// The delivered frame at a place, counted from 0, of a sink that gives its frames.
    fn told(&self, place: usize) -> Option<&[u8]>
        ensures item { option_copied result ≡ frame_at (state self.now) place }
        ensures none { IsNone result ↔ (IsTrue (state self.now).gives
            → IfSome (state self.now).frames (λ frames. length frames ≤ place)) }
        // A sink that gives its frames tells them too.
        ensures tells { IsTrue (state self.now).gives → IsSome (state self.now).frames };

    /// How often the sink was finished, where it tells that.
    fn ended(&self) -> Option<u64>
        ensures { result ≡ (state self.now).ends };
}

/// A boxed sink is the sink in the box.
impl RxSink for Box<dyn RxSink> {
    ghost state = { λ b. (RxSink-box b).state b.value };

    fn deliver(&mut self, frame: &[u8]) -> Result<(), Failed> {
        (**self).deliver(frame)
    }

    fn finish(&mut self) -> Result<(), Failed> {
        (**self).finish()
    }

    fn told(&self, place: usize) -> Option<&[u8]> {
        (**self).told(place)
    }

    fn ended(&self) -> Option<u64> {
        (**self).ended()
    }
}
