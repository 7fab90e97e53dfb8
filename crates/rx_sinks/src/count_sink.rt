//! A sink that counts frames and keeps none.

ghost use Rattle.std.specs.Prelude.{◌≡◌, IsOk};
ghost use Rattle.vnff_base.specs.Counts.{count_with};
ghost use Rattle.rx_sinks.specs.CountSinks.{count_state};
ghost use Rattle.rx_sinks.specs.Sinks.{Delivers, Finishes};

use crate::rx_sink::RxSink;
use std::marker::Model;
use vnff_base::Failed;

/// The number of frames delivered. It never fails.
#[derive(Debug, Drop)]
pub struct CountSink {
    count: u64,
    ends: u64,
}

impl Model for CountSink {
    ghost use Rattle.rx_sinks.specs.CountSinks.{CountSinkState};

    ghost Value = { CountSinkState };

    ghost view = { λ s. record { count = s.count; ends = s.ends } };
}

impl CountSink {
    /// A sink that no frame was delivered to, and that wasn't finished.
    pub fn new() -> CountSink
        ensures { result ≡ record { count = 0; ends = 0 } }
    {
        CountSink { count: 0, ends: 0 }
    }

    /// The number of frames delivered. It stands still at 2^64 - 1.
    pub fn count(&self) -> u64
        ensures { result ≡ self.now.count }
    {
        self.count
    }
}

impl RxSink for CountSink {
    ghost state = { count_state };

    /// Counts the frame.
    fn deliver(&mut self, _frame: &[u8]) -> Result<(), Failed>
        ensures delivers { Delivers (count_state self.old) (count_state self.new) _frame.now result }
        ensures counted { self.new ≡ record self.old { count = count_with self.old.count 1 } }
        ensures ok { IsOk result }
    {
        self.count = self.count.saturating_add(1);
        Ok(())
    }

    /// Counts the finish.
    fn finish(&mut self) -> Result<(), Failed>
        ensures finishes { Finishes (count_state self.old) (count_state self.new) result }
        ensures counted { self.new ≡ record self.old { ends = count_with self.old.ends 1 } }
        ensures ok { IsOk result }
    {
        self.ends = self.ends.saturating_add(1);
        Ok(())
    }

    fn told(&self, _place: usize) -> Option<&[u8]> {
        None
    }

    fn ended(&self) -> Option<u64> {
        Some(self.ends)
    }
}
