//! A sink that writes its frames as a capture to an output.

ghost use Rattle.std.specs.Prelude.{◌≡◌, ◌≤◌, ◌++◌, [], length, false, IfSome, OnOk};
ghost use Rattle.capture.specs.Captures.{record_text};
ghost use Rattle.vnff_base.specs.Counts.{count_with};
ghost use Rattle.vnff_base.specs.Outputs.{Writes};
ghost use Rattle.capture.specs.Sizes.{longest_frame};
ghost use Rattle.rx_sinks.specs.CaptureSinks.{capture_state, first_text, TellsCapture, TellsWritten, PutsText};
ghost use Rattle.rx_sinks.specs.Sinks.{Delivers, Finishes};

use crate::rx_sink::RxSink;
use capture::{write_frame, write_header};
use std::marker::Model;
use vnff_base::{Failed, Out};

/// A capture of the frames in an output, which nothing else is put to. A frame is in the output when `deliver` has
/// answered. After a failed put the sink is broken: it puts nothing more, and every call fails.
#[derive(Drop)]
pub struct CaptureSink<O: Out> {
    out: O,
    begun: bool,
    broken: bool,
    refused: u64,
}

impl<O: Out> Model for CaptureSink<O> {
    ghost use Rattle.rx_sinks.specs.CaptureSinks.{CaptureSinkState, HasWhatItWrites};

    ghost Value = { CaptureSinkState };

    ghost view = { λ s. record {
      output = O.state s.out;
      begun = s.begun;
      broken = s.broken;
      refused = s.refused;
    } };

    ghost invariant = { λ s. HasWhatItWrites (record {
      output = O.state s.out;
      begun = s.begun;
      broken = s.broken;
      refused = s.refused;
    }) };
}

impl<O: Out> CaptureSink<O> {
    /// A sink that nothing was put of yet, over an output that nothing was written to.
    pub fn new(out: O) -> CaptureSink<O>
        requires { IfSome (O.state out).told (λ bytes. bytes ≡ []) }
        ensures { result ≡ record { output = O.state out; begun = false; broken = false; refused = 0 } }
    {
        CaptureSink {
            out,
            begun: false,
            broken: false,
            refused: 0,
        }
    }

    /// The output that the capture is written to.
    pub fn out(&self) -> &O
        ensures { O.state result.now ≡ self.now.output }
    {
        &self.out
    }

    /// Whether a put failed. Of a sink that isn't broken the output holds a capture of the frames, or nothing yet.
    pub fn is_broken(&self) -> bool
        ensures flag { result ≡ self.now.broken }
        ensures written { result ≡ false → TellsWritten self.now }
    {
        self.broken
    }

    /// Counts a call of a broken sink.
    fn refuse(&mut self) -> Failed
        ensures counted { self.new ≡ record self.old { refused = count_with self.old.refused 1 } }
        ensures grew { self.old.refused ≤ self.new.refused }
    {
        self.refused = self.refused.saturating_add(1);
        Failed
    }
}

impl<O: Out + Drop> RxSink for CaptureSink<O> {
    ghost state = { capture_state };

    /// Writes the frame's record, and before the first one the capture's header.
    fn deliver(&mut self, frame: &[u8]) -> Result<(), Failed>
        requires { length frame.now ≤ longest_frame }
        ensures delivers { Delivers (capture_state self.old) (capture_state self.new) frame.now result }
        ensures puts { PutsText self.old self.new (first_text self.old.begun ++ record_text frame.now) result }
        ensures capture { OnOk result (TellsCapture self.new) }
    {
        if self.broken {
            return Err(self.refuse());
        }
        let written = put_record(&mut self.out, self.begun, frame);
        self.begun = true;
        self.broken = written.is_err();
        written
    }

    /// Writes the capture's header where there was no frame.
    fn finish(&mut self) -> Result<(), Failed>
        ensures finishes { Finishes (capture_state self.old) (capture_state self.new) result }
        ensures puts { PutsText self.old self.new (first_text self.old.begun) result }
        ensures capture { OnOk result (TellsCapture self.new) }
    {
        if self.broken {
            return Err(self.refuse());
        }
        let written = begin(&mut self.out, self.begun);
        self.begun = true;
        self.broken = written.is_err();
        written
    }

    fn told(&self, _place: usize) -> Option<&[u8]> {
        None
    }

    fn ended(&self) -> Option<u64> {
        None
    }
}

/// Puts a capture's header, where that wasn't done yet.
fn begin<O: Out>(out: &mut O, begun: bool) -> Result<(), Failed>
    ensures { Writes (O.state out.old) (O.state out.new) (first_text begun) result }
{
    if begun {
        return Ok(());
    }
    write_header(out)
}

/// Puts a frame's record, and before it the header, where that wasn't done yet.
fn put_record<O: Out>(out: &mut O, begun: bool, frame: &[u8]) -> Result<(), Failed>
    requires { length frame.now ≤ longest_frame }
    ensures { Writes (O.state out.old) (O.state out.new) (first_text begun ++ record_text frame.now) result }
{
    begin(out, begun)?;
    write_frame(out, frame)
}
