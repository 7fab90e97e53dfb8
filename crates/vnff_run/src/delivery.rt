//! Frames that are delivered to the sinks of a rack, each to that of its queue.

ghost use Rattle.std.specs.Prelude.{◌≡◌, ◌≤◌, ◌<◌, ℕ, All, length, IfOk, OnErr, OnOk, Some};
ghost use Rattle.cap_table.specs.Caps.{most_pairs};
ghost use Rattle.capture.specs.Sizes.{longest_frame};
ghost use Rattle.vnff_run.specs.Deliveries.{DeliversAll, FinishesAll, OneDelivered, OneFaulted, steering_on};
ghost use Rattle.vnff_run.specs.Steering.{queue_of};
ghost use Rattle.vnff_run.specs.Tallies.{IsTallyOf};

use crate::tally::Tally;
use capture::Frames;
use ff_headers::Action;
use rx_sinks::{Rack, SinkList};
use steer::Bench;
use vnff_base::Failed;

/// Delivers frames up to the first failure, and finishes the sinks of the device's queue pairs, whatever failed.
pub(crate) fn deliver_and_finish(
    bench: &Bench,
    pairs: u8,
    frames: &Frames,
    rack: &mut Rack,
) -> Result<Tally, Failed>
    requires pairs { bench.now.device.caps.pairs ≡ pairs }
    requires some { 1 ≤ pairs }
    requires few { pairs ≤ most_pairs }
    requires short { All (λ frame. length frame ≤ longest_frame) frames.now }
    requires sinks { length (⟦<Rack as SinkList>⟧.sinks rack.old) ≡ most_pairs }
    ensures tally { IfOk result (λ tally. IsTallyOf bench.now.device.objects frames.now tally) }
    ensures sinks { FinishesAll (steering_on bench.now.device frames.now)
        (⟦<Rack as SinkList>⟧.sinks rack.old) (⟦<Rack as SinkList>⟧.sinks rack.new) result }
{
    let delivered = deliver_all(bench, frames, rack);
    rack.finish(pairs).and(delivered)
}

/// Delivers frames in order, up to the first failure, and counts them.
fn deliver_all(bench: &Bench, frames: &Frames, rack: &mut Rack) -> Result<Tally, Failed>
    requires some { 1 ≤ bench.now.device.caps.pairs }
    requires few { bench.now.device.caps.pairs ≤ most_pairs }
    requires short { All (λ frame. length frame ≤ longest_frame) frames.now }
    requires sinks { length (⟦<Rack as SinkList>⟧.sinks rack.old) ≡ most_pairs }
    ensures tally { IfOk result (λ tally. IsTallyOf bench.now.device.objects frames.now tally) }
    ensures sinks { DeliversAll (steering_on bench.now.device frames.now)
        (⟦<Rack as SinkList>⟧.sinks rack.old) (⟦<Rack as SinkList>⟧.sinks rack.new) result }
{
    let mut tally = Tally::new();
    for place in 0..frames.len() {
        if let Some(frame) = frames.at(place) {
            let queue = queue_of(bench.frame(frame));
            deliver(queue, frame, rack)?;
            tally.count(queue);
        }
    }
    Ok(tally)
}

/// Delivers a frame to the sink of its queue, where it has one.
fn deliver(queue: Option<u16>, frame: &[u8], rack: &mut Rack) -> Result<(), Failed>
    requires short { length frame.now ≤ longest_frame }
    requires within { (q : ℕ) → queue ≡ Some q → q < length (⟦<Rack as SinkList>⟧.sinks rack.old) }
    ensures ok { OnOk result (OneDelivered queue frame.now
        (⟦<Rack as SinkList>⟧.sinks rack.old) (⟦<Rack as SinkList>⟧.sinks rack.new)) }
    ensures err { OnErr result (OneFaulted queue
        (⟦<Rack as SinkList>⟧.sinks rack.old) (⟦<Rack as SinkList>⟧.sinks rack.new)) }
{
    match queue {
        Some(queue) => rack.deliver(queue, frame),
        None => Ok(()),
    }
}

/// The queue to whose sink frames with this action go.
fn queue_of(action: Action) -> Option<u16>
    ensures { result ≡ queue_of action }
{
    match action {
        Action::Default => Some(0),
        Action::Drop => None,
        Action::Queue(queue) => Some(queue),
    }
}
