//! A rack: one sink for each receive queue.

ghost use Rattle.std.specs.Prelude.{◌≡◌, ◌<◌, ◌≤◌, ◌↔◌, List, map, length, IsTrue, IsSome, IsNone, IfSome};
ghost use Rattle.std.specs.Option.{option_copied};
ghost use Rattle.capture.specs.Sizes.{longest_frame};
ghost use Rattle.rx_sinks.specs.Racks.{OneSink, FinishesFirst, sink_at};
ghost use Rattle.rx_sinks.specs.Sinks.{SinkState, Delivers, frame_at};

use crate::rx_sink::RxSink;
use vnff_base::Failed;

/// What contracts see as a list of sinks.
pub trait SinkList {
    // The sinks, that of queue 0 first.
    ghost sinks: { Self → List SinkState };
}

/// The sinks of the queues, that of queue 0 first. Contracts see it as the list of these sinks.
#[derive(Drop)]
pub struct Rack {
    sinks: Vec<Box<dyn RxSink>>,
}

impl SinkList for Rack {
    ghost sinks = { λ r. map (λ b. (RxSink-box b).state b.value) r.sinks.items };
}

impl Rack {
    /// The rack of these sinks.
    pub fn new(sinks: Vec<Box<dyn RxSink>>) -> Rack
        ensures { ⟦<Rack as SinkList>⟧.sinks result ≡ map ⟦<Box<dyn RxSink> as RxSink>⟧.state sinks.items }
    {
        Rack { sinks }
    }

    /// The number of queues, each with its sink.
    pub fn queue_count(&self) -> usize
        ensures { result ≡ length (⟦<Rack as SinkList>⟧.sinks self.now) }
    {
        self.sinks.len()
    }

    /// Delivers a frame of at most 262,144 bytes to the sink of a queue, and to no other. The failure is that sink's.
    pub fn deliver(&mut self, queue: u16, frame: &[u8]) -> Result<(), Failed>
        requires queue { queue < length (⟦<Rack as SinkList>⟧.sinks self.old) }
        requires frame { length frame.now ≤ longest_frame }
        ensures { OneSink queue (λ a b. Delivers a b frame.now result)
            (⟦<Rack as SinkList>⟧.sinks self.old) (⟦<Rack as SinkList>⟧.sinks self.new) }
    {
        deliver_to(&mut self.sinks, queue as usize, frame)
    }

    /// Finishes the sinks of the first queues in order, each once, whatever each answers. It failed where one of them
    /// did.
    pub fn finish(&mut self, pairs: u8) -> Result<(), Failed>
        requires { pairs ≤ length (⟦<Rack as SinkList>⟧.sinks self.old) }
        ensures { FinishesFirst pairs
            (⟦<Rack as SinkList>⟧.sinks self.old) (⟦<Rack as SinkList>⟧.sinks self.new) result }
    {
        finish_first(&mut self.sinks, pairs as usize)
    }

    /// The delivered frame at a place of a queue's sink, counted from 0, where the sink gives its frames.
    pub fn told(&self, queue: u16, place: usize) -> Option<&[u8]>
        requires { queue < length (⟦<Rack as SinkList>⟧.sinks self.now) }
        ensures item { option_copied result ≡ frame_at (sink_at (⟦<Rack as SinkList>⟧.sinks self.now) queue) place }
        ensures none { let sink = sink_at (⟦<Rack as SinkList>⟧.sinks self.now) queue in
            IsNone result ↔ (IsTrue sink.gives → IfSome sink.frames (λ frames. length frames ≤ place)) }
        // A sink that gives its frames tells them too.
        ensures tells { let sink = sink_at (⟦<Rack as SinkList>⟧.sinks self.now) queue in
            IsTrue sink.gives → IsSome sink.frames }
    {
        self.sinks[queue as usize].told(place)
    }

    /// How often a queue's sink was finished, where it tells that.
    pub fn ended(&self, queue: u16) -> Option<u64>
        requires { queue < length (⟦<Rack as SinkList>⟧.sinks self.now) }
        ensures { result ≡ (sink_at (⟦<Rack as SinkList>⟧.sinks self.now) queue).ends }
    {
        self.sinks[queue as usize].ended()
    }
}

/// Delivers a frame to one of several sinks.
fn deliver_to<S: RxSink>(sinks: &mut Vec<S>, queue: usize, frame: &[u8]) -> Result<(), Failed>
    requires queue { queue < length sinks.old.items }
    requires frame { length frame.now ≤ longest_frame }
    ensures { OneSink queue (λ a b. Delivers a b frame.now result)
        (map S.state sinks.old.items) (map S.state sinks.new.items) }
{
    sinks[queue].deliver(frame)
}

/// Finishes the first of several sinks, each once, whatever each answers.
fn finish_first<S: RxSink>(sinks: &mut Vec<S>, pairs: usize) -> Result<(), Failed>
    requires { pairs ≤ length sinks.old.items }
    ensures { FinishesFirst pairs (map S.state sinks.old.items) (map S.state sinks.new.items) result }
{
    let mut answer = Ok(());
    for queue in 0..pairs {
        let finished = sinks[queue].finish();
        answer = answer.and(finished);
    }
    answer
}
