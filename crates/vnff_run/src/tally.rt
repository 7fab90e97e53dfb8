//! How many frames went where, and the lines that say so.

ghost use Rattle.std.specs.Prelude.{◌≡◌, ◌<◌, ◌≤◌, ◌-◌, ◌^◌, [], ℕ, None, Some, slice_index};
ghost use Rattle.std.specs.List.{flat_map, range_with_len};
ghost use Rattle.vnff_base.specs.Gatherings.{Gathers};
ghost use Rattle.vnff_base.specs.Outputs.{Writes};
ghost use Rattle.cap_table.specs.Caps.{most_pairs};
ghost use Rattle.vnff_run.specs.Steering.{drop_line, queue_line};
ghost use Rattle.vnff_run.specs.Tallies.{count_line, no_frames, tally_text, tally_with};

use crate::text::put_number;
use cap_table::MOST_PAIRS;
use vnff_base::{Failed, Gathered, Out};

/// How many queues are counted: as many as a device may have.
const QUEUES: usize = MOST_PAIRS as usize;

/// How many frames went to each queue, that of queue 0 first, and how many were dropped.
#[derive(Clone, Copy, Debug)]
pub struct Tally {
    pub queues: [u64; QUEUES],
    pub dropped: u64,
}

impl Tally {
    /// No frame.
    pub(crate) fn new() -> Tally
        ensures { result ≡ no_frames }
    {
        Tally {
            queues: [0; QUEUES],
            dropped: 0,
        }
    }

    /// Counts one more frame, which went to a queue or to none.
    pub(crate) fn count(&mut self, queue: Option<u16>)
        requires within { (q : ℕ) → queue ≡ Some q → q < most_pairs }
        requires room { (q : ℕ) → queue ≡ Some q → slice_index self.old.queues q < 2 ^ 64 - 1 }
        requires room_dropped { queue ≡ None → self.old.dropped < 2 ^ 64 - 1 }
        ensures { self.new ≡ tally_with self.old queue }
    {
        match queue {
            Some(queue) => self.queues[queue as usize] += 1,
            None => self.dropped += 1,
        }
    }

    /// Writes the whole text of the counts of the first queues, and of the dropped frames.
    pub(crate) fn put_text<O: Out>(
        &self,
        pairs: u8,
        text: &mut Gathered,
        out: &mut O,
    ) -> Result<(), Failed>
        requires few { pairs ≤ most_pairs }
        requires none { text.old ≡ [] }
        ensures { Writes (O.state out.old) (O.state out.new) (tally_text pairs self.now) result }
    {
        self.put_queues(pairs, text, out)?;
        put_drop_line(text, out, self.dropped)?;
        text.finish(out)
    }

    /// Writes the lines of the first queues.
    fn put_queues<O: Out>(&self, pairs: u8, text: &mut Gathered, out: &mut O) -> Result<(), Failed>
        requires few { pairs ≤ most_pairs }
        ensures { Gathers (O.state out.old) (O.state out.new) text.old text.new
            (flat_map (count_line self.now) (range_with_len 0 pairs)) result }
    {
        for queue in 0..pairs {
            put_queue_line(text, out, queue, self.queues[queue as usize])?;
        }
        Ok(())
    }
}

/// Writes the line of a queue: `queue`, its number, how many frames went to it, a line feed.
#[tactic(auto, unfolding(crate::specs::Steering::queue_line))]
fn put_queue_line<O: Out>(
    text: &mut Gathered,
    out: &mut O,
    queue: u8,
    count: u64,
) -> Result<(), Failed>
    ensures { Gathers (O.state out.old) (O.state out.new) text.old text.new (queue_line queue count) result }
{
    text.put(out, b"queue ")?;
    put_number(text, out, queue as u64)?;
    text.put(out, b" ")?;
    put_number(text, out, count)?;
    text.put(out, b"\n")
}

/// Writes the line of the dropped frames: `drop`, how many there were, a line feed.
#[tactic(auto, unfolding(crate::specs::Steering::drop_line))]
fn put_drop_line<O: Out>(text: &mut Gathered, out: &mut O, count: u64) -> Result<(), Failed>
    ensures { Gathers (O.state out.old) (O.state out.new) text.old text.new (drop_line count) result }
{
    text.put(out, b"drop ")?;
    put_number(text, out, count)?;
    text.put(out, b"\n")
}
