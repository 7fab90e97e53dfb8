//! The lines that sum up what happens to frames, gathered before they are put to an output.

ghost use Rattle.std.specs.List.{enumerate_from, flat_map};
ghost use Rattle.vnff_base.specs.Gatherings.{Gathers};
ghost use Rattle.vnff_run.specs.Loads.{count_line, number_end, queue_line, summary_text};

use crate::text::put_number;
use generated_load::ActionCounts;
use vnff_base::{Failed, Gathered, Out};

/// Writes how many frames there are, are dropped, get the default, and go to each queue.
pub(crate) fn put_summary<O: Out>(
    text: &mut Gathered,
    out: &mut O,
    frames: u32,
    counts: &ActionCounts,
) -> Result<(), Failed>
    ensures { Gathers (O.state out.old) (O.state out.new) text.old text.new (summary_text frames counts.now) result }
{
    put_count_line(text, out, b"frames", u64::from(frames))?;
    put_count_line(text, out, b"drop", counts.drop)?;
    put_count_line(text, out, b"default", counts.default)?;
    put_queue_lines(text, out, &counts.queues)
}

/// Writes a line for each queue.
fn put_queue_lines<O: Out>(text: &mut Gathered, out: &mut O, counts: &[u64]) -> Result<(), Failed>
    ensures { Gathers (O.state out.old) (O.state out.new) text.old text.new
        (flat_map queue_line (enumerate_from 0 counts.now)) result }
{
    for (queue, count) in counts.iter().enumerate() {
        put_queue_line(text, out, queue, *count)?;
    }
    Ok(())
}

/// Writes the line of a queue.
fn put_queue_line<O: Out>(
    text: &mut Gathered,
    out: &mut O,
    queue: usize,
    count: u64,
) -> Result<(), Failed>
    ensures { Gathers (O.state out.old) (O.state out.new) text.old text.new (queue_line (queue, count)) result }
{
    text.put(out, b"queue ")?;
    put_number(text, out, queue as u64)?;
    put_number_end(text, out, count)
}

/// Writes a line of a word and a number.
fn put_count_line<O: Out>(
    text: &mut Gathered,
    out: &mut O,
    word: &[u8],
    count: u64,
) -> Result<(), Failed>
    ensures { Gathers (O.state out.old) (O.state out.new) text.old text.new (count_line word.now count) result }
{
    text.put(out, word)?;
    put_number_end(text, out, count)
}

/// Writes a number at the end of a line.
fn put_number_end<O: Out>(text: &mut Gathered, out: &mut O, number: u64) -> Result<(), Failed>
    ensures { Gathers (O.state out.old) (O.state out.new) text.old text.new (number_end number) result }
{
    text.put(out, b" ")?;
    put_number(text, out, number)?;
    text.put(out, b"\n")
}
