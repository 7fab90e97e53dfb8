//! The form `drain IMAGE SIZE DESC AVAIL USED`: the chains of a split virtqueue in an image of guest memory, and a line
//! for each.

ghost use Rattle.std.specs.Prelude.{◌≡◌, [], None, length, IfOk};
ghost use Rattle.byte_numbers.specs.Bytes.{IsBytes};
ghost use Rattle.split_queue.specs.DeviceEnds.{device_start};
ghost use Rattle.split_queue.specs.Setup.{setup_fault};
ghost use Rattle.vnff_base.specs.Gatherings.{Gathers};
ghost use Rattle.vnff_base.specs.Outputs.{Writes};
ghost use Rattle.vnff_run.specs.Drain.{chain_lines, drain_last, drain_text, drained_chains};
ghost use Rattle.vnff_run.specs.Endings.{FormEnds, RunsAs};
ghost use Rattle.vnff_run.specs.Forms.{Drain};
ghost use Rattle.vnff_run.specs.Outcomes.{drain_outcome, outcome_in};

use crate::drain_text::{put_chain_line, put_last_line};
use crate::image::queue_in;
use crate::stop::Stop;
use guest_mem::GuestMem;
use split_queue::{DeviceEnd, Place, RingErr};
use std::alloc::Global;
use vnff_base::{Failed, Gathered, Out, Shelf};

/// What stands behind the chains of a ring.
#[derive(Clone, Copy, Debug, PartialEq, Eq)]
pub enum Last {
    /// The ring is empty at this index.
    Empty(u16),
    /// The next chain has a fault.
    Faulty(RingErr),
}

/// Drains the queue in the image of a file.
pub fn drain<S: Shelf, O: Out>(
    alloc: Global,
    name: &str,
    place: Place,
    shelf: &mut S,
    out: &mut O,
) -> Result<(), Stop>
    ensures { FormEnds (S.state shelf.old) (S.state shelf.new) (O.state out.old) (O.state out.new)
        (outcome_in (Drain name.now place)) result }
{
    let (mem, end) = queue_in(alloc, name, place, shelf)?;
    drain_queue(alloc, mem, end, out)
}

/// Drains a queue, from index 0 on.
fn drain_queue<O: Out>(
    alloc: Global,
    mut mem: GuestMem,
    mut end: DeviceEnd,
    out: &mut O,
) -> Result<(), Stop>
    requires start { end ≡ device_start end.place (length mem) 0 }
    requires placed { setup_fault end.place (length mem) ≡ None }
    requires bytes { IsBytes mem }
    ensures { RunsAs (O.state out.old) (O.state out.new) (drain_outcome mem end.place) result }
{
    let mut text = Gathered::new(alloc)?;
    match put_text(&mut end, &mut mem, &mut text, out)? {
        Last::Empty(_) => Ok(()),
        Last::Faulty(_) => Err(Stop::AlreadyRefused),
    }
}

/// Writes the whole text of a queue, and gives what stands behind its chains.
fn put_text<O: Out>(
    end: &mut DeviceEnd,
    mem: &mut GuestMem,
    text: &mut Gathered,
    out: &mut O,
) -> Result<Last, Failed>
    requires start { end.old ≡ device_start end.old.place (length mem.old) 0 }
    requires placed { setup_fault end.old.place (length mem.old) ≡ None }
    requires bytes { IsBytes mem.old }
    requires none { text.old ≡ [] }
    ensures text { Writes (O.state out.old) (O.state out.new) (drain_text mem.old end.old.place) result }
    ensures last { IfOk result (λ last. last ≡ drain_last mem.old end.old.place) }
{
    let last = put_chains(end, mem, text, out)?;
    put_last_line(text, out, last)?;
    text.finish(out)?;
    Ok(last)
}

/// Writes the line of each chain before the first fault. Each chain goes back as used, with length 0, before the next
/// one is taken.
fn put_chains<O: Out>(
    end: &mut DeviceEnd,
    mem: &mut GuestMem,
    text: &mut Gathered,
    out: &mut O,
) -> Result<Last, Failed>
    requires start { end.old ≡ device_start end.old.place (length mem.old) 0 }
    requires placed { setup_fault end.old.place (length mem.old) ≡ None }
    requires bytes { IsBytes mem.old }
    ensures lines { Gathers (O.state out.old) (O.state out.new) text.old text.new
        (chain_lines (drained_chains mem.old end.old.place)) result }
    ensures last { IfOk result (λ last. last ≡ drain_last mem.old end.old.place) }
{
    let mut next = 0;
    loop {
        match end.pop(mem) {
            Ok(Some(chain)) => {
                put_chain_line(text, out, &chain)?;
                end.push_used(mem, chain.head, 0);
                next += 1;
            }
            Ok(None) => return Ok(Last::Empty(next)),
            Err(fault) => return Ok(Last::Faulty(fault)),
        }
    }
}
