//! What a live run writes, gathered: the line of each reply, and then the line of each packet.

ghost use Rattle.std.specs.Prelude.{◌≡◌, ◌<◌, [], length};
ghost use Rattle.std.specs.List.{enumerate_from, flat_map};
ghost use Rattle.vnff_base.specs.Gatherings.{Gathers};
ghost use Rattle.vnff_base.specs.Outputs.{Writes};
ghost use Rattle.steer.specs.Results.{packet_lines, replies_in};
ghost use Rattle.vnff_run.specs.Endings.{RunsAs};
ghost use Rattle.vnff_run.specs.LiveEndings.{AreLogged, lines_of_run, read_line};
ghost use Rattle.vnff_run.specs.LiveTexts.{numbered_line};
ghost use Rattle.vnff_run.specs.Outcomes.{done_outcome};
ghost use Rattle.vnff_run.specs.Replay.{reply_line};

use crate::stop::Stop;
use crate::text::{put_live_line, put_reply_line};
use admin_wire::ReplyBytes;
use snapshots::{PairDoor, Worker};
use std::alloc::Global;
use steer::read_at;
use vnff_base::{Failed, Gathered, List, Out};

/// Writes the lines of replies, and of so many packets that workers read.
pub(crate) fn put_run<O: Out>(
    alloc: Global,
    replies: &List<ReplyBytes>,
    workers: &List<Worker<PairDoor>>,
    packets: usize,
    out: &mut O,
) -> Result<(), Stop>
    requires some { 0 < length workers.now }
    requires logged { AreLogged workers.now packets }
    ensures { RunsAs (O.state out.old) (O.state out.new)
        (done_outcome (lines_of_run replies.now workers.now packets)) result }
{
    let mut text = Gathered::new(alloc)?;
    Ok(put_text(replies, workers, packets, &mut text, out)?)
}

/// Writes the whole text of a run.
fn put_text<O: Out>(
    replies: &List<ReplyBytes>,
    workers: &List<Worker<PairDoor>>,
    packets: usize,
    text: &mut Gathered,
    out: &mut O,
) -> Result<(), Failed>
    requires none { text.old ≡ [] }
    requires some { 0 < length workers.now }
    requires logged { AreLogged workers.now packets }
    ensures { Writes (O.state out.old) (O.state out.new) (lines_of_run replies.now workers.now packets) result }
{
    put_lines(replies, workers, packets, text, out)?;
    text.finish(out)
}

/// Writes the lines of replies, and then those of packets.
fn put_lines<O: Out>(
    replies: &List<ReplyBytes>,
    workers: &List<Worker<PairDoor>>,
    packets: usize,
    text: &mut Gathered,
    out: &mut O,
) -> Result<(), Failed>
    requires some { 0 < length workers.now }
    requires logged { AreLogged workers.now packets }
    ensures { Gathers (O.state out.old) (O.state out.new) text.old text.new
        (lines_of_run replies.now workers.now packets) result }
{
    put_replies(replies.as_slice(), text, out)?;
    put_packets(workers, packets, text, out)
}

/// Writes a line for each reply.
fn put_replies<O: Out>(
    replies: &[ReplyBytes],
    text: &mut Gathered,
    out: &mut O,
) -> Result<(), Failed>
    ensures { Gathers (O.state out.old) (O.state out.new) text.old text.new
        (flat_map reply_line (replies_in replies.now)) result }
{
    for reply in replies {
        put_reply_line(text, out, reply.as_slice())?;
    }
    Ok(())
}

/// Writes a line for each of so many packets.
fn put_packets<O: Out>(
    workers: &List<Worker<PairDoor>>,
    packets: usize,
    text: &mut Gathered,
    out: &mut O,
) -> Result<(), Failed>
    requires some { 0 < length workers.now }
    requires logged { AreLogged workers.now packets }
    ensures { Gathers (O.state out.old) (O.state out.new) text.old text.new
        (flat_map numbered_line (enumerate_from 0 (packet_lines workers.now (length workers.now) packets))) result }
{
    for packet in 0..packets {
        put_packet(workers, packets, packet, text, out)?;
    }
    Ok(())
}

/// Writes the line of a packet.
fn put_packet<O: Out>(
    workers: &List<Worker<PairDoor>>,
    packets: usize,
    packet: usize,
    text: &mut Gathered,
    out: &mut O,
) -> Result<(), Failed>
    requires some { 0 < length workers.now }
    requires logged { AreLogged workers.now packets }
    requires within { packet < packets }
    ensures { Gathers (O.state out.old) (O.state out.new) text.old text.new (read_line workers.now packet) result }
{
    let seen = read_at(workers, packet).unwrap();
    put_live_line(text, out, packet, seen.after, seen.action)
}
