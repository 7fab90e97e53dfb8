//! The lines that forms write, gathered before they are put to an output.

ghost use Rattle.std.specs.Prelude.{decimal};
ghost use Rattle.vnff_base.specs.Gatherings.{Gathers};
ghost use Rattle.vnff_run.specs.LiveTexts.{live_line};
ghost use Rattle.vnff_run.specs.Replay.{action_text, frame_line, reply_line};
ghost use Rattle.vnff_run.specs.Tables.{packet_line};

use ff_headers::Action;
use itoa::Buffer;
use vnff_base::{Failed, Gathered, Out, hex_gather};

/// Writes a number.
pub(crate) fn put_number<O: Out>(
    text: &mut Gathered,
    out: &mut O,
    number: u64,
) -> Result<(), Failed>
    ensures { Gathers (O.state out.old) (O.state out.new) text.old text.new (decimal number) result }
{
    let mut buffer = Buffer::new();
    text.put(out, buffer.format(number).as_bytes())
}

/// Writes the name of an action, with the queue of one that queues.
#[tactic(auto, unfolding(crate::specs::Replay::action_text))]
fn put_action<O: Out>(text: &mut Gathered, out: &mut O, action: Action) -> Result<(), Failed>
    ensures { Gathers (O.state out.old) (O.state out.new) text.old text.new (action_text action) result }
{
    match action {
        Action::Default => text.put(out, b"default"),
        Action::Drop => text.put(out, b"drop"),
        Action::Queue(queue) => {
            text.put(out, b"queue ")?;
            put_number(text, out, u64::from(queue))
        }
    }
}

/// Writes the line of a frame: `frame`, its action, a line feed.
#[tactic(auto, unfolding(crate::specs::Replay::frame_line))]
pub fn put_frame_line<O: Out>(
    text: &mut Gathered,
    out: &mut O,
    action: Action,
) -> Result<(), Failed>
    ensures { Gathers (O.state out.old) (O.state out.new) text.old text.new (frame_line action) result }
{
    text.put(out, b"frame ")?;
    put_action(text, out, action)?;
    text.put(out, b"\n")
}

/// Writes the line of a packet: `packet`, its number, its action, a line feed.
#[tactic(auto, unfolding(crate::specs::Tables::packet_line))]
pub fn put_packet_line<O: Out>(
    text: &mut Gathered,
    out: &mut O,
    number: usize,
    action: Action,
) -> Result<(), Failed>
    ensures { Gathers (O.state out.old) (O.state out.new) text.old text.new (packet_line number action) result }
{
    text.put(out, b"packet ")?;
    put_number(text, out, number as u64)?;
    text.put(out, b" ")?;
    put_action(text, out, action)?;
    text.put(out, b"\n")
}

/// Writes the line of a packet of a live run: `packet`, its number, `after`, how many changes were made before it was
/// classified, its action, a line feed.
#[tactic(auto, unfolding(crate::specs::LiveTexts::live_line))]
pub fn put_live_line<O: Out>(
    text: &mut Gathered,
    out: &mut O,
    number: usize,
    after: u64,
    action: Action,
) -> Result<(), Failed>
    ensures { Gathers (O.state out.old) (O.state out.new) text.old text.new (live_line number after action) result }
{
    text.put(out, b"packet ")?;
    put_number(text, out, number as u64)?;
    text.put(out, b" after ")?;
    put_number(text, out, after)?;
    text.put(out, b" ")?;
    put_action(text, out, action)?;
    text.put(out, b"\n")
}

/// Writes the line of a reply: `reply`, its bytes in hexadecimal or `-`, a line feed.
pub fn put_reply_line<O: Out>(text: &mut Gathered, out: &mut O, reply: &[u8]) -> Result<(), Failed>
    ensures { Gathers (O.state out.old) (O.state out.new) text.old text.new (reply_line reply.now) result }
{
    text.put(out, b"reply ")?;
    hex_gather(text, out, reply)?;
    text.put(out, b"\n")
}
