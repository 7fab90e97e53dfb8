//! The form `replay SCRIPT`: the items of a script, in order, and a line for each.

ghost use Rattle.std.specs.Prelude.{◌≡◌, ◌∷◌, [], List, Ok, OnOk};
ghost use Rattle.vnff_base.specs.Gatherings.{Gathers};
ghost use Rattle.vnff_run.specs.Endings.{FormEnds, RunsAs, TakesText};
ghost use Rattle.vnff_run.specs.Forms.{Replay};
ghost use Rattle.vnff_run.specs.Grammar.{items_of};
ghost use Rattle.vnff_run.specs.ItemLines.{IsCommandWithin, IsItemWithin};
ghost use Rattle.vnff_run.specs.Outcomes.{done_outcome, outcome_in};
ghost use Rattle.vnff_run.specs.Replay.{reply_line, frame_line, item_line, lines_of, replay_text, state_after_items};
ghost use Rattle.vnff_run.specs.UnreadScripts.{spelled_by};
ghost use Rattle.vnff_run.specs.declared.script.Item.{Item as SomeItem};
ghost use Rattle.vnff_run.specs.declared.script.Script.{Script as SomeScript};
ghost use Rattle.ff_headers.specs.Frames.{headers_of};
ghost use Rattle.ff_headers.specs.Places.{action_of};
ghost use Rattle.cap_table.specs.Steps.{reply_of, next_state};

use crate::file::file_bytes;
use crate::grammar::open_script;
use crate::script::Item;
use crate::stop::{FileKind, Stop};
use crate::text::{put_frame_line, put_reply_line};
use crate::unread_script::{ItemReader, UnreadScript};
use std::alloc::Global;
use steer::{AdminLine, Bench};
use vnff_base::{Failed, Gathered, Out, Shelf};

/// Replays the script in a file. Its text is read twice, first for its faults and then item by item, so that no list of
/// items is held.
pub fn replay<S: Shelf, O: Out>(
    alloc: Global,
    name: &str,
    shelf: &mut S,
    out: &mut O,
) -> Result<(), Stop>
    ensures { FormEnds (S.state shelf.old) (S.state shelf.new) (O.state out.old) (O.state out.new)
        (outcome_in (Replay name.now)) result }
{
    let bytes = file_bytes(alloc, FileKind::Script, name, shelf)?;
    replay_script(alloc, open_script(alloc, bytes.as_slice())?, out)
}

/// Replays a script, on a device of its own.
fn replay_script<O: Out>(alloc: Global, script: UnreadScript<'_>, out: &mut O) -> Result<(), Stop>
    ensures { (whole : SomeScript) → spelled_by script.entry ≡ Ok whole
        → RunsAs (O.state out.old) (O.state out.new) (done_outcome (replay_text whole)) result }
{
    let UnreadScript { caps, start, items } = script;
    let mut bench = Bench::new(alloc, caps, start)?;
    let mut text = Gathered::new(alloc)?;
    put_text(alloc, &mut bench, items, &mut text, out)
}

/// Does what the items ask for, in order, and writes the whole text of their lines.
fn put_text<O: Out>(
    alloc: Global,
    bench: &mut Bench,
    items: ItemReader<'_>,
    text: &mut Gathered,
    out: &mut O,
) -> Result<(), Stop>
    requires { text.old ≡ [] }
    ensures { (all : List SomeItem) → items_of items.entry ≡ Ok all
        → RunsAs (O.state out.old) (O.state out.new) (done_outcome (lines_of bench.old.device all)) result }
{
    put_items(alloc, bench, items, text, out)?;
    Ok(text.finish(out)?)
}

/// Does what the items ask for, in order, and takes a line for each.
fn put_items<O: Out>(
    alloc: Global,
    bench: &mut Bench,
    mut items: ItemReader<'_>,
    text: &mut Gathered,
    out: &mut O,
) -> Result<(), Stop>
    ensures lines { (all : List SomeItem) → items_of items.entry ≡ Ok all
        → TakesText (O.state out.old) (O.state out.new) text.old text.new (lines_of bench.old.device all) result }
    ensures state { (all : List SomeItem) → items_of items.entry ≡ Ok all
        → OnOk result (bench.new.device ≡ state_after_items bench.old.device all) }
{
    while let Some(item) = items.next_item(alloc) {
        put_item(bench, &item?, text, out)?;
    }
    Ok(())
}

/// Does what an item asks for, and writes its line.
fn put_item<O: Out>(
    bench: &mut Bench,
    item: &Item,
    text: &mut Gathered,
    out: &mut O,
) -> Result<(), Failed>
    requires { IsItemWithin item.now }
    ensures line { Gathers (O.state out.old) (O.state out.new) text.old text.new
        (item_line bench.old.device item.now) result }
    ensures state { bench.new.device ≡ state_after_items bench.old.device (item.now ∷ []) }
{
    match item {
        Item::Admin(line) => put_command(bench, line, text, out),
        Item::Frame(frame) => put_frame(bench, frame.as_slice(), text, out),
    }
}

/// Sends a command through the bench's ring, and writes the line of its reply.
fn put_command<O: Out>(
    bench: &mut Bench,
    line: &AdminLine,
    text: &mut Gathered,
    out: &mut O,
) -> Result<(), Failed>
    requires { IsCommandWithin line.now }
    ensures line { Gathers (O.state out.old) (O.state out.new) text.old text.new
        (reply_line (reply_of bench.old.device line.now.bytes line.now.room)) result }
    ensures state { bench.new.device ≡ next_state bench.old.device line.now.bytes line.now.room }
{
    let reply = bench.admin(line.bytes.as_slice(), line.room);
    put_reply_line(text, out, reply.as_slice())
}

/// Writes the line of a frame.
fn put_frame<O: Out>(
    bench: &Bench,
    frame: &[u8],
    text: &mut Gathered,
    out: &mut O,
) -> Result<(), Failed>
    ensures { Gathers (O.state out.old) (O.state out.new) text.old text.new
        (frame_line (action_of bench.now.device.objects (headers_of frame.now))) result }
{
    put_frame_line(text, out, bench.frame(frame))
}
