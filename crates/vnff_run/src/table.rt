//! The form `table DEVICE TABLE CAPTURE`: a table on a device, and a line for each frame of a capture.

ghost use Rattle.std.specs.Prelude.{◌≡◌, [], All, IfOk, map};
ghost use Rattle.vnff_base.specs.Gatherings.{Gathers};
ghost use Rattle.vnff_base.specs.Outputs.{Writes};
ghost use Rattle.admin_wire.specs.Layouts.{command_bytes};
ghost use Rattle.admin_wire.specs.Wire.{Reads};
ghost use Rattle.cap_table.specs.States.{start_state};
ghost use Rattle.cap_table.specs.Steps.{next_state, state_after};
ghost use Rattle.cap_table.specs.declared.start.Start.TheVariants as starts;
ghost use Rattle.ntuple_compile.specs.Acceptance.{AreSent, IsWritable};
ghost use Rattle.ntuple_text.specs.TableMaps.{TableMap};
ghost use Rattle.vnff_run.specs.CompileTexts.{reply_room};
ghost use Rattle.vnff_run.specs.Endings.{FormEnds, RunsAs};
ghost use Rattle.vnff_run.specs.Forms.{Table as TableForm};
ghost use Rattle.vnff_run.specs.Outcomes.{done_outcome, outcome_in};
ghost use Rattle.vnff_run.specs.Programs.{IsProgrammable, sent_command};
ghost use Rattle.vnff_run.specs.Tables.{DoesAs, table_line, table_text};

use crate::compiled::{CompiledTable, table_run_in};
use crate::stop::Stop;
use crate::text::put_packet_line;
use admin_dev::Start;
use admin_wire::{Command, put_command};
use cap_table::DeviceCaps;
use capture::Frames;
use std::alloc::{AllocError, Global};
use steer::Bench;
use vnff_base::{Failed, Gathered, Out, Shelf};

/// The room for the reply to a command, in bytes.
const REPLY_ROOM: u32 = 8;

/// Writes what the table in a file does with the frames of the capture in another, on the device in a third.
pub fn classify_by_table<S: Shelf, O: Out>(
    alloc: Global,
    device: &str,
    table: &str,
    capture: &str,
    shelf: &mut S,
    out: &mut O,
) -> Result<(), Stop>
    ensures { FormEnds (S.state shelf.old) (S.state shelf.new) (O.state out.old) (O.state out.new)
        (outcome_in (TableForm device.now table.now capture.now)) result }
{
    let (compiled, frames) = table_run_in(alloc, device, table, capture, shelf)?;
    classify_all(alloc, compiled, &frames, out)
}

/// Writes what a table does with frames, on a device of its own.
fn classify_all<O: Out>(
    alloc: Global,
    compiled: CompiledTable,
    frames: &Frames,
    out: &mut O,
) -> Result<(), Stop>
    ghost table: { TableMap }
    requires programmable { IsProgrammable compiled }
    requires table { compiled.table ≡ table }
    ensures { RunsAs (O.state out.old) (O.state out.new) (done_outcome (table_text table frames.now)) result }
{
    let CompiledTable { caps, commands, .. } = compiled;
    let bench = bench_with_commands(alloc, caps, commands.as_slice())?;
    put_lines(alloc, &bench, frames, out)
}

/// A device that was sent the commands.
pub(crate) fn bench_with_commands(
    alloc: Global,
    caps: DeviceCaps,
    commands: &[Command],
) -> Result<Bench, AllocError>
    requires { All IsWritable commands.now }
    ensures state { IfOk result (λ bench.
        bench.device ≡ state_after (start_state caps starts.Ready) (map sent_command commands.now)) }
    ensures sent { IfOk result (λ _. AreSent commands.now (map sent_command commands.now)) }
{
    let mut bench = Bench::new(alloc, caps, Start::Ready)?;
    send_all(&mut bench, commands);
    Ok(bench)
}

/// Sends commands to a device, in order.
fn send_all(bench: &mut Bench, commands: &[Command])
    requires { All IsWritable commands.now }
    ensures state { bench.new.device ≡ state_after bench.old.device (map sent_command commands.now) }
    ensures sent { AreSent commands.now (map sent_command commands.now) }
{
    for command in commands {
        send(bench, command);
    }
}

/// Sends a command to a device. A ready device obeys each command of a table that is compiled for it, so the reply says
/// nothing new.
fn send(bench: &mut Bench, command: &Command)
    requires { IsWritable command.now }
    ensures state { bench.new.device ≡ next_state bench.old.device (command_bytes command.now) reply_room }
    ensures sent { Reads (command_bytes command.now) command.now }
{
    let bytes = put_command(command);
    let _reply = bench.admin(bytes.as_slice(), REPLY_ROOM);
}

/// Writes what a device does with frames, gathered.
fn put_lines<O: Out>(alloc: Global, bench: &Bench, frames: &Frames, out: &mut O) -> Result<(), Stop>
    ghost table: { TableMap }
    requires { DoesAs bench.now.device.objects table }
    ensures { RunsAs (O.state out.old) (O.state out.new) (done_outcome (table_text table frames.now)) result }
{
    let mut text = Gathered::new(alloc)?;
    Ok(put_text(bench, frames, &mut text, out)?)
}

/// Writes the whole text of the frames' lines.
fn put_text<O: Out>(
    bench: &Bench,
    frames: &Frames,
    text: &mut Gathered,
    out: &mut O,
) -> Result<(), Failed>
    ghost table: { TableMap }
    requires none { text.old ≡ [] }
    requires as_table { DoesAs bench.now.device.objects table }
    ensures { Writes (O.state out.old) (O.state out.new) (table_text table frames.now) result }
{
    put_packets(bench, frames, text, out)?;
    text.finish(out)
}

/// Writes a line for each frame.
fn put_packets<O: Out>(
    bench: &Bench,
    frames: &Frames,
    text: &mut Gathered,
    out: &mut O,
) -> Result<(), Failed>
    ghost table: { TableMap }
    requires { DoesAs bench.now.device.objects table }
    ensures { Gathers (O.state out.old) (O.state out.new) text.old text.new (table_text table frames.now) result }
{
    for place in 0..frames.len() {
        if let Some(frame) = frames.at(place) {
            put_packet(bench, place, frame, text, out)?;
        }
    }
    Ok(())
}

/// Writes the line of a frame.
fn put_packet<O: Out>(
    bench: &Bench,
    place: usize,
    frame: &[u8],
    text: &mut Gathered,
    out: &mut O,
) -> Result<(), Failed>
    ghost table: { TableMap }
    requires { DoesAs bench.now.device.objects table }
    ensures { Gathers (O.state out.old) (O.state out.new) text.old text.new
        (table_line table (place, frame.now)) result }
{
    put_packet_line(text, out, place, bench.frame(frame))
}
