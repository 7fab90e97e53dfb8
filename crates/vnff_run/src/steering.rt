//! The form `steer SCRIPT CAPTURE`: the frames of a capture, each to the sink of its queue, and how many came to each.

ghost use Rattle.std.specs.Prelude.{◌≡◌, ◌≤◌, ◌∷◌, [], All, length, IfOk};
ghost use Rattle.cap_table.specs.States.{start_state};
ghost use Rattle.cap_table.specs.Steps.{next_state};
ghost use Rattle.cap_table.specs.Caps.{most_pairs};
ghost use Rattle.capture.specs.Sizes.{longest_frame};
ghost use Rattle.vnff_run.specs.Deliveries.{SteerRuns, SteersSinks, steering_on};
ghost use Rattle.vnff_run.specs.Endings.{ReadsInput};
ghost use Rattle.vnff_run.specs.Forms.{Steer};
ghost use Rattle.vnff_run.specs.ItemLines.{IsCommandWithin, IsItemWithin};
ghost use Rattle.vnff_run.specs.Outcomes.{done_outcome};
ghost use Rattle.vnff_run.specs.Replay.{state_after_items};
ghost use Rattle.vnff_run.specs.SteerEndings.{FormDoes, kept_input_in};
ghost use Rattle.vnff_run.specs.Steering.{steer_text, steering_for};

use crate::delivery::deliver_and_finish;
use crate::file::{frames_in, script_in};
use crate::script::{Item, Kept, Script};
use crate::stop::Stop;
use capture::Frames;
use rx_sinks::{Rack, SinkList};
use std::alloc::{AllocError, Global};
use steer::{AdminLine, Bench};
use vnff_base::{Gathered, Out, Shelf};

/// Carries out the commands of the script in a file, hands the frames of the capture in another to the sinks of their
/// queues, finishes the sinks of the device's queue pairs, and writes how many frames went where.
pub fn steer_frames<S: Shelf, O: Out>(
    alloc: Global,
    script: &str,
    capture: &str,
    shelf: &mut S,
    out: &mut O,
    rack: &mut Rack,
) -> Result<(), Stop>
    requires { length (⟦<Rack as SinkList>⟧.sinks rack.old) ≡ most_pairs }
    ensures { FormDoes (Steer script.now capture.now)
        (S.state shelf.old) (S.state shelf.new) (O.state out.old) (O.state out.new)
        (⟦<Rack as SinkList>⟧.sinks rack.old) (⟦<Rack as SinkList>⟧.sinks rack.new) result }
{
    let (script, frames) = steer_input_in(alloc, script, capture, shelf)?;
    steer_script(alloc, script, &frames, out, rack)
}

/// The commands of the script in a file, and the frames of the capture in another.
fn steer_input_in<S: Shelf>(
    alloc: Global,
    script: &str,
    capture: &str,
    shelf: &mut S,
) -> Result<(Script, Frames), Stop>
    ensures read { ReadsInput (S.state shelf.old) (S.state shelf.new)
        (kept_input_in script.now capture.now) result }
    ensures items { IfOk result (λ input. All IsItemWithin input.0.items) }
    ensures short { IfOk result (λ input. All (λ frame. length frame ≤ longest_frame) input.1) }
{
    let script = script_in(alloc, Kept::Commands, script, shelf)?;
    let frames = frames_in(alloc, capture, shelf)?;
    Ok((script, frames))
}

/// Hands frames to the sinks of their queues, behind the commands of a script, and writes how many went where. All the
/// memory is taken before the first frame.
fn steer_script<O: Out>(
    alloc: Global,
    script: Script,
    frames: &Frames,
    out: &mut O,
    rack: &mut Rack,
) -> Result<(), Stop>
    requires items { All IsItemWithin script.items }
    requires short { All (λ frame. length frame ≤ longest_frame) frames.now }
    requires sinks { length (⟦<Rack as SinkList>⟧.sinks rack.old) ≡ most_pairs }
    ensures runs { SteerRuns (O.state out.old) (O.state out.new)
        (done_outcome (steer_text (steering_for (script, frames.now)))) result }
    ensures sinks { SteersSinks (steering_for (script, frames.now))
        (⟦<Rack as SinkList>⟧.sinks rack.old) (⟦<Rack as SinkList>⟧.sinks rack.new) result }
{
    let pairs = script.caps.pairs();
    let mut text = Gathered::new(alloc)?;
    let bench = bench_behind_script(alloc, script)?;
    hand_on(&bench, pairs, frames, &mut text, out, rack)
}

/// A device of its own behind the commands of a script.
fn bench_behind_script(alloc: Global, script: Script) -> Result<Bench, AllocError>
    requires { All IsItemWithin script.items }
    ensures { IfOk result (λ bench.
        bench.device ≡ state_after_items (start_state script.caps script.start) script.items) }
{
    let Script { caps, start, items } = script;
    let mut bench = Bench::new(alloc, caps, start)?;
    send_commands(&mut bench, items.as_slice());
    Ok(bench)
}

/// Hands frames to the sinks of their queues, by a device as it stands, and writes how many went where.
fn hand_on<O: Out>(
    bench: &Bench,
    pairs: u8,
    frames: &Frames,
    text: &mut Gathered,
    out: &mut O,
    rack: &mut Rack,
) -> Result<(), Stop>
    requires pairs { bench.now.device.caps.pairs ≡ pairs }
    requires some { 1 ≤ pairs }
    requires few { pairs ≤ most_pairs }
    requires short { All (λ frame. length frame ≤ longest_frame) frames.now }
    requires none { text.old ≡ [] }
    requires sinks { length (⟦<Rack as SinkList>⟧.sinks rack.old) ≡ most_pairs }
    ensures runs { SteerRuns (O.state out.old) (O.state out.new)
        (done_outcome (steer_text (steering_on bench.now.device frames.now))) result }
    ensures sinks { SteersSinks (steering_on bench.now.device frames.now)
        (⟦<Rack as SinkList>⟧.sinks rack.old) (⟦<Rack as SinkList>⟧.sinks rack.new) result }
{
    match deliver_and_finish(bench, pairs, frames, rack) {
        Ok(tally) => Ok(tally.put_text(pairs, text, out)?),
        Err(_) => Err(Stop::SinkFault),
    }
}

/// Sends the commands among some items to a device, in order. The replies are not asked for.
fn send_commands(bench: &mut Bench, items: &[Item])
    requires { All IsItemWithin items.now }
    ensures { bench.new.device ≡ state_after_items bench.old.device items.now }
{
    for item in items {
        send_command(bench, item);
    }
}

/// Does what an item asks of a device: a command is sent, and a frame is skipped.
fn send_command(bench: &mut Bench, item: &Item)
    requires { IsItemWithin item.now }
    ensures { bench.new.device ≡ state_after_items bench.old.device (item.now ∷ []) }
{
    match item {
        Item::Admin(line) => send(bench, line),
        Item::Frame(_) => {}
    }
}

/// Sends a command to a device.
fn send(bench: &mut Bench, line: &AdminLine)
    requires { IsCommandWithin line.now }
    ensures { bench.new.device ≡ next_state bench.old.device line.now.bytes line.now.room }
{
    let _reply = bench.admin(line.bytes.as_slice(), line.room);
}
