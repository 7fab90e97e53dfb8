//! What a live run is over, read from its files.

ghost use Rattle.std.specs.Prelude.{◌≡◌, ◌≤◌, [], ◌∷◌, ◌++◌, All, length, IfOk, OnOk};
ghost use Rattle.vnff_base.specs.Shelves.{file_limit};
ghost use Rattle.vnff_run.specs.Endings.{Judges, ReadsInput};
ghost use Rattle.vnff_run.specs.ItemLines.{IsCommandWithin, IsItemWithin};
ghost use Rattle.vnff_run.specs.LiveRuns.{commands_in, live_in, live_run};
ghost use Rattle.vnff_run.specs.LiveWords.{live_view};

use crate::file::{frames_in, script_in};
use crate::live_words::LiveForm;
use crate::script::{Item, Kept, Script};
use crate::stop::Stop;
use admin_dev::Start;
use cap_table::DeviceCaps;
use capture::Frames;
use std::alloc::{AllocError, Global};
use steer::AdminLine;
use vnff_base::{List, Shelf};

/// A device with its start, the commands that are sent to it, the frames that workers classify meanwhile, how many
/// workers there are, and how many commands are carried out before any frame.
#[derive(Debug, Drop)]
pub struct LiveRun {
    pub caps: DeviceCaps,
    pub start: Start,
    pub commands: List<AdminLine>,
    pub frames: Frames,
    pub workers: u8,
    pub first: u32,
}

/// The run of the commands in a script's file and the frames of the capture in another.
pub(crate) fn live_in<S: Shelf>(
    alloc: Global,
    form: LiveForm<'_>,
    shelf: &mut S,
) -> Result<LiveRun, Stop>
    ensures read { ReadsInput (S.state shelf.old) (S.state shelf.new) (live_in (live_view form.entry)) result }
    ensures within { IfOk result (λ run. All IsCommandWithin run.commands) }
    ensures few { IfOk result (λ run. length run.commands ≤ file_limit) }
    ensures workers { IfOk result (λ run. run.workers ≡ form.entry.workers) }
{
    let script = script_in(alloc, Kept::Commands, form.script, shelf)?;
    let frames = frames_in(alloc, form.capture, shelf)?;
    run_over(alloc, form, script, frames)
}

/// The run of a script's commands, over frames.
fn run_over(
    alloc: Global,
    form: LiveForm<'_>,
    script: Script,
    frames: Frames,
) -> Result<LiveRun, Stop>
    requires { All IsItemWithin script.items }
    ensures run { Judges (Ok (live_run (live_view form.entry) script frames)) result }
    ensures within { IfOk result (λ run. All IsCommandWithin run.commands) }
    ensures few { IfOk result (λ run. length run.commands ≤ length script.items) }
    ensures workers { IfOk result (λ run. run.workers ≡ form.entry.workers) }
{
    let Script { caps, start, items } = script;
    let commands = commands_in(alloc, items)?;
    Ok(LiveRun {
        caps,
        start,
        commands,
        frames,
        workers: form.workers,
        first: form.first,
    })
}

/// The commands among items, in order.
fn commands_in(alloc: Global, items: List<Item>) -> Result<List<AdminLine>, AllocError>
    requires { All IsItemWithin items }
    ensures commands { IfOk result (λ commands. commands ≡ commands_in items) }
    ensures within { IfOk result (λ commands. All IsCommandWithin commands) }
    ensures few { IfOk result (λ commands. length commands ≤ length items) }
{
    let mut commands = List::new(alloc);
    for item in items.into_vec() {
        keep_command(&mut commands, item)?;
    }
    Ok(commands)
}

/// Keeps an item that is a command.
fn keep_command(commands: &mut List<AdminLine>, item: Item) -> Result<(), AllocError>
    ensures { OnOk result (commands.new ≡ commands.old ++ commands_in (item ∷ [])) }
{
    match item {
        Item::Admin(line) => commands.push(line),
        Item::Frame(_) => Ok(()),
    }
}
