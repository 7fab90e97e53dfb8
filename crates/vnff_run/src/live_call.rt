//! The form `live WORKERS FIRST SCRIPT CAPTURE`: commands change the rules while workers classify frames, and then a
//! line for each reply and for each frame.

ghost use Rattle.std.specs.Prelude.{◌≤◌, Ok, length};
ghost use Rattle.vnff_base.specs.Shelves.{file_limit};
ghost use Rattle.vnff_run.specs.LiveWords.{live_view, most_workers};
ghost use Rattle.vnff_run.specs.PlanEndings.{EndsAs, LiveEnds, PlanEnds};
ghost use Rattle.vnff_run.specs.Plans.{live_plan, plan_in};

use crate::ending::{FAULTY_WORDS, exit_status};
use crate::live_run::{LiveRun, live_in};
use crate::live_text::put_run;
use crate::live_words::LiveForm;
use crate::stop::Stop;
use std::alloc::Global;
use std::sync::Wait;
use std::thread::Threads;
use steer::{Gate, LiveResult, live};
use vnff_base::{Out, Shelf};

/// Runs the commands of a script beside workers that classify the frames of a capture, and gives the exit status. It
/// may wait.
pub(crate) fn run_live<R: Threads + Wait + Sync, S: Shelf, O: Out, G: Gate>(
    rt: &R,
    alloc: Global,
    form: LiveForm<'_>,
    shelf: &mut S,
    out: &mut O,
    gate: &G,
) -> u8
    requires some { 1 ≤ form.workers }
    requires few { form.workers ≤ most_workers }
    ensures { EndsAs ⊥ ⊥ (S.state shelf.old) (S.state shelf.new) (O.state out.old) (O.state out.new)
        (plan_in (live_view form.entry)) result }
{
    match live_in(alloc, form, shelf) {
        Ok(run) => run_checked(rt, alloc, run, out, gate),
        Err(stop) => exit_status(Err(stop), out),
    }
}

/// Carries a run out unless more commands are to come first than there are, and gives the exit status.
fn run_checked<R: Threads + Wait + Sync, O: Out, G: Gate>(
    rt: &R,
    alloc: Global,
    run: LiveRun,
    out: &mut O,
    gate: &G,
) -> u8
    requires some { 1 ≤ run.workers }
    requires few { run.workers ≤ most_workers }
    requires commands { length run.commands ≤ file_limit }
    ensures { PlanEnds (O.state out.old) (O.state out.new) (live_plan (Ok run)) result }
{
    if run.commands.len() < run.first as usize {
        return FAULTY_WORDS;
    }
    exit_status(carry_out(rt, alloc, run, out, gate), out)
}

/// Carries a run out, and writes its text.
fn carry_out<R: Threads + Wait + Sync, O: Out, G: Gate>(
    rt: &R,
    alloc: Global,
    run: LiveRun,
    out: &mut O,
    gate: &G,
) -> Result<(), Stop>
    requires some { 1 ≤ run.workers }
    requires few { run.workers ≤ most_workers }
    requires commands { length run.commands ≤ file_limit }
    requires first { run.first ≤ length run.commands }
    ensures { LiveEnds (O.state out.old) (O.state out.new) run result }
{
    let LiveRun {
        caps,
        start,
        commands,
        frames,
        workers,
        first,
    } = run;
    let LiveResult {
        replies,
        closed,
        workers: readers,
    } = live(
        rt, alloc, caps, start, &commands, &frames, workers, first, gate,
    )?;
    closed.end(rt);
    put_run(alloc, &replies, &readers, frames.len(), out)
}
