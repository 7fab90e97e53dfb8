//! The form `gen SEED N`: how often each action happens to the frames of a seed, by the table of this seed, on a device
//! of its own. The frames are made one at a time.

ghost use Rattle.std.specs.Prelude.{◌≡◌, [], IfOk};
ghost use Rattle.vnff_base.specs.Outputs.{Writes};
ghost use Rattle.ff_headers.specs.Frames.{headers_of};
ghost use Rattle.generated_load.specs.Counts.{counts_of};
ghost use Rattle.generated_load.specs.DrawnFrames.{drawn_frame, drawn_frames};
ghost use Rattle.generated_load.specs.DrawnTables.{drawn_specs, drawn_table};
ghost use Rattle.generated_load.specs.Draws.{each_drawn};
ghost use Rattle.ntuple_compile.specs.SpecFits.{table_action};
ghost use Rattle.ntuple_text.specs.TableMaps.{TableMap};
ghost use Rattle.vnff_run.specs.Endings.{RunsAs};
ghost use Rattle.vnff_run.specs.Loads.{actions_by, gen_text, summary_text};
ghost use Rattle.vnff_run.specs.Outcomes.{done_outcome};
ghost use Rattle.vnff_run.specs.Programs.{IsProgrammable, StopsForMemory};
ghost use Rattle.vnff_run.specs.Tables.{DoesAs};

use crate::compiled::{CompiledTable, compiled_for};
use crate::load_text::put_summary;
use crate::stop::Stop;
use crate::table::bench_with_commands;
use ff_headers::Action;
use generated_load::{ActionCounts, drawn_frame, drawn_table, load_caps};
use std::alloc::Global;
use steer::Bench;
use vnff_base::{Failed, Gathered, Out};

/// Writes how often each action happens to the first frames of a seed.
pub fn sum_up_load<O: Out>(alloc: Global, seed: u64, frames: u32, out: &mut O) -> Result<(), Stop>
    ensures { RunsAs (O.state out.old) (O.state out.new) (done_outcome (gen_text seed frames)) result }
{
    let counts = load_counts(alloc, seed, frames)?;
    put_counts(alloc, frames, &counts, out)
}

/// Writes the counts of so many frames, gathered.
fn put_counts<O: Out>(
    alloc: Global,
    frames: u32,
    counts: &ActionCounts,
    out: &mut O,
) -> Result<(), Stop>
    ensures { RunsAs (O.state out.old) (O.state out.new) (done_outcome (summary_text frames counts.now)) result }
{
    let mut text = Gathered::new(alloc)?;
    Ok(put_text(frames, counts, &mut text, out)?)
}

/// Writes the whole text of the counts.
fn put_text<O: Out>(
    frames: u32,
    counts: &ActionCounts,
    text: &mut Gathered,
    out: &mut O,
) -> Result<(), Failed>
    requires { text.old ≡ [] }
    ensures { Writes (O.state out.old) (O.state out.new) (summary_text frames counts.now) result }
{
    put_summary(text, out, frames, counts)?;
    text.finish(out)
}

/// How often each action happens to the first frames of a seed.
fn load_counts(alloc: Global, seed: u64, frames: u32) -> Result<ActionCounts, Stop>
    ghost table: { TableMap }
    requires { table ≡ drawn_table seed }
    ensures counts { IfOk result (λ counts. counts ≡ counts_of (actions_by table (drawn_frames seed frames))) }
    ensures memory { StopsForMemory result }
{
    let (x, load) = compiled_load(alloc, seed)?;
    let CompiledTable { caps, commands, .. } = load;
    let bench = bench_with_commands(alloc, caps, commands.as_slice())?;
    Ok(count_actions(&bench, x, frames))
}

/// The table of a seed with its commands, and the state after it. The device has room for the table, so nothing but
/// memory can be missing.
fn compiled_load(alloc: Global, seed: u64) -> Result<(u64, CompiledTable), Stop>
    ensures state { IfOk result (λ load. load.0 ≡ (drawn_specs seed).0) }
    ensures table { IfOk result (λ load. load.1.table ≡ drawn_table seed) }
    ensures programmable { IfOk result (λ load. IsProgrammable load.1) }
    ensures memory { StopsForMemory result }
{
    let (x, table) = drawn_table(alloc, seed)?;
    let load = compiled_for(alloc, load_caps(), table)?;
    Ok((x, load))
}

/// How often each action happens to so many frames from a state on.
fn count_actions(bench: &Bench, x: u64, frames: u32) -> ActionCounts
    ghost table: { TableMap }
    requires { DoesAs bench.now.device.objects table }
    ensures { result ≡ counts_of (actions_by table (each_drawn (λ _. drawn_frame) frames x).1) }
{
    let mut counts = ActionCounts::new();
    let mut state = x;
    for _ in 0..frames {
        let (next, frame) = drawn_frame(state);
        counts.add(frame_action(bench, &frame));
        state = next;
    }
    counts
}

/// What a device does with a frame.
fn frame_action(bench: &Bench, frame: &[u8]) -> Action
    ghost table: { TableMap }
    requires { DoesAs bench.now.device.objects table }
    ensures { result ≡ table_action table (headers_of frame.now) }
{
    bench.frame(frame)
}
