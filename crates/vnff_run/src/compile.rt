//! The form `compile DEVICE TABLE`: the script that a table is compiled to.

ghost use Rattle.vnff_run.specs.Endings.{FormEnds, RunsAs};
ghost use Rattle.vnff_run.specs.CompileTexts.{compile_text};
ghost use Rattle.vnff_run.specs.Forms.{Compile};
ghost use Rattle.vnff_run.specs.Outcomes.{done_outcome, outcome_in};
ghost use Rattle.vnff_run.specs.Programs.{IsProgrammable};

use crate::compile_text::put_script;
use crate::compiled::{CompiledTable, compiled_in};
use crate::stop::Stop;
use std::alloc::Global;
use vnff_base::{Out, Shelf};

/// Writes the script that the table in a file is compiled to, for the device in another.
pub fn compile_table<S: Shelf, O: Out>(
    alloc: Global,
    device: &str,
    table: &str,
    shelf: &mut S,
    out: &mut O,
) -> Result<(), Stop>
    ensures { FormEnds (S.state shelf.old) (S.state shelf.new) (O.state out.old) (O.state out.new)
        (outcome_in (Compile device.now table.now)) result }
{
    let compiled = compiled_in(alloc, device, table, shelf)?;
    put_compiled(&compiled, out)
}

/// Writes the script of a compiled table.
fn put_compiled<O: Out>(compiled: &CompiledTable, out: &mut O) -> Result<(), Stop>
    requires { IsProgrammable compiled.now }
    ensures { RunsAs (O.state out.old) (O.state out.new) (done_outcome (compile_text compiled.now)) result }
{
    Ok(put_script(out, compiled)?)
}
