//! A table's commands.

ghost use Rattle.std.specs.Prelude.{◌≡◌, ◌≤◌, Ok, IfOk, OnOk, All, MatchResult, vec_len};
ghost use Rattle.ntuple_text.specs.Spellable.{IsTable};
ghost use Rattle.ntuple_text.specs.TableMaps.{location_count};
ghost use Rattle.ntuple_compile.specs.Acceptance.{ActAs, AreAccepted, IsWritable};
ghost use Rattle.ntuple_compile.specs.Compiled.{IsCompileFault, compiled};
ghost use Rattle.ntuple_compile.specs.Selected.{AreGiven};
ghost use Rattle.ntuple_compile.specs.SpecFits.{specs_of};

use crate::commands::commands_for;
use crate::error::CompileErr;
use crate::refusals::{count_fault, specs_fault};
use crate::shapes::Shapes;
use admin_wire::Command;
use cap_table::DeviceCaps;
use ntuple_text::{Spec, Table};
use std::alloc::{AllocError, Global};
use vnff_base::List;

/// The commands that create the groups, classifiers and rules which stand for a table, or the first reason why there
/// are none for this device. The table is for the device's queue pairs.
///
/// All groups that have a rule come first, then all classifiers, then all rules, each by rising id from 0. The specs,
/// by rising location, fill the groups one after another. Takes memory for at most 1,024 specs and their commands.
pub fn compile(alloc: Global, table: &Table, caps: &DeviceCaps) -> Result<List<Command>, CompileErr>
    requires { table.now.pairs ≡ caps.now.pairs }
    ensures value { MatchResult result (λ commands. compiled table.now caps.now ≡ Ok commands)
        (IsCompileFault (compiled table.now caps.now)) }

    // Each command has bytes, no more than this project's driver writes.
    ensures writable { IfOk result (All IsWritable) }

    // A device with these capabilities that starts ready answers each of them with OK, whatever bytes lay them out.
    ensures accepted { IfOk result (AreAccepted caps.now) }

    // After them the device does with every frame what the table does.
    ensures acts { IfOk result (λ commands. ActAs caps.now commands table.now) }
{
    let specs = specs_of(alloc, table)?;
    if let Some(fault) = specs_fault(caps, &specs) {
        return Err(fault);
    }
    let shapes = Shapes::of(alloc, &specs)?;
    let limits = caps.limits();
    if let Some(fault) = count_fault(limits, specs.len() as u32, shapes.firsts().len() as u32) {
        return Err(fault);
    }
    let commands = commands_for(alloc, limits, &specs, &shapes)?;
    Ok(commands)
}

/// The specs of a table by rising location.
fn specs_of(alloc: Global, table: &Table) -> Result<Vec<Spec>, AllocError>
    ensures value { IfOk result (λ specs. specs.items ≡ specs_of table.now) }
    ensures given { IfOk result (λ specs. All AreGiven specs.items) }
    ensures few { IfOk result (λ specs. vec_len specs ≤ location_count) }
    ensures table { OnOk result (IsTable table.now.pairs table.now.slots) }
{
    let mut specs = Vec::with_capacity(alloc, table.len())?;
    for slot in table.slots() {
        if let Some(spec) = slot {
            specs.push(*spec)?;
        }
    }
    Ok(specs)
}
