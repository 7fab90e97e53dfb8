//! Tables that are compiled for a device, read from the files of both.

ghost use Rattle.std.specs.Prelude.{◌≡◌, ◌≤◌, length, IfOk};
ghost use Rattle.vnff_base.specs.Lines.{word_lines};
ghost use Rattle.ntuple_compile.specs.Compiled.{compiled};
ghost use Rattle.ntuple_text.specs.TableLines.{table_of};
ghost use Rattle.vnff_base.specs.Shelves.{file_limit};
ghost use Rattle.cap_table.specs.Caps.{most_pairs};
ghost use Rattle.vnff_run.specs.DeviceFiles.{device_file_of};
ghost use Rattle.vnff_run.specs.Endings.{Judges, ReadsInput};
ghost use Rattle.vnff_run.specs.TableInputs.{caps_in, caps_or_refusal, compiled_for, compiled_in};
ghost use Rattle.vnff_run.specs.TableInputs.{table_in, table_or_refusal, table_run_in};
ghost use Rattle.vnff_run.specs.Programs.{IsProgrammable, compile_stop, device_stop, table_stop};

use crate::error::ScriptFault;
use crate::file::{file_bytes, frames_in};
use crate::grammar::read_device_file;
use crate::script::Script;
use crate::stop::{FileKind, RefusedInput, Stop};
use crate::table_refusal::{TableLimit, TableReason};
use admin_wire::Command;
use cap_table::DeviceCaps;
use capture::Frames;
use ntuple_compile::{CompileErr, compile};
use ntuple_text::{Table, TextErr, read_table};
use std::alloc::Global;
use vnff_base::{List, Shelf};

/// A table with the commands that it is compiled to, for a device with these capabilities.
#[derive(Debug, Drop)]
pub struct CompiledTable {
    pub caps: DeviceCaps,
    pub table: Table,
    pub commands: List<Command>,
}

/// The table in a file, compiled for the device in another.
pub(crate) fn compiled_in<S: Shelf>(
    alloc: Global,
    device: &str,
    table: &str,
    shelf: &mut S,
) -> Result<CompiledTable, Stop>
    ensures read { ReadsInput (S.state shelf.old) (S.state shelf.new) (compiled_in device.now table.now) result }
    ensures same_files { (S.state shelf.new).files ≡ (S.state shelf.old).files }
    ensures programmable { IfOk result IsProgrammable }
{
    let caps = caps_in(alloc, device, shelf)?;
    let table = table_in(alloc, caps.pairs(), table, shelf)?;
    compiled_for(alloc, caps, table)
}

/// The table in a file, compiled for the device in another, and the frames of the capture in a third.
pub(crate) fn table_run_in<S: Shelf>(
    alloc: Global,
    device: &str,
    table: &str,
    capture: &str,
    shelf: &mut S,
) -> Result<(CompiledTable, Frames), Stop>
    ensures read { ReadsInput (S.state shelf.old) (S.state shelf.new)
        (table_run_in device.now table.now capture.now) result }
    ensures programmable { IfOk result (λ run. IsProgrammable run.0) }
{
    let compiled = compiled_in(alloc, device, table, shelf)?;
    let frames = frames_in(alloc, capture, shelf)?;
    Ok((compiled, frames))
}

/// What the device in a file offers.
fn caps_in<S: Shelf>(alloc: Global, name: &str, shelf: &mut S) -> Result<DeviceCaps, Stop>
    ensures read { ReadsInput (S.state shelf.old) (S.state shelf.new) (caps_in name.now) result }
    ensures same_files { (S.state shelf.new).files ≡ (S.state shelf.old).files }
{
    let bytes = file_bytes(alloc, FileKind::Device, name, shelf)?;
    caps_of(alloc, bytes.as_slice())
}

/// What the device offers that these bytes spell.
fn caps_of(alloc: Global, bytes: &[u8]) -> Result<DeviceCaps, Stop>
    requires { length bytes.now ≤ file_limit }
    ensures { Judges (caps_or_refusal (device_file_of bytes.now)) result }
{
    let script = match read_device_file(alloc, bytes) {
        Ok(script) => script,
        Err(fault) => return Err(device_stop(fault)),
    };
    let Script { caps, .. } = script;
    Ok(caps)
}

/// What a fault of a device's file ends a form with.
fn device_stop(fault: ScriptFault) -> Stop
    ensures { result ≡ device_stop fault }
{
    match fault {
        ScriptFault::Bad(line, reason) => Stop::Refused(RefusedInput::BadDevice(line, reason)),
        ScriptFault::Memory => Stop::Memory,
    }
}

/// The table in a file, for so many queue pairs.
fn table_in<S: Shelf>(alloc: Global, pairs: u8, name: &str, shelf: &mut S) -> Result<Table, Stop>
    requires some_pairs { 1 ≤ pairs }
    requires most_pairs { pairs ≤ most_pairs }
    ensures read { ReadsInput (S.state shelf.old) (S.state shelf.new) (table_in pairs name.now) result }
    ensures same_files { (S.state shelf.new).files ≡ (S.state shelf.old).files }
    ensures pairs { IfOk result (λ table. table.pairs ≡ pairs) }
{
    let bytes = file_bytes(alloc, FileKind::Table, name, shelf)?;
    table_of(alloc, bytes.as_slice(), pairs)
}

/// The table that these bytes spell.
fn table_of(alloc: Global, bytes: &[u8], pairs: u8) -> Result<Table, Stop>
    requires short { length bytes.now ≤ file_limit }
    requires some_pairs { 1 ≤ pairs }
    requires most_pairs { pairs ≤ most_pairs }
    ensures judged { Judges (table_or_refusal (table_of pairs (word_lines bytes.now))) result }
    ensures pairs { IfOk result (λ table. table.pairs ≡ pairs) }
{
    match read_table(alloc, bytes, pairs) {
        Ok(table) => Ok(table),
        Err(err) => Err(table_stop(err)),
    }
}

/// The table with its commands.
#[tactic(auto, unfolding(crate::specs::TableInputs::compiled_for))]
pub(crate) fn compiled_for(
    alloc: Global,
    caps: DeviceCaps,
    table: Table,
) -> Result<CompiledTable, Stop>
    requires { table.pairs ≡ caps.pairs }
    ensures judged { Judges (compiled_for caps table) result }
    ensures programmable { IfOk result IsProgrammable }
{
    match compile(alloc, &table, &caps) {
        Ok(commands) => Ok(CompiledTable {
            caps,
            table,
            commands,
        }),
        Err(err) => Err(compile_stop(err)),
    }
}

/// What a fault of a table's text ends a form with.
fn table_stop(err: TextErr) -> Stop
    ensures { result ≡ table_stop err }
{
    let (line, reason) = match err {
        TextErr::Word(line) => (line, TableReason::Word),
        TextErr::NotInFlow(line) => (line, TableReason::NotInFlow),
        TextErr::Twice(line) => (line, TableReason::Twice),
        TextErr::Octal(line) => (line, TableReason::Octal),
        TextErr::Number(line) => (line, TableReason::Number),
        TextErr::Address(line) => (line, TableReason::Address),
        TextErr::Queue(line) => (line, TableReason::Queue),
        TextErr::Loc(line) => (line, TableReason::Loc),
        TextErr::NoSuchLoc(line) => (line, TableReason::NoSuchLoc),
        TextErr::NoAction(line) => (line, TableReason::NoAction),
        TextErr::TableFull(line) => (line, TableReason::Full),
        TextErr::Memory => return Stop::Memory,
    };
    Stop::Refused(RefusedInput::BadTable(line, reason))
}

/// What a form ends with whose table can't be compiled.
fn compile_stop(err: CompileErr) -> Stop
    ensures { result ≡ compile_stop err }
{
    Stop::Refused(match err {
        CompileErr::Unsupported(loc, kind) => RefusedInput::Unsupported(loc, kind),
        CompileErr::Rules(count) => RefusedInput::PastLimit(TableLimit::Rules, count),
        CompileErr::Classifiers(count) => RefusedInput::PastLimit(TableLimit::Classifiers, count),
        CompileErr::Levels(count) => RefusedInput::PastLimit(TableLimit::Levels, count),
        CompileErr::PerGroup(count) => RefusedInput::PastLimit(TableLimit::PerGroup, count),
        CompileErr::Memory => return Stop::Memory,
    })
}
