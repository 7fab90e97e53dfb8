//! Files, read from a shelf to their ends, and what they hold.

ghost use Rattle.std.specs.Prelude.{◌≡◌, ◌≤◌, All, length, IfOk};
ghost use Rattle.vnff_base.specs.Shelves.{file_limit};
ghost use Rattle.capture.specs.Sizes.{longest_frame};
ghost use Rattle.vnff_run.specs.Endings.{ReadsInput, kept_script_in};
ghost use Rattle.vnff_run.specs.Inputs.{file_bytes};
ghost use Rattle.vnff_run.specs.ItemLines.{IsItemWithin};
ghost use Rattle.vnff_run.specs.Programs.{capture_stop};
ghost use Rattle.vnff_run.specs.TableInputs.{frames_in};

use crate::grammar::read_kept;
use crate::script::{Kept, Script};
use crate::stop::{FileKind, RefusedInput, Stop};
use capture::{CaptureReadErr, Frames, read_capture};
use std::alloc::Global;
use vnff_base::{FILE_LIMIT, List, ReadErr, Shelf, read_all};

/// The bytes of a file that is to be one of this kind.
pub(crate) fn file_bytes<S: Shelf>(
    alloc: Global,
    kind: FileKind,
    name: &str,
    shelf: &mut S,
) -> Result<List<u8>, Stop>
    ensures read { ReadsInput (S.state shelf.old) (S.state shelf.new) (file_bytes kind name.now) result }
    ensures within { IfOk result (λ bytes. length bytes ≤ file_limit) }
    ensures same_files { (S.state shelf.new).files ≡ (S.state shelf.old).files }
{
    match read_all(alloc, shelf, name, FILE_LIMIT) {
        Ok(bytes) => Ok(List::from(bytes)),
        Err(ReadErr::ReadFault) => Err(Stop::ReadFault),
        Err(ReadErr::TooLong) => Err(Stop::Refused(RefusedInput::TooLong(kind))),
        Err(ReadErr::Memory) => Err(Stop::Memory),
    }
}

/// The script in a file, with those of its items that are kept.
pub(crate) fn script_in<S: Shelf>(
    alloc: Global,
    kept: Kept,
    name: &str,
    shelf: &mut S,
) -> Result<Script, Stop>
    ensures read { ReadsInput (S.state shelf.old) (S.state shelf.new) (kept_script_in kept name.now) result }
    ensures items { IfOk result (λ script. All IsItemWithin script.items) }
    ensures few { IfOk result (λ script. length script.items ≤ file_limit) }
    ensures same_files { (S.state shelf.new).files ≡ (S.state shelf.old).files }
{
    let bytes = file_bytes(alloc, FileKind::Script, name, shelf)?;
    Ok(read_kept(alloc, kept, bytes.as_slice())?)
}

/// The frames of the capture in a file, which is never held whole.
pub(crate) fn frames_in<S: Shelf>(alloc: Global, name: &str, shelf: &mut S) -> Result<Frames, Stop>
    ensures read { ReadsInput (S.state shelf.old) (S.state shelf.new) (frames_in name.now) result }
    ensures short { IfOk result (All (λ frame. length frame ≤ longest_frame)) }
    ensures same_files { (S.state shelf.new).files ≡ (S.state shelf.old).files }
{
    match read_capture(alloc, shelf, name, FILE_LIMIT) {
        Ok(frames) => Ok(frames),
        Err(fault) => Err(capture_stop(fault)),
    }
}

/// What a capture ends a form with that can't be read.
fn capture_stop(fault: CaptureReadErr) -> Stop
    ensures { result ≡ capture_stop fault }
{
    match fault {
        CaptureReadErr::ReadFault => Stop::ReadFault,
        CaptureReadErr::TooLong => Stop::Refused(RefusedInput::TooLong(FileKind::Capture)),
        CaptureReadErr::Bad(fault) => Stop::Refused(RefusedInput::BadCapture(fault)),
        CaptureReadErr::Memory => Stop::Memory,
    }
}
