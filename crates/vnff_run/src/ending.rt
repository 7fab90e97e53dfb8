//! Exit statuses, and the lines of refusals: what the end of a form is turned into.

ghost use Rattle.std.specs.Prelude.{◌≡◌};
ghost use Rattle.vnff_base.specs.Outputs.{Writes};
ghost use Rattle.vnff_run.specs.Drain.{setup_word};
ghost use Rattle.vnff_run.specs.Endings.{IsStatusOf, WritesRefusal};
ghost use Rattle.vnff_run.specs.Outcomes.{fault_words, kind_word, reason_word, refusal_line, refusal_words};

use crate::error::Reason;
use crate::stop::{FileKind, RefusedInput, Stop};
use crate::table_refusal::{
    put_capture_fault, put_number, put_past_limit, put_unsupported, table_reason_word,
};
use split_queue::SetupErr;
use vnff_base::{Failed, Out};

/// The exit status where everything was done.
pub const DONE: u8 = 0;

/// The exit status where an input was refused.
pub const REFUSED: u8 = 1;

/// The exit status where the words are no form.
pub const FAULTY_WORDS: u8 = 2;

/// The exit status where a read failed.
pub const READ_FAULT: u8 = 3;

/// The exit status where a write or a sink failed.
pub const WRITE_FAULT: u8 = 4;

/// The exit status where memory ran out.
pub const NO_MEMORY: u8 = 5;

/// Writes the line of a refusal, where it is still to be written, and gives the exit status.
pub fn exit_status<O: Out>(ended: Result<(), Stop>, out: &mut O) -> u8
    ensures { IsStatusOf (O.state out.old) (O.state out.new) ended result }
{
    match ended {
        Ok(()) => DONE,
        Err(Stop::ReadFault) => READ_FAULT,
        Err(Stop::Refused(input)) => refuse(input, out),
        Err(Stop::AlreadyRefused) => REFUSED,
        Err(Stop::WriteFault | Stop::SinkFault) => WRITE_FAULT,
        Err(Stop::Memory) => NO_MEMORY,
    }
}

/// Writes the line of a refusal, and gives the exit status.
fn refuse<O: Out>(input: RefusedInput, out: &mut O) -> u8
    ensures { WritesRefusal (O.state out.old) (O.state out.new) input result }
{
    match put_refusal(out, input) {
        Ok(()) => REFUSED,
        Err(_) => WRITE_FAULT,
    }
}

/// Writes the line of a refusal.
#[tactic(auto, unfolding(crate::specs::Outcomes::refusal_line))]
fn put_refusal<O: Out>(out: &mut O, input: RefusedInput) -> Result<(), Failed>
    ensures { Writes (O.state out.old) (O.state out.new) (refusal_line input) result }
{
    out.put(b"refused ")?;
    put_refusal_words(out, input)?;
    out.put(b"\n")
}

/// Writes what is refused, and why.
#[tactic(auto, unfolding(crate::specs::Outcomes::refusal_words))]
fn put_refusal_words<O: Out>(out: &mut O, input: RefusedInput) -> Result<(), Failed>
    ensures { Writes (O.state out.old) (O.state out.new) (refusal_words input) result }
{
    match input {
        RefusedInput::TooLong(kind) => {
            out.put(kind_word(kind))?;
            out.put(b" too-long")
        }
        RefusedInput::BadImage(fault) => {
            out.put(b"image ")?;
            out.put(setup_word(fault))
        }
        RefusedInput::BadScript(line, reason) => {
            put_fault(out, FileKind::Script, line, reason_word(reason))
        }
        RefusedInput::BadDevice(line, reason) => {
            put_fault(out, FileKind::Device, line, reason_word(reason))
        }
        RefusedInput::BadTable(line, reason) => {
            put_fault(out, FileKind::Table, line, table_reason_word(reason))
        }
        RefusedInput::BadCapture(fault) => put_capture_fault(out, fault),
        RefusedInput::Unsupported(loc, kind) => put_unsupported(out, loc, kind),
        RefusedInput::PastLimit(limit, count) => put_past_limit(out, limit, count),
    }
}

/// Writes which line of a file is bad, and why.
#[tactic(auto, unfolding(crate::specs::Outcomes::fault_words))]
fn put_fault<O: Out>(out: &mut O, kind: FileKind, line: u32, reason: &[u8]) -> Result<(), Failed>
    ensures { Writes (O.state out.old) (O.state out.new) (fault_words kind line reason.now) result }
{
    out.put(kind_word(kind))?;
    out.put(b":")?;
    put_number(out, u64::from(line))?;
    out.put(b" ")?;
    out.put(reason)
}

/// What a file was to be, in words.
fn kind_word(kind: FileKind) -> &'static [u8]
    ensures { result.now ≡ kind_word kind }
{
    match kind {
        FileKind::Script => b"script",
        FileKind::Image => b"image",
        FileKind::Device => b"device",
        FileKind::Table => b"table",
        FileKind::Capture => b"capture",
    }
}

/// What is wrong with a line of a script, in words.
fn reason_word(reason: Reason) -> &'static [u8]
    ensures { result.now ≡ reason_word reason }
{
    match reason {
        Reason::Version => b"version",
        Reason::Device => b"device",
        Reason::Number => b"number",
        Reason::Select => b"select",
        Reason::Hex => b"hex",
        Reason::Room => b"room",
        Reason::Word => b"word",
        Reason::Start => b"start",
    }
}

/// Why no queue can lie at a place, in words.
fn setup_word(fault: SetupErr) -> &'static [u8]
    ensures { result.now ≡ setup_word fault }
{
    match fault {
        SetupErr::Size => b"size",
        SetupErr::Align => b"align",
        SetupErr::Area => b"area",
        SetupErr::Overlap => b"overlap",
    }
}
