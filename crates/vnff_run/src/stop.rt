//! Why a form of words ends before all that it was to write is written.

ghost use Rattle.std.specs.Prelude.{◌≡◌};
ghost use Rattle.vnff_run.specs.declared.stop.Stop.TheVariants as stops;
ghost use Rattle.vnff_run.specs.Endings.{script_stop};

use crate::error::{Reason, ScriptFault};
use crate::table_refusal::{TableLimit, TableReason};
use capture::CaptureErr;
use ff_headers::Kind;
use split_queue::SetupErr;
use std::alloc::AllocError;
use vnff_base::Failed;

/// What a file is to be.
#[derive(Clone, Copy, Debug, PartialEq, Eq)]
pub enum FileKind {
    /// A script.
    Script,
    /// An image of guest memory.
    Image,
    /// A file of a device alone.
    Device,
    /// A table.
    Table,
    /// A capture.
    Capture,
}

/// An input that is refused, and why.
#[derive(Clone, Copy, Debug, PartialEq, Eq)]
pub enum RefusedInput {
    /// A file is longer than any that is read.
    TooLong(FileKind),
    /// A file is no script: the line, and the reason.
    BadScript(u32, Reason),
    /// No queue can lie in an image where the words say.
    BadImage(SetupErr),
    /// A file is none of a device alone: the line, and the reason.
    BadDevice(u32, Reason),
    /// A file is no table: the line, and the reason.
    BadTable(u32, TableReason),
    /// A file is no capture.
    BadCapture(CaptureErr),
    /// The device can't be asked for a selector of this kind, which the spec at this location needs.
    Unsupported(u16, Kind),
    /// A table needs so many, and the device has fewer.
    PastLimit(TableLimit, u32),
}

/// Why a form ended early.
#[derive(Clone, Copy, Debug, PartialEq, Eq)]
pub enum Stop {
    /// A read failed, or the file isn't there.
    ReadFault,
    /// An input is refused. The line that says so is still to be written.
    Refused(RefusedInput),
    /// An input is refused for a fault behind what was written. The line that says so is written too.
    AlreadyRefused,
    /// A write failed.
    WriteFault,
    /// A sink failed, and nothing was written.
    SinkFault,
    /// Memory ran out.
    Memory,
}

impl From<Failed> for Stop {
    ghost from_gives = { λ _ stop. stop ≡ stops.WriteFault };

    fn from(_: Failed) -> Stop {
        Stop::WriteFault
    }
}

impl From<AllocError> for Stop {
    ghost from_gives = { λ _ stop. stop ≡ stops.Memory };

    fn from(_: AllocError) -> Stop {
        Stop::Memory
    }
}

impl From<ScriptFault> for Stop {
    ghost from_gives = { λ fault stop. stop ≡ script_stop fault };

    fn from(fault: ScriptFault) -> Stop {
        match fault {
            ScriptFault::Bad(line, reason) => Stop::Refused(RefusedInput::BadScript(line, reason)),
            ScriptFault::Memory => Stop::Memory,
        }
    }
}
