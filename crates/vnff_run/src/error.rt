//! What may be wrong with the text of a script.

ghost use Rattle.std.specs.Prelude.{◌≡◌, ◌<◌, ◌^◌};
ghost use Rattle.vnff_run.specs.Readings.{script_fault_at};
ghost use Rattle.vnff_run.specs.declared.error.LineFault.TheVariants as line_faults;
ghost use Rattle.vnff_run.specs.declared.error.ScriptFault.TheVariants as faults;

use std::alloc::AllocError;

/// What is wrong with a line of a script.
#[derive(Clone, Copy, Debug, PartialEq, Eq)]
pub enum Reason {
    /// The first line isn't the version's.
    Version,
    /// The second line isn't the device's.
    Device,
    /// A number of the device's line is none, or out of its range.
    Number,
    /// A line `select` names no selector, or one whose type is not above the last one's.
    Select,
    /// The bytes of a command or a frame are none, or too few or too many.
    Hex,
    /// The room for a reply is no number, or too large.
    Room,
    /// The first word is unknown, or comes too late, or there are not as many words as there must be.
    Word,
    /// A file of a device alone starts it otherwise than ready.
    Start,
}

/// Why no script was read.
#[derive(Clone, Copy, Debug, PartialEq, Eq)]
pub enum ScriptFault {
    /// The line, and the reason.
    Bad(u32, Reason),
    /// Memory ran out.
    Memory,
}

impl From<AllocError> for ScriptFault {
    ghost from_gives = { λ _ fault. fault ≡ faults.Memory };

    fn from(_: AllocError) -> ScriptFault {
        ScriptFault::Memory
    }
}

/// Why nothing was read of a line.
#[derive(Clone, Copy, Debug, PartialEq, Eq)]
pub enum LineFault {
    /// The reason of the line's first fault.
    Bad(Reason),
    /// Memory ran out.
    Memory,
}

impl From<Reason> for LineFault {
    ghost from_gives = { λ reason fault. fault ≡ line_faults.Bad reason };

    fn from(reason: Reason) -> LineFault {
        LineFault::Bad(reason)
    }
}

impl LineFault {
    /// The fault with its line.
    pub(crate) fn at(self, line: u64) -> ScriptFault
        requires { line < 2 ^ 32 }
        ensures { result ≡ script_fault_at self line }
    {
        match self {
            LineFault::Bad(reason) => reason.at(line),
            LineFault::Memory => ScriptFault::Memory,
        }
    }
}

impl Reason {
    /// The fault of a line, for this reason.
    pub(crate) fn at(self, line: u64) -> ScriptFault
        requires { line < 2 ^ 32 }
        ensures { result ≡ faults.Bad line self }
    {
        ScriptFault::Bad(line as u32, self)
    }
}
