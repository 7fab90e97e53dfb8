//! Why a command is refused.

ghost use Rattle.std.specs.Prelude.{◌≡◌, None, Some, Err};
ghost use Rattle.cap_table.specs.Verdicts.{first_verdict, layout_rows};

use admin_wire::WireErr;

/// Why a command is refused: a status of administration commands, which is never 0, with its qualifier. Which refusal
/// has which is this project's own; the statuses are errno's.
#[derive(Clone, Copy, Debug, PartialEq, Eq)]
pub struct Verdict {
    pub status: u16,
    pub qualifier: u16,
}

impl Verdict {
    /// EINVAL: the command's bytes are too few.
    pub const INVALID_COMMAND: Verdict = Verdict {
        status: 22,
        qualifier: 1,
    };
    /// EINVAL: the opcode is none that the device has, or isn't in use.
    pub const INVALID_OPCODE: Verdict = Verdict {
        status: 22,
        qualifier: 2,
    };
    /// EINVAL: a field of the command's data.
    pub const INVALID_FIELD: Verdict = Verdict {
        status: 22,
        qualifier: 3,
    };
    /// EINVAL: the group type.
    pub const INVALID_GROUP: Verdict = Verdict {
        status: 22,
        qualifier: 4,
    };
    /// EINVAL: the group member's id.
    pub const INVALID_MEMBER: Verdict = Verdict {
        status: 22,
        qualifier: 5,
    };
    /// EEXIST: an object of the type has the id.
    pub const ALREADY_THERE: Verdict = Verdict {
        status: 17,
        qualifier: 3,
    };
    /// ENOSPC: a limit is reached.
    pub const NO_SPACE: Verdict = Verdict {
        status: 28,
        qualifier: 6,
    };
    /// ENXIO: no object has the id.
    pub const NO_OBJECT: Verdict = Verdict {
        status: 6,
        qualifier: 6,
    };
    /// EBUSY: objects that are held stand against it.
    pub const BUSY: Verdict = Verdict {
        status: 16,
        qualifier: 1,
    };
    /// ENOMEM: the change of the command found no memory.
    pub const NO_MEMORY: Verdict = Verdict {
        status: 12,
        qualifier: 6,
    };

    /// The verdict on bytes that lay out no command, where none is refused for an opcode out of use.
    pub fn of_fault(fault: WireErr) -> Verdict
        ensures { first_verdict (layout_rows 0 None (Err fault)) ≡ Some result }
    {
        match fault {
            WireErr::ShortHeader | WireErr::ShortData => Verdict::INVALID_COMMAND,
            WireErr::Opcode(_) => Verdict::INVALID_OPCODE,
            WireErr::Group(_) => Verdict::INVALID_GROUP,
            WireErr::Member(_) => Verdict::INVALID_MEMBER,
        }
    }
}
