//! What can be wrong with a table and with a line of it.
ghost use Rattle.std.specs.Prelude.{◌≡◌};
ghost use Rattle.ntuple_text.specs.TableLines.{fault_at};

/// Why a text gives no table: its first bad line, counted from 1, and that line's first fault.
#[derive(Clone, Copy, Debug, PartialEq, Eq)]
pub enum TextErr {
    /// A word that is unknown, missing or too much.
    Word(u32),
    /// A word that is no number, or a number out of its field's range.
    Number(u32),
    /// A number that begins with `0` and a decimal digit, which ethtool reads as octal.
    Octal(u32),
    /// A word that is no MAC, IPv4 or IPv6 address, where one is wanted.
    Address(u32),
    /// An option that stood before in the line; `action` and `queue` are one option.
    Twice(u32),
    /// A field that the flow does not have.
    NotInFlow(u32),
    /// The line gives no action.
    NoAction(u32),
    /// A receive queue that is not below the queue pairs.
    Queue(u32),
    /// A location above 1023.
    Loc(u32),
    /// The removal of a location where no spec stands.
    NoSuchLoc(u32),
    /// The line gives no location, and none is free.
    TableFull(u32),
    /// Memory ran out.
    Memory,
}

/// What is wrong with a line: its first fault, from left to right.
#[derive(Clone, Copy, Debug, PartialEq, Eq)]
pub enum Fault {
    /// A word that is unknown, missing or too much.
    Word,
    /// A word that is no number, or a number out of its field's range.
    Number,
    /// A number that begins with `0` and a decimal digit, which ethtool reads as octal.
    Octal,
    /// A word that is no MAC, IPv4 or IPv6 address.
    Address,
    /// An option that stood before in the line.
    Twice,
    /// A field that the flow does not have.
    NotInFlow,
    /// The line gives no action.
    NoAction,
    /// A receive queue that is not below the queue pairs.
    Queue,
    /// A location above 1023.
    Loc,
    /// The removal of a location where no spec stands.
    NoSuchLoc,
    /// The line gives no location, and none is free.
    TableFull,
}

impl Fault {
    /// The fault with its line.
    pub(crate) fn at(self, line: u32) -> TextErr
        ensures { result ≡ fault_at self line }
    {
        match self {
            Fault::Word => TextErr::Word(line),
            Fault::Number => TextErr::Number(line),
            Fault::Octal => TextErr::Octal(line),
            Fault::Address => TextErr::Address(line),
            Fault::Twice => TextErr::Twice(line),
            Fault::NotInFlow => TextErr::NotInFlow(line),
            Fault::NoAction => TextErr::NoAction(line),
            Fault::Queue => TextErr::Queue(line),
            Fault::Loc => TextErr::Loc(line),
            Fault::NoSuchLoc => TextErr::NoSuchLoc(line),
            Fault::TableFull => TextErr::TableFull(line),
        }
    }
}
