//! Scripts.

ghost use Rattle.std.specs.Prelude.{◌≡◌};
ghost use Rattle.vnff_run.specs.Readings.{is_kept};

use admin_dev::Start;
use cap_table::DeviceCaps;
use steer::AdminLine;
use vnff_base::List;

/// What a line of a script asks for.
#[derive(Debug, Drop)]
pub enum Item {
    /// A command. What `read_script` gives has 1 to 1,024 bytes and a room of at most 4,096 bytes.
    Admin(AdminLine),
    /// A frame. What `read_script` gives has at most 262,144 bytes.
    Frame(List<u8>),
}

/// A script: a device with its start, and items in order.
#[derive(Debug, Drop)]
pub struct Script {
    pub caps: DeviceCaps,
    pub start: Start,
    pub items: List<Item>,
}

/// What the device's line of a script says.
#[derive(Debug, Drop)]
pub struct DeviceLine {
    pub caps: DeviceCaps,
    pub start: Start,
}

/// Which items of a script its reader keeps. All are read, and the first fault of any ends it.
#[derive(Clone, Copy, Debug)]
pub(crate) enum Kept {
    All,
    Commands,
    Nothing,
}

impl Kept {
    /// Whether this item is kept.
    pub(crate) fn keeps(self, item: &Item) -> bool
        ensures { result ≡ is_kept self item.now }
    {
        match self {
            Kept::All => true,
            Kept::Commands => matches!(item, Item::Admin(_)),
            Kept::Nothing => false,
        }
    }
}
