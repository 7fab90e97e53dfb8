//! The rule under which the copies are read and published, and what its steps tell.

use crate::copied::{Copied, Entry};
use atomic_table::{Join, Split};
use crossbeam_utils::rule::{Outcome, Protocol};
use left_right::reader::Reader;
use left_right::writer::Writer;

/// What a seat knows: a copy of the tables that it belongs to, once it was told. No value of it is made.
pub(crate) type Knows = Option<Copied>;

/// A reader outside of the copies.
pub(crate) type Place = Reader<Copied, Knows, OneList>;

/// Both copies, with the entries that wait.
pub(crate) type Copies = Writer<Copied, Entry, Knows, OneList>;

/// The published copy stands for its list, and each seat that knows tables knows these.
pub(crate) struct OneList;

impl Protocol<Copied, Knows> for OneList {
    ghost use Rattle.std.specs.Prelude.{None};
    ghost use Rattle.snapshots.specs.Seats.{IsShared};

    ghost holds = { IsShared };

    ghost first = { None };
}

/// The step of a publish.
pub(crate) struct Show;

impl Outcome<Copied, Knows> for Show {
    ghost use Rattle.snapshots.specs.Seats.{Shows};

    ghost then = { Shows };
}

/// The step of an entry.
pub(crate) struct Enter;

impl Outcome<Copied, Knows> for Enter {
    ghost use Rattle.snapshots.specs.Seats.{Enters};

    ghost then = { Enters };
}

/// A note tells which tables they are; the writer knows it still, and who learns it knows it too.
pub(crate) struct Tell;

impl Split<Knows> for Tell {
    ghost left = { λ v. v };

    ghost right = { λ v. v };
}

impl Join<Knows> for Tell {
    ghost use Rattle.std.specs.Prelude.{None};

    ghost both = { λ v w. w };

    ghost spent = { None };
}
