//! One of the two copies: tables, and the list of changes that they stand for.

use crate::trail::Trail;
use ff_headers::Change;
use left_right::Absorb;
use matcher::Tables;
use std::alloc::AllocError;

/// Tables with the trail of the changes that were made to them. A change can always be made, so no publish is refused.
#[derive(Drop)]
pub(crate) struct Copied {
    pub(crate) tables: Tables,
    pub(crate) trail: Trail,
}

/// What waits to be published. A blank one only makes room in the writer's queue, before any change is logged.
#[derive(Drop)]
pub(crate) enum Entry {
    Blank,
    /// A change, and the list that ends with it.
    Made(Change, Trail),
}

impl Absorb<Entry> for Copied {
    type State = Copied;

    ghost use Rattle.snapshots.specs.Copying.{with_logged};

    ghost state = { λ copied. copied };

    ghost applied = { with_logged };

    ghost never_fails = { Unit {0} };

    fn absorb_first(&mut self, operation: &Entry, _other: &Copied) -> Result<(), AllocError> {
        if let Entry::Made(change, trail) = operation {
            self.tables.apply_copy(change);
            self.trail = trail.again();
        }
        Ok(())
    }
}
