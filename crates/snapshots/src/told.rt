use crate::trail::Trail;
use std::marker::Model;

/// The list of changes that was published when it was told. Whoever learns it reads no less from then on.
#[derive(Drop)]
pub struct Told {
    pub(crate) trail: Trail,
}

impl Model for Told {
    ghost use Rattle.snapshots.specs.Lists.{ToldList};

    ghost Value = { ToldList };

    ghost view = { λ t. t.trail };
}
