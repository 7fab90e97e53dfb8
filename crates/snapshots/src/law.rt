//! The law of the book in which changes are logged, and its one step.

use ff_headers::Change;
use logbook::{Gain, Plain, Play, Rule};

/// The book's first word is the number of logged changes, and no change follows `Close`.
pub(crate) struct Law;

impl Rule<Change, u64> for Law {
    ghost use Rattle.std.specs.Prelude.{[]};
    ghost use base.Fml.{ftrue};
    ghost use Rattle.snapshots.specs.Law.{IsKept};

    ghost holds = { λ cells list. IsKept cells list };

    ghost first = { [] };

    ghost hinted = { λ n list. Unit {0} };

    ghost shows = { λ list. [] };

    ghost keeps = { λ names list. ftrue };

    ghost moves = { λ ask before after answer. Unit {0} };
}

/// Nobody trades anything for a step.
pub(crate) struct Nothing;

impl Gain<Change, u64> for Nothing {
    ghost use base.Fml.{ftrue};

    ghost after = { λ names about answer. ftrue };
}

/// The step that logs a change.
pub(crate) struct Add;

impl Play<Change, u64> for Add {
    ghost use Rattle.snapshots.specs.Law.{Adds};

    ghost then = { Adds };
}

impl Plain<Change, Change, u64> for Add {
    ghost use Rattle.std.specs.Prelude.{None};

    ghost ask = { λ change. change };

    ghost state = { λ change. None };
}
