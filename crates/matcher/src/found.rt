//! What a search gives.

ghost use Rattle.std.specs.Prelude.{◌≡◌};
ghost use Rattle.matcher.specs.Candidates.{found_with};

use crate::scan::Candidate;
use ff_headers::Action;

/// What a search gives.
#[derive(Clone, Copy, Debug, PartialEq, Eq)]
pub struct Found {
    /// What happens to the frame.
    pub action: Action,
    /// The id of the first rule that matches.
    pub rule: Option<u32>,
}

/// What a search gives where this is the first rule that matches.
pub(crate) fn found_with(first: Option<Candidate>) -> Found
    ensures { result ≡ found_with first }
{
    match first {
        Some(first) => Found {
            action: first.action,
            rule: Some(first.place.2),
        },
        None => Found {
            action: Action::Default,
            rule: None,
        },
    }
}
