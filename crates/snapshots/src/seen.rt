use ff_headers::Action;

/// What one read of a frame's headers gives.
#[derive(Clone, Copy, Debug, PartialEq, Eq)]
pub struct Seen {
    /// How many changes were made to the tables that were read, or 2^64 - 1 where there are more.
    pub after: u64,
    /// What happens to the frame.
    pub action: Action,
    /// The id of the first rule that matches.
    pub rule: Option<u32>,
}
