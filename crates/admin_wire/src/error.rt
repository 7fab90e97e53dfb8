//! Why bytes are no command.

/// The first fault of the bytes, in the order of the variants.
#[derive(Clone, Copy, Debug, PartialEq, Eq)]
pub enum WireErr {
    /// There are fewer than the 24 bytes of the header.
    ShortHeader,
    /// The opcode is none that is read.
    Opcode(u16),
    /// The group type isn't 0.
    Group(u16),
    /// The group member's id isn't 0.
    Member(u64),
    /// The bytes end before the data that the command needs.
    ShortData,
}
