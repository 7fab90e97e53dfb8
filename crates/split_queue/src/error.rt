//! What the ends of a queue refuse.

/// Why a queue can't be set up. The first that holds is given.
#[derive(Clone, Copy, Debug, PartialEq, Eq)]
pub enum SetupErr {
    /// The size isn't a power of two from 1 to 32,768.
    Size,
    /// The descriptor table isn't at a multiple of 16, the available ring at one of 2, or the used ring at one of 4.
    Align,
    /// An area passes the memory's end.
    Area,
    /// Two areas share a byte.
    Overlap,
}

/// The first fault of the available ring, or of the chain in its next slot. The number is a descriptor's, if nothing
/// else is said.
#[derive(Clone, Copy, Debug, PartialEq, Eq)]
pub enum RingErr {
    /// The available index, which is more than the queue's size ahead.
    IdxJump(u16),
    /// The head, which isn't below the size.
    BadHead(u16),
    /// The descriptor stands for a table of descriptors.
    Indirect(u16),
    /// The descriptor is readable and stands after a writable one.
    Order(u16),
    /// The descriptor's buffer passes the memory's end.
    Outside(u16),
    /// The readable bytes with the descriptor's are more than 1,024.
    TooLong(u16),
    /// The descriptor's next isn't below the size.
    BadNext(u16),
    /// The descriptor's next stands in the chain already.
    Loop(u16),
    /// The descriptor is the 64th, and has a next.
    TooMany(u16),
}

/// Why a driver's end wasn't made.
#[derive(Clone, Copy, Debug, PartialEq, Eq)]
pub enum DriverErr {
    /// The queue can't lie at the place.
    Setup(SetupErr),
    /// There was no memory for the list of free descriptors.
    Memory,
}

/// Why a chain wasn't posted. Nothing is then changed.
#[derive(Clone, Copy, Debug, PartialEq, Eq)]
pub enum PostErr {
    /// So many descriptors are free, which is fewer than the pieces.
    Full(u16),
}

/// Why a used element wasn't taken. The end is then as it was.
#[derive(Clone, Copy, Debug, PartialEq, Eq)]
pub enum TakeErr {
    /// The used index, which is more than the queue's size ahead.
    IdxJump(u16),
    /// The element's id, which isn't the head of a chain that is out.
    BadId(u32),
}
