//! The refusal of guest memory.

/// Why a read or a write was refused. Nothing is then changed, neither the memory nor what was lent to the call.
#[derive(Clone, Copy, Debug, PartialEq, Eq)]
pub enum MemErr {
    /// The address and the number of bytes, whose sum is above the memory's length.
    Outside(u64, u64),
}
