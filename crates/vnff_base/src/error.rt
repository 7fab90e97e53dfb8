//! Why a word or a file gives no bytes.

use thiserror::Error;

/// Why a word gives no bytes.
#[derive(Clone, Copy, Debug, PartialEq, Eq, Error)]
pub enum HexErr {
    /// The word is neither `-` nor an even number of hexadecimal digits.
    #[error("the word is no hexadecimal spelling of bytes")]
    NotHex,
    /// Memory ran out.
    #[error("out of memory")]
    Memory,
}

/// Why a file wasn't read.
#[derive(Clone, Copy, Debug, PartialEq, Eq, Error)]
pub enum ReadErr {
    /// The shelf failed, or the file isn't there.
    #[error("the file can't be read")]
    ReadFault,
    /// The file has more bytes than the limit.
    #[error("the file is too long")]
    TooLong,
    /// Memory ran out.
    #[error("out of memory")]
    Memory,
}
