//! Why bytes are no capture.

use thiserror::Error;

/// Why bytes are no capture: the first fault, in the order of the bytes. An offset is that of the header, 0, or that of
/// the record at fault.
#[derive(Clone, Copy, Debug, PartialEq, Eq, Error)]
pub enum CaptureErr {
    /// The header or a record is cut short by the file's end.
    #[error("cut short at offset {0}")]
    Truncated(u64),
    /// The first four bytes are none that is known.
    #[error("no capture of the pcap format")]
    Magic,
    /// The version isn't 2.4.
    #[error("another version than 2.4")]
    Version,
    /// The link type isn't Ethernet.
    #[error("another link type than Ethernet")]
    LinkType,
    /// The frame of the record is longer than 262,144 bytes.
    #[error("a frame of more than 262144 bytes at offset {0}")]
    TooLong(u64),
}

/// Why the frames of a capture weren't read.
#[derive(Clone, Copy, Debug, PartialEq, Eq, Error)]
pub enum FramesErr {
    /// The bytes are no capture.
    #[error("{0}")]
    Bad(CaptureErr),
    /// Memory ran out.
    #[error("out of memory")]
    Memory,
}

/// Why the capture that is a file wasn't read.
#[derive(Clone, Copy, Debug, PartialEq, Eq, Error)]
pub enum CaptureReadErr {
    /// The shelf failed, or the file isn't there.
    #[error("the file can't be read")]
    ReadFault,
    /// The file has more bytes than the limit.
    #[error("the file is too long")]
    TooLong,
    /// The file is no capture.
    #[error("{0}")]
    Bad(CaptureErr),
    /// Memory ran out.
    #[error("out of memory")]
    Memory,
}
