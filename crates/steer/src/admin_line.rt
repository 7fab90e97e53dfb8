//! Commands as they come to a device.

use vnff_base::List;

/// A command's bytes, with the room for its reply in bytes.
#[derive(Debug, Drop)]
pub struct AdminLine {
    pub bytes: List<u8>,
    pub room: u32,
}
