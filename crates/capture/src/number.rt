//! Numbers in the byte order of a capture.

ghost use Rattle.std.specs.Prelude.{◌≡◌, ◌+◌, ◌≤◌, length};
ghost use Rattle.capture.specs.FileHeaders.{number16_at, number32_at};

use byte_numbers::{be16_at, be32_at, le16_at, le32_at};

/// The 16-bit number at a place.
#[tactic(auto, unfolding(crate::specs::FileHeaders::number16_at))]
pub fn number16_at(bytes: &[u8], place: usize, big: bool) -> u16
    requires { place + 2 ≤ length bytes.now }
    ensures { result ≡ number16_at big bytes.now place }
{
    if big {
        be16_at(bytes, place)
    } else {
        le16_at(bytes, place)
    }
}

/// The 32-bit number at a place.
#[tactic(auto, unfolding(crate::specs::FileHeaders::number32_at))]
pub fn number32_at(bytes: &[u8], place: usize, big: bool) -> u32
    requires { place + 4 ≤ length bytes.now }
    ensures { result ≡ number32_at big bytes.now place }
{
    if big {
        be32_at(bytes, place)
    } else {
        le32_at(bytes, place)
    }
}
