//! The header of a capture file, 24 bytes.

ghost use Rattle.std.specs.Prelude.{◌≡◌, ◌≤◌, length, OnOk};
ghost use Rattle.capture.specs.Sizes.{file_header_size};
ghost use Rattle.capture.specs.FileHeaders.{file_header, kind_of_magic, is_version_2_4, link_type};

use crate::error::CaptureErr;
use crate::number::{number16_at, number32_at};

/// How many bytes a header has.
pub const HEADER_SIZE: usize = 24;

/// The link type of Ethernet.
const ETHERNET: u32 = 1;

const LITTLE_MICROS: [u8; 4] = [0xd4, 0xc3, 0xb2, 0xa1];

const LITTLE_NANOS: [u8; 4] = [0x4d, 0x3c, 0xb2, 0xa1];

const BIG_MICROS: [u8; 4] = [0xa1, 0xb2, 0xc3, 0xd4];

const BIG_NANOS: [u8; 4] = [0xa1, 0xb2, 0x3c, 0x4d];

/// How the numbers of a capture are to be read.
#[derive(Clone, Copy, Debug, PartialEq, Eq)]
pub struct CaptureHeader {
    /// Numbers are big endian.
    pub big: bool,
    /// Times count nanoseconds, and otherwise microseconds.
    pub nanos: bool,
}

/// Reads the header that a capture begins with. The faults are looked for in this order: fewer than 24 bytes, an
/// unknown magic, another version than 2.4, another link type than Ethernet. Zone, accuracy, snap length and the upper
/// 16 bits of the last number are ignored.
#[tactic(auto, unfolding(crate::specs::FileHeaders::file_header, crate::specs::FileHeaders::checked_header))]
pub fn read_header(bytes: &[u8]) -> Result<CaptureHeader, CaptureErr>
    ensures value { result ≡ file_header bytes.now }
    ensures whole { OnOk result (file_header_size ≤ length bytes.now) }
{
    if bytes.len() < HEADER_SIZE {
        return Err(CaptureErr::Truncated(0));
    }
    let Some(header) = kind_of_magic(&bytes[..4]) else {
        return Err(CaptureErr::Magic);
    };
    if !is_version_2_4(bytes, header.big) {
        return Err(CaptureErr::Version);
    }
    if link_type(bytes, header.big) != ETHERNET {
        return Err(CaptureErr::LinkType);
    }
    Ok(header)
}

/// What the first four bytes tell, of the four that are known.
#[tactic(auto, unfolding(crate::specs::FileHeaders::kind_of_magic))]
fn kind_of_magic(four: &[u8]) -> Option<CaptureHeader>
    ensures { result ≡ kind_of_magic four.now }
{
    if four == LITTLE_MICROS.as_slice() {
        return Some(CaptureHeader {
            big: false,
            nanos: false,
        });
    }
    if four == LITTLE_NANOS.as_slice() {
        return Some(CaptureHeader {
            big: false,
            nanos: true,
        });
    }
    if four == BIG_MICROS.as_slice() {
        return Some(CaptureHeader {
            big: true,
            nanos: false,
        });
    }
    if four == BIG_NANOS.as_slice() {
        return Some(CaptureHeader {
            big: true,
            nanos: true,
        });
    }
    None
}

#[tactic(auto, unfolding(crate::specs::FileHeaders::is_version_2_4))]
fn is_version_2_4(bytes: &[u8], big: bool) -> bool
    requires { file_header_size ≤ length bytes.now }
    ensures { result ≡ is_version_2_4 big bytes.now }
{
    number16_at(bytes, 4, big) == 2 && number16_at(bytes, 6, big) == 4
}

#[tactic(auto, unfolding(crate::specs::FileHeaders::link_type))]
fn link_type(bytes: &[u8], big: bool) -> u32
    requires { file_header_size ≤ length bytes.now }
    ensures { result ≡ link_type big bytes.now }
{
    number32_at(bytes, 20, big) & 0xffff
}
