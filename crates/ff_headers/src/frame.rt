//! Where the headers of a frame stand.

ghost use Rattle.std.specs.Prelude.{◌≡◌, true, ◌+◌, ◌≤◌, length, if◌then◌else◌};
ghost use Rattle.ff_headers.specs.Fields.{number};
ghost use Rattle.ff_headers.specs.Frames.{frame_part, named_part, names_ip, ipv4_end, has_ipv4, has_ipv6, carries};

use crate::kind::Kind;

/// Where an IP header begins: behind the Ethernet header.
pub(crate) const IP_PLACE: usize = 14;

/// Where an IPv6 header ends.
pub(crate) const IPV6_END: usize = 54;

/// The type that names an IPv4 header.
const IPV4_TYPE: u16 = 0x0800;

/// The type that names an IPv6 header.
const IPV6_TYPE: u16 = 0x86DD;

/// Where the IPv4 header ends with its options, if the frame has one.
pub(crate) fn ipv4_end(frame: &[u8]) -> Option<usize>
    ensures { result ≡ (if has_ipv4 frame.now then Some (ipv4_end frame.now) else None) }
{
    if !names_ip(frame, Kind::Ipv4, IPV4_TYPE, 4) {
        return None;
    }
    let words = frame[IP_PLACE] & 15;
    let end = IP_PLACE + 4 * words as usize;
    if words >= 5 && frame.len() >= end {
        Some(end)
    } else {
        None
    }
}

/// Whether the frame has an IPv6 header.
pub(crate) fn has_ipv6(frame: &[u8]) -> bool
    ensures { result ≡ has_ipv6 frame.now }
{
    names_ip(frame, Kind::Ipv6, IPV6_TYPE, 6)
}

/// Whether an IP header's bytes are there, with the frame's type and the version that are its kind's.
fn names_ip(frame: &[u8], kind: Kind, ether_type: u16, version: u8) -> bool
    ensures { result ≡ names_ip kind ether_type version frame.now }
{
    if frame.len() < IP_PLACE + kind.size() {
        return false;
    }
    number_at(frame, 12) == ether_type && frame[IP_PLACE] >> 4 == version
}

/// Whether the frame's IP header names the protocol, and an IPv4 datagram begins in the frame.
pub(crate) fn carries(frame: &[u8], is_ipv4: bool, is_ipv6: bool, protocol: u8) -> bool
    requires ipv4 { is_ipv4 ≡ has_ipv4 frame.now }
    requires ipv6 { is_ipv6 ≡ has_ipv6 frame.now }
    ensures { result ≡ carries protocol frame.now }
{
    if is_ipv4 {
        ipv4_carries(frame, protocol)
    } else {
        is_ipv6 && frame[20] == protocol
    }
}

/// The same of a frame with an IPv4 header. A later fragment's offset isn't 0.
fn ipv4_carries(frame: &[u8], protocol: u8) -> bool
    requires { has_ipv4 frame.now ≡ true }
    ensures { result ≡ carries protocol frame.now }
{
    number_at(frame, 20) & 0x1fff == 0 && frame[23] == protocol
}

/// The bytes from a place on, where they are named and there are as many.
pub(crate) fn part_if<const N: usize>(named: bool, frame: &[u8], place: usize) -> Option<[u8; N]>
    ensures { result ≡ named_part named place N frame.now }
{
    if !named {
        return None;
    }
    frame.get(place..)?.first_chunk().copied()
}

/// The number that two bytes spell, the first one the most significant.
fn number_at(frame: &[u8], place: usize) -> u16
    requires { place + 2 ≤ length frame.now }
    ensures { result ≡ number (frame_part place 2 frame.now) }
{
    u16::from_be_bytes([frame[place], frame[place + 1]])
}
