ghost use Rattle.std.specs.Prelude.{◌≡◌, length, IfSome};
ghost use Rattle.std.specs.Option.{option_copied};
ghost use Rattle.ff_headers.specs.Kinds.{kind_size};
ghost use Rattle.ff_headers.specs.Frames.{HeaderBytes, header_bytes, HasSizes, header_at, headers_of};

use crate::frame::{IP_PLACE, IPV6_END, carries, has_ipv6, ipv4_end, part_if};
use crate::kind::Kind;
use std::marker::Model;

/// The IP protocol number of TCP.
pub const PROTOCOL_TCP: u8 = 6;

/// The IP protocol number of UDP.
pub const PROTOCOL_UDP: u8 = 17;

/// The headers of a frame, as copies of their bytes.
#[derive(Clone, Copy, Debug, PartialEq, Eq)]
pub struct Headers {
    eth: Option<[u8; 14]>,
    ipv4: Option<[u8; 20]>,
    ipv6: Option<[u8; 40]>,
    tcp: Option<[u8; 20]>,
    udp: Option<[u8; 8]>,
}

impl Model for Headers {
    ghost Value = { HeaderBytes };

    ghost view = { λ h. header_bytes h.eth h.ipv4 h.ipv6 h.tcp h.udp };

    ghost invariant = { λ h. HasSizes (header_bytes h.eth h.ipv4 h.ipv6 h.tcp h.udp) };

    ghost inverse = { λ h. record { eth = h.eth; ipv4 = h.ipv4; ipv6 = h.ipv6; tcp = h.tcp; udp = h.udp } };
}

impl Headers {
    /// The headers of a frame.
    pub fn parse(frame: &[u8]) -> Headers
        ensures { result ≡ headers_of frame.now }
    {
        let ipv4 = ipv4_end(frame);
        let is_ipv4 = ipv4.is_some();
        let is_ipv6 = has_ipv6(frame);
        let end = ipv4.unwrap_or(IPV6_END);
        Headers {
            eth: part_if(true, frame, 0),
            ipv4: part_if(is_ipv4, frame, IP_PLACE),
            ipv6: part_if(is_ipv6, frame, IP_PLACE),
            tcp: part_if(carries(frame, is_ipv4, is_ipv6, PROTOCOL_TCP), frame, end),
            udp: part_if(carries(frame, is_ipv4, is_ipv6, PROTOCOL_UDP), frame, end),
        }
    }

    /// The bytes of the header of a kind, where the frame has it.
    pub fn get(&self, kind: Kind) -> Option<&[u8]>
        ensures value { option_copied result ≡ header_at self.now kind }
        ensures size { IfSome result (λ header. length header.now ≡ kind_size kind) }
    {
        match kind {
            Kind::Eth => header_bytes(&self.eth),
            Kind::Ipv4 => header_bytes(&self.ipv4),
            Kind::Ipv6 => header_bytes(&self.ipv6),
            Kind::Tcp => header_bytes(&self.tcp),
            Kind::Udp => header_bytes(&self.udp),
        }
    }
}

/// The bytes of a header, where the frame has it.
fn header_bytes<const N: usize>(header: &Option<[u8; N]>) -> Option<&[u8]>
    ensures value { option_copied result ≡ header.now }
    ensures size { IfSome result (λ bytes. length bytes.now ≡ N) }
{
    match header {
        Some(bytes) => Some(bytes),
        None => None,
    }
}
