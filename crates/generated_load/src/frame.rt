//! The frames of a seed, one at a time.

ghost use Rattle.std.specs.Prelude.{◌≡◌};
ghost use Rattle.generated_load.specs.DrawnFrames.{drawn_datagram, drawn_frame, frame_bytes, port_bytes};

use crate::draws::draw;
use ff_headers::{PROTOCOL_TCP, PROTOCOL_UDP};

/// How many bytes a frame has.
pub const FRAME_BYTES: usize = 54;

/// The type that names an IPv4 header.
const ETHER_TYPE: [u8; 2] = [0x08, 0x00];

/// What an IPv4 header of 20 bytes has before its protocol: a total length of 40 bytes, and 64 hops.
const IP_START: [u8; 9] = [0x45, 0x00, 0x00, 0x28, 0x00, 0x00, 0x00, 0x00, 0x40];

/// What a frame carries, from 10.0.NET.HOST to 10.1.NET.HOST.
#[derive(Clone, Copy, Debug)]
pub struct Datagram {
    pub protocol: u8,
    pub source_net: u8,
    pub source_host: u8,
    pub destination_net: u8,
    pub destination_host: u8,
    pub source_port: u16,
    pub destination_port: u16,
}

/// The frame that is drawn from a state, and the state after it.
#[tactic(auto, unfolding(crate::specs::DrawnFrames::drawn_frame))]
pub fn drawn_frame(x: u64) -> (u64, [u8; FRAME_BYTES])
    ensures { result ≡ drawn_frame x }
{
    let (x, datagram) = drawn_datagram(x);
    (x, frame_bytes(datagram))
}

/// What a frame carries, and the state after it.
#[tactic(auto, unfolding(crate::specs::DrawnFrames::drawn_datagram))]
fn drawn_datagram(x: u64) -> (u64, Datagram)
    ensures { result ≡ drawn_datagram x }
{
    let (x, protocol) = draw(x, 2);
    let (x, source_net) = draw(x, 16);
    let (x, source_host) = draw(x, 256);
    let (x, destination_net) = draw(x, 16);
    let (x, destination_host) = draw(x, 256);
    let (x, source_port) = draw(x, 65536);
    let (x, destination_port) = draw(x, 4096);
    let datagram = Datagram {
        protocol: if protocol == 0 {
            PROTOCOL_TCP
        } else {
            PROTOCOL_UDP
        },
        source_net: source_net as u8,
        source_host: source_host as u8,
        destination_net: destination_net as u8,
        destination_host: destination_host as u8,
        source_port: source_port as u16,
        destination_port: destination_port as u16,
    };
    (x, datagram)
}

/// The bytes of a frame: an Ethernet header, an IPv4 header, the ports and 16 zero bytes.
#[tactic(auto, unfolding(crate::specs::DrawnFrames::frame_bytes))]
fn frame_bytes(datagram: Datagram) -> [u8; FRAME_BYTES]
    ensures { result ≡ frame_bytes datagram }
{
    let mut frame = [0; FRAME_BYTES];
    frame[12..14].copy_from_slice(&ETHER_TYPE);
    frame[14..23].copy_from_slice(&IP_START);
    frame[23] = datagram.protocol;
    frame[26..30].copy_from_slice(&[10, 0, datagram.source_net, datagram.source_host]);
    frame[30..34].copy_from_slice(&[10, 1, datagram.destination_net, datagram.destination_host]);
    frame[34..36].copy_from_slice(&port_bytes(datagram.source_port));
    frame[36..38].copy_from_slice(&port_bytes(datagram.destination_port));
    frame
}

/// The two bytes of a port.
fn port_bytes(port: u16) -> [u8; 2]
    ensures { result ≡ port_bytes port }
{
    [(port / 256) as u8, (port % 256) as u8]
}
