//! Where the fields of a header lie, and what they are as numbers.

ghost use Rattle.std.specs.Prelude.{◌≡◌, ◌≤◌, ◌%◌, ◌^◌, length, All};
ghost use Rattle.ff_headers.specs.Kinds.{kind_size};
ghost use Rattle.ff_headers.specs.Fields.{number, value_at, fields_of, LiesWithin};

use crate::kind::Kind;

/// A field of a header: its first bit, counted from the header's most significant one, and how many bits it has.
#[derive(Clone, Copy, Debug, PartialEq, Eq)]
pub struct Field {
    pub first: usize,
    pub bits: usize,
}

/// Fields, each by its first bit and how many bits it has.
macro_rules! fields {
    ($(($first:literal, $bits:literal)),+ $(,)?) => {
        [$(Field { first: $first, bits: $bits }),+]
    };
}

const ETH: [Field; 3] = fields![
    (0, 48), // destination
    (48, 48), // source
    (96, 16), // type
];

const IPV4: [Field; 12] = fields![
    (0, 4), // version
    (4, 4), // header length
    (8, 8), // type of service
    (16, 16), // total length
    (32, 16), // identification
    (48, 3), // flags
    (51, 13), // fragment offset
    (64, 8), // time to live
    (72, 8), // protocol
    (80, 16), // checksum
    (96, 32), // source
    (128, 32), // destination
];

const IPV6: [Field; 8] = fields![
    (0, 4), // version
    (4, 8), // traffic class
    (12, 20), // flow label
    (32, 16), // payload length
    (48, 8), // next header
    (56, 8), // hop limit
    (64, 128), // source
    (192, 128), // destination
];

const TCP: [Field; 9] = fields![
    (0, 16), // source port
    (16, 16), // destination port
    (32, 32), // sequence
    (64, 32), // acknowledgement
    (96, 4), // data offset
    (100, 12), // reserved bits and flags
    (112, 16), // window
    (128, 16), // checksum
    (144, 16), // urgent pointer
];

const UDP: [Field; 4] = fields![
    (0, 16), // source port
    (16, 16), // destination port
    (32, 16), // length
    (48, 16), // checksum
];

/// The fields of a header of this kind, in order.
pub fn fields_of(kind: Kind) -> &'static [Field]
    ensures value { result.now ≡ fields_of kind }
    ensures within { All (LiesWithin (kind_size kind)) result.now }
{
    match kind {
        Kind::Eth => &ETH,
        Kind::Ipv4 => &IPV4,
        Kind::Ipv6 => &IPV6,
        Kind::Tcp => &TCP,
        Kind::Udp => &UDP,
    }
}

impl Field {
    /// What the field of a header is as a number, the first bit the most significant.
    pub fn value_at(&self, header: &[u8]) -> u128
        requires { LiesWithin (length header.now) self.now }
        ensures { result ≡ value_at self.now header.now }
    {
        let start = self.first / 8;
        let end = self.first % 8 + self.bits;
        let span = end.div_ceil(8);
        let bytes = number(&header[start..start + span]);
        low_bits(bytes >> (8 * span - end), self.bits)
    }
}

/// The number that the bytes spell, the first one the most significant.
fn number(bytes: &[u8]) -> u128
    requires { length bytes.now ≤ 16 }
    ensures { result ≡ number bytes.now }
{
    let mut number = 0;
    for byte in bytes {
        number = number * 256 + *byte as u128;
    }
    number
}

/// The lowest bits of a number.
fn low_bits(number: u128, bits: usize) -> u128
    requires { bits ≤ 128 }
    ensures { result ≡ number % 2 ^ bits }
{
    if bits < 128 {
        number % (1 << bits)
    } else {
        number
    }
}
