ghost use Rattle.std.specs.Prelude.{◌≡◌};
ghost use Rattle.ff_headers.specs.Kinds.{kind_code, kind_size, kind_of_code};

/// The header that a selector names.
#[derive(Clone, Copy, Debug, PartialEq, Eq)]
pub enum Kind {
    Eth,
    Ipv4,
    Ipv6,
    Tcp,
    Udp,
}

impl Kind {
    /// The type byte of a selector of this kind.
    pub fn code(self) -> u8
        ensures { result ≡ kind_code self }
    {
        match self {
            Kind::Eth => 1,
            Kind::Ipv4 => 2,
            Kind::Ipv6 => 3,
            Kind::Tcp => 4,
            Kind::Udp => 5,
        }
    }

    /// The kind with this type byte, if there is one.
    pub fn of_code(code: u8) -> Option<Kind>
        ensures { result ≡ kind_of_code code }
    {
        match code {
            1 => Some(Kind::Eth),
            2 => Some(Kind::Ipv4),
            3 => Some(Kind::Ipv6),
            4 => Some(Kind::Tcp),
            5 => Some(Kind::Udp),
            _ => None,
        }
    }

    /// The bytes of a header of this kind, and so of its selector's mask.
    pub fn size(self) -> usize
        ensures { result ≡ kind_size self }
    {
        match self {
            Kind::Eth => 14,
            Kind::Ipv4 => 20,
            Kind::Ipv6 => 40,
            Kind::Tcp => 20,
            Kind::Udp => 8,
        }
    }
}
