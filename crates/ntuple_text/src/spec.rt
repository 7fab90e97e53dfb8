//! What a line of a table asks for.

/// The kind of frame that a spec is for, as `flow-type` names it.
#[derive(Clone, Copy, Debug, PartialEq, Eq)]
pub enum Flow {
    /// Any Ethernet frame.
    Ether,
    /// IPv4.
    Ip4,
    /// TCP over IPv4.
    Tcp4,
    /// UDP over IPv4.
    Udp4,
    /// IPv6.
    Ip6,
    /// TCP over IPv6.
    Tcp6,
    /// UDP over IPv6.
    Udp6,
}

/// The value of a field, and the bits of it that are not compared.
#[derive(Clone, Copy, Debug, PartialEq, Eq)]
pub struct Part {
    /// The value as it was given, also at bits that are not compared.
    pub value: u128,
    /// A bit that is set here is not compared, as in a mask of ethtool.
    pub skip: u128,
}

/// What becomes of a frame that fits.
#[derive(Clone, Copy, Debug, PartialEq, Eq)]
pub enum TableDo {
    /// It is dropped.
    Drop,
    /// It goes to the receive queue of this pair.
    Queue(u8),
}

/// A spec: the fields that are compared, the action and the location. A field that was not given is
/// not compared.
#[derive(Clone, Copy, Debug, PartialEq, Eq)]
pub struct Spec {
    /// The kind of frame.
    pub flow: Flow,
    /// The source address: a MAC address of 48 bits for `ether`, otherwise an IPv4 or IPv6 address.
    pub src: Option<Part>,
    /// The destination address, of the same kind.
    pub dst: Option<Part>,
    /// The Ethernet type of 16 bits for `ether`, otherwise the protocol of 8 bits.
    pub proto: Option<Part>,
    /// The type of service, or the traffic class: 8 bits.
    pub class: Option<Part>,
    /// The source port: 16 bits.
    pub src_port: Option<Part>,
    /// The destination port: 16 bits.
    pub dst_port: Option<Part>,
    /// What becomes of a frame that fits.
    pub action: TableDo,
    /// The location in the table, from 0 to 1023.
    pub loc: u16,
}
