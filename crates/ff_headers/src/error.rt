//! Why a list of selectors is refused.

/// Why a list of selectors has no good shape. The first that holds is given.
#[derive(Clone, Copy, Debug, PartialEq, Eq)]
pub enum ShapeErr {
    /// There is no selector.
    Empty,
    /// The types don't rise strictly.
    Order,
    /// There are both an IPv4 and an IPv6 selector.
    BothIp,
    /// There are both a TCP and a UDP selector.
    BothPorts,
}
