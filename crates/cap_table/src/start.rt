/// How a device starts.
#[derive(Clone, Copy, Debug, PartialEq, Eq)]
pub enum Start {
    /// All opcodes are in use, and the driver's capabilities are the device's.
    Ready,
    /// Only the opcodes 0 and 1 are in use, and no capability is set.
    Reset,
}
