//! Why a capability is refused.

/// Why a capability isn't set. The first that holds is given.
#[derive(Clone, Copy, Debug, PartialEq, Eq)]
pub enum CapErr {
    /// The id is none of the three.
    Id,
    /// A limit is above the device's.
    Above,
    /// The list of selectors is odd, its types don't rise strictly, or the device has no selector of a type.
    SelectorType,
    /// The device's selector of the type doesn't allow a mask, or PARTIAL_MASK is set and the device's isn't.
    Mask,
    /// An action byte is neither of the two.
    Action,
}
