/// The limits of the flow-filter resource capability, those of a device or those that a driver set.
#[derive(Clone, Copy, Debug, PartialEq, Eq)]
pub struct Limits {
    /// Groups that may be held; so for classifiers and rules.
    pub groups: u32,
    pub classifiers: u32,
    pub rules: u32,
    /// Rules that may name one group.
    pub per_group: u32,
    /// The greatest rule priority.
    pub last_priority: u8,
    /// Selectors in one classifier.
    pub selectors: u8,
}
