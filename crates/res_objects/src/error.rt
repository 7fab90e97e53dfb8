//! The refusals of an object map.

/// Why an [`ObjMap`](crate::ObjMap) refused a call. The map is then as it was.
#[derive(Clone, Copy, Debug, PartialEq, Eq)]
pub enum ObjErr {
    /// The id of a create is held already.
    Exists,
    /// A create of a new id found the map with as many entries as its room.
    Full,
    /// The id of a modify or a destroy isn't held.
    Missing,
}
