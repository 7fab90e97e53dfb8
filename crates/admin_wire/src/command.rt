//! What a command says.

use arrayvec::ArrayVec;
use ff_headers::{Key, Limits, Selector};

/// The bytes of a command that this project's driver writes.
pub type CommandBytes = ArrayVec<u8, 256>;

/// A command of the owner device's administration queue.
#[derive(Debug, Drop, PartialEq, Eq)]
pub enum Command {
    /// Asks which opcodes the device has.
    ListQuery,
    /// Says which opcodes the driver is to use: bit n is opcode n.
    ListUse(u64),
    /// Asks which capabilities the device has.
    CapIds,
    /// Asks for the device's capability with this id.
    CapGet(u16),
    /// Sets a capability of the driver.
    CapSet(CapData),
    /// Creates a resource object.
    Create(ObjHead, ObjData),
    /// Replaces the data of a resource object.
    Modify(ObjHead, ObjData),
    /// Asks for the data of a resource object.
    Query(ObjHead),
    /// Destroys a resource object.
    Destroy(ObjHead),
}

/// The type and the id of a resource object, and the flags of the command. Ids are unique per type.
#[derive(Clone, Copy, Debug, PartialEq, Eq)]
pub struct ObjHead {
    pub type_code: u16,
    pub id: u32,
    /// 0 for a destroy, whose layout has no flags.
    pub flags: u64,
}

/// The data of a resource object.
#[derive(Debug, Drop, PartialEq, Eq)]
pub enum ObjData {
    /// A group's priority.
    Group(u16),
    /// A classifier's selectors.
    Classifier(RawList),
    /// A rule with its key.
    Rule(RawRule),
    /// The type is none that this project knows.
    Other,
}

/// The data of a driver capability that is to be set.
#[derive(Debug, Drop, PartialEq, Eq)]
pub enum CapData {
    /// How many objects there may be.
    Limits(Limits),
    /// The selectors that a classifier may have.
    Selectors(RawList),
    /// The actions that a rule may have.
    Actions(RawActions),
    /// The capability with this id is none that this project knows.
    Other(u16),
}

/// A list of selectors as it stands in the bytes: which kinds it has, and in which order, is not judged.
#[derive(Debug, Drop, PartialEq, Eq)]
pub enum RawList {
    /// At most five selectors, in the order of the entries.
    Good(ArrayVec<Selector, 5>),
    /// The list has more than five entries, or an entry of unknown type or of another length than its
    /// type's header.
    Odd,
}

/// A rule as it stands in the bytes.
#[derive(Debug, Drop, PartialEq, Eq)]
pub struct RawRule {
    pub group: u32,
    pub classifier: u32,
    pub priority: u8,
    pub action: u8,
    /// The index of a virtqueue, kept also where the action drops.
    pub vq: u16,
    pub key: RawKey,
}

/// A rule's key as it stands in the bytes.
#[derive(Debug, Drop, PartialEq, Eq)]
pub enum RawKey {
    /// At most 74 bytes.
    Good(Key),
    /// The key has more than the 74 bytes that three selectors can ask for.
    Odd,
}

/// Which action bytes a list of actions has.
#[derive(Clone, Copy, Debug, PartialEq, Eq)]
pub struct RawActions {
    /// The byte 1 stands in the list.
    pub drop: bool,
    /// The byte 2 stands in the list.
    pub queue: bool,
    /// A byte other than 1 and 2 stands in the list.
    pub other: bool,
}
