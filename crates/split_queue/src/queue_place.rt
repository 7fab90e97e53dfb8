//! Where a queue lies in guest memory, and where its parts stand.
ghost use Rattle.std.specs.Prelude.{◌≡◌, ◌^◌, ◌<◌};
ghost use Rattle.split_queue.specs.QueuePlaces.{descriptor_addr, available_idx_addr, available_slot_addr, used_idx_addr, used_element_addr};

/// The bytes of a descriptor.
pub(crate) const DESCRIPTOR_BYTES: u64 = 16;

/// The bytes of a head in the available ring.
pub(crate) const AVAILABLE_SLOT_BYTES: u64 = 2;

/// The bytes of an element of the used ring.
pub(crate) const USED_ELEMENT_BYTES: u64 = 8;

/// The bytes of a ring's flags and index, which stand before its entries.
pub(crate) const RING_HEAD_BYTES: u64 = 4;

/// The bytes of a ring's event field, which stands after its entries.
pub(crate) const RING_EVENT_BYTES: u64 = 2;

const IDX_OFFSET: u64 = 2;

/// The number of descriptors of a queue, and the addresses of its three areas.
#[derive(Clone, Copy, Debug, PartialEq, Eq)]
pub struct Place {
    /// How many descriptors there are: a power of two from 1 to 32,768.
    pub size: u16,
    /// The descriptor table, of 16 bytes a descriptor.
    pub desc: u64,
    /// The available ring, of 6 bytes and 2 a descriptor.
    pub avail: u64,
    /// The used ring, of 6 bytes and 8 a descriptor.
    pub used: u64,
}

impl Place {
    /// Where the descriptor of a number stands.
    pub(crate) fn descriptor_addr(self, number: u16) -> u64
        requires { descriptor_addr self number < 2 ^ 64 }
        ensures { result ≡ descriptor_addr self number }
    {
        self.desc + DESCRIPTOR_BYTES * number as u64
    }

    /// Where the available ring's index stands.
    pub(crate) fn available_idx_addr(self) -> u64
        requires { available_idx_addr self < 2 ^ 64 }
        ensures { result ≡ available_idx_addr self }
    {
        self.avail + IDX_OFFSET
    }

    /// Where the head of an index stands in the available ring.
    pub(crate) fn available_slot_addr(self, index: u16) -> u64
        requires some { 0 < self.size }
        requires short { available_slot_addr self index < 2 ^ 64 }
        ensures { result ≡ available_slot_addr self index }
    {
        self.avail + RING_HEAD_BYTES + AVAILABLE_SLOT_BYTES * (index % self.size) as u64
    }

    /// Where the used ring's index stands.
    pub(crate) fn used_idx_addr(self) -> u64
        requires { used_idx_addr self < 2 ^ 64 }
        ensures { result ≡ used_idx_addr self }
    {
        self.used + IDX_OFFSET
    }

    /// Where the element of an index stands in the used ring.
    pub(crate) fn used_element_addr(self, index: u16) -> u64
        requires some { 0 < self.size }
        requires short { used_element_addr self index < 2 ^ 64 }
        ensures { result ≡ used_element_addr self index }
    {
        self.used + RING_HEAD_BYTES + USED_ELEMENT_BYTES * (index % self.size) as u64
    }
}
