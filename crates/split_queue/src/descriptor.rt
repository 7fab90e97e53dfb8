//! A descriptor of a queue's table.
ghost use Rattle.std.specs.Prelude.{◌≡◌, ◌<◌, length};
ghost use Rattle.guest_mem.specs.Memory.{ChangesOnly, IsInRange};
ghost use Rattle.split_queue.specs.Descriptors.{with_descriptor, descriptor_at, has_next, is_writable, is_indirect};
ghost use Rattle.split_queue.specs.QueuePlaces.{descriptor_bytes, descriptor_addr};
ghost use Rattle.split_queue.specs.Setup.{IsPlaced};

use crate::number::{bytes_at, le16_at, le32_at, put_bytes};
use crate::queue_place::Place;
use guest_mem::GuestMem;

/// The flag of a descriptor after which the chain goes on.
pub(crate) const NEXT: u16 = 1;

/// The flag of a buffer that the device writes.
pub(crate) const WRITE: u16 = 2;

/// The flag of a buffer that holds a table of descriptors.
const INDIRECT: u16 = 4;

/// A buffer of the guest, and the descriptor that follows.
#[derive(Clone, Copy)]
pub(crate) struct Descriptor {
    pub(crate) addr: u64,
    pub(crate) len: u32,
    pub(crate) flags: u16,
    pub(crate) next: u16,
}

impl Descriptor {
    /// The descriptor with a number, as it stands in the table.
    #[tactic(auto, unfolding(crate::specs::Descriptors::descriptor_at, byte_numbers::specs::Numbers::le64_at))]
    pub(crate) fn read(mem: &GuestMem, place: Place, number: u16) -> Descriptor
        requires placed { IsPlaced place (length mem.now) }
        requires number { number < place.size }
        ensures { result ≡ descriptor_at mem.now place number }
    {
        let at = place.descriptor_addr(number);
        Descriptor {
            addr: u64::from_le_bytes(bytes_at(mem, at)),
            len: le32_at(mem, at + 8),
            flags: le16_at(mem, at + 12),
            next: le16_at(mem, at + 14),
        }
    }

    /// Writes it into the table, at a number.
    #[tactic(auto, unfolding(crate::specs::Descriptors::with_descriptor, crate::specs::Descriptors::with_le16, crate::specs::Descriptors::with_le32, crate::specs::Descriptors::with_le64))]
    pub(crate) fn put(self, mem: &mut GuestMem, place: Place, number: u16)
        requires placed { IsPlaced place (length mem.old) }
        requires number { number < place.size }
        ensures value { mem.new ≡ with_descriptor mem.old place number self }
        ensures others { ChangesOnly mem.old mem.new (IsInRange (descriptor_addr place number) descriptor_bytes) }
    {
        let at = place.descriptor_addr(number);
        put_bytes(mem, at, &self.addr.to_le_bytes());
        put_bytes(mem, at + 8, &self.len.to_le_bytes());
        put_bytes(mem, at + 12, &self.flags.to_le_bytes());
        put_bytes(mem, at + 14, &self.next.to_le_bytes());
    }

    /// Whether the chain goes on after it.
    pub(crate) fn has_next(self) -> bool
        ensures { result ≡ has_next self }
    {
        self.flags & NEXT != 0
    }

    /// Whether the device writes the buffer; else it reads it.
    pub(crate) fn is_writable(self) -> bool
        ensures { result ≡ is_writable self }
    {
        self.flags & WRITE != 0
    }

    /// Whether the buffer holds a table of descriptors.
    pub(crate) fn is_indirect(self) -> bool
        ensures { result ≡ is_indirect self }
    {
        self.flags & INDIRECT != 0
    }
}
