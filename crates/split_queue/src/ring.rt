//! The two rings of a queue: what they say at an index, and what is written into them. An index wraps at 2^16.
ghost use Rattle.std.specs.Prelude.{◌≡◌, ◌+◌, ◌^◌, ◌<◌, ◌≤◌, length};
ghost use Rattle.guest_mem.specs.Memory.{ChangesOnly};
ghost use Rattle.split_queue.specs.Rings.{available_idx, available_head, with_available_entry, IsInAvailableEntry, used_idx, with_used_entry, IsInUsedEntry, ClearsArea, ClearsRings};
ghost use Rattle.split_queue.specs.Setup.{IsPlaced};

use crate::number::{le16_at, put_bytes};
use crate::queue_place::Place;
use crate::setup::{Area, available_area, used_area};
use guest_mem::GuestMem;

/// The index of the available ring.
pub(crate) fn available_idx(mem: &GuestMem, place: Place) -> u16
    requires { IsPlaced place (length mem.now) }
    ensures { result ≡ available_idx mem.now place }
{
    le16_at(mem, place.available_idx_addr())
}

/// The head in the slot of an index of the available ring.
pub(crate) fn available_head(mem: &GuestMem, place: Place, index: u16) -> u16
    requires { IsPlaced place (length mem.now) }
    ensures { result ≡ available_head mem.now place index }
{
    le16_at(mem, place.available_slot_addr(index))
}

/// Writes a head into the available ring at an index, and the index after it. The index is written last, for a device
/// that looks meanwhile; no contract says so.
#[tactic(auto, unfolding(crate::specs::Rings::with_available_entry, crate::specs::Descriptors::with_le16))]
pub(crate) fn put_available(mem: &mut GuestMem, place: Place, index: u16, head: u16)
    requires { IsPlaced place (length mem.old) }
    ensures memory { mem.new ≡ with_available_entry mem.old place index head }
    ensures others { ChangesOnly mem.old mem.new (IsInAvailableEntry place index) }
{
    let next = index.wrapping_add(1);
    put_bytes(mem, place.available_slot_addr(index), &head.to_le_bytes());
    put_bytes(mem, place.available_idx_addr(), &next.to_le_bytes());
}

/// The index of the used ring.
pub(crate) fn used_idx(mem: &GuestMem, place: Place) -> u16
    requires { IsPlaced place (length mem.now) }
    ensures { result ≡ used_idx mem.now place }
{
    le16_at(mem, place.used_idx_addr())
}

/// Writes an element into the used ring at an index, and the index after it. The index is written last, for a driver
/// that looks meanwhile; no contract says so.
#[tactic(auto, unfolding(crate::specs::Rings::with_used_entry, crate::specs::Descriptors::with_le16, crate::specs::Descriptors::with_le32))]
pub(crate) fn put_used(mem: &mut GuestMem, place: Place, index: u16, head: u16, len: u32)
    requires { IsPlaced place (length mem.old) }
    ensures memory { mem.new ≡ with_used_entry mem.old place index head len }
    ensures others { ChangesOnly mem.old mem.new (IsInUsedEntry place index) }
{
    let element = place.used_element_addr(index);
    let next = index.wrapping_add(1);
    put_bytes(mem, element, &(head as u32).to_le_bytes());
    put_bytes(mem, element + 4, &len.to_le_bytes());
    put_bytes(mem, place.used_idx_addr(), &next.to_le_bytes());
}

/// Writes zeros over both rings.
pub(crate) fn clear_rings(mem: &mut GuestMem, place: Place)
    requires { IsPlaced place (length mem.old) }
    ensures { ClearsRings mem.old mem.new place }
{
    clear(mem, available_area(place));
    clear(mem, used_area(place));
}

/// Writes zeros over an area.
fn clear(mem: &mut GuestMem, area: Area)
    requires within { area.start + area.len ≤ length mem.old }
    requires short { area.start + area.len < 2 ^ 64 }
    ensures { ClearsArea mem.old mem.new area }
{
    for cleared in 0..area.len {
        mem.write(area.start + cleared, &[0]).unwrap();
    }
}
