//! Whether a queue may lie at a place.
ghost use Rattle.std.specs.Prelude.{◌≡◌, ◌+◌, ◌^◌, ◌<◌, IfNone};
ghost use Rattle.split_queue.specs.QueuePlaces.{table_bytes, available_bytes, used_bytes};
ghost use Rattle.split_queue.specs.Setup.{table_area, available_area, used_area, lies_in, meets, is_aligned, all_lie_in, some_meet, setup_fault, IsPlaced};

use crate::error::SetupErr;
use crate::queue_place::{
    AVAILABLE_SLOT_BYTES, DESCRIPTOR_BYTES, Place, RING_EVENT_BYTES, RING_HEAD_BYTES,
    USED_ELEMENT_BYTES,
};

const TABLE_ALIGN: u64 = 16;

const AVAILABLE_ALIGN: u64 = 2;

const USED_ALIGN: u64 = 4;

/// A part of guest memory.
#[derive(Clone, Copy)]
pub(crate) struct Area {
    pub(crate) start: u64,
    pub(crate) len: u64,
}

impl Area {
    fn lies_in(self, mem_len: u64) -> bool
        ensures { result ≡ lies_in self mem_len }
    {
        self.len <= mem_len && self.start <= mem_len - self.len
    }

    fn meets(self, other: Area) -> bool
        requires this_ends { self.start + self.len < 2 ^ 64 }
        requires other_ends { other.start + other.len < 2 ^ 64 }
        ensures { result ≡ meets self other }
    {
        self.start < other.start + other.len && other.start < self.start + self.len
    }
}

/// The first reason why a queue can't lie at the place, in a memory of so many bytes.
#[tactic(auto, unfolding(crate::specs::Setup::setup_fault))]
pub(crate) fn setup_fault(place: Place, mem_len: u64) -> Option<SetupErr>
    ensures value { result ≡ setup_fault place mem_len }
    ensures placed { IfNone result (IsPlaced place mem_len) }
{
    if !place.size.is_power_of_two() {
        return Some(SetupErr::Size);
    }
    if !is_aligned(place) {
        return Some(SetupErr::Align);
    }
    if !all_lie_in(place, mem_len) {
        return Some(SetupErr::Area);
    }
    if some_meet(place) {
        return Some(SetupErr::Overlap);
    }
    None
}

fn is_aligned(place: Place) -> bool
    ensures { result ≡ is_aligned place }
{
    place.desc % TABLE_ALIGN == 0
        && place.avail % AVAILABLE_ALIGN == 0
        && place.used % USED_ALIGN == 0
}

fn table_area(place: Place) -> Area
    ensures { result ≡ table_area place }
{
    Area {
        start: place.desc,
        len: DESCRIPTOR_BYTES * place.size as u64,
    }
}

pub(crate) fn available_area(place: Place) -> Area
    ensures { result ≡ available_area place }
{
    Area {
        start: place.avail,
        len: RING_HEAD_BYTES + AVAILABLE_SLOT_BYTES * place.size as u64 + RING_EVENT_BYTES,
    }
}

pub(crate) fn used_area(place: Place) -> Area
    ensures { result ≡ used_area place }
{
    Area {
        start: place.used,
        len: RING_HEAD_BYTES + USED_ELEMENT_BYTES * place.size as u64 + RING_EVENT_BYTES,
    }
}

fn all_lie_in(place: Place, mem_len: u64) -> bool
    ensures { result ≡ all_lie_in place mem_len }
{
    table_area(place).lies_in(mem_len)
        && available_area(place).lies_in(mem_len)
        && used_area(place).lies_in(mem_len)
}

fn some_meet(place: Place) -> bool
    requires table { place.desc + table_bytes place.size < 2 ^ 64 }
    requires available { place.avail + available_bytes place.size < 2 ^ 64 }
    requires used { place.used + used_bytes place.size < 2 ^ 64 }
    ensures { result ≡ some_meet place }
{
    let table = table_area(place);
    let available = available_area(place);
    let used = used_area(place);
    table.meets(available) || table.meets(used) || available.meets(used)
}
