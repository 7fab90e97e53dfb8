//! The walk from a head along the descriptors of its chain.
ghost use Rattle.std.specs.Prelude.{◌≡◌, ◌+◌, ◌<◌, true, nat_le, length, Ok, Err, IfSome, IfNone, IfOk, OnOk, MatchResult};
ghost use Rattle.split_queue.specs.Chains.{most_descriptors};
ghost use Rattle.split_queue.specs.Descriptors.{descriptor_at, has_next};
ghost use Rattle.split_queue.specs.Setup.{IsPlaced};
ghost use Rattle.split_queue.specs.Walks.{with_buffer, buffer_fault, next_fault, next_in_chain, chain_of, BufferFits};

use crate::chain::{Chain, MOST_DESCRIPTORS, MOST_READABLE, Piece};
use crate::descriptor::Descriptor;
use crate::error::RingErr;
use crate::queue_place::Place;
use arrayvec::ArrayVec;
use guest_mem::GuestMem;

/// Fills the chain with the buffers of a head's chain, or gives the first fault; then the chain holds some of them.
pub(crate) fn fill_chain(
    mem: &GuestMem,
    place: Place,
    head: u16,
    chain: &mut Chain,
) -> Result<(), RingErr>
    requires placed { IsPlaced place (length mem.now) }
    requires head { head < place.size }
    ensures { MatchResult result (λ _. Ok chain.new ≡ chain_of mem.now place head)
        (λ fault. Err fault ≡ chain_of mem.now place head) }
{
    chain.clear(head);
    let mut visited: ArrayVec<u16, MOST_DESCRIPTORS> = ArrayVec::new();
    visited.push(head);
    let mut number = head;
    for _ in 0..MOST_DESCRIPTORS - 1 {
        match add_descriptor(mem, place, &visited, chain, number)? {
            None => return Ok(()),
            Some(next) => {
                visited.push(next);
                number = next;
            }
        }
    }
    match add_descriptor(mem, place, &visited, chain, number)? {
        None => Ok(()),
        Some(_) => Err(RingErr::TooMany(number)),
    }
}

/// Adds a descriptor to its chain, and gives the number of the one that follows.
#[tactic(auto, unfolding(crate::specs::Walks::next_in_chain))]
fn add_descriptor(
    mem: &GuestMem,
    place: Place,
    visited: &ArrayVec<u16, MOST_DESCRIPTORS>,
    chain: &mut Chain,
    number: u16,
) -> Result<Option<u16>, RingErr>
    requires placed { IsPlaced place (length mem.now) }
    requires number { number < place.size }
    requires room { length chain.old.writable.items < most_descriptors }
    ensures answer { result ≡ next_in_chain mem.now place visited.now.items chain.old number }
    ensures ok { OnOk result (chain.new ≡ with_buffer mem.now chain.old (descriptor_at mem.now place number)) }
    ensures next { IfOk result (λ next. IfSome next (λ n. n < place.size)) }
{
    let descriptor = Descriptor::read(mem, place, number);
    if let Some(fault) = buffer_fault(mem, chain, number, descriptor) {
        return Err(fault);
    }
    if let Some(fault) = next_fault(place, visited, number, descriptor) {
        return Err(fault);
    }
    add_buffer(mem, chain, descriptor);
    Ok(if descriptor.has_next() {
        Some(descriptor.next)
    } else {
        None
    })
}

/// The first fault of a descriptor's buffer.
#[tactic(auto, unfolding(crate::specs::Walks::buffer_fault))]
fn buffer_fault(
    mem: &GuestMem,
    chain: &Chain,
    number: u16,
    descriptor: Descriptor,
) -> Option<RingErr>
    ensures value { result ≡ buffer_fault mem.now chain.now number descriptor }
    ensures fits { IfNone result (BufferFits mem.now chain.now descriptor) }
{
    let readable = !descriptor.is_writable();
    if descriptor.is_indirect() {
        return Some(RingErr::Indirect(number));
    }
    if readable && !chain.writable.is_empty() {
        return Some(RingErr::Order(number));
    }
    if !lies_in(mem, descriptor.addr, descriptor.len) {
        return Some(RingErr::Outside(number));
    }
    if readable && chain.readable.as_slice().len() + descriptor.len as usize > MOST_READABLE {
        return Some(RingErr::TooLong(number));
    }
    None
}

/// Whether a buffer lies in the memory. Its end may pass 2^64, so it isn't computed.
fn lies_in(mem: &GuestMem, addr: u64, len: u32) -> bool
    ensures { result ≡ nat_le (addr + len) (length mem.now) }
{
    let room = mem.len();
    let len = len as u64;
    len <= room && addr <= room - len
}

/// The fault of a descriptor's next field.
#[tactic(auto, unfolding(crate::specs::Walks::next_fault))]
fn next_fault(
    place: Place,
    visited: &ArrayVec<u16, MOST_DESCRIPTORS>,
    number: u16,
    descriptor: Descriptor,
) -> Option<RingErr>
    ensures value { result ≡ next_fault place visited.now.items number descriptor }
    ensures next { IfNone result (has_next descriptor ≡ true → descriptor.next < place.size) }
{
    if !descriptor.has_next() {
        return None;
    }
    if descriptor.next >= place.size {
        return Some(RingErr::BadNext(number));
    }
    if visited.as_slice().contains(&descriptor.next) {
        return Some(RingErr::Loop(number));
    }
    None
}

/// Adds a buffer without a fault to the chain.
fn add_buffer(mem: &GuestMem, chain: &mut Chain, descriptor: Descriptor)
    requires fits { BufferFits mem.now chain.old descriptor }
    requires room { length chain.old.writable.items < most_descriptors }
    ensures { chain.new ≡ with_buffer mem.now chain.old descriptor }
{
    if descriptor.is_writable() {
        chain.writable.push(Piece {
            addr: descriptor.addr,
            len: descriptor.len,
        });
    } else {
        let bytes = mem
            .slice(descriptor.addr, u64::from(descriptor.len))
            .unwrap();
        chain.readable.try_extend_from_slice(bytes).unwrap();
    }
}
