//! The driver's end of a queue.
ghost use Rattle.std.specs.Prelude.{◌≡◌, ℕ, ◌+◌, ◌^◌, ◌<◌, ◌≤◌, Some, None, All, Contains, length, replicate, IfOk, IfErr, IfSome, OnOk, OnErr, MatchOption};
ghost use Rattle.guest_mem.specs.Memory.{ChangesOnly};
ghost use Rattle.split_queue.specs.Agreement.{Agree, ArePostable, chain_of_pieces};
ghost use Rattle.split_queue.specs.DeviceEnds.{DeviceEndState, device_start, pop_answer};
ghost use Rattle.split_queue.specs.DriverEnds.{IsInFreeDescriptor, IsInPost, chain_numbers, piece_descriptor, with_descriptors, post_answer, with_post, pool_after_post, after_post, take_answer, after_take, IsValidDriver};
ghost use Rattle.split_queue.specs.Pools.{owner_of, out_count, first_free};
ghost use Rattle.split_queue.specs.Rings.{ClearsRings};
ghost use Rattle.split_queue.specs.Setup.{setup_fault, IsPlaced};
ghost use Rattle.split_queue.specs.declared.error.SetupErr.{SetupErr};

use crate::chain::Piece;
use crate::descriptor::{Descriptor, NEXT, WRITE};
use crate::error::{DriverErr, PostErr, TakeErr};
use crate::number::le32_at;
use crate::pool::Pool;
use crate::queue_place::Place;
use crate::ring::{clear_rings, put_available, used_idx};
use crate::setup::setup_fault;
use guest_mem::GuestMem;
use std::alloc::Global;
use std::marker::Model;

/// Posts chains for a device, and takes them back.
#[derive(Debug, Drop)]
pub struct DriverEnd {
    place: Place,
    mem_len: u64,
    // the available index at which the next chain goes
    next: u16,
    // the used index at which the next element stands
    used: u16,
    pool: Pool,
}

impl Model for DriverEnd {
    ghost use Rattle.split_queue.specs.DriverEnds.{DriverEndState, IsDriver};

    ghost Value = { DriverEndState };

    ghost view = { λ e. record { place = e.place; mem_len = e.mem_len; next = e.next; used = e.used; pool = e.pool } };

    ghost invariant = { λ e. IsDriver e.place e.mem_len e.pool };
}

impl DriverEnd {
    /// The end of a fresh queue at the place. It clears both rings, with their event fields, and starts at index 0.
    pub fn new(alloc: Global, place: Place, mem: &mut GuestMem) -> Result<DriverEnd, DriverErr>
        ensures setup { IfSome (setup_fault place (length mem.old)) (λ fault. result ≡ Err (DriverErr.Setup fault)) }
        ensures cause { IfErr result (λ err. (fault : SetupErr) → err ≡ DriverErr.Setup fault
            → setup_fault place (length mem.old) ≡ Some fault) }
        ensures ok { IfOk result (λ end. (end.place ≡ place) × (end.mem_len ≡ length mem.new)
            × (end.next ≡ 0) × (end.used ≡ 0)) }
        ensures free { IfOk result (λ end. (end.pool.owners ≡ replicate place.size None)
            × (length end.pool.free ≡ place.size)) }
        ensures memory { OnOk result (ClearsRings mem.old mem.new place) }

        // It agrees with the device's end that starts at index 0.
        ensures agree { IfOk result (λ end. Agree end (device_start place (length mem.new) 0) mem.new) }
        ensures err { OnErr result (mem.new ≡ mem.old) }
    {
        let mem_len = mem.len();
        if let Some(fault) = setup_fault(place, mem_len) {
            return Err(DriverErr::Setup(fault));
        }
        let Ok(pool) = Pool::new(alloc, place.size) else {
            return Err(DriverErr::Memory);
        };
        clear_rings(mem, place);
        Ok(DriverEnd {
            place,
            mem_len,
            next: 0,
            used: 0,
            pool,
        })
    }

    /// How many descriptors are free.
    pub fn free_len(&self) -> usize
        ensures value { result ≡ length self.now.pool.free }

        // Its queue lies in the memory, its free descriptors are distinct ones of the queue, and the head of each chain
        // is out in it.
        ensures valid { IsValidDriver self.now }
    {
        self.pool.free_len()
    }

    /// Makes a chain available: the first `readable` pieces are for the device to read, the others for it to write. It
    /// gives the chain's head, and refuses where fewer descriptors are free than there are pieces.
    pub fn post(
        &mut self,
        mem: &mut GuestMem,
        pieces: &[Piece],
        readable: usize,
    ) -> Result<u16, PostErr>
        requires some { 0 < length pieces.now }
        requires within { readable ≤ length pieces.now }
        requires memory { length mem.old ≡ self.old.mem_len }
        ensures answer { result ≡ post_answer self.old (length pieces.now) }
        ensures count { out_count self.old.pool.owners + length self.old.pool.free ≡ self.old.place.size }
        ensures was_free { IfOk result (λ head. (head < self.old.place.size)
            × (owner_of self.old.pool.owners head ≡ None)) }
        ensures memory { OnOk result (mem.new ≡ with_post mem.old self.old pieces.now readable) }
        ensures others { OnOk result (ChangesOnly mem.old mem.new (IsInPost self.old)) }

        // A device's end that agrees pops just these pieces: the readable ones' bytes, joined, and the writable ones.
        ensures pops { IfOk result (λ head. (device : DeviceEndState) → Agree self.old device mem.old
            → ArePostable (length mem.old) self.old.place pieces.now readable
            → pop_answer mem.new device.place device.next
            ≡ Ok (Some (chain_of_pieces mem.old head pieces.now readable))) }
        ensures state { OnOk result (self.new ≡ after_post self.old (length pieces.now)) }
        ensures err { OnErr result (self.new ≡ self.old) }
        ensures err_memory { OnErr result (mem.new ≡ mem.old) }
    {
        let free = self.pool.free_len();
        if free < pieces.len() {
            return Err(PostErr::Full(free as u16));
        }
        let head = self.pool.first();
        put_chain(mem, self.place, &mut self.pool, head, pieces, readable);
        put_available(mem, self.place, self.next, head);
        self.next = self.next.wrapping_add(1);
        Ok(head)
    }

    /// Takes the next chain back that the device gave back: its head, and how many bytes were written into it. Its
    /// descriptors are free from then on.
    pub fn take(&mut self, mem: &GuestMem) -> Result<Option<(u16, u32)>, TakeErr>
        requires { length mem.now ≡ self.old.mem_len }
        ensures answer { result ≡ take_answer mem.now self.old.place self.old.pool self.old.used }
        ensures ok { IfOk result (λ element. MatchOption element (self.new ≡ self.old)
            (λ e. self.new ≡ after_take self.old e.0)) }

        // Each descriptor that was out in the chain is in no chain then, and stands in the free list.
        ensures in_no_chain { IfOk result (λ element. IfSome element (λ e. (number : ℕ)
            → owner_of self.old.pool.owners number ≡ Some e.0 → owner_of self.new.pool.owners number ≡ None)) }
        ensures free_list { IfOk result (λ element. IfSome element (λ e. (number : ℕ)
            → owner_of self.old.pool.owners number ≡ Some e.0 → Contains self.new.pool.free number)) }
        ensures err { OnErr result (self.new ≡ self.old) }
    {
        let element = next_used(mem, self.place, &self.pool, self.used)?;
        if let Some((head, _)) = element {
            self.pool.release(head);
            self.used = self.used.wrapping_add(1);
        }
        Ok(element)
    }
}

/// What stands in the used ring at an index.
#[tactic(auto, unfolding(crate::specs::DriverEnds::take_answer))]
fn next_used(
    mem: &GuestMem,
    place: Place,
    pool: &Pool,
    index: u16,
) -> Result<Option<(u16, u32)>, TakeErr>
    requires { IsPlaced place (length mem.now) }
    ensures answer { result ≡ take_answer mem.now place pool.now index }
    ensures out { IfOk result (λ element. IfSome element (λ e. owner_of pool.now.owners e.0 ≡ Some e.0)) }
{
    let idx = used_idx(mem, place);
    if idx == index {
        return Ok(None);
    }
    if idx.wrapping_sub(index) > place.size {
        return Err(TakeErr::IdxJump(idx));
    }
    let element = place.used_element_addr(index);
    let id = le32_at(mem, element);
    match pool.head_of(id) {
        Some(head) => Ok(Some((head, le32_at(mem, element + 4)))),
        None => Err(TakeErr::BadId(id)),
    }
}

/// Writes the descriptors of a chain, which are out from then on.
fn put_chain(
    mem: &mut GuestMem,
    place: Place,
    pool: &mut Pool,
    head: u16,
    pieces: &[Piece],
    readable: usize,
)
    requires placed { IsPlaced place (length mem.old) }
    requires same_size { length pool.old.owners ≡ place.size }
    requires enough { length pieces.now ≤ length pool.old.free }
    requires first { head ≡ first_free pool.old.free }
    ensures memory { let numbers = chain_numbers (length pieces.now) pool.old.free in
        mem.new ≡ with_descriptors mem.old place numbers pieces.now readable }
    ensures others { ChangesOnly mem.old mem.new (IsInFreeDescriptor place pool.old.owners) }
    ensures pool { pool.new ≡ pool_after_post pool.old (length pieces.now) }
    ensures same_size { length pool.new.owners ≡ place.size }
    ensures lens { All (λ p. p.len < 2 ^ 32) pieces.now }
{
    for (i, piece) in pieces.iter().enumerate() {
        let number = pool.claim(head);
        let descriptor = piece_descriptor(
            *piece,
            readable.saturating_sub(i),
            &pieces[i + 1..],
            pool,
        );
        descriptor.put(mem, place, number);
    }
}

/// The descriptor of a piece, of which on so many are readable, where these follow it.
fn piece_descriptor(piece: Piece, readable: usize, later: &[Piece], pool: &Pool) -> Descriptor
    requires { length later.now ≤ length pool.now.free }
    ensures value { let numbers = chain_numbers (length later.now) pool.now.free in
        result ≡ piece_descriptor piece readable later.now numbers }
    ensures small { piece.len < 2 ^ 32 }
{
    let last = later.is_empty();
    let direction = if readable == 0 { WRITE } else { 0 };
    Descriptor {
        addr: piece.addr,
        len: piece.len,
        flags: if last { direction } else { NEXT + direction },
        next: if last { 0 } else { pool.first() },
    }
}
