//! The device's end of a queue.
ghost use Rattle.std.specs.Prelude.{◌≡◌, ◌↔◌, All, None, true, false, if◌then◌else◌, length, IfOk, IfErr, IfSome, MatchOption, OnErr};
ghost use Rattle.std.specs.Result.{result_err};
ghost use Rattle.guest_mem.specs.Memory.{ChangesOnly};
ghost use Rattle.split_queue.specs.Chains.{PieceLiesIn};
ghost use Rattle.split_queue.specs.DeviceEnds.{device_start, pop_answer, answer_with, after_pop, after_push};
ghost use Rattle.split_queue.specs.Errors.{IsRingFault};
ghost use Rattle.split_queue.specs.Rings.{available_idx, available_head, with_used_entry, IsInUsedEntry};
ghost use Rattle.split_queue.specs.Setup.{setup_fault, IsPlaced};
ghost use Rattle.split_queue.specs.Walks.{bare_chain, HasWalk};

use crate::chain::Chain;
use crate::error::{RingErr, SetupErr};
use crate::queue_place::Place;
use crate::ring::{available_head, available_idx, put_used};
use crate::setup::setup_fault;
use crate::walk::fill_chain;
use guest_mem::GuestMem;
use std::marker::Model;

/// Takes the chains that a driver made available, and gives them back.
#[derive(Debug, Drop)]
pub struct DeviceEnd {
    place: Place,
    mem_len: u64,
    // the available index at which the next chain stands
    next: u16,
    // the used index at which the next element goes
    used: u16,
}

impl Model for DeviceEnd {
    ghost use Rattle.split_queue.specs.DeviceEnds.{DeviceEndState};
    ghost use Rattle.split_queue.specs.Setup.{IsPlaced};

    ghost Value = { DeviceEndState };

    ghost view = { λ e. record { place = e.place; mem_len = e.mem_len; next = e.next; used = e.used } };

    ghost invariant = { λ e. IsPlaced e.place e.mem_len };
}

impl DeviceEnd {
    /// The end of a queue that lies at the place. Both indexes start at `next`, which is 0 for a fresh queue.
    pub fn new(place: Place, next: u16, mem: &GuestMem) -> Result<DeviceEnd, SetupErr>
        ensures ok { IfOk result (λ end. end ≡ device_start place (length mem.now) next) }
        ensures err { result_err result ≡ setup_fault place (length mem.now) }
    {
        let mem_len = mem.len();
        match setup_fault(place, mem_len) {
            Some(fault) => Err(fault),
            None => Ok(DeviceEnd {
                place,
                mem_len,
                next,
                used: next,
            }),
        }
    }

    /// The next chain that the driver made available, or None where there is none. After a refusal the end is as it
    /// was, so the next call on the same memory answers the same.
    pub fn pop(&mut self, mem: &GuestMem) -> Result<Option<Chain>, RingErr>
        requires { length mem.now ≡ self.old.mem_len }
        ensures answer { result ≡ pop_answer mem.now self.old.place self.old.next }
        ensures none { (result ≡ Ok None) ↔ (available_idx mem.now self.old.place ≡ self.old.next) }
        ensures head { IfOk result (λ chain. IfSome chain (λ c.
            c.head ≡ available_head mem.now self.old.place self.old.next)) }
        ensures walk { IfOk result (λ chain. IfSome chain (HasWalk mem.now self.old.place)) }
        ensures inside { IfOk result (λ chain. IfSome chain (λ c.
            All (PieceLiesIn (length mem.now)) c.writable.items)) }
        ensures fault { IfErr result (IsRingFault mem.now self.old.place self.old.next) }
        ensures ok { IfOk result (λ chain. MatchOption chain (self.new ≡ self.old)
            (λ _. self.new ≡ after_pop self.old)) }
        ensures err { OnErr result (self.new ≡ self.old) }
    {
        let mut chain = Chain::empty();
        let found = self.pop_into(mem, &mut chain)?;
        Ok(if found { Some(chain) } else { None })
    }

    /// Like `pop`, into the caller's chain, so that none is moved: it tells whether there was a next chain, which the
    /// caller's is then. Where there was none, the caller's stays as it was; after a refusal it is empty.
    pub fn pop_into(&mut self, mem: &GuestMem, chain: &mut Chain) -> Result<bool, RingErr>
        requires { length mem.now ≡ self.old.mem_len }
        ensures answer { answer_with chain.new result ≡ pop_answer mem.now self.old.place self.old.next }
        ensures none { (result ≡ Ok false) ↔ (available_idx mem.now self.old.place ≡ self.old.next) }
        ensures head { IfOk result (λ found. found ≡ true
            → chain.new.head ≡ available_head mem.now self.old.place self.old.next) }
        ensures walk { IfOk result (λ found. found ≡ true → HasWalk mem.now self.old.place chain.new) }
        ensures inside { IfOk result (λ found. found ≡ true
            → All (PieceLiesIn (length mem.now)) chain.new.writable.items) }
        ensures fault { IfErr result (IsRingFault mem.now self.old.place self.old.next) }
        ensures ok { IfOk result (λ found. self.new ≡ (if found then after_pop self.old else self.old)) }
        ensures stays { IfOk result (λ found. found ≡ false → chain.new ≡ chain.old) }
        ensures err { OnErr result (self.new ≡ self.old) }
        ensures emptied { OnErr result (chain.new ≡ bare_chain 0) }
    {
        match next_chain(mem, self.place, self.next, chain) {
            Ok(found) => {
                if found {
                    self.next = self.next.wrapping_add(1);
                }
                Ok(found)
            }
            Err(fault) => {
                chain.clear(0);
                Err(fault)
            }
        }
    }

    /// Gives a chain back, with the number of bytes that were written into it.
    pub fn push_used(&mut self, mem: &mut GuestMem, head: u16, len: u32)
        requires { length mem.old ≡ self.old.mem_len }
        ensures memory { mem.new ≡ with_used_entry mem.old self.old.place self.old.used head len }
        ensures others { ChangesOnly mem.old mem.new (IsInUsedEntry self.old.place self.old.used) }
        ensures state { self.new ≡ after_push self.old }
    {
        put_used(mem, self.place, self.used, head, len);
        self.used = self.used.wrapping_add(1);
    }
}

/// Fills the chain with what stands in the available ring at an index, and tells whether anything does.
#[tactic(auto, unfolding(crate::specs::DeviceEnds::pop_answer))]
fn next_chain(mem: &GuestMem, place: Place, index: u16, chain: &mut Chain) -> Result<bool, RingErr>
    requires { IsPlaced place (length mem.now) }
    ensures answer { answer_with chain.new result ≡ pop_answer mem.now place index }
    ensures none { (result ≡ Ok false) ↔ (available_idx mem.now place ≡ index) }
    ensures head { IfOk result (λ found. found ≡ true → chain.new.head ≡ available_head mem.now place index) }
    ensures walk { IfOk result (λ found. found ≡ true → HasWalk mem.now place chain.new) }
    ensures inside { IfOk result (λ found. found ≡ true → All (PieceLiesIn (length mem.now)) chain.new.writable.items) }
    ensures fault { IfErr result (IsRingFault mem.now place index) }
    ensures stays { IfOk result (λ found. found ≡ false → chain.new ≡ chain.old) }
{
    let idx = available_idx(mem, place);
    if idx == index {
        return Ok(false);
    }
    if idx.wrapping_sub(index) > place.size {
        return Err(RingErr::IdxJump(idx));
    }
    let head = available_head(mem, place, index);
    if head >= place.size {
        return Err(RingErr::BadHead(head));
    }
    match fill_chain(mem, place, head, chain) {
        Ok(()) => Ok(true),
        Err(fault) => Err(fault),
    }
}
