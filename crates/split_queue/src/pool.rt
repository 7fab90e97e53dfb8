//! The descriptors of a driver's table: which are free, and which are out in which chain.
ghost use Rattle.std.specs.Prelude.{◌≡◌, ◌+◌, ◌^◌, ◌<◌, ◌≤◌, ◌⊎◌, ◌∷◌, ◌++◌, [], Some, None, replicate, map, length, take, drop, slice_set, vec_capacity, if◌then◌else◌, IsSome, IfOk, IfSome};
ghost use Rattle.std.specs.List.Sorted.{IsPermutation, IsNonDecreasing};
ghost use Rattle.split_queue.specs.Pools.{owner_of, first_free, is_chain_head, owner_after_release, after_release, out_count, AreFree, HeadsAreOut, HasLinkedChain, AreOut, IsPool};

use std::alloc::{AllocError, Global};
use std::marker::Model;

/// Which descriptors are free. The room for all is reserved when it is made.
#[derive(Debug, Drop)]
pub(crate) struct Pool {
    // for each descriptor the head of the chain in which it is out
    owners: Vec<Option<u16>>,
    // for each that is out the next one of its chain, and behind the last one the head: the way of a release
    links: Vec<u16>,
    // the free ones; the last is given out first
    free: Vec<u16>,
}

impl Model for Pool {
    ghost use Rattle.std.specs.Prelude.{vec_capacity};
    ghost use Rattle.split_queue.specs.Pools.{PoolState, IsPool, AreChains};

    ghost Value = { PoolState };

    ghost view = { λ p. record { owners = p.owners.items; free = p.free.items } };

    ghost invariant = { λ p. IsPool p.owners.items p.free.items (vec_capacity p.free)
        × AreChains p.owners.items p.links.items };
}

impl Pool {
    /// So many descriptors, all free.
    pub(crate) fn new(alloc: Global, size: u16) -> Result<Pool, AllocError>
        ensures owners { IfOk result (λ pool. pool.owners ≡ replicate size None) }
        ensures count { IfOk result (λ pool. length pool.free ≡ size) }
    {
        let mut free = Vec::with_capacity(alloc, size as usize)?;
        for i in 0..size {
            free.push_reserved(size - 1 - i);
        }
        Ok(Pool {
            owners: vec![in alloc; None; size as usize]?,
            links: vec![in alloc; 0; size as usize]?,
            free,
        })
    }

    /// How many descriptors are free.
    pub(crate) fn free_len(&self) -> usize
        ensures value { result ≡ length self.now.free }
        ensures count { out_count self.now.owners + result ≡ length self.now.owners }
        ensures small { result < 2 ^ 16 }
        ensures free_list { AreFree self.now.owners self.now.free }
        ensures few { length self.now.owners < 2 ^ 16 }
        ensures heads { HeadsAreOut self.now.owners }
    {
        self.free.len()
    }

    /// The free descriptor that is given out next.
    pub(crate) fn first(&self) -> u16
        requires { 0 < length self.now.free }
        ensures value { result ≡ first_free self.now.free }
        ensures was_free { owner_of self.now.owners result ≡ None }
        ensures within { result < length self.now.owners }
    {
        self.free[self.free.len() - 1]
    }

    /// Gives out a free descriptor, in the chain of a head: as the head, or where the head is out already.
    pub(crate) fn claim(&mut self, head: u16) -> u16
        requires some { 0 < length self.old.free }
        requires known { (first_free self.old.free ≡ head) ⊎ (owner_of self.old.owners head ≡ Some head) }
        ensures free { self.old.free ≡ self.new.free ++ result ∷ [] }
        ensures owners { self.new.owners ≡ slice_set self.old.owners result (Some head) }
        ensures was_free { owner_of self.old.owners result ≡ None }
        ensures within { result < length self.old.owners }
    {
        let number = self.free.pop().unwrap();
        self.owners[number as usize] = Some(head);
        self.links[number as usize] = self.links[head as usize];
        self.links[head as usize] = number;
        number
    }

    /// The number as a head, where it is the head of a chain that is out.
    pub(crate) fn head_of(&self, id: u32) -> Option<u16>
        ensures value { result ≡ (if is_chain_head self.now.owners id then Some id else None) }
        ensures out { IfSome result (λ head. owner_of self.now.owners head ≡ Some head) }
    {
        match self.owners.get(id as usize) {
            Some(Some(head)) if *head as u32 == id => Some(*head),
            _ => None,
        }
    }

    /// Takes back the descriptors of a chain, which stand in the free list by their numbers then. It goes along the
    /// chain alone.
    pub(crate) fn release(&mut self, head: u16)
        requires { owner_of self.old.owners head ≡ Some head }
        ensures { self.new ≡ after_release self.old head }
    {
        let kept = self.free.len();
        free_chain(&mut self.owners, &self.links, &mut self.free, head);
        sort_behind(&mut self.free, kept);
    }
}

/// Frees the descriptors of a chain, along their links.
fn free_chain(owners: &mut Vec<Option<u16>>, links: &[u16], free: &mut Vec<u16>, head: u16)
    requires chain { HasLinkedChain owners.old.items links.now head }
    requires same_size { length links.now ≡ length owners.old.items }
    requires pool { IsPool owners.old.items free.old.items (vec_capacity free.old) }
    ensures owners { owners.new.items ≡ map (owner_after_release head) owners.old.items }
    ensures front { take (length free.old.items) free.new.items ≡ free.old.items }
    ensures out { AreOut head owners.old.items (drop (length free.old.items) free.new.items) }
    ensures room { vec_capacity free.new ≡ vec_capacity free.old }
{
    let mut number = links[head as usize];
    while number != head {
        free_one(owners, free, number);
        number = links[number as usize];
    }
    free_one(owners, free, head);
}

/// Frees a descriptor that is out.
fn free_one(owners: &mut Vec<Option<u16>>, free: &mut Vec<u16>, number: u16)
    requires out { IsSome (owner_of owners.old.items number) }
    requires pool { IsPool owners.old.items free.old.items (vec_capacity free.old) }
    ensures owners { owners.new.items ≡ slice_set owners.old.items number None }
    ensures free { free.new.items ≡ free.old.items ++ number ∷ [] }
    ensures room { vec_capacity free.new ≡ vec_capacity free.old }
    ensures pool { IsPool owners.new.items free.new.items (vec_capacity free.new) }
{
    owners[number as usize] = None;
    free.push_reserved(number);
}

/// Sorts the numbers behind the first ones.
fn sort_behind(numbers: &mut Vec<u16>, kept: usize)
    requires { kept ≤ length numbers.old.items }
    ensures front { take kept numbers.new.items ≡ take kept numbers.old.items }
    ensures moved { IsPermutation (drop kept numbers.old.items) (drop kept numbers.new.items) }
    ensures sorted { IsNonDecreasing (drop kept numbers.new.items) }
    ensures room { vec_capacity numbers.new ≡ vec_capacity numbers.old }
{
    numbers[kept..].sort_unstable();
}
