//! Laws of the two ends together. Each call does nothing: its contract is the law.

ghost use Rattle.std.specs.Prelude.{◌≡◌, ℕ, List, length, Some, Ok, All};
ghost use Rattle.guest_mem.specs.Memory.{ChangesOnly};
ghost use Rattle.split_queue.specs.Agreement.{Agree, IsClearOf, KeepsQueue, Round, IsRound, after_round, IsReplyRound, HoldsAnswer, chain_of_pieces};
ghost use Rattle.split_queue.specs.Chains.{IsInPieces};
ghost use Rattle.split_queue.specs.DeviceEnds.{DeviceEndState, after_pop, after_push};
ghost use Rattle.split_queue.specs.DriverEnds.{DriverEndState, after_post, take_answer};
ghost use Rattle.split_queue.specs.declared.chain.Piece.{Piece};
ghost use Rattle.split_queue.specs.declared.queue_place.Place.{Place};

use crate::driver_end::DriverEnd;

/// Ends that agree still do after a write outside of the queue's areas.
pub fn other_bytes_keep_agreement()
    ensures { (driver : DriverEndState) (device : DeviceEndState) (before after : List ℕ) → Agree driver device before
        → KeepsQueue before after driver.place → Agree driver device after }
{}

/// A reply that is written into pieces that are clear of the queue leaves its areas as they were.
pub fn writable_pieces_keep_the_queue()
    ensures { (before after : List ℕ) (place : Place) (pieces : List Piece)
        → ChangesOnly before after (IsInPieces pieces) → All (IsClearOf place) pieces
        → KeepsQueue before after place }
{}

/// A round of post, pop, push_used and take, from a driver's end before the post: the take gives the chain that was
/// pushed, with its length, the ends agree again, and as many descriptors are free as before.
pub fn rounds_keep_agreement(driver: &DriverEnd)
    ensures takes { (device : DeviceEndState) (round : Round) → IsRound driver.now device round
        → let out = after_post driver.now (length round.pieces) in
        take_answer round.at_take out.place out.pool out.used ≡ Ok (Some (round.head, round.len)) }
    ensures agree { (device : DeviceEndState) (round : Round) → IsRound driver.now device round
        → Agree (after_round driver.now round) (after_push (after_pop device)) round.at_take }
    ensures frees { (device : DeviceEndState) (round : Round) → IsRound driver.now device round
        → length (after_round driver.now round).pool.free ≡ length driver.now.pool.free }
{
    let _ = driver.free_len();
}

/// After a round in which the device wrote a reply into the chain's writable pieces, the queue holds both: the slot
/// that was filled last has the head of the chain that was posted, whose readable part is the command still. The
/// longest walk from that head holds just the pieces that were posted, in order, each readable or writable as it was.
/// The writable buffers begin with the reply, and the used element that was written last names the head and the length.
/// The writable pieces share no byte with the readable ones, nor with one another.
pub fn rounds_leave_the_answer(driver: &DriverEnd)
    ensures { (device : DeviceEndState) (round : Round) (reply : List ℕ) → IsReplyRound driver.now device round reply
        → let chain = chain_of_pieces round.at_post round.head round.pieces round.readable in
        HoldsAnswer round.at_take driver.now.place chain round.pieces round.readable reply round.len }
{
    let _ = driver.free_len();
}
