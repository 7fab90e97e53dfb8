//! The steps of a command through the ring.
ghost use Rattle.std.specs.Prelude.{◌≡◌, ℕ, ◌^◌, ◌<◌, ◌≤◌, Some, Ok, All, length};
ghost use Rattle.cap_table.specs.Steps.{reply_of, next_state};
ghost use Rattle.cap_table.specs.declared.answer.Effect.{Effect};
ghost use Rattle.split_queue.specs.Agreement.{Agree};
ghost use Rattle.split_queue.specs.Chains.{room_of, PieceLiesIn, with_bytes_in};
ghost use Rattle.split_queue.specs.DeviceEnds.{DeviceEndState, pop_answer, after_pop, after_push};
ghost use Rattle.split_queue.specs.DriverEnds.{IsValidDriver, post_answer, after_post, take_answer, after_take};
ghost use Rattle.split_queue.specs.Rings.{with_used_entry};
ghost use Rattle.split_queue.specs.declared.chain.Chain.{Chain};
ghost use Rattle.steer.specs.BenchPlaces.{bench_bytes, bench_size, bench_place, most_command, most_room, chain_pieces, chain_with};
ghost use Rattle.steer.specs.BenchState.{IsMachine, changed_by};
ghost use Rattle.steer.specs.Rounds.{with_posted};

use crate::pieces::{Pieces, add_pieces};
use admin_dev::{Decision, Device, Effect};
use admin_wire::ReplyBytes;
use guest_mem::GuestMem;
use matcher::Tables;
use split_queue::{Chain, DeviceEnd, DriverEnd, Place};

/// The bytes of the guest memory.
pub(crate) const MEMORY_BYTES: usize = 8192;

/// Where the ring lies.
pub(crate) const PLACE: Place = Place {
    size: 64,
    desc: 0,
    avail: 1024,
    used: 2048,
};

// Where a command stands, and the room for its reply.
const COMMAND_ADDR: u64 = 3072;

const REPLY_ADDR: u64 = 4096;

// How many bytes a piece of each has.
const COMMAND_STEP: u32 = 64;

const ROOM_STEP: u32 = 256;

/// Writes a command into the memory, and posts a chain for it: its pieces for the device to read, and those of the room
/// for it to write. It gives the chain's head. The pieces are put where others stood.
pub(crate) fn post_command(
    driver_end: &mut DriverEnd,
    mem: &mut GuestMem,
    pieces: &mut Pieces,
    bytes: &[u8],
    room: u32,
) -> u16
    requires some { 0 < length bytes.now }
    requires short { length bytes.now ≤ most_command }
    requires room { room ≤ most_room }
    requires place { driver_end.old.place ≡ bench_place }
    requires memory { length mem.old ≡ bench_bytes }
    requires known { driver_end.old.mem_len ≡ bench_bytes }
    requires all_free { length driver_end.old.pool.free ≡ bench_size }
    ensures head { post_answer driver_end.old (length (chain_pieces (length bytes.now) room)) ≡ Ok result }
    ensures memory { mem.new ≡ with_posted mem.old driver_end.old bytes.now room }
    ensures state { driver_end.new ≡ after_post driver_end.old (length (chain_pieces (length bytes.now) room)) }
    ensures valid { IsValidDriver driver_end.old }

    // A device's end that agrees pops just this command, with the room.
    ensures pops { (device : DeviceEndState) → Agree driver_end.old device mem.old
        → pop_answer mem.new device.place device.next ≡ Ok (Some (chain_with result bytes.now room)) }
{
    // Its clause says that the driver's end is valid.
    let _ = driver_end.free_len();
    mem.write(COMMAND_ADDR, bytes).unwrap();
    pieces.clear();
    add_pieces(pieces, COMMAND_ADDR, bytes.len() as u32, COMMAND_STEP);
    let readable = pieces.len();
    add_pieces(pieces, REPLY_ADDR, room, ROOM_STEP);
    driver_end.post(mem, pieces.as_slice(), readable).unwrap()
}

/// Takes the chain that stands next in the available ring.
pub(crate) fn pop_chain(device_end: &mut DeviceEnd, mem: &GuestMem, chain: &mut Chain)
    requires memory { length mem.now ≡ device_end.old.mem_len }
    requires some { (next : Chain) × (pop_answer mem.now device_end.old.place device_end.old.next ≡ Ok (Some next)) }
    ensures value { pop_answer mem.now device_end.old.place device_end.old.next ≡ Ok (Some chain.new) }
    ensures state { device_end.new ≡ after_pop device_end.old }
{
    let _found = device_end.pop_into(mem, chain).unwrap();
}

/// Carries a command out: the device commits what it decided, and its change is made to the tables as well.
pub(crate) fn obey(device: &mut Device, tables: &mut Tables, bytes: &[u8], room: u64) -> ReplyBytes
    requires { IsMachine device.old tables.old }
    ensures reply { result.items ≡ reply_of device.old bytes.now room }
    ensures state { device.new ≡ next_state device.old bytes.now room }
    ensures machine { IsMachine device.new tables.new }
{
    let Decision { reply, effect } = device.decide(bytes, room);
    change(tables, &effect);
    device.commit(effect);
    reply
}

/// Makes the change of an effect to the tables.
fn change(tables: &mut Tables, effect: &Effect)
    ensures { tables.new ≡ changed_by effect.now tables.old }
{
    if let Effect::Change(change) = effect {
        tables.apply_copy(change);
    }
}

/// Writes a reply into a chain's writable buffers, and gives the chain back with the reply's length.
pub(crate) fn give_back(device_end: &mut DeviceEnd, mem: &mut GuestMem, chain: &Chain, reply: &[u8])
    requires memory { length mem.old ≡ device_end.old.mem_len }
    requires inside { All (PieceLiesIn (length mem.old)) chain.now.writable.items }
    requires fits { length reply.now ≤ room_of chain.now.writable.items }
    requires short { length reply.now < 2 ^ 32 }
    ensures memory { let at_push = with_bytes_in mem.old chain.now.writable.items reply.now in
        mem.new ≡ with_used_entry at_push device_end.old.place device_end.old.used chain.now.head (length reply.now) }
    ensures state { device_end.new ≡ after_push device_end.old }
{
    let len = chain.scatter(mem, reply);
    device_end.push_used(mem, chain.head, len);
}

/// Takes the chain back that stands next in the used ring: its head, and how many bytes were written into it.
pub(crate) fn take_back(driver_end: &mut DriverEnd, mem: &GuestMem) -> (u16, u32)
    requires memory { length mem.now ≡ driver_end.old.mem_len }
    requires some { (element : ℕ × ℕ)
        × (take_answer mem.now driver_end.old.place driver_end.old.pool driver_end.old.used ≡ Ok (Some element)) }
    ensures value { take_answer mem.now driver_end.old.place driver_end.old.pool driver_end.old.used
        ≡ Ok (Some result) }
    ensures state { driver_end.new ≡ after_take driver_end.old result.0 }
{
    driver_end.take(mem).unwrap().unwrap()
}
