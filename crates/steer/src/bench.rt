//! A device whose commands come through a ring, with the tables that its frames are searched in.
ghost use Rattle.std.specs.Prelude.{◌≡◌, ℕ, ◌<◌, ◌≤◌, length, IfOk};
ghost use Rattle.ff_headers.specs.Frames.{headers_of};
ghost use Rattle.ff_headers.specs.Places.{action_of};
ghost use Rattle.ff_headers.specs.declared.rule.Action.TheVariants as actions;
ghost use Rattle.cap_table.specs.States.{start_state, IsValid};
ghost use Rattle.cap_table.specs.Steps.{reply_of, next_state};
ghost use Rattle.split_queue.specs.Rings.{index_after};
ghost use Rattle.steer.specs.BenchPlaces.{bench_bytes, most_command, most_room};
ghost use Rattle.steer.specs.HeldCommands.{HoldsCommand};

use crate::fresh::{fresh_ends, zero_bytes};
use crate::pieces::Pieces;
use crate::round::{MEMORY_BYTES, PLACE, give_back, obey, pop_chain, post_command, take_back};
use admin_dev::{Device, Start};
use admin_wire::ReplyBytes;
use cap_table::DeviceCaps;
use ff_headers::{Action, Headers, Steps};
use guest_mem::GuestMem;
use matcher::Tables;
use split_queue::{Chain, DeviceEnd, DriverEnd};
use std::alloc::{AllocError, Global};
use std::marker::{Brand, Model};
use std::sync::ledger::{Blank, Ledger};

/// A device, tables to which each change of the device is made as well, and a ring in guest memory through which
/// commands come to it. Contracts see the device's state, the bytes of the memory and the number of commands.
#[derive(Drop)]
pub struct Bench {
    device: Device,
    tables: Tables,
    mem: GuestMem,
    driver_end: DriverEnd,
    device_end: DeviceEnd,
    // where a command's pieces and its chain are put, so that none is moved; no round sees what an earlier one left
    pieces: Pieces,
    chain: Chain,
}

impl Model for Bench {
    ghost use Rattle.steer.specs.BenchState.{BenchState, IsMachine, AreReady};

    ghost Value = { BenchState };

    ghost view = { λ b. record { device = b.device; memory = b.mem; commands = b.driver_end.next } };

    ghost invariant = { λ b. IsMachine b.device b.tables × AreReady b.driver_end b.device_end b.mem };
}

impl Bench {
    /// A device at its start, with no rule in its tables and no command in its ring. All the memory that they will need
    /// is taken here.
    ///
    /// # Errors
    ///
    /// Where memory runs out.
    pub fn new(alloc: Global, caps: DeviceCaps, start: Start) -> Result<Bench, AllocError>
        ensures state { IfOk result (λ bench. bench.device ≡ start_state caps start) }
        ensures memory { IfOk result (λ bench. length bench.memory ≡ bench_bytes) }
        ensures commands { IfOk result (λ bench. bench.commands ≡ 0) }
        ensures valid { IfOk result (λ bench. IsValid bench.device) }
    {
        let tables = Tables::new(alloc, caps.limits())?;
        let device = Device::new(alloc, caps, start)?;
        let mut mem = zero_bytes(alloc, MEMORY_BYTES)?;
        let (driver_end, device_end) = fresh_ends(alloc, PLACE, &mut mem)?;
        Ok(Bench {
            device,
            tables,
            mem,
            driver_end,
            device_end,
            pieces: Pieces::new(),
            chain: Chain::empty(),
        })
    }

    /// Sends a command of 1 to 1,024 bytes through the ring, with room for a reply of so many bytes, at most 4,096, and
    /// gives the reply. The command is cut into pieces of 64 bytes, and the room into pieces of 256.
    pub fn admin(&mut self, bytes: &[u8], room: u32) -> ReplyBytes
        requires some { 0 < length bytes.now }
        requires short { length bytes.now ≤ most_command }
        requires room { room ≤ most_room }
        ensures reply { result.items ≡ reply_of self.old.device bytes.now room }
        ensures state { self.new.device ≡ next_state self.old.device bytes.now room }
        ensures valid { IsValid self.new.device }
        ensures commands { self.new.commands ≡ index_after self.old.commands }
        ensures memory { length self.new.memory ≡ bench_bytes }
        ensures ring { HoldsCommand self.new.memory self.new.commands bytes.now room result.items }
    {
        let _head = post_command(
            &mut self.driver_end,
            &mut self.mem,
            &mut self.pieces,
            bytes,
            room,
        );
        pop_chain(&mut self.device_end, &self.mem, &mut self.chain);
        let space = self.chain.room();
        let command = self.chain.readable.as_slice();
        let reply = obey(&mut self.device, &mut self.tables, command, space);
        give_back(
            &mut self.device_end,
            &mut self.mem,
            &self.chain,
            reply.as_slice(),
        );
        let _element = take_back(&mut self.driver_end, &self.mem);
        reply
    }

    /// What happens to a frame: the action of the first rule that matches it.
    pub fn frame(&self, frame: &[u8]) -> Action
        ensures value { result ≡ action_of self.now.device.objects (headers_of frame.now) }

        // A queue is one of the device's queue pairs.
        ensures queue { (queue : ℕ) → result ≡ actions.Queue queue → queue < self.now.device.caps.pairs }
    {
        first_action::<Brand>(&self.tables, &Headers::parse(frame), Blank::new(1))
    }
}

/// The action of the first rule that matches, by a search whose steps nobody counts.
fn first_action<L: Ledger>(tables: &Tables, headers: &Headers, blank: Blank) -> Action
    requires name { blank.name ≡ L.name }
    requires parts { blank.parts ≡ L.parts }
    requires some { 0 < blank.parts }
    ensures { result ≡ action_of tables.now.objects headers.now }
{
    let mut steps = Steps::<L>::new(blank);
    tables.find(headers, &mut steps).action
}
