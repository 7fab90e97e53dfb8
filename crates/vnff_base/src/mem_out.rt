//! An output in memory, with room for so many bytes, that fails where it is told to.

ghost use Rattle.std.specs.Prelude.{◌≡◌, ◌+◌, ◌<◌, ◌≤◌, [], ◌∷◌, ◌++◌, length, IfOk, OnOk, OnErr, IsErr, Contains, ◌↔◌, ◌⊎◌};
ghost use Rattle.vnff_base.specs.Counts.{count_with};
ghost use Rattle.vnff_base.specs.MemOuts.{output_state};
ghost use Rattle.vnff_base.specs.Outputs.{Writes};

use crate::out::{Failed, Out};
use std::alloc::{AllocError, Global};
use std::marker::Model;

/// An output in memory. It fails at a put past its room, and at the calls that `fail_at` named.
#[derive(Drop)]
pub struct MemOut {
    bytes: Vec<u8>,
    room: usize,
    failing: Vec<u64>,
    calls: u64,
    faults: u64,
}

impl Model for MemOut {
    ghost use Rattle.std.specs.Prelude.{◌≤◌, vec_len, vec_capacity};
    ghost use Rattle.vnff_base.specs.MemOuts.{MemOutState};

    ghost Value = { MemOutState };

    ghost view = { λ o. record {
      bytes = o.bytes.items;
      room = o.room;
      failing = o.failing.items;
      calls = o.calls;
      faults = o.faults;
    } };

    ghost invariant = { λ o. (vec_len o.bytes ≤ o.room) × (o.room ≤ vec_capacity o.bytes) };
}

impl MemOut {
    /// An output with no byte and room for so many, of which no call is to fail.
    pub fn new(alloc: Global, room: usize) -> Result<MemOut, AllocError>
        ensures { IfOk result (λ out. out ≡ record {
          bytes = [];
          room = room;
          failing = [];
          calls = 0;
          faults = 0;
        }) }
    {
        Ok(MemOut {
            bytes: Vec::with_capacity(alloc, room)?,
            room,
            failing: Vec::new(alloc),
            calls: 0,
            faults: 0,
        })
    }

    /// Makes the put of that number fail; puts count from 0.
    pub fn fail_at(&mut self, call: u64) -> Result<(), AllocError>
        ensures ok { OnOk result (self.new ≡ record self.old { failing = self.old.failing ++ call ∷ [] }) }
        ensures err { OnErr result (self.new ≡ self.old) }
    {
        self.failing.push(call)?;
        Ok(())
    }

    /// The bytes written so far.
    pub fn bytes(&self) -> &[u8]
        ensures { result.now ≡ self.now.bytes }
    {
        self.bytes.as_slice()
    }
}

impl Out for MemOut {
    ghost state = { output_state };

    /// Appends the piece, or nothing at all.
    fn put(&mut self, piece: &[u8]) -> Result<(), Failed>
        ensures writes { Writes (output_state self.old) (output_state self.new) piece.now result }
        // It fails at the calls named for it and past its room, and at no other.
        ensures fails { IsErr result
            ↔ (Contains self.old.failing self.old.calls ⊎ (self.old.room < length self.old.bytes + length piece.now)) }
        ensures err { OnErr result (self.new ≡ record self.old {
          calls = count_with self.old.calls 1;
          faults = count_with self.old.faults 1;
        }) }
        ensures ok { OnOk result (self.new ≡ record self.old {
          bytes = self.old.bytes ++ piece.now;
          calls = count_with self.old.calls 1;
        }) }
    {
        let call = self.calls;
        self.calls = call.saturating_add(1);
        if self.failing.contains(&call) || piece.len() > self.room - self.bytes.len() {
            self.faults = self.faults.saturating_add(1);
            return Err(Failed);
        }
        self.bytes.extend_from_slice(piece).unwrap();
        Ok(())
    }
}
