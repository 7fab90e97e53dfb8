//! A sink in memory, with room for so many frames and bytes, that fails where it is told to.

ghost use Rattle.std.specs.Prelude.{◌≡◌, ◌↔◌, ◌⊎◌, ◌+◌, ◌<◌, ◌≤◌, [], ◌∷◌, ◌++◌, length, IfOk, OnOk, OnErr, IsErr, IsTrue, Contains};
ghost use Rattle.vnff_base.specs.Counts.{count_with};
ghost use Rattle.rx_sinks.specs.MemSinks.{mem_state, byte_count, IsPastRoom};
ghost use Rattle.rx_sinks.specs.Sinks.{Delivers, Finishes};

use crate::rx_sink::RxSink;
use capture::piece_at;
use std::alloc::{AllocError, Global};
use std::marker::Model;
use vnff_base::Failed;

/// A sink in memory, which keeps its frames and gives them. It fails at a frame past its room, and at the calls that
/// `fail_at` named. The bytes of all frames stand in one vector, and the places at which they end in another.
#[derive(Debug, Drop)]
pub struct MemSink {
    bytes: Vec<u8>,
    places: Vec<usize>,
    room: usize,
    byte_room: usize,
    failing: Vec<u64>,
    calls: u64,
    faults: u64,
    ends: u64,
}

impl Model for MemSink {
    ghost use Rattle.std.specs.Prelude.{◌≡◌, ◌≤◌, ◌∷◌, length, vec_len, vec_capacity};
    ghost use Rattle.capture.specs.Pieces.{pieces, ArePlaces};
    ghost use Rattle.rx_sinks.specs.MemSinks.{MemSinkState, byte_count};

    ghost Value = { MemSinkState };

    ghost view = { λ s. record {
      frames = pieces s.bytes.items (0 ∷ s.places.items);
      room = s.room;
      byte_room = s.byte_room;
      failing = s.failing.items;
      calls = s.calls;
      faults = s.faults;
      ends = s.ends;
    } };

    ghost invariant = { λ s. ArePlaces s.bytes.items (0 ∷ s.places.items)
        × (byte_count (pieces s.bytes.items (0 ∷ s.places.items)) ≡ vec_len s.bytes)
        × (vec_len s.places ≤ s.room) × (s.room ≤ vec_capacity s.places)
        × (vec_len s.bytes ≤ s.byte_room) × (s.byte_room ≤ vec_capacity s.bytes) };
}

impl MemSink {
    /// A sink with no frame and room for so many frames with so many bytes in all, of which no call is to fail.
    pub fn new(alloc: Global, frames: usize, bytes: usize) -> Result<MemSink, AllocError>
        ensures { IfOk result (λ sink. sink ≡ record {
          frames = [];
          room = frames;
          byte_room = bytes;
          failing = [];
          calls = 0;
          faults = 0;
          ends = 0;
        }) }
    {
        Ok(MemSink {
            bytes: Vec::with_capacity(alloc, bytes)?,
            places: Vec::with_capacity(alloc, frames)?,
            room: frames,
            byte_room: bytes,
            failing: Vec::new(alloc),
            calls: 0,
            faults: 0,
            ends: 0,
        })
    }

    /// Makes the call of that number fail; `deliver` and `finish` are counted together, from 0.
    pub fn fail_at(&mut self, call: u64) -> Result<(), AllocError>
        ensures ok { OnOk result (self.new ≡ record self.old { failing = self.old.failing ++ call ∷ [] }) }
        ensures err { OnErr result (self.new ≡ self.old) }
    {
        self.failing.push(call)?;
        Ok(())
    }

    /// Counts a call, and says whether it is to fail.
    fn is_to_fail(&mut self) -> bool
        ensures answer { IsTrue result ↔ Contains self.old.failing self.old.calls }
        ensures counted { self.new ≡ record self.old { calls = count_with self.old.calls 1 } }
    {
        let call = self.calls;
        self.calls = call.saturating_add(1);
        self.failing.contains(&call)
    }

    /// Whether there is room for one more frame.
    #[tactic(auto, using(capture::proofs::PieceLemmas::piece_facts))]
    fn has_room(&self, frame: &[u8]) -> bool
        ensures roomy { IsTrue result → length self.now.frames < self.now.room }
        ensures roomy_bytes { IsTrue result → byte_count self.now.frames + length frame.now ≤ self.now.byte_room }
        ensures past { (IsTrue result → ⊥) → IsPastRoom self.now frame.now }
    {
        self.places.len() < self.room && frame.len() <= self.byte_room - self.bytes.len()
    }

    /// Counts a failure.
    fn fail(&mut self) -> Failed
        ensures counted { self.new ≡ record self.old { faults = count_with self.old.faults 1 } }
        ensures grew { self.old.faults ≤ self.new.faults }
    {
        self.faults = self.faults.saturating_add(1);
        Failed
    }

    /// Keeps a frame for which there is room.
    fn keep(&mut self, frame: &[u8])
        requires room { length self.old.frames < self.old.room }
        requires bytes { byte_count self.old.frames + length frame.now ≤ self.old.byte_room }
        ensures { self.new ≡ record self.old { frames = self.old.frames ++ frame.now ∷ [] } }
    {
        self.bytes.extend_from_slice(frame).unwrap();
        self.places.push_reserved(self.bytes.len());
    }
}

impl RxSink for MemSink {
    ghost state = { mem_state };

    /// Keeps the frame.
    fn deliver(&mut self, frame: &[u8]) -> Result<(), Failed>
        ensures delivers { Delivers (mem_state self.old) (mem_state self.new) frame.now result }
        // It fails at the calls named for it and past its room, and at no other.
        ensures fails { IsErr result
            ↔ (Contains self.old.failing self.old.calls ⊎ IsPastRoom self.old frame.now) }
        ensures err { OnErr result (self.new ≡ record self.old {
          calls = count_with self.old.calls 1;
          faults = count_with self.old.faults 1;
        }) }
        ensures ok { OnOk result (self.new ≡ record self.old {
          frames = self.old.frames ++ frame.now ∷ [];
          calls = count_with self.old.calls 1;
        }) }
    {
        if self.is_to_fail() || !self.has_room(frame) {
            return Err(self.fail());
        }
        self.keep(frame);
        Ok(())
    }

    /// Counts the finish.
    fn finish(&mut self) -> Result<(), Failed>
        ensures finishes { Finishes (mem_state self.old) (mem_state self.new) result }
        // It fails at the calls named for it, and at no other.
        ensures fails { IsErr result ↔ Contains self.old.failing self.old.calls }
        ensures err { OnErr result (self.new ≡ record self.old {
          calls = count_with self.old.calls 1;
          faults = count_with self.old.faults 1;
          ends = count_with self.old.ends 1;
        }) }
        ensures ok { OnOk result (self.new ≡ record self.old {
          calls = count_with self.old.calls 1;
          ends = count_with self.old.ends 1;
        }) }
    {
        self.ends = self.ends.saturating_add(1);
        if self.is_to_fail() {
            return Err(self.fail());
        }
        Ok(())
    }

    fn told(&self, place: usize) -> Option<&[u8]> {
        piece_at(&self.bytes, &self.places, place)
    }

    fn ended(&self) -> Option<u64> {
        Some(self.ends)
    }
}
