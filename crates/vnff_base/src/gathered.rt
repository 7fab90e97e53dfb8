//! A text that is put to an output in large pieces.

ghost use Rattle.std.specs.Prelude.{◌≡◌, ◌+◌, ◌≤◌, [], ◌++◌, length, IfOk};
ghost use Rattle.vnff_base.specs.Gatherings.{Gathers};
ghost use Rattle.vnff_base.specs.Outputs.{Writes};

use crate::out::{Failed, Out};
use std::alloc::{AllocError, Global};
use std::marker::Model;

/// How many bytes wait at most.
const ROOM: usize = 65_536;

/// The bytes of a text that wait to be put to an output, which is the same one in each call. Contracts see these bytes.
///
/// It is no output itself: where a put to the output fails, bytes may be lost that were taken long before.
#[derive(Debug, Drop)]
pub struct Gathered {
    waiting: Vec<u8>,
}

impl Model for Gathered {
    ghost use Rattle.std.specs.Prelude.{◌≤◌, ℕ, List, vec_len, vec_capacity};

    ghost Value = { List ℕ };

    ghost view = { λ g. g.waiting.items };

    ghost invariant = { λ g. (vec_len g.waiting ≤ 65536) × (65536 ≤ vec_capacity g.waiting) };
}

impl Gathered {
    /// No byte that waits. All the room that is ever needed is taken here.
    pub fn new(alloc: Global) -> Result<Gathered, AllocError>
        ensures { IfOk result (λ gathered. gathered ≡ []) }
    {
        Ok(Gathered {
            waiting: Vec::with_capacity(alloc, ROOM)?,
        })
    }

    /// Takes a piece of the text. Where there is no room for it, what waits is put first.
    pub fn put<O: Out>(&mut self, out: &mut O, piece: &[u8]) -> Result<(), Failed>
        ensures { Gathers (O.state out.old) (O.state out.new) self.old self.new piece.now result }
    {
        if piece.len() <= ROOM - self.waiting.len() {
            self.keep(piece);
            return Ok(());
        }
        self.finish(out)?;
        self.put_first(out, piece)
    }

    /// Puts what waits.
    pub fn finish<O: Out>(&mut self, out: &mut O) -> Result<(), Failed>
        ensures written { Writes (O.state out.old) (O.state out.new) self.old result }
        ensures emptied { self.new ≡ [] }
    {
        if self.waiting.is_empty() {
            return Ok(());
        }
        let put = out.put(self.waiting.as_slice());
        self.waiting.clear();
        put
    }

    /// Takes a piece where nothing waits. One that is longer than the room is put at once.
    fn put_first<O: Out>(&mut self, out: &mut O, piece: &[u8]) -> Result<(), Failed>
        requires { self.old ≡ [] }
        ensures { Gathers (O.state out.old) (O.state out.new) [] self.new piece.now result }
    {
        if piece.len() > ROOM {
            return out.put(piece);
        }
        self.keep(piece);
        Ok(())
    }

    /// Keeps a piece for which there is room.
    fn keep(&mut self, piece: &[u8])
        requires { length self.old + length piece.now ≤ 65536 }
        ensures { self.new ≡ self.old ++ piece.now }
    {
        self.waiting.extend_from_slice(piece).unwrap();
    }
}
