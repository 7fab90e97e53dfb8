//! What a device gets of a queue: a chain of buffers.
ghost use Rattle.std.specs.Prelude.{◌≡◌, ◌^◌, ◌<◌, All, length, min};
ghost use Rattle.guest_mem.specs.Memory.{ChangesOnly};
ghost use Rattle.split_queue.specs.Chains.{room_of, PieceLiesIn, with_bytes_in, IsInPieces};
ghost use Rattle.split_queue.specs.Walks.{bare_chain};

use arrayvec::ArrayVec;
use guest_mem::GuestMem;

/// How many descriptors a chain has at most.
pub const MOST_DESCRIPTORS: usize = 64;

/// How many bytes of a chain's readable buffers there are at most.
pub const MOST_READABLE: usize = 1024;

/// A buffer of the guest.
#[derive(Clone, Copy, Debug, Default, PartialEq, Eq)]
pub struct Piece {
    /// Where it begins.
    pub addr: u64,
    /// How many bytes it has.
    pub len: u32,
}

/// A chain that the driver made available.
#[derive(Debug, Drop, PartialEq)]
pub struct Chain {
    /// The number of its first descriptor.
    pub head: u16,
    /// The bytes that the driver gave, from all of its readable buffers.
    pub readable: ArrayVec<u8, MOST_READABLE>,
    /// The buffers that the device may write, in order.
    pub writable: ArrayVec<Piece, MOST_DESCRIPTORS>,
}

impl Chain {
    /// A chain with no buffer, and 0 for its head.
    pub fn empty() -> Chain
        ensures { result ≡ bare_chain 0 }
    {
        Chain {
            head: 0,
            readable: ArrayVec::new(),
            writable: ArrayVec::new(),
        }
    }

    /// Empties it, for the chain of a head. Only what it holds is blanked, so this costs no more than its buffers do.
    pub(crate) fn clear(&mut self, head: u16)
        ensures { self.new ≡ bare_chain head }
    {
        self.head = head;
        self.readable.clear();
        self.writable.clear();
    }

    /// The bytes that the device may write.
    pub fn room(&self) -> u64
        ensures { result ≡ room_of self.now.writable.items }
    {
        self.writable
            .as_slice()
            .iter()
            .map(|piece| piece.len as u64)
            .sum()
    }

    /// Writes as many of the bytes as there is room for into the writable buffers, in their order, and gives their
    /// number.
    pub fn scatter(&self, mem: &mut GuestMem, bytes: &[u8]) -> u32
        requires inside { All (PieceLiesIn (length mem.old)) self.now.writable.items }
        requires short { length bytes.now < 2 ^ 32 }
        ensures count { result ≡ min (length bytes.now) (room_of self.now.writable.items) }
        ensures written { mem.new ≡ with_bytes_in mem.old self.now.writable.items bytes.now }
        ensures others { ChangesOnly mem.old mem.new (IsInPieces self.now.writable.items) }
    {
        let mut rest = bytes;
        for piece in self.writable.as_slice() {
            let (part, later) = rest.split_at(rest.len().min(piece.len as usize));
            mem.write(piece.addr, part).unwrap();
            rest = later;
        }
        (bytes.len() - rest.len()) as u32
    }
}
