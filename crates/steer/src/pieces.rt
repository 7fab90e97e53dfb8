//! How bytes of guest memory are cut into the pieces of a chain.
ghost use Rattle.std.specs.Prelude.{◌≡◌, ◌+◌, ◌^◌, ◌<◌, ◌≤◌, ◌++◌, length};
ghost use Rattle.std.specs.Int.{div_ceil};
ghost use Rattle.steer.specs.BenchPlaces.{bench_size, cut_pieces};

use arrayvec::ArrayVec;
use split_queue::{MOST_DESCRIPTORS, Piece};

/// The pieces of a chain.
pub(crate) type Pieces = ArrayVec<Piece, MOST_DESCRIPTORS>;

/// Cuts so many bytes at an address into pieces of `step` bytes, the last one the rest, and adds them.
pub(crate) fn add_pieces(pieces: &mut Pieces, addr: u64, len: u32, step: u32)
    requires some { 0 < step }
    requires inside { addr + len < 2 ^ 32 }
    requires few { length pieces.old.items + div_ceil len step ≤ bench_size }
    ensures { pieces.new.items ≡ pieces.old.items ++ cut_pieces addr len step }
{
    let mut start = addr;
    let mut rest = len;
    for _ in 0..len.div_ceil(step) {
        let part = rest.min(step);
        pieces.push(Piece {
            addr: start,
            len: part,
        });
        start += u64::from(part);
        rest -= part;
    }
}
