//! A whole file, read from a shelf.

ghost use Rattle.std.specs.Prelude.{◌≡◌, ◌+◌, ◌<◌, ◌≤◌, length, IfOk, IsErrOf};
ghost use Rattle.vnff_base.specs.Counts.{count_with};
ghost use Rattle.vnff_base.specs.Reads.{OfFile};
ghost use Rattle.vnff_base.specs.Shelves.{HasCause, file_limit};

use crate::error::ReadErr;
use crate::shelf::Shelf;
use std::alloc::{AllocError, Global};

/// The most bytes of a file that are read: 64 MiB.
pub const FILE_LIMIT: u64 = 67_108_864;

/// How many bytes are asked of the shelf at once.
pub const FILE_PIECE: usize = 65_536;

/// Reads the file of that name from its first byte to its end, at most `limit` bytes of it. The limit is
/// [`FILE_LIMIT`] at most.
pub fn read_all<S: Shelf>(
    alloc: Global,
    shelf: &mut S,
    name: &str,
    limit: u64,
) -> Result<Vec<u8>, ReadErr>
    requires { limit ≤ file_limit }
    ensures bytes { IfOk result (λ v. OfFile (S.state shelf.old) name.now (λ file. file ≡ v.items)) }
    ensures within { IfOk result (λ v. length v.items ≤ limit) }
    ensures fault { IsErrOf result ReadErr.ReadFault
        → HasCause (S.state shelf.old) (S.state shelf.new) name.now }
    ensures longer { IsErrOf result ReadErr.TooLong
        → OfFile (S.state shelf.old) name.now (λ file. limit < length file) }
    ensures taken { IsErrOf result ReadErr.TooLong
        → count_with (S.state shelf.old).given (limit + 1) ≤ (S.state shelf.new).given }

    // Only a read that failed touches the count of failures.
    ensures same_count { (IsErrOf result ReadErr.ReadFault → ⊥)
        → (S.state shelf.new).faults ≡ (S.state shelf.old).faults }
    ensures grew { (S.state shelf.old).faults ≤ (S.state shelf.new).faults }
    ensures same_files { (S.state shelf.new).files ≡ (S.state shelf.old).files }
{
    let mut piece = new_piece(alloc).map_err(|_| ReadErr::Memory)?;
    let mut bytes = Vec::new(alloc);
    loop {
        let at = bytes.len() as u64;
        let Ok(taken) = shelf.read_at(name, at, piece.as_mut_slice()) else {
            return Err(ReadErr::ReadFault);
        };
        if taken == 0 {
            return Ok(bytes);
        }
        if taken as u64 > limit - at {
            return Err(ReadErr::TooLong);
        }
        if bytes.extend_from_slice(&piece.as_slice()[..taken]).is_err() {
            return Err(ReadErr::Memory);
        }
    }
}

/// Room for one piece of a file, [`FILE_PIECE`] bytes, off the stack.
///
/// # Errors
///
/// Where memory runs out.
pub fn new_piece(alloc: Global) -> Result<Vec<u8>, AllocError>
    ensures { IfOk result (λ piece. length piece.items ≡ FILE_PIECE) }
{
    vec![in alloc; 0u8; FILE_PIECE]
}
