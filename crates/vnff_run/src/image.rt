//! Images of guest memory, read from files, and the queues in them.

ghost use Rattle.std.specs.Prelude.{◌≡◌, None, length, IfOk};
ghost use Rattle.byte_numbers.specs.Bytes.{IsBytes};
ghost use Rattle.split_queue.specs.DeviceEnds.{device_start};
ghost use Rattle.split_queue.specs.Setup.{setup_fault};
ghost use Rattle.vnff_run.specs.Endings.{ReadsInput};
ghost use Rattle.vnff_run.specs.Inputs.{queue_in};

use crate::file::file_bytes;
use crate::stop::{FileKind, RefusedInput, Stop};
use guest_mem::GuestMem;
use split_queue::{DeviceEnd, Place};
use std::alloc::Global;
use vnff_base::Shelf;

/// The guest memory whose bytes are those of a file, with the device's end of the queue at the place in it. Both
/// indexes of the end are 0.
pub(crate) fn queue_in<S: Shelf>(
    alloc: Global,
    name: &str,
    place: Place,
    shelf: &mut S,
) -> Result<(GuestMem, DeviceEnd), Stop>
    ensures read { ReadsInput (S.state shelf.old) (S.state shelf.new) (queue_in name.now place) result }
    ensures start { IfOk result (λ queue. queue.1 ≡ device_start place (length queue.0) 0) }
    ensures placed { IfOk result (λ queue. setup_fault place (length queue.0) ≡ None) }
    ensures bytes { IfOk result (λ queue. IsBytes queue.0) }
{
    let bytes = file_bytes(alloc, FileKind::Image, name, shelf)?;
    let mem = GuestMem::of(bytes.into_vec());
    // Its clause says that the memory holds bytes, and so an index of 16 bits.
    let _ = mem.len();
    match DeviceEnd::new(place, 0, &mem) {
        Ok(end) => Ok((mem, end)),
        Err(fault) => Err(Stop::Refused(RefusedInput::BadImage(fault))),
    }
}
