//! Guest memory and the ends of a queue at their start.
ghost use Rattle.std.specs.Prelude.{◌≡◌, None, length, IfOk, OnOk};
ghost use Rattle.split_queue.specs.Agreement.{Agree};
ghost use Rattle.split_queue.specs.Setup.{setup_fault};

use guest_mem::GuestMem;
use split_queue::{DeviceEnd, DriverEnd, Place};
use std::alloc::{AllocError, Global};

/// A memory of so many bytes, all zero.
pub(crate) fn zero_bytes(alloc: Global, len: usize) -> Result<GuestMem, AllocError>
    ensures { IfOk result (λ mem. length mem ≡ len) }
{
    GuestMem::zeros(alloc, len)
}

/// Both ends of a fresh queue at the place, which agree. All its descriptors are free, and no chain was posted yet.
pub(crate) fn fresh_ends(
    alloc: Global,
    place: Place,
    mem: &mut GuestMem,
) -> Result<(DriverEnd, DeviceEnd), AllocError>
    requires { setup_fault place (length mem.old) ≡ None }
    ensures size { OnOk result (length mem.new ≡ length mem.old) }
    ensures place { IfOk result (λ ends. ends.0.place ≡ place) }
    ensures agree { IfOk result (λ ends. Agree ends.0 ends.1 mem.new) }
    ensures none_posted { IfOk result (λ ends. ends.0.next ≡ 0) }
    ensures all_back { IfOk result (λ ends. ends.0.used ≡ 0) }
    ensures all_free { IfOk result (λ ends. length ends.0.pool.free ≡ place.size) }
{
    let Ok(driver_end) = DriverEnd::new(alloc, place, mem) else {
        return Err(AllocError);
    };
    let device_end = DeviceEnd::new(place, 0, mem).unwrap();
    Ok((driver_end, device_end))
}
