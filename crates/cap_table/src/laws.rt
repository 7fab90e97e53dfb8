//! Laws of the definitions. Each call does nothing: its contract is the law.

ghost use Rattle.std.specs.Prelude.{◌≡◌, None};
ghost use Rattle.admin_wire.specs.declared.command.CapData.{CapData};
ghost use Rattle.admin_wire.specs.LaidOut.{HasCapLayout};
ghost use Rattle.cap_table.specs.Caps.{CapsParts, DriverParts};
ghost use Rattle.cap_table.specs.CapSets.{cap_fault, with_cap, IsDriverWithin};

/// Where `may_set` doesn't refuse a capability, `set` keeps what the driver set within what the device offers.
pub fn accepted_sets_stay_within()
    ensures { (device : CapsParts) (driver : DriverParts) (wanted : CapData) → HasCapLayout wanted
        → cap_fault device wanted ≡ None → IsDriverWithin device driver
        → IsDriverWithin device (with_cap driver wanted) }
{}
