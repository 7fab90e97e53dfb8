//! The verdict on a command that is to change the objects: the change that it makes, or the first row that holds.

ghost use Rattle.std.specs.Prelude.{◌≡◌, ◌≢◌, true, Some, IfOk, IfErr};
ghost use Rattle.std.specs.Result.{result_err};
ghost use Rattle.ff_headers.specs.Changes.{is_sound};
ghost use Rattle.cap_table.specs.Caps.{AtMost};
ghost use Rattle.cap_table.specs.Verdicts.{first_verdict, command_rows};
ghost use Rattle.cap_table.specs.Answers.{ChangesObjects, change_of};
ghost use Rattle.ff_objects.specs.Drops.{DropsUnnamed};

use crate::create::created;
use crate::destroy::destroyed;
use crate::modify::modified;
use crate::objects::Objects;
use admin_wire::Command;
use cap_table::{DeviceCaps, DriverCaps, Verdict};
use ff_headers::Change;
use ff_store::Store;

impl Objects {
    /// The change that a create, a modify or a destroy makes, or the verdict of the first row that holds. A group or a
    /// classifier that a rule names is never dropped.
    #[tactic(auto, using(crate::proofs::CheckLemmas::check_sound, crate::proofs::CheckLemmas::check_refuses))]
    pub fn check(
        &self,
        command: &Command,
        device: &DeviceCaps,
        driver: &DriverCaps,
    ) -> Result<Change, Verdict>
        requires changes { ChangesObjects command.now }
        requires limits { self.now.limits ≡ device.now.limits }
        requires at_most { AtMost driver.now.limits device.now.limits }
        ensures refused { result_err result
            ≡ first_verdict (command_rows device.now driver.now self.now.objects command.now) }
        ensures change { IfOk result (λ change. change_of command.now ≡ Some change) }
        ensures sound { IfOk result (λ change. is_sound self.now.limits self.now.objects change ≡ true) }
        ensures unnamed { IfOk result (λ change. DropsUnnamed self.now.objects change) }
        ensures never_zero { IfErr result (λ verdict. verdict.status ≢ 0) }
    {
        checked_change(&self.store, command, device, driver)
    }
}

/// What `check` answers.
fn checked_change(
    store: &Store,
    command: &Command,
    device: &DeviceCaps,
    driver: &DriverCaps,
) -> Result<Change, Verdict>
    requires { ChangesObjects command.now }
    ensures refused { result_err result
        ≡ first_verdict (command_rows device.now driver.now store.now.objects command.now) }
    ensures change { IfOk result (λ change. change_of command.now ≡ Some change) }
{
    match command {
        Command::Create(head, object) => created(store, head, object, device, driver),
        Command::Modify(head, object) => modified(store, head, object, device, driver),
        Command::Destroy(head) => destroyed(store, head),
        _ => unreachable!(),
    }
}
