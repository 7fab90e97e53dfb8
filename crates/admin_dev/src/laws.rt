//! Laws of the object machine. Each call does nothing: its contract is the law.

ghost use Rattle.std.specs.Prelude.{◌≡◌, ◌≢◌, ◌≤◌, ℕ, List, [], true, Some, IsSome};
ghost use Rattle.ff_headers.specs.Changes.{is_sound};
ghost use Rattle.ff_headers.specs.Objects.{object_under, IsBacked};
ghost use Rattle.ff_headers.specs.RuleParts.{RuleParts};
ghost use Rattle.ff_headers.specs.declared.change.Change.{Change};
ghost use Rattle.admin_wire.specs.declared.command.Command.TheVariants.{Create, Query, Destroy};
ghost use Rattle.admin_wire.specs.declared.command.ObjData.{ObjData};
ghost use Rattle.admin_wire.specs.declared.command.ObjHead.{ObjHead};
ghost use Rattle.admin_wire.specs.Fields.{written};
ghost use Rattle.admin_wire.specs.Layouts.{object_fields};
ghost use Rattle.admin_wire.specs.Replies.{reply_bytes};
ghost use Rattle.admin_wire.specs.Wire.{Reads};
ghost use Rattle.cap_table.specs.Answers.{telling};
ghost use Rattle.cap_table.specs.Caps.{CapsParts, AreCaps};
ghost use Rattle.cap_table.specs.CapSets.{AreAllowed};
ghost use Rattle.cap_table.specs.Statuses.{no_memory};
ghost use Rattle.cap_table.specs.States.{DeviceState, IsValid, start_state};
ghost use Rattle.cap_table.specs.Steps.{effect_of, status_of, reply_of, next_state, state_after};
ghost use Rattle.cap_table.specs.Steps.{Puts, RunLeaves, IsInUse};
ghost use Rattle.cap_table.specs.declared.answer.Effect.TheVariants as effects;
ghost use Rattle.cap_table.specs.declared.start.Start.{Start};

/// A device is valid at its start, and after any commands: its objects are well formed within its limits, what its
/// driver set is within what it offers, and the first two opcodes are in use.
pub fn runs_are_valid()
    ensures start { (caps : CapsParts) (start : Start) → AreCaps caps → IsValid (start_state caps start) }
    ensures run { (state : DeviceState) (commands : List (List ℕ × ℕ)) → IsValid state
        → IsValid (state_after state commands) }
{}

/// In every state of every run the driver's selectors are of types that the device's are of, and ask for no mask that
/// those don't allow.
pub fn drivers_stay_within_the_device()
    ensures { (caps : CapsParts) (start : Start) (commands : List (List ℕ × ℕ)) → AreCaps caps
        → let state = state_after (start_state caps start) commands in
        AreAllowed state.caps.selectors state.driver.selectors }
{}

/// In every state of every run each rule's group and classifier are held. No command destroys the group or the
/// classifier of a rule, or changes that classifier.
pub fn named_objects_stay()
    ensures backed { (caps : CapsParts) (start : Start) (commands : List (List ℕ × ℕ)) (id : ℕ) (rule : RuleParts)
        → let state = state_after (start_state caps start) commands in AreCaps caps
        → object_under state.objects.rules id ≡ Some rule → IsBacked state.objects rule }
    ensures group { (state : DeviceState) (bytes : List ℕ) (room : ℕ) (id : ℕ) (rule : RuleParts) → IsValid state
        → object_under state.objects.rules id ≡ Some rule
        → IsSome (object_under (next_state state bytes room).objects.groups rule.group) }
    ensures classifier { (state : DeviceState) (bytes : List ℕ) (room : ℕ) (id : ℕ) (rule : RuleParts) → IsValid state
        → object_under state.objects.rules id ≡ Some rule
        → object_under (next_state state bytes room).objects.classifiers rule.classifier
        ≡ object_under state.objects.classifiers rule.classifier }
{}

/// A query gives back what the last accepted create or modify of the object put, with 0 in reserved bytes: after it
/// come any commands that are refused, have no room for a reply, or aren't about the object.
pub fn queries_give_back_what_was_put()
    ensures { (state : DeviceState) (put : List ℕ) (room : ℕ) (head : ObjHead) (object : ObjData) → IsValid state
        → Puts put head object → 8 ≤ room → status_of (reply_of state put room) ≡ 0
        → (commands : List (List ℕ × ℕ))
        → RunLeaves (next_state state put room) head.type_code head.id commands
        → let after = state_after (next_state state put room) commands in (query : List ℕ) (asked : ℕ)
        → Reads query (Query head) → IsInUse after (Query head)
        → reply_of after query asked ≡ reply_bytes (telling (written (object_fields object))) asked }
{}

/// A destroy right behind an accepted create gives the state before it.
#[tactic(auto, using(cap_table::proofs::UndoneCreates::undone_create))]
pub fn destroys_undo_creates()
    ensures { (state : DeviceState) (create destroy : List ℕ) (room later : ℕ) (head : ObjHead) (object : ObjData)
        → IsValid state → Reads create (Create head object) → Reads destroy (Destroy head) → 8 ≤ room → 8 ≤ later
        → status_of (reply_of state create room) ≡ 0 → IsInUse state (Destroy head)
        → next_state (next_state state create room) destroy later ≡ state }
{}

/// The change of an accepted command is sound in a valid state, so that it is really made.
#[tactic(auto, using(cap_table::proofs::ValidSteps::accepted_is_sound))]
pub fn accepted_changes_are_sound()
    ensures { (state : DeviceState) (bytes : List ℕ) (room : ℕ) (change : Change) → IsValid state
        → effect_of state bytes room ≡ effects.Change change → is_sound state.caps.limits state.objects change ≡ true }
{}

/// A command that is answered with another status than 0, or with no bytes, leaves the state as it was.
#[tactic(auto, using(cap_table::proofs::EveryAnswer::refused_stays, cap_table::proofs::EveryAnswer::silent_stays))]
pub fn refused_commands_change_nothing()
    ensures refused { (state : DeviceState) (bytes : List ℕ) (room : ℕ) → status_of (reply_of state bytes room) ≢ 0
        → next_state state bytes room ≡ state }
    ensures silent { (state : DeviceState) (bytes : List ℕ) (room : ℕ) → reply_of state bytes room ≡ []
        → next_state state bytes room ≡ state }
{}

/// No command is answered with the status for want of memory.
#[tactic(auto, using(cap_table::proofs::EveryAnswer::never_no_memory))]
pub fn no_reply_is_want_of_memory()
    ensures { (state : DeviceState) (bytes : List ℕ) (room : ℕ)
        → status_of (reply_of state bytes room) ≢ no_memory.status }
{}
