//! The side of a live run that carries commands out.

ghost use Rattle.std.specs.Prelude.{◌≡◌, ◌+◌, ◌-◌, ◌<◌, ◌≤◌, ◌++◌, length, vec_capacity, false, MatchBool};
ghost use Rattle.ff_headers.specs.Changes.{is_close};
ghost use Rattle.ff_headers.specs.declared.change.Change.{Change};
ghost use Rattle.cap_table.specs.declared.answer.Effect.TheVariants as effects;
ghost use Rattle.snapshots.specs.Ends.{with_list};
ghost use Rattle.steer.specs.LiveCommands.{IsAnswered, state_left, changes_made_by, changes_of};
ghost use Rattle.steer.specs.AdminSides.{HasCarriedOut};

use crate::admin_line::AdminLine;
use crate::gate::Gate;
use admin_dev::{Decision, Device, Effect, no_memory};
use admin_wire::ReplyBytes;
use snapshots::AdminEnd;
use std::sync::Wait;
use vnff_base::List;

/// A device, the end that publishes its changes, and the replies so far. It isn't `Drop`, since the end isn't.
pub(crate) struct AdminSide {
    pub(crate) device: Device,
    pub(crate) end: AdminEnd,
    pub(crate) replies: Vec<ReplyBytes>,
}

/// Carries out the commands from one place up to another.
pub(crate) fn obey_lines<R: Wait, G: Gate>(
    rt: &R,
    lines: &List<AdminLine>,
    from: u32,
    to: u32,
    gate: &G,
    side: &mut AdminSide,
)
    requires order { from ≤ to }
    requires there { to ≤ length lines.now }
    requires room { length side.old.replies.items + (to - from) ≤ vec_capacity side.old.replies }
    ensures { HasCarriedOut lines.now from to side.old side.new }
{
    for n in from..to {
        gate.before_command(n);
        let line = &lines.as_slice()[n as usize];
        let reply = obey_line(rt, line, &mut side.device, &mut side.end);
        side.replies.push_reserved(reply);
    }
}

/// Carries a command out. Its change is published before the device makes it; where it finds no memory, nothing was
/// published, the device stays as it was, and the reply says so.
fn obey_line<R: Wait>(
    rt: &R,
    line: &AdminLine,
    device: &mut Device,
    end: &mut AdminEnd,
) -> ReplyBytes
    ensures answered { IsAnswered device.old line.now result.items }
    ensures left { device.new ≡ state_left device.old line.now result.items }
    ensures published { end.new ≡ with_list end.old (end.old.list ++ changes_made_by device.old line.now result.items) }
{
    let room = u64::from(line.room);
    let Decision { reply, effect } = device.decide(line.bytes.as_slice(), room);
    if !publish(rt, &effect, end) {
        return no_memory(room);
    }
    device.commit(effect);
    reply
}

/// Publishes the change of an effect, where it has one. False where memory ran out; nothing was published then.
fn publish<R: Wait>(rt: &R, effect: &Effect, end: &mut AdminEnd) -> bool
    requires { (change : Change) → effect.now ≡ effects.Change change → is_close change ≡ false }
    ensures { MatchBool result (end.new ≡ with_list end.old (end.old.list ++ changes_of effect.now))
        ((end.new ≡ end.old) × ((change : Change) × (effect.now ≡ effects.Change change))) }
{
    match effect {
        Effect::Change(change) => end.put(rt, change.copy()).is_ok(),
        _ => true,
    }
}
