//! The program's call, with the live runs that may wait.

ghost use Rattle.std.specs.Prelude.{◌≡◌, ◌≢◌, ◌≤◌, ◌⊎◌, None, IsSomeAnd, false, length, map, string_bytes};
ghost use Rattle.cap_table.specs.Caps.{most_pairs};
ghost use Rattle.vnff_run.specs.Endings.{AppendedNothing, NoReadFailed, NoWriteFailed, ReadFailed, WriteFailed};
ghost use Rattle.vnff_run.specs.Forms.{word_form};
ghost use Rattle.vnff_run.specs.LiveWords.{live_of};
ghost use Rattle.vnff_run.specs.PlanEndings.{EndsAs, WherePlanned};
ghost use Rattle.vnff_run.specs.SteerEndings.{SinkFailed, SinksSteered, SteerFailed};
ghost use Rattle.vnff_run.specs.SteerInputs.{is_steer, steering_of};
ghost use Rattle.vnff_run.specs.Plans.{WroteFront, WroteText, plan_of, plan_status};

use crate::live_call::run_live;
use crate::live_words::live_of;
use crate::program::plain;
use rx_sinks::{Rack, SinkList};
use std::alloc::Global;
use std::sync::Wait;
use std::thread::Threads;
use steer::Gate;
use vnff_base::{Out, Shelf};

/// Runs the program on its words, without its own name, and gives its exit status: 0 done, 1 an input was refused, 2
/// the words are no form or ask for more first commands than there are, 3 a read failed, 4 a write failed, 5 memory ran
/// out. `live WORKERS FIRST SCRIPT CAPTURE` is run here, and may wait; its workers and commands call the gate on their
/// way. All other words are those of [`plain`].
///
/// The plan of words and files is one outcome, or a live run, which has as many texts as workers and commands have ways
/// to interleave: in each, every reply is the machine's or the refusal for want of memory, and every frame's action is
/// that of the first matching rule after the printed number of accepted changes.
pub fn top<R: Threads + Wait + Sync, S: Shelf, O: Out, G: Gate>(
    rt: &R,
    alloc: Global,
    words: &[String],
    shelf: &mut S,
    out: &mut O,
    rack: &mut Rack,
    gate: &G,
) -> u8
    // A sink for each receive queue.
    requires { length (⟦<Rack as SinkList>⟧.sinks rack.old) ≡ most_pairs }
    ensures known { result ≤ 5 }

    // Words that are no form are 2, and no words of another form but `live` are.
    ensures words { live_of (map string_bytes words.now) ≡ None → word_form (map string_bytes words.now) ≡ None
        → result ≡ 2 }
    ensures faulty { result ≡ 2 → word_form (map string_bytes words.now) ≡ None }

    // Of 0, 1 and 2, the status is the plan's, and what was written is a text of the plan.
    ensures done { result ≤ 2 → WherePlanned (S.state shelf.old) (plan_of (map string_bytes words.now)) (λ plan.
        (result ≡ plan_status plan) × WroteText plan (O.state out.old) (O.state out.new)) }

    // What is to be done is done, and what is to be refused is refused, unless a read, a write or a sink failed, or
    // memory ran out.
    ensures complete { WherePlanned (S.state shelf.old) (plan_of (map string_bytes words.now)) (λ plan.
        (result ≡ plan_status plan) ⊎ (result ≡ 5)
        ⊎ ReadFailed (S.state shelf.old) (S.state shelf.new) ⊎ WriteFailed (O.state out.old) (O.state out.new)
        ⊎ SinkFailed (S.state shelf.old) (steering_of (map string_bytes words.now))
        (⟦<Rack as SinkList>⟧.sinks rack.old) (⟦<Rack as SinkList>⟧.sinks rack.new)) }

    // 3 is a failure of the shelf, or a file that isn't there.
    ensures read { result ≡ 3 → ReadFailed (S.state shelf.old) (S.state shelf.new)
        ⊎ IsSomeAnd (S.state shelf.old).files (λ files. plan_status (plan_of (map string_bytes words.now) files) ≡ 3) }

    // After 2 and 3 nothing was written.
    ensures nothing { (result ≡ 2) ⊎ (result ≡ 3) → AppendedNothing (O.state out.old) (O.state out.new) }

    // 4 is a failure of the output, or with `steer` of a sink, and then nothing was written.
    ensures write { result ≡ 4 → WriteFailed (O.state out.old) (O.state out.new)
        ⊎ SteerFailed (map string_bytes words.now) (S.state shelf.old) (O.state out.old) (O.state out.new)
        (⟦<Rack as SinkList>⟧.sinks rack.old) (⟦<Rack as SinkList>⟧.sinks rack.new) }

    // A failure of the shelf or the output is answered by 3 or 4, and never by another status.
    ensures no_read { result ≢ 3 → NoReadFailed (S.state shelf.old) (S.state shelf.new) }
    ensures no_write { result ≢ 4 → NoWriteFailed (O.state out.old) (O.state out.new) }

    // After 4 and 5 a front of a text of the plan was written.
    ensures front { 4 ≤ result → WherePlanned (S.state shelf.old) (plan_of (map string_bytes words.now)) (λ plan.
        WroteFront plan (O.state out.old) (O.state out.new)) }

    // Other words than those of `steer`, and 1, 2, 3 and 5, leave every sink.
    ensures other_sinks { is_steer (word_form (map string_bytes words.now)) ≡ false
        → ⟦<Rack as SinkList>⟧.sinks rack.new ≡ ⟦<Rack as SinkList>⟧.sinks rack.old }
    ensures same_sinks { result ≢ 0 → result ≢ 4
        → ⟦<Rack as SinkList>⟧.sinks rack.new ≡ ⟦<Rack as SinkList>⟧.sinks rack.old }

    // Where there is something to steer, 0 and 4 say what the sinks got.
    ensures sinks { SinksSteered (S.state shelf.old) (steering_of (map string_bytes words.now)) result
        (⟦<Rack as SinkList>⟧.sinks rack.old) (⟦<Rack as SinkList>⟧.sinks rack.new) }
{
    carry_out(rt, alloc, words, shelf, out, rack, gate)
}

/// Carries out what the words ask for.
fn carry_out<R: Threads + Wait + Sync, S: Shelf, O: Out, G: Gate>(
    rt: &R,
    alloc: Global,
    words: &[String],
    shelf: &mut S,
    out: &mut O,
    rack: &mut Rack,
    gate: &G,
) -> u8
    // A sink for each receive queue.
    requires { length (⟦<Rack as SinkList>⟧.sinks rack.old) ≡ most_pairs }
    ensures ends { EndsAs
        (SinkFailed (S.state shelf.old) (steering_of (map string_bytes words.now))
        (⟦<Rack as SinkList>⟧.sinks rack.old) (⟦<Rack as SinkList>⟧.sinks rack.new))
        (SteerFailed (map string_bytes words.now) (S.state shelf.old) (O.state out.old) (O.state out.new)
        (⟦<Rack as SinkList>⟧.sinks rack.old) (⟦<Rack as SinkList>⟧.sinks rack.new))
        (S.state shelf.old) (S.state shelf.new) (O.state out.old) (O.state out.new)
        (plan_of (map string_bytes words.now)) result }
    ensures words { live_of (map string_bytes words.now) ≡ None → word_form (map string_bytes words.now) ≡ None
        → result ≡ 2 }
    ensures faulty { result ≡ 2 → word_form (map string_bytes words.now) ≡ None }
    ensures other_sinks { is_steer (word_form (map string_bytes words.now)) ≡ false
        → ⟦<Rack as SinkList>⟧.sinks rack.new ≡ ⟦<Rack as SinkList>⟧.sinks rack.old }
    ensures same_sinks { result ≢ 0 → result ≢ 4
        → ⟦<Rack as SinkList>⟧.sinks rack.new ≡ ⟦<Rack as SinkList>⟧.sinks rack.old }
    ensures sinks { SinksSteered (S.state shelf.old) (steering_of (map string_bytes words.now)) result
        (⟦<Rack as SinkList>⟧.sinks rack.old) (⟦<Rack as SinkList>⟧.sinks rack.new) }
{
    match live_of(words) {
        Some(form) => run_live(rt, alloc, form, shelf, out, gate),
        None => plain(alloc, words, shelf, out, rack),
    }
}
