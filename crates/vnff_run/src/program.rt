//! The program's call: words in, files read, a text written, and a status.

ghost use Rattle.std.specs.Prelude.{◌≡◌, ◌≢◌, ◌≤◌, ◌⊎◌, ◌↔◌, None, IsSomeAnd, false, length, map, string_bytes};
ghost use Rattle.cap_table.specs.Caps.{most_pairs};
ghost use Rattle.vnff_run.specs.Endings.{Appended, AppendedFront, AppendedNothing, NoReadFailed, NoWriteFailed};
ghost use Rattle.vnff_run.specs.Endings.{ReadFailed, WhereTold, WriteFailed};
ghost use Rattle.vnff_run.specs.Forms.{word_form, form_view};
ghost use Rattle.vnff_run.specs.Outcomes.{outcome_of};
ghost use Rattle.vnff_run.specs.SteerEndings.{FormDoes, SinkFailed, SinksSteered, SteerFailed};
ghost use Rattle.vnff_run.specs.SteerInputs.{is_steer, steering_of};

use crate::compile::compile_table;
use crate::drain::drain;
use crate::ending::{FAULTY_WORDS, exit_status};
use crate::form::{Form, word_form};
use crate::load::sum_up_load;
use crate::replay::replay;
use crate::steering::steer_frames;
use crate::stop::Stop;
use crate::table::classify_by_table;
use rx_sinks::{Rack, SinkList};
use std::alloc::Global;
use vnff_base::{Out, Shelf};

/// Runs the program on its words, without its own name, and gives its exit status: 0 done, 1 an input was refused, 2
/// the words are no form, 3 a read failed, 4 a write failed, 5 memory ran out. The forms that are built:
/// `replay SCRIPT`, `gen SEED N`, `compile DEVICE TABLE`, `steer SCRIPT CAPTURE`, `table DEVICE TABLE CAPTURE` and
/// `drain IMAGE SIZE DESC AVAIL USED`.
pub fn plain<S: Shelf, O: Out>(
    alloc: Global,
    words: &[String],
    shelf: &mut S,
    out: &mut O,
    rack: &mut Rack,
) -> u8
    // A sink for each receive queue.
    requires { length (⟦<Rack as SinkList>⟧.sinks rack.old) ≡ most_pairs }
    ensures known { result ≤ 5 }

    // The words alone decide on 2.
    ensures words { (result ≡ 2) ↔ (word_form (map string_bytes words.now) ≡ None) }

    ensures words_nothing { result ≡ 2 → AppendedNothing (O.state out.old) (O.state out.new) }

    // Of 0, 1 and 2, the status and what was written are the outcome.
    ensures done { result ≤ 2 → WhereTold (S.state shelf.old) (outcome_of (map string_bytes words.now)) (λ end.
        (result ≡ end.status) × Appended (O.state out.old) (O.state out.new) end.text) }

    // What is to be done is done, and what is to be refused is refused, unless a read, a write or a sink failed, or
    // memory ran out.
    ensures complete { WhereTold (S.state shelf.old) (outcome_of (map string_bytes words.now)) (λ end.
        (result ≡ end.status) ⊎ (result ≡ 5)
        ⊎ ReadFailed (S.state shelf.old) (S.state shelf.new) ⊎ WriteFailed (O.state out.old) (O.state out.new)
        ⊎ SinkFailed (S.state shelf.old) (steering_of (map string_bytes words.now))
        (⟦<Rack as SinkList>⟧.sinks rack.old) (⟦<Rack as SinkList>⟧.sinks rack.new)) }

    // 3 is a failure of the shelf, or a file that isn't there, and then nothing was written.
    ensures read { result ≡ 3 → ReadFailed (S.state shelf.old) (S.state shelf.new)
        ⊎ IsSomeAnd (S.state shelf.old).files (λ files. (outcome_of (map string_bytes words.now) files).status ≡ 3) }
    ensures read_nothing { result ≡ 3 → AppendedNothing (O.state out.old) (O.state out.new) }

    // 4 is a failure of the output, or with `steer` of a sink, and then nothing was written.
    ensures write { result ≡ 4 → WriteFailed (O.state out.old) (O.state out.new)
        ⊎ SteerFailed (map string_bytes words.now) (S.state shelf.old) (O.state out.old) (O.state out.new)
        (⟦<Rack as SinkList>⟧.sinks rack.old) (⟦<Rack as SinkList>⟧.sinks rack.new) }

    // A failure of the shelf or the output is answered by 3 or 4, and never by another status.
    ensures no_read { result ≢ 3 → NoReadFailed (S.state shelf.old) (S.state shelf.new) }
    ensures no_write { result ≢ 4 → NoWriteFailed (O.state out.old) (O.state out.new) }

    // After 4 and 5 a front of the outcome's text was written.
    ensures front { 4 ≤ result → WhereTold (S.state shelf.old) (outcome_of (map string_bytes words.now)) (λ end.
        AppendedFront (O.state out.old) (O.state out.new) end.text) }

    // Other words than those of `steer`, and 1, 2, 3 and 5, leave every sink.
    ensures other_sinks { is_steer (word_form (map string_bytes words.now)) ≡ false
        → ⟦<Rack as SinkList>⟧.sinks rack.new ≡ ⟦<Rack as SinkList>⟧.sinks rack.old }
    ensures same_sinks { result ≢ 0 → result ≢ 4
        → ⟦<Rack as SinkList>⟧.sinks rack.new ≡ ⟦<Rack as SinkList>⟧.sinks rack.old }

    // Where there is something to steer, 0 and 4 say what the sinks got.
    ensures sinks { SinksSteered (S.state shelf.old) (steering_of (map string_bytes words.now)) result
        (⟦<Rack as SinkList>⟧.sinks rack.old) (⟦<Rack as SinkList>⟧.sinks rack.new) }
{
    match word_form(words) {
        Some(form) => exit_status(run(alloc, form, shelf, out, rack), out),
        None => FAULTY_WORDS,
    }
}

/// Carries a form out.
fn run<S: Shelf, O: Out>(
    alloc: Global,
    form: Form<'_>,
    shelf: &mut S,
    out: &mut O,
    rack: &mut Rack,
) -> Result<(), Stop>
    requires { length (⟦<Rack as SinkList>⟧.sinks rack.old) ≡ most_pairs }
    ensures { FormDoes (form_view form.entry)
        (S.state shelf.old) (S.state shelf.new) (O.state out.old) (O.state out.new)
        (⟦<Rack as SinkList>⟧.sinks rack.old) (⟦<Rack as SinkList>⟧.sinks rack.new) result }
{
    match form {
        Form::Replay(script) => replay(alloc, script, shelf, out),
        Form::Drain(image, place) => drain(alloc, image, place, shelf, out),
        Form::Compile(device, table) => compile_table(alloc, device, table, shelf, out),
        Form::Table(device, table, capture) => classify_by_table(
            alloc, device, table, capture, shelf, out,
        ),
        Form::Steer(script, capture) => steer_frames(alloc, script, capture, shelf, out, rack),
        Form::Gen(seed, frames) => sum_up_load(alloc, seed, frames, out),
    }
}
