//! The forms of words that the program takes.

ghost use Rattle.std.specs.Prelude.{◌≡◌, map, option_map, string_bytes};
ghost use Rattle.std.specs.Prelude.{codes, Some, None, if◌then◌else◌};
ghost use Rattle.std.specs.Str.{bytes_eq};
ghost use Rattle.vnff_run.specs.Forms.{word_form, form_view, load_of};
ghost use Rattle.vnff_run.specs.Forms.{Replay as WordReplay, Compile as WordCompile, Table as WordTable};
ghost use Rattle.vnff_run.specs.Forms.{Steer as WordSteer};

use crate::drain_words::place_from_words;
use crate::load_words::frame_count_of;
use split_queue::Place;
use vnff_base::num_read;

/// What the words ask for. Each file is named as the words name it.
#[derive(Clone, Copy, Debug)]
pub enum Form<'a> {
    /// `replay SCRIPT`: run a script's lines in order.
    Replay(&'a str),
    /// `drain IMAGE SIZE DESC AVAIL USED`: write the chains of the queue at a place in an image of guest memory.
    Drain(&'a str, Place),
    /// `compile DEVICE TABLE`: compile a table for a device.
    Compile(&'a str, &'a str),
    /// `table DEVICE TABLE CAPTURE`: compile a table for a device, and classify the frames of a capture.
    Table(&'a str, &'a str, &'a str),
    /// `steer SCRIPT CAPTURE`: hand each frame of a capture to the sink of its queue, behind a script's commands.
    Steer(&'a str, &'a str),
    /// `gen SEED N`: classify so many frames of a seed by the table of this seed.
    Gen(u64, u32),
}

/// The form of the words, which are those behind the program's own name.
#[tactic(auto, unfolding(crate::specs::Forms::word_form))]
pub fn word_form(words: &[String]) -> Option<Form<'_>>
    ensures { option_map form_view result ≡ word_form (map string_bytes words.now) }
{
    match words {
        [form, script] => one_file(form.as_str(), script.as_str()),
        [form, seed, frames] if form.as_str() == "gen" => {
            load_of(seed.as_bytes(), frames.as_bytes())
        }
        [form, first, second] => two_files(form.as_str(), first.as_str(), second.as_str()),
        [form, device, table, capture] => three_files(
            form.as_str(),
            device.as_str(),
            table.as_str(),
            capture.as_str(),
        ),
        [form, image, size, desc, avail, used] if form.as_str() == "drain" => {
            let place = place_from_words(
                size.as_bytes(),
                desc.as_bytes(),
                avail.as_bytes(),
                used.as_bytes(),
            )?;
            Some(Form::Drain(image.as_str(), place))
        }
        _ => None,
    }
}

/// The form of a word and a file.
fn one_file<'a>(form: &str, script: &'a str) -> Option<Form<'a>>
    ensures { option_map form_view result
        ≡ if bytes_eq form.now (codes "replay") then Some (WordReplay script.now) else None }
{
    if form == "replay" {
        Some(Form::Replay(script))
    } else {
        None
    }
}

/// The load of a seed and a number of frames.
#[tactic(auto, unfolding(crate::specs::Forms::load_of))]
fn load_of<'a>(seed: &[u8], frames: &[u8]) -> Option<Form<'a>>
    ensures { option_map form_view result ≡ load_of seed.now frames.now }
{
    let seed = num_read(seed)?;
    let frames = frame_count_of(frames)?;
    Some(Form::Gen(seed, frames))
}

/// The form of a word and two files.
fn two_files<'a>(form: &str, first: &'a str, second: &'a str) -> Option<Form<'a>>
    ensures { option_map form_view result
        ≡ if bytes_eq form.now (codes "compile") then Some (WordCompile first.now second.now)
        else if bytes_eq form.now (codes "steer") then Some (WordSteer first.now second.now)
        else None }
{
    if form == "compile" {
        Some(Form::Compile(first, second))
    } else if form == "steer" {
        Some(Form::Steer(first, second))
    } else {
        None
    }
}

/// The form of a word and three files.
fn three_files<'a>(
    form: &str,
    device: &'a str,
    table: &'a str,
    capture: &'a str,
) -> Option<Form<'a>>
    ensures { option_map form_view result
        ≡ if bytes_eq form.now (codes "table") then Some (WordTable device.now table.now capture.now) else None }
{
    if form == "table" {
        Some(Form::Table(device, table, capture))
    } else {
        None
    }
}
