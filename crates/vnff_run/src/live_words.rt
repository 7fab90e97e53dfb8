//! The words of a live run.

ghost use Rattle.std.specs.Prelude.{◌≡◌, ◌≤◌, map, option_map, string_bytes, IfSome, None};
ghost use Rattle.vnff_run.specs.LiveWords.{first_of, live_of, live_view, live_with, most_workers, workers_of};

use vnff_base::num_read;

/// The most workers.
const MOST_WORKERS: u64 = 16;

/// `live WORKERS FIRST SCRIPT CAPTURE`: so many workers classify the frames of a capture while the commands of a script
/// are carried out, the first ones before any frame. Each file is named as the words name it.
#[derive(Clone, Copy, Debug)]
pub struct LiveForm<'a> {
    pub workers: u8,
    pub first: u32,
    pub script: &'a str,
    pub capture: &'a str,
}

/// What the words, which are those behind the program's own name, ask for, where they ask for a live run.
#[tactic(auto, unfolding(crate::specs::LiveWords::live_of))]
pub fn live_of(words: &[String]) -> Option<LiveForm<'_>>
    ensures words { option_map live_view result ≡ live_of (map string_bytes words.now) }
    ensures workers { IfSome result (λ form. 1 ≤ form.workers) }
    ensures most_workers { IfSome result (λ form. form.workers ≤ most_workers) }
{
    match words {
        [form, workers, first, script, capture] if form.as_str() == "live" => live_with(
            workers.as_bytes(),
            first.as_bytes(),
            script.as_str(),
            capture.as_str(),
        ),
        _ => None,
    }
}

/// A live run with the numbers that two words spell.
fn live_with<'a>(
    workers: &[u8],
    first: &[u8],
    script: &'a str,
    capture: &'a str,
) -> Option<LiveForm<'a>>
    ensures words { option_map live_view result
        ≡ live_with (workers_of workers.now) (first_of first.now) script.now capture.now }
    ensures workers { IfSome result (λ form. 1 ≤ form.workers) }
    ensures most_workers { IfSome result (λ form. form.workers ≤ most_workers) }
{
    let workers = workers_of(workers)?;
    let first = first_of(first)?;
    Some(LiveForm {
        workers,
        first,
        script,
        capture,
    })
}

/// The number of workers that a word spells.
#[tactic(auto, unfolding(crate::specs::LiveWords::workers_of))]
fn workers_of(word: &[u8]) -> Option<u8>
    ensures word { result ≡ workers_of word.now }
    ensures least { IfSome result (λ workers. 1 ≤ workers) }
    ensures most { IfSome result (λ workers. workers ≤ most_workers) }
{
    match num_read(word) {
        Some(workers) if 1 <= workers && workers <= MOST_WORKERS => Some(workers as u8),
        _ => None,
    }
}

/// The number of first commands that a word spells.
#[tactic(auto, unfolding(crate::specs::LiveWords::first_of))]
fn first_of(word: &[u8]) -> Option<u32>
    ensures { result ≡ first_of word.now }
{
    match num_read(word) {
        Some(first) if first <= u32::MAX as u64 => Some(first as u32),
        _ => None,
    }
}
