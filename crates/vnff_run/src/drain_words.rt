//! The words behind `drain IMAGE`: where the queue of an image lies.

ghost use Rattle.std.specs.Prelude.{◌≡◌};
ghost use Rattle.vnff_run.specs.DrainWords.{place_from_words, size_of};

use split_queue::Place;
use vnff_base::num_read;

/// The most descriptors of a queue.
const MOST_SIZE: u64 = 32_768;

/// The place that four words spell: the size of the queue, a power of two from 1 to 32,768, and the addresses of its
/// descriptors, its available ring and its used ring.
#[tactic(auto, unfolding(crate::specs::DrainWords::place_from_words))]
pub(crate) fn place_from_words(size: &[u8], desc: &[u8], avail: &[u8], used: &[u8]) -> Option<Place>
    ensures { result ≡ place_from_words size.now desc.now avail.now used.now }
{
    let size = size_of(size)?;
    let desc = num_read(desc)?;
    let avail = num_read(avail)?;
    let used = num_read(used)?;
    Some(Place {
        size,
        desc,
        avail,
        used,
    })
}

/// The size of a queue that a word spells.
#[tactic(auto, unfolding(crate::specs::DrainWords::size_of))]
fn size_of(word: &[u8]) -> Option<u16>
    ensures { result ≡ size_of word.now }
{
    match num_read(word) {
        Some(size) if size <= MOST_SIZE && size.is_power_of_two() => Some(size as u16),
        _ => None,
    }
}
