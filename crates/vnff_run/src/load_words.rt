//! The words behind `gen`: the seed of a load, and the number of its frames.

ghost use Rattle.std.specs.Prelude.{◌≡◌};
ghost use Rattle.vnff_run.specs.LoadWords.{frame_count_of};

use vnff_base::num_read;

/// The most frames of a load.
const MOST_FRAMES: u64 = 1_000_000;

/// How many frames a word asks for: 1 to 1,000,000.
#[tactic(auto, unfolding(crate::specs::LoadWords::frame_count_of))]
pub(crate) fn frame_count_of(word: &[u8]) -> Option<u32>
    ensures { result ≡ frame_count_of word.now }
{
    match num_read(word) {
        Some(count) if 1 <= count && count <= MOST_FRAMES => Some(count as u32),
        _ => None,
    }
}
