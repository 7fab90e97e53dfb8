//! Numbers and bytes that words of a script spell, and lines of so many words.

ghost use Rattle.std.specs.Prelude.{◌≡◌, ◌≤◌, ◌∷◌, [], length, IfOk, MatchOption, MatchResult};
ghost use Rattle.vnff_base.specs.Lines.{words_of};
ghost use Rattle.vnff_run.specs.Readings.{IsLineFaultOf};
ghost use Rattle.vnff_run.specs.Words.{bytes_within, number_within};

use crate::error::{LineFault, Reason};
use std::alloc::Global;
use vnff_base::text::first_word;
use vnff_base::{HexErr, List, hex_read, num_read};

/// The number that a word spells, so large at least and at most.
#[tactic(auto, unfolding(crate::specs::Words::number_within))]
pub(crate) fn number_within(reason: Reason, low: u64, high: u64, word: &[u8]) -> Result<u64, Reason>
    ensures value { result ≡ number_within reason low high word.now }
    ensures least { IfOk result (λ number. low ≤ number) }
    ensures most { IfOk result (λ number. number ≤ high) }
{
    match num_read(word) {
        Some(number) if low <= number && number <= high => Ok(number),
        _ => Err(reason),
    }
}

/// The bytes that a word spells in hexadecimal, so many at least and at most.
#[tactic(auto, unfolding(crate::specs::Words::bytes_within))]
pub(crate) fn bytes_within(
    alloc: Global,
    reason: Reason,
    low: usize,
    high: usize,
    word: &[u8],
) -> Result<List<u8>, LineFault>
    ensures read { MatchResult result (λ bytes. bytes_within reason low high word.now ≡ Ok bytes)
        (IsLineFaultOf (bytes_within reason low high word.now)) }
    ensures least { IfOk result (λ bytes. low ≤ length bytes) }
    ensures most { IfOk result (λ bytes. length bytes ≤ high) }
{
    let bytes = match hex_read(alloc, word) {
        Ok(bytes) => bytes,
        Err(HexErr::NotHex) => return Err(LineFault::Bad(reason)),
        Err(HexErr::Memory) => return Err(LineFault::Memory),
    };
    if bytes.len() < low || high < bytes.len() {
        return Err(LineFault::Bad(reason));
    }
    Ok(List::from(bytes))
}

/// The word of a line that has one.
pub(crate) fn one_word(line: &[u8]) -> Option<&[u8]>
    ensures { MatchOption result (length (words_of line.now) ≡ 1 → ⊥)
        (λ word. words_of line.now ≡ word.now ∷ []) }
{
    let (word, rest) = first_word(line)?;
    match first_word(rest) {
        Some(_) => None,
        None => Some(word),
    }
}

/// The words of a line that has two.
pub(crate) fn two_words(line: &[u8]) -> Option<(&[u8], &[u8])>
    ensures { MatchOption result (length (words_of line.now) ≡ 2 → ⊥)
        (λ words. words_of line.now ≡ words.0.now ∷ words.1.now ∷ []) }
{
    let (first, rest) = first_word(line)?;
    let second = one_word(rest)?;
    Some((first, second))
}

/// The words of a line that has three.
pub(crate) fn three_words(line: &[u8]) -> Option<(&[u8], &[u8], &[u8])>
    ensures { MatchOption result (length (words_of line.now) ≡ 3 → ⊥)
        (λ words. words_of line.now ≡ words.0.now ∷ words.1.now ∷ words.2.now ∷ []) }
{
    let (first, rest) = first_word(line)?;
    let (second, third) = two_words(rest)?;
    Some((first, second, third))
}
