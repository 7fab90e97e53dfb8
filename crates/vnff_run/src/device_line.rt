//! The first two lines of a script: the version's, and the device's.

ghost use Rattle.std.specs.Prelude.{◌≡◌, ◌≤◌, ◌∷◌, [], length, IfOk, MatchOption};
ghost use Rattle.vnff_base.specs.Lines.{words_of};
ghost use Rattle.vnff_run.specs.DeviceLines.{caps_of, device_of, is_version, start_of};
ghost use Rattle.vnff_run.specs.Words.{number_within};
ghost use Rattle.vnff_run.specs.declared.error.Reason.TheVariants.{Number};

use crate::error::Reason;
use crate::script::DeviceLine;
use crate::word::{number_within, two_words};
use admin_dev::Start;
use cap_table::{DeviceCaps, GREATEST_LIMITS, MOST_PAIRS};
use ff_headers::Limits;
use vnff_base::text::first_word;

/// Whether the line is `vnff 1`.
#[tactic(auto, unfolding(crate::specs::DeviceLines::is_version))]
pub(crate) fn is_version(line: &[u8]) -> bool
    ensures { result ≡ is_version (words_of line.now) }
{
    match two_words(line) {
        Some((name, version)) => name == b"vnff".as_slice() && version == b"1".as_slice(),
        None => false,
    }
}

/// The device of a line `device PAIRS GROUPS CLASSIFIERS RULES PERGROUP LAST SELECTORS START`.
#[tactic(auto, unfolding(crate::specs::DeviceLines::device_of))]
pub(crate) fn device_of(line: &[u8]) -> Result<DeviceLine, Reason>
    ensures { result ≡ device_of (words_of line.now) }
{
    let Some(words) = device_words(line) else {
        return Err(Reason::Device);
    };
    if words.name != b"device".as_slice() {
        return Err(Reason::Device);
    }
    let start = start_of(words.start)?;
    let caps = caps_of(&words)?;
    Ok(DeviceLine { caps, start })
}

/// The words of a device's line.
#[derive(Clone, Copy)]
struct DeviceWords<'a> {
    name: &'a [u8],
    pairs: &'a [u8],
    groups: &'a [u8],
    classifiers: &'a [u8],
    rules: &'a [u8],
    per_group: &'a [u8],
    last_priority: &'a [u8],
    selectors: &'a [u8],
    start: &'a [u8],
}

/// The words of a line that has as many as a device's.
fn device_words(line: &[u8]) -> Option<DeviceWords<'_>>
    ensures { MatchOption result (length (words_of line.now) ≡ 9 → ⊥)
        (λ w. words_of line.now ≡ w.name.now ∷ w.pairs.now ∷ w.groups.now ∷ w.classifiers.now ∷ w.rules.now
        ∷ w.per_group.now ∷ w.last_priority.now ∷ w.selectors.now ∷ w.start.now ∷ []) }
{
    let (name, rest) = first_word(line)?;
    let (pairs, rest) = first_word(rest)?;
    let (groups, rest) = first_word(rest)?;
    let (classifiers, rest) = first_word(rest)?;
    let (rules, rest) = first_word(rest)?;
    let (per_group, rest) = first_word(rest)?;
    let (last_priority, rest) = first_word(rest)?;
    let (selectors, start) = two_words(rest)?;
    Some(DeviceWords {
        name,
        pairs,
        groups,
        classifiers,
        rules,
        per_group,
        last_priority,
        selectors,
        start,
    })
}

/// How a word says that a device starts.
#[tactic(auto, unfolding(crate::specs::DeviceLines::start_of))]
fn start_of(word: &[u8]) -> Result<Start, Reason>
    ensures { result ≡ start_of word.now }
{
    if word == b"ready".as_slice() {
        Ok(Start::Ready)
    } else if word == b"reset".as_slice() {
        Ok(Start::Reset)
    } else {
        Err(Reason::Device)
    }
}

/// The number that a word spells, which is to be at most `most`.
fn up_to(most: u32, word: &[u8]) -> Result<u64, Reason>
    ensures value { result ≡ number_within Number 0 most word.now }
    ensures bound { IfOk result (λ number. number ≤ most) }
{
    number_within(Reason::Number, 0, u64::from(most), word)
}

/// The capabilities that a device's line spells.
#[tactic(auto, unfolding(crate::specs::DeviceLines::caps_of))]
fn caps_of(words: &DeviceWords<'_>) -> Result<DeviceCaps, Reason>
    ensures { let w = words.now in
        result ≡ caps_of w.pairs.now w.groups.now w.classifiers.now w.rules.now w.per_group.now
        w.last_priority.now w.selectors.now }
{
    let most = GREATEST_LIMITS;
    let pairs = number_within(Reason::Number, 1, u64::from(MOST_PAIRS), words.pairs)?;
    let groups = up_to(most.groups, words.groups)?;
    let classifiers = up_to(most.classifiers, words.classifiers)?;
    let rules = up_to(most.rules, words.rules)?;
    let per_group = up_to(most.per_group, words.per_group)?;
    let last_priority = up_to(u32::from(most.last_priority), words.last_priority)?;
    let selectors = up_to(u32::from(most.selectors), words.selectors)?;
    let limits = Limits {
        groups: groups as u32,
        classifiers: classifiers as u32,
        rules: rules as u32,
        per_group: per_group as u32,
        last_priority: last_priority as u8,
        selectors: selectors as u8,
    };
    Ok(DeviceCaps::with_all_selectors(pairs as u8, limits))
}
