//! Lines that name the selectors of a device: `select KIND MODE HEX`.

ghost use Rattle.std.specs.Prelude.{◌≡◌, ◌<◌, true, false, drop, IfOk, MatchOption, MatchResult};
ghost use Rattle.ff_headers.specs.Kinds.{kind_code};
ghost use Rattle.ff_headers.specs.SelectorParts.{IsWhole};
ghost use Rattle.vnff_base.specs.Lines.{words_of};
ghost use Rattle.vnff_run.specs.Readings.{IsLineFaultOf};
ghost use Rattle.vnff_run.specs.SelectLines.{flags_named, is_select, kind_named, selector_in_line};

use crate::error::{LineFault, Reason};
use crate::word::{bytes_within, three_words};
use ff_headers::{Kind, Selector};
use std::alloc::Global;
use vnff_base::text::first_word;

/// What stands behind `select` in a line that begins so.
#[tactic(auto, unfolding(crate::specs::SelectLines::is_select))]
pub(crate) fn behind_select(line: &[u8]) -> Option<&[u8]>
    ensures { MatchOption result (is_select (words_of line.now) ≡ false)
        (λ rest. (is_select (words_of line.now) ≡ true) × (drop 1 (words_of line.now) ≡ words_of rest.now)) }
{
    let (name, rest) = first_word(line)?;
    if name == b"select".as_slice() {
        Some(rest)
    } else {
        None
    }
}

/// The selector that is named by the words behind `select`. Its type is above `last`.
#[tactic(auto, unfolding(crate::specs::SelectLines::selector_in_line))]
pub(crate) fn selector_in_line(alloc: Global, last: u8, line: &[u8]) -> Result<Selector, LineFault>
    ensures read { MatchResult result (λ selector. selector_in_line last (words_of line.now) ≡ Ok selector)
        (IsLineFaultOf (selector_in_line last (words_of line.now))) }
    ensures above { IfOk result (λ selector. last < kind_code selector.kind) }
    ensures whole { IfOk result IsWhole }
{
    let Some((kind, mode, mask)) = three_words(line) else {
        return Err(LineFault::Bad(Reason::Word));
    };
    let kind = kind_named(kind).ok_or(Reason::Select)?;
    let flags = flags_named(mode).ok_or(Reason::Select)?;
    let size = kind.size();
    let mask = bytes_within(alloc, Reason::Select, size, size, mask)?;
    if kind.code() <= last {
        return Err(LineFault::Bad(Reason::Select));
    }
    Ok(Selector::new(kind, flags, mask.as_slice()))
}

/// The header that a word names.
#[tactic(auto, unfolding(crate::specs::SelectLines::kind_named))]
fn kind_named(word: &[u8]) -> Option<Kind>
    ensures { result ≡ kind_named word.now }
{
    if word == b"eth".as_slice() {
        Some(Kind::Eth)
    } else if word == b"ipv4".as_slice() {
        Some(Kind::Ipv4)
    } else if word == b"ipv6".as_slice() {
        Some(Kind::Ipv6)
    } else if word == b"tcp".as_slice() {
        Some(Kind::Tcp)
    } else if word == b"udp".as_slice() {
        Some(Kind::Udp)
    } else {
        None
    }
}

/// The flags byte that a word names.
#[tactic(auto, unfolding(crate::specs::SelectLines::flags_named))]
fn flags_named(word: &[u8]) -> Option<u8>
    ensures { result ≡ flags_named word.now }
{
    if word == b"partial".as_slice() {
        Some(1)
    } else if word == b"whole".as_slice() {
        Some(0)
    } else {
        None
    }
}
