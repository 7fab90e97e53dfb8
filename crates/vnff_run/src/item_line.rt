//! Lines of items: `admin HEX ROOM` and `frame HEX`.

ghost use Rattle.std.specs.Prelude.{◌≡◌, MatchResult};
ghost use Rattle.vnff_base.specs.Lines.{words_of};
ghost use Rattle.vnff_run.specs.ItemLines.{admin_of, frame_item, item_of};
ghost use Rattle.vnff_run.specs.Readings.{IsLineFaultOf};

use crate::error::{LineFault, Reason};
use crate::script::Item;
use crate::word::{bytes_within, number_within, one_word, two_words};
use capture::LONGEST_FRAME;
use std::alloc::Global;
use steer::AdminLine;
use vnff_base::text::first_word;

/// The most bytes of a command.
const MOST_COMMAND: usize = 1024;

/// The most bytes of room for a reply.
const MOST_ROOM: u64 = 4096;

/// The item of a line.
#[tactic(auto, unfolding(crate::specs::ItemLines::item_of))]
pub(crate) fn item_of(alloc: Global, line: &[u8]) -> Result<Item, LineFault>
    ensures { MatchResult result (λ item. item_of (words_of line.now) ≡ Ok item)
        (IsLineFaultOf (item_of (words_of line.now))) }
{
    let Some((name, words)) = first_word(line) else {
        return Err(LineFault::Bad(Reason::Word));
    };
    if name == b"admin".as_slice() {
        admin_of(alloc, words)
    } else if name == b"frame".as_slice() {
        frame_item(alloc, words)
    } else {
        Err(LineFault::Bad(Reason::Word))
    }
}

/// The command of a line `admin HEX ROOM`, behind its first word.
#[tactic(auto, unfolding(crate::specs::ItemLines::admin_of))]
fn admin_of(alloc: Global, line: &[u8]) -> Result<Item, LineFault>
    ensures { MatchResult result (λ item. admin_of (words_of line.now) ≡ Ok item)
        (IsLineFaultOf (admin_of (words_of line.now))) }
{
    let Some((hex, room)) = two_words(line) else {
        return Err(LineFault::Bad(Reason::Word));
    };
    let bytes = bytes_within(alloc, Reason::Hex, 1, MOST_COMMAND, hex)?;
    let room = number_within(Reason::Room, 0, MOST_ROOM, room)? as u32;
    Ok(Item::Admin(AdminLine { bytes, room }))
}

/// The frame of a line `frame HEX`, behind its first word.
#[tactic(auto, unfolding(crate::specs::ItemLines::frame_item))]
fn frame_item(alloc: Global, line: &[u8]) -> Result<Item, LineFault>
    ensures { MatchResult result (λ item. frame_item (words_of line.now) ≡ Ok item)
        (IsLineFaultOf (frame_item (words_of line.now))) }
{
    let Some(hex) = one_word(line) else {
        return Err(LineFault::Bad(Reason::Word));
    };
    Ok(Item::Frame(bytes_within(alloc, Reason::Hex, 0, LONGEST_FRAME, hex)?))
}
