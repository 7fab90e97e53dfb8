//! A script whose items are read one after another, as they are asked for.

ghost use Rattle.std.specs.Prelude.{◌≡◌, ◌<◌, ◌^◌, IfOk, IfSome, MatchResult};
ghost use Rattle.vnff_base.specs.Lines.{words_of};
ghost use Rattle.vnff_run.specs.Grammar.{at_line};
ghost use Rattle.vnff_run.specs.ItemLines.{IsItemWithin, item_of};
ghost use Rattle.vnff_run.specs.Readings.{HasSmallNumbers, IsScriptFault, ReadsItem, lines_from};

use crate::error::ScriptFault;
use crate::item_line::item_of;
use crate::script::Item;
use admin_dev::Start;
use cap_table::DeviceCaps;
use std::alloc::Global;
use std::marker::Model;
use vnff_base::text::{Line, LineReader};

/// A script of which the items are not read yet.
#[derive(Drop)]
pub(crate) struct UnreadScript<'a> {
    pub caps: DeviceCaps,
    pub start: Start,
    pub items: ItemReader<'a>,
}

/// Items that are not read yet. Contracts see their lines.
#[derive(Drop)]
pub(crate) struct ItemReader<'a> {
    /// The line of the next item, which is taken from the text already.
    next: Option<Line<'a>>,
    behind: LineReader<'a>,
}

impl<'a> Model for ItemReader<'a> {
    ghost use Rattle.std.specs.Prelude.{◌<◌, ◌^◌, List, IfSome};
    ghost use Rattle.vnff_base.specs.Lines.{NumberedLine};
    ghost use Rattle.vnff_run.specs.Readings.{HasSmallNumbers, lines_from};

    ghost Value = { List NumberedLine };

    ghost view = { λ items. lines_from items.next items.behind.left };

    ghost invariant = { λ items.
        HasSmallNumbers items.behind × IfSome items.next (λ line. line.number < 2 ^ 32) };
}

impl<'a> ItemReader<'a> {
    /// The items of a line that was taken from a text, and of those that are left behind it.
    pub(crate) fn new(next: Option<Line<'a>>, behind: LineReader<'a>) -> ItemReader<'a>
        requires small { HasSmallNumbers behind }
        requires next_small { IfSome next (λ line. line.number < 2 ^ 32) }
        ensures { result ≡ lines_from next.entry behind.entry.left }
    {
        ItemReader { next, behind }
    }

    /// Reads the next item, or the first fault of those that are left; none where none is left.
    pub(crate) fn next_item(&mut self, alloc: Global) -> Option<Result<Item, ScriptFault>>
        ensures read { ReadsItem self.old self.new result }
        ensures within { IfSome result (λ read. IfOk read IsItemWithin) }
    {
        let line = self.next?;
        self.next = self.behind.next_line();
        Some(read_item(alloc, line))
    }
}

/// Reads the line of an item.
fn read_item(alloc: Global, line: Line<'_>) -> Result<Item, ScriptFault>
    requires { line.number < 2 ^ 32 }
    ensures { let spelled = at_line line.entry.number (item_of (words_of line.entry.text.now)) in
        MatchResult result (λ item. spelled ≡ Ok item) (IsScriptFault spelled) }
{
    item_of(alloc, line.text).map_err(|fault| fault.at(line.number))
}
