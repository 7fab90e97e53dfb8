//! Scripts, read from their text: line by line, and each line's words from left to right, each once.

ghost use Rattle.std.specs.Prelude.{◌≡◌, ◌<◌, ◌≤◌, ◌^◌, [], ◌∷◌, ◌++◌, All, length, IfOk, IfSome, MatchResult, OnOk};
ghost use Rattle.ff_headers.specs.Kinds.{kind_code};
ghost use Rattle.ff_headers.specs.SelectorParts.{IsWhole};
ghost use Rattle.vnff_base.specs.Lines.{words_of};
ghost use Rattle.cap_table.specs.Caps.{AreSelectors};
ghost use Rattle.vnff_base.specs.Shelves.{file_limit};
ghost use Rattle.vnff_run.specs.DeviceFiles.{device_file_of, device_file_of_lines, first_number, ready_start};
ghost use Rattle.vnff_run.specs.Grammar.{after_version, at_line, device_in, items_of, script_of, script_of_lines};
ghost use Rattle.vnff_run.specs.Grammar.{first_selectors, caps_with_selectors};
ghost use Rattle.vnff_run.specs.ItemLines.{IsItemWithin};
ghost use Rattle.vnff_run.specs.Readings.{HasSmallNumbers, IsScriptFault, ReadsKept, kept_in, kept_of, lines_from};
ghost use Rattle.vnff_run.specs.ScriptTexts.{script_text};
ghost use Rattle.vnff_run.specs.SelectLines.{selector_in_line};
ghost use Rattle.vnff_run.specs.Spellable.{IsSpellable};
ghost use Rattle.vnff_run.specs.UnreadScripts.{OpensScript, spelled_by};
ghost use Rattle.vnff_run.specs.declared.script.Script.{Script as SomeScript};

use crate::device_line::{device_of, is_version};
use crate::error::{Reason, ScriptFault};
use crate::script::{DeviceLine, Item, Kept, Script};
use crate::select_line::{behind_select, selector_in_line};
use crate::unread_script::{ItemReader, UnreadScript};
use arrayvec::ArrayVec;
use cap_table::{DeviceCaps, Start};
use ff_headers::Selector;
use std::alloc::{AllocError, Global};
use vnff_base::List;
use vnff_base::text::{Line, LineReader};

/// The script that the bytes spell, at most 67,108,864 of them, or its first fault.
pub fn read_script(alloc: Global, bytes: &[u8]) -> Result<Script, ScriptFault>
    requires { length bytes.now ≤ file_limit }
    ensures read { MatchResult result (λ script. script_of bytes.now ≡ Ok script)
        (IsScriptFault (script_of bytes.now)) }
    // The canonical text of a script is read as that script.
    ensures written { (script : SomeScript) → IsSpellable script → bytes.now ≡ script_text script
        → MatchResult result (λ read. read ≡ script) (λ fault. fault ≡ ScriptFault.Memory) }
    // Its commands, rooms and frames are within their limits.
    ensures within { IfOk result (λ script. All IsItemWithin script.items) }
    // There are no more items than bytes.
    ensures few { IfOk result (λ script. length script.items ≤ length bytes.now) }
{
    read_kept(alloc, Kept::All, bytes)
}

/// The script that the bytes spell, at most 67,108,864 of them, with those of its items that are kept, or its first
/// fault.
pub(crate) fn read_kept(alloc: Global, kept: Kept, bytes: &[u8]) -> Result<Script, ScriptFault>
    requires { length bytes.now ≤ file_limit }
    ensures read { ReadsKept kept (script_of bytes.now) result }
    ensures within { IfOk result (λ script. All IsItemWithin script.items) }
    ensures few { IfOk result (λ script. length script.items ≤ length bytes.now) }
{
    let UnreadScript { caps, start, items } = read_head(alloc, LineReader::new(bytes))?;
    let items = read_items(alloc, kept, items)?;
    Ok(Script { caps, start, items })
}

/// The script that the bytes spell, at most 67,108,864 of them, with all its items to be read once more, or its first
/// fault.
pub(crate) fn open_script(alloc: Global, bytes: &[u8]) -> Result<UnreadScript<'_>, ScriptFault>
    requires { length bytes.now ≤ file_limit }
    ensures { OpensScript (script_of bytes.now) result }
{
    read_kept(alloc, Kept::Nothing, bytes)?;
    read_head(alloc, LineReader::new(bytes))
}

/// Reads the lines of a script before those of its items.
#[tactic(auto, unfolding(crate::specs::Grammar::script_of_lines))]
fn read_head(alloc: Global, mut reader: LineReader<'_>) -> Result<UnreadScript<'_>, ScriptFault>
    requires { HasSmallNumbers reader }
    ensures { let spelled = script_of_lines reader.entry.missing reader.entry.left in
        MatchResult result (λ script. spelled ≡ spelled_by script) (IsScriptFault spelled) }
{
    read_version(&mut reader)?;
    let (_, DeviceLine { caps, start }) = read_device(&mut reader)?;
    let mut selectors = ArrayVec::new();
    let first = read_selectors(alloc, &mut reader, &mut selectors)?;
    Ok(UnreadScript {
        caps: caps_with_selectors(caps, selectors),
        start,
        items: ItemReader::new(first, reader),
    })
}

/// The device that the bytes of a file spell, at most 67,108,864 of them, as a script without items, or its first
/// fault.
pub fn read_device_file(alloc: Global, bytes: &[u8]) -> Result<Script, ScriptFault>
    requires { length bytes.now ≤ file_limit }
    ensures { MatchResult result (λ script. device_file_of bytes.now ≡ Ok script)
        (IsScriptFault (device_file_of bytes.now)) }
{
    read_device_lines(alloc, &mut LineReader::new(bytes))
}

/// Reads all lines of a file of a device alone.
#[tactic(auto, unfolding(crate::specs::DeviceFiles::device_file_of_lines, crate::specs::DeviceFiles::no_item), using(crate::proofs::GrammarLemmas::small_numbers))]
fn read_device_lines(alloc: Global, reader: &mut LineReader) -> Result<Script, ScriptFault>
    requires { HasSmallNumbers reader.old }
    ensures { let spelled = device_file_of_lines reader.old.missing reader.old.left in
        MatchResult result (λ script. spelled ≡ Ok script) (IsScriptFault spelled) }
{
    read_version(reader)?;
    let (number, DeviceLine { caps, start }) = read_device(reader)?;
    let mut selectors = ArrayVec::new();
    if let Some(line) = read_selectors(alloc, reader, &mut selectors)? {
        return Err(Reason::Word.at(line.number));
    }
    let start = ready_start(start).map_err(|reason| reason.at(number))?;
    let caps = caps_with_selectors(caps, selectors);
    Ok(Script {
        caps,
        start,
        items: List::new(alloc),
    })
}

/// A start that isn't `reset`.
#[tactic(auto, unfolding(crate::specs::DeviceFiles::ready_start))]
fn ready_start(start: Start) -> Result<Start, Reason>
    ensures { result ≡ ready_start start }
{
    match start {
        Start::Ready => Ok(Start::Ready),
        Start::Reset => Err(Reason::Start),
    }
}

/// Reads the version's line.
#[tactic(auto, unfolding(crate::specs::Grammar::after_version), using(crate::proofs::GrammarLemmas::small_numbers))]
fn read_version(reader: &mut LineReader) -> Result<(), ScriptFault>
    requires { HasSmallNumbers reader.old }
    ensures read { let spelled = after_version reader.old.missing reader.old.left in
        MatchResult result (λ _. spelled ≡ Ok reader.new.left) (IsScriptFault spelled) }
    ensures missing { reader.new.missing ≡ reader.old.missing }
    ensures small { HasSmallNumbers reader.new }
{
    let Some(line) = reader.next_line() else {
        return Err(Reason::Version.at(reader.missing()));
    };
    if !is_version(line.text) {
        return Err(Reason::Version.at(line.number));
    }
    Ok(())
}

/// Reads the device's line, and gives its number.
#[tactic(auto, unfolding(crate::specs::Grammar::device_in), using(crate::proofs::GrammarLemmas::small_numbers))]
fn read_device(reader: &mut LineReader) -> Result<(u64, DeviceLine), ScriptFault>
    requires { HasSmallNumbers reader.old }
    ensures read { let spelled = device_in reader.old.missing reader.old.left in
        MatchResult result (λ read. spelled ≡ Ok (read.1, reader.new.left)) (IsScriptFault spelled) }
    ensures number { IfOk result (λ read. read.0 ≡ first_number reader.old.missing reader.old.left) }
    ensures small_number { IfOk result (λ read. read.0 < 2 ^ 32) }
    ensures small { HasSmallNumbers reader.new }
{
    let Some(line) = reader.next_line() else {
        return Err(Reason::Device.at(reader.missing()));
    };
    let device = device_of(line.text).map_err(|reason| reason.at(line.number))?;
    Ok((line.number, device))
}

/// Reads the lines of selectors, and gives the line behind them.
#[tactic(auto, using(crate::proofs::SelectLemmas::select_steps))]
fn read_selectors<'a>(
    alloc: Global,
    reader: &mut LineReader<'a>,
    selectors: &mut ArrayVec<Selector, 5>,
) -> Result<Option<Line<'a>>, ScriptFault>
    requires none { selectors.old.items ≡ [] }
    requires small { HasSmallNumbers reader.old }
    ensures read { let spelled = first_selectors 0 reader.old.left in
        MatchResult result (λ first. spelled ≡ Ok (selectors.new.items, lines_from first reader.new.left))
        (IsScriptFault spelled) }
    ensures good { OnOk result (AreSelectors selectors.new.items) }
    ensures small { HasSmallNumbers reader.new }
    ensures first_small { IfOk result (λ first. IfSome first (λ line. line.number < 2 ^ 32)) }
{
    let mut last = 0;
    while let Some(line) = reader.next_line() {
        let Some(rest) = behind_select(line.text) else {
            return Ok(Some(line));
        };
        let selector = read_selector(alloc, last, line.number, rest)?;
        last = selector.kind().code();
        selectors.push(selector);
    }
    Ok(None)
}

/// Reads the words behind `select` of a line with this number.
fn read_selector(
    alloc: Global,
    last: u8,
    number: u64,
    words: &[u8],
) -> Result<Selector, ScriptFault>
    requires { number < 2 ^ 32 }
    ensures read { let spelled = at_line number (selector_in_line last (words_of words.now)) in
        MatchResult result (λ selector. spelled ≡ Ok selector) (IsScriptFault spelled) }
    ensures above { IfOk result (λ selector. last < kind_code selector.kind) }
    ensures whole { IfOk result IsWhole }
{
    selector_in_line(alloc, last, words).map_err(|fault| fault.at(number))
}

/// The device with the selectors that lines name, if there are any.
fn caps_with_selectors(caps: DeviceCaps, selectors: ArrayVec<Selector, 5>) -> DeviceCaps
    requires { AreSelectors selectors.items }
    ensures { result ≡ caps_with_selectors caps selectors.items }
{
    if selectors.is_empty() {
        return caps;
    }
    DeviceCaps::new(caps.pairs(), *caps.limits(), selectors)
}

/// Reads all items that are left, and keeps some.
fn read_items(
    alloc: Global,
    kept: Kept,
    mut unread: ItemReader<'_>,
) -> Result<List<Item>, ScriptFault>
    ensures { let spelled = items_of unread.entry in
        MatchResult result (λ items. kept_in kept spelled ≡ Ok items) (IsScriptFault spelled) }
{
    let mut items = List::new(alloc);
    while let Some(item) = unread.next_item(alloc) {
        keep_item(kept, &mut items, item?)?;
    }
    Ok(items)
}

/// Keeps an item behind others, if it is one to be kept.
fn keep_item(kept: Kept, items: &mut List<Item>, item: Item) -> Result<(), AllocError>
    ensures { OnOk result (items.new ≡ items.old ++ kept_of kept (item ∷ [])) }
{
    if kept.keeps(&item) {
        items.push(item)?;
    }
    Ok(())
}
