//! Tables read from text, line by line.
ghost use Rattle.std.specs.Prelude.{◌≡◌, ◌≤◌, ◌⊎◌, Ok, Err, IfOk, MatchResult, length};
ghost use Rattle.vnff_base.specs.Lines.{word_lines, words_of};
ghost use Rattle.vnff_base.specs.Shelves.{file_limit};
ghost use Rattle.ntuple_text.specs.Spellable.{IsSpellable};
ghost use Rattle.ntuple_text.specs.TableLines.{after_delete, after_directive, after_line, after_lines, is_flag};
ghost use Rattle.ntuple_text.specs.TableLines.{location_or_free, spec_at_end, spec_of, table_of};
ghost use Rattle.ntuple_text.specs.TableLines.{without_command};
ghost use Rattle.ntuple_text.specs.TableMaps.{most_pairs};

use crate::draft::{Awaits, Draft};
use crate::error::{Fault, TextErr};
use crate::key::flow_of;
use crate::spec::Spec;
use crate::table::Table;
use crate::value::location_value;
use std::alloc::Global;
use vnff_base::{LineReader, first_word};

/// The table that a text gives for so many queue pairs, or its first bad line with that line's first
/// fault, from left to right.
#[tactic(auto, unfolding(crate::specs::TableLines::table_of))]
pub fn read_table(alloc: Global, text: &[u8], pairs: u8) -> Result<Table, TextErr>
    requires text { length text.now ≤ file_limit }
    requires some_pairs { 1 ≤ pairs }
    requires few_pairs { pairs ≤ most_pairs }
    ensures read { MatchResult result (λ table. table_of pairs (word_lines text.now) ≡ Ok table)
        (λ err. (err ≡ TextErr.Memory) ⊎ (table_of pairs (word_lines text.now) ≡ Err err)) }
    ensures pairs { IfOk result (λ table. table.pairs ≡ pairs) }
{
    let mut table = match Table::empty(alloc, pairs) {
        Ok(table) => table,
        Err(_) => return Err(TextErr::Memory),
    };
    read_lines(&mut table, text)?;
    Ok(table)
}

// The table after the lines of a text.
fn read_lines(table: &mut Table, text: &[u8]) -> Result<(), TextErr>
    requires { length text.now ≤ file_limit }
    ensures { MatchResult result (λ _. after_lines table.old (word_lines text.now) ≡ Ok table.new)
        (λ err. after_lines table.old (word_lines text.now) ≡ Err err) }
{
    let mut reader = LineReader::new(text);
    while let Some(line) = reader.next_line() {
        if let Err(fault) = read_line(table, line.text) {
            return Err(fault.at(line.number as u32));
        }
    }
    Ok(())
}

// The table after one line.
#[tactic(auto, unfolding(crate::specs::TableLines::after_line))]
fn read_line(table: &mut Table, line: &[u8]) -> Result<(), Fault>
    ensures { MatchResult result (λ _. after_line table.old (words_of line.now) ≡ Ok table.new)
        (λ fault. after_line table.old (words_of line.now) ≡ Err fault) }
{
    read_directive(table, without_command(line))
}

// What a line's words do, past the command.
#[tactic(auto, unfolding(crate::specs::TableLines::after_directive))]
fn read_directive(table: &mut Table, line: &[u8]) -> Result<(), Fault>
    ensures { MatchResult result (λ _. after_directive table.old (words_of line.now) ≡ Ok table.new)
        (λ fault. after_directive table.old (words_of line.now) ≡ Err fault) }
{
    let Some((word, rest)) = first_word(line) else {
        return Err(Fault::Word);
    };
    if word == b"delete".as_slice() {
        delete(table, rest)
    } else if word == b"flow-type".as_slice() {
        let spec = read_spec(table, rest)?;
        table.set(spec);
        Ok(())
    } else {
        Err(Fault::Word)
    }
}

// What the words after `delete` do.
#[tactic(auto, unfolding(crate::specs::TableLines::after_delete))]
fn delete(table: &mut Table, line: &[u8]) -> Result<(), Fault>
    ensures { MatchResult result (λ _. after_delete table.old (words_of line.now) ≡ Ok table.new)
        (λ fault. after_delete table.old (words_of line.now) ≡ Err fault) }
{
    let Some((word, rest)) = first_word(line) else {
        return Err(Fault::Word);
    };
    let loc = location_value(word)?;
    if table.at(loc).is_none() {
        return Err(Fault::NoSuchLoc);
    }
    if first_word(rest).is_some() {
        return Err(Fault::Word);
    }
    table.remove(loc);
    Ok(())
}

// The spec that the words after `flow-type` give.
#[tactic(auto, unfolding(crate::specs::TableLines::spec_of))]
fn read_spec(table: &Table, line: &[u8]) -> Result<Spec, Fault>
    ensures value { result ≡ spec_of table.now (words_of line.now) }
    ensures spellable { IfOk result (λ spec. IsSpellable table.now.pairs spec) }
{
    let Some((word, rest)) = first_word(line) else {
        return Err(Fault::Word);
    };
    match flow_of(word) {
        Some(flow) => spec_at_end(table, Draft::new(flow).read_options(rest, table.pairs())?),
        None => Err(Fault::Word),
    }
}

// The spec of a line's options, at the line's end.
#[tactic(auto, unfolding(crate::specs::TableLines::spec_at_end))]
fn spec_at_end(table: &Table, draft: Draft) -> Result<Spec, Fault>
    ensures { result ≡ spec_at_end table.now draft }
{
    if matches!(draft.awaits, Awaits::Value(_) | Awaits::Mask(_)) {
        return Err(Fault::Word);
    }
    let Some(action) = draft.action else {
        return Err(Fault::NoAction);
    };
    match location_or_free(table, draft.loc) {
        Some(loc) => Ok(draft.spec(action, loc)),
        None => Err(Fault::TableFull),
    }
}

// The location that is given, or the largest free one.
fn location_or_free(table: &Table, loc: Option<u16>) -> Option<u16>
    ensures { result ≡ location_or_free table.now loc }
{
    match loc {
        Some(loc) => Some(loc),
        None => table.last_free(),
    }
}

// A line without the words `ethtool`, one that adds or removes specs, and a device.
#[tactic(auto, unfolding(crate::specs::TableLines::without_command))]
fn without_command(line: &[u8]) -> &[u8]
    ensures { words_of result.now ≡ without_command (words_of line.now) }
{
    let Some((first, rest)) = first_word(line) else {
        return line;
    };
    let Some((flag, rest)) = first_word(rest) else {
        return line;
    };
    let Some((_, rest)) = first_word(rest) else {
        return line;
    };
    if first == b"ethtool".as_slice() && is_flag(flag) {
        rest
    } else {
        line
    }
}

#[tactic(auto, unfolding(crate::specs::TableLines::is_flag))]
fn is_flag(word: &[u8]) -> bool
    ensures { result ≡ is_flag word.now }
{
    word == b"-N".as_slice()
        || word == b"-U".as_slice()
        || word == b"--config-nfc".as_slice()
        || word == b"--config-ntuple".as_slice()
}
