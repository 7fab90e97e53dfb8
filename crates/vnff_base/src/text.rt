//! Lines and words of a text, as scripts and tables share them. A text is any bytes, and none of
//! its lines is copied.
ghost use Rattle.std.specs.Prelude.{◌≡◌, ◌<◌, ◌≤◌, ◌∷◌, [], length, false, position, MatchOption, IfSome};
ghost use Rattle.std.specs.List.{position_or_len, prefix_len};
ghost use Rattle.std.specs.Str.Lines.{lines, strip_carriage_return};
ghost use Rattle.vnff_base.specs.Lines.{is_blank, is_line_feed, is_skipped, unread_from, words_of};

use memchr::{memchr, memchr2};
use std::marker::Model;

/// A line of a text that has a word and is no comment.
#[derive(Clone, Copy, Debug)]
pub struct Line<'a> {
    /// The line's number in its text; lines count from 1.
    pub number: u64,
    /// The line without the bytes that end it.
    pub text: &'a [u8],
}

/// A text that is read line by line. Contracts see the lines that are left, and the number at which
/// a missing line is reported.
#[derive(Drop)]
pub struct LineReader<'a> {
    rest: &'a [u8],
    number: u64,
}

impl<'a> Model for LineReader<'a> {
    ghost use Rattle.std.specs.Prelude.{◌+◌, ◌<◌, ◌^◌, length};
    ghost use Rattle.vnff_base.specs.Lines.{UnreadLines, unread_from};

    ghost Value = { UnreadLines };

    ghost view = { λ reader. unread_from reader.number reader.rest.now };

    ghost invariant = { λ reader. reader.number + length reader.rest.now < 2 ^ 64 };
}

impl<'a> LineReader<'a> {
    /// Reads a text from its first line.
    pub fn new(text: &'a [u8]) -> LineReader<'a>
        ensures { result ≡ unread_from 1 text.now }
    {
        LineReader {
            rest: text,
            number: 1,
        }
    }

    /// The next line that has a word and is no comment. A comment's first word begins with `#`.
    #[tactic(auto, using(crate::proofs::LineLemmas::reader_steps))]
    pub fn next_line(&mut self) -> Option<Line<'a>>
        ensures next { MatchOption result ((self.old.left ≡ []) × (self.new.left ≡ []))
            (λ line. self.old.left
            ≡ record { number = line.number; words = words_of line.text.now } ∷ self.new.left) }
        ensures not_skipped { IfSome result (λ line. is_skipped (words_of line.text.now) ≡ false) }
        ensures missing { self.new.missing ≡ self.old.missing }
    {
        while let Some((line, rest)) = first_line(self.rest) {
            let number = self.number;
            self.rest = rest;
            self.number += 1;
            if !is_skipped(line) {
                return Some(Line { number, text: line });
            }
        }
        None
    }

    /// The number at which a missing line is reported: one above that of the last line.
    pub fn missing(&self) -> u64
        ensures { result ≡ self.now.missing }
    {
        let mut number = self.number;
        let mut rest = self.rest;
        while let Some((_, more)) = first_line(rest) {
            number += 1;
            rest = more;
        }
        number
    }
}

// A line without a word, or a comment.
fn is_skipped(line: &[u8]) -> bool
    ensures { result ≡ is_skipped (words_of line.now) }
{
    match &line[blank_len(line)..] {
        [] => true,
        [first, ..] => *first == b'#',
    }
}

/// The first line of a text without the bytes that end it, and the text after them; none of an empty
/// text. A line feed ends a line, and one carriage return before it does not belong to the line.
pub fn first_line(text: &[u8]) -> Option<(&[u8], &[u8])>
    ensures first { MatchOption result (lines text.now ≡ [])
        (λ found. lines text.now ≡ found.0.now ∷ lines found.1.now) }
    ensures shorter { IfSome result (λ found. length found.1.now < length text.now) }
{
    match line_end(text) {
        Some(end) => Some((without_carriage_return(&text[..end]), &text[end + 1..])),
        None if text.is_empty() => None,
        None => Some((text, &[])),
    }
}

// Where the line feed stands that ends the first line.
fn line_end(text: &[u8]) -> Option<usize>
    ensures { result ≡ position is_line_feed text.now }
{
    memchr(b'\n', text)
}

fn without_carriage_return(line: &[u8]) -> &[u8]
    ensures { result.now ≡ strip_carriage_return line.now }
{
    match line {
        [front @ .., b'\r'] => front,
        _ => line,
    }
}

/// The first word of a line and what follows it; none of a line that has no word. Spaces and tabs
/// separate words.
pub fn first_word(line: &[u8]) -> Option<(&[u8], &[u8])>
    ensures first { MatchOption result (words_of line.now ≡ [])
        (λ found. words_of line.now ≡ found.0.now ∷ words_of found.1.now) }
    ensures shorter { IfSome result (λ found. length found.1.now < length line.now) }
{
    let words = &line[blank_len(line)..];
    if words.is_empty() {
        return None;
    }
    Some(words.split_at(word_len(words)))
}

// How many blanks a line begins with.
fn blank_len(line: &[u8]) -> usize
    ensures count { result ≡ prefix_len is_blank line.now }
    ensures inside { result ≤ length line.now }
{
    line.iter().take_while(|byte| is_blank(**byte)).count()
}

// How many bytes a line has before its first blank.
fn word_len(line: &[u8]) -> usize
    ensures count { result ≡ position_or_len is_blank line.now }
    ensures inside { result ≤ length line.now }
{
    memchr2(b' ', b'\t', line).unwrap_or(line.len())
}

fn is_blank(byte: u8) -> bool
    ensures { result ≡ is_blank byte }
{
    byte == b' ' || byte == b'\t'
}
