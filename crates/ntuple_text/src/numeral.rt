//! Numbers of a table: decimal, or hexadecimal after `0x`.
ghost use Rattle.std.specs.Prelude.{◌≡◌, ◌≤◌, ◌<◌, ◌^◌, length, IsTrue, IfOk};
ghost use Rattle.std.specs.Char.{is_ascii_digit};
ghost use Rattle.std.specs.Option.{SomeIff};
ghost use Rattle.std.specs.Str.Parse.{digits_value};
ghost use Rattle.ntuple_text.specs.Numerals.{are_hex_digits, hex_number, is_hexadecimal, is_octal, numeral_of};
ghost use Rattle.ntuple_text.specs.Numerals.{numeral_up_to, spelled_number};

use crate::error::Fault;
use vnff_base::{is_hex, num_read};

/// The number that a word spells, which is to be at most `most`.
#[tactic(auto, unfolding(crate::specs::Numerals::numeral_up_to))]
pub(crate) fn numeral_up_to(word: &[u8], most: u64) -> Result<u64, Fault>
    ensures value { result ≡ numeral_up_to most word.now }
    ensures bound { IfOk result (λ n. n ≤ most) }
{
    let value = numeral_of(word)?;
    if value > most {
        return Err(Fault::Number);
    }
    Ok(value)
}

/// The number that a word spells: decimal digits without a leading zero, or hexadecimal digits after
/// `0x` or `0X`.
#[tactic(auto, unfolding(crate::specs::Numerals::numeral_of))]
pub(crate) fn numeral_of(word: &[u8]) -> Result<u64, Fault>
    ensures { result ≡ numeral_of word.now }
{
    if is_octal(word) {
        return Err(Fault::Octal);
    }
    spelled_number(word).ok_or(Fault::Number)
}

fn spelled_number(word: &[u8]) -> Option<u64>
    ensures { result ≡ spelled_number word.now }
{
    if is_hexadecimal(word) {
        hex_number(&word[2..])
    } else {
        num_read(word)
    }
}

// Tells a number that ethtool would read as octal.
fn is_octal(word: &[u8]) -> bool
    ensures { result ≡ is_octal word.now }
{
    matches!(word, [b'0', digit, ..] if digit.is_ascii_digit())
}

fn is_hexadecimal(word: &[u8]) -> bool
    ensures value { result ≡ is_hexadecimal word.now }
    ensures long { IsTrue result → 2 ≤ length word.now }
{
    matches!(word, [b'0', b'x' | b'X', ..])
}

/// The number below 2^64 that hexadecimal digits of either case spell.
#[tactic(auto, unfolding(crate::specs::Numerals::hex_number))]
pub(crate) fn hex_number(digits: &[u8]) -> Option<u64>
    ensures { result ≡ hex_number digits.now }
{
    if !are_hex_digits(digits) {
        return None;
    }
    digits_value(digits)
}

fn are_hex_digits(digits: &[u8]) -> bool
    ensures { result ≡ are_hex_digits digits.now }
{
    !digits.is_empty() && is_hex(digits)
}

// The number of a word of hexadecimal digits.
fn digits_value(digits: &[u8]) -> Option<u64>
    requires { IsTrue (are_hex_digits digits.now) }
    ensures { SomeIff result (digits_value 16 digits.now < 2 ^ 64) (digits_value 16 digits.now) }
{
    let Ok(text) = str::from_utf8(digits) else {
        return None;
    };
    u64::from_str_radix(text, 16).ok()
}
