//! Bytes in hexadecimal: read from a word, as scripts give frames, masks and commands, and put to an output.

ghost use Rattle.std.specs.Prelude.{◌≡◌, ◌*◌, ◌+◌, ◌/◌, ◌<◌, ◌≤◌, ◌++◌, length, take, vec_len, vec_capacity, IfOk, ◌↔◌, IsTrue, List, ℕ, MatchResult};
ghost use Rattle.std.specs.Char.{digit_char, digit_value, is_ascii_hexdigit};
ghost use Rattle.std.specs.List.{flat_map, list_all};
ghost use Rattle.std.specs.Str.{bytes_eq};
ghost use Rattle.byte_numbers.specs.Bytes.{IsBytes};
ghost use Rattle.vnff_base.specs.Gatherings.{Gathers};
ghost use Rattle.vnff_base.specs.Hex.{hex_bytes, hex_pair, hex_text, pair_bytes, dash, are_pairs};
ghost use Rattle.vnff_base.specs.Outputs.{Writes};

use crate::error::HexErr;
use crate::gathered::Gathered;
use crate::out::{Failed, Out};
use std::alloc::Global;

/// How many bytes are spelled for one put.
const PIECE: usize = 64;

/// The bytes that a word spells: two digits of either case for each byte, the high four bits first,
/// or `-` for no bytes. This project's own spelling, which `hex_put` writes in lower case.
#[tactic(auto, using(crate::proofs::HexLemmas::kinds_of_word))]
pub fn hex_read(alloc: Global, word: &[u8]) -> Result<Vec<u8>, HexErr>
    ensures bytes { IfOk result (λ bytes. hex_bytes word.now ≡ Some bytes.items) }
    // What is written of bytes is read back.
    ensures written { (bytes : List ℕ) → IsBytes bytes → word.now ≡ hex_text bytes
        → MatchResult result (λ read. read.items ≡ bytes) (λ err. err ≡ HexErr.Memory) }
    ensures not_hex { (result ≡ Err HexErr.NotHex) ↔ (hex_bytes word.now ≡ None) }
{
    if is_dash(word) {
        return Ok(Vec::new(alloc));
    }
    if !is_pairs(word) {
        return Err(HexErr::NotHex);
    }
    let count = word.len() / 2;
    let mut bytes = Vec::with_capacity(alloc, count).map_err(|_| HexErr::Memory)?;
    read_pairs(&mut bytes, word);
    Ok(bytes)
}

fn is_dash(word: &[u8]) -> bool
    ensures { result ≡ bytes_eq word.now dash }
{
    word == b"-".as_slice()
}

fn is_pairs(word: &[u8]) -> bool
    ensures { result ≡ are_pairs word.now }
{
    word.len() % 2 == 0 && is_hex(word)
}

/// Whether each byte of a word is a hexadecimal digit, of either case.
pub fn is_hex(word: &[u8]) -> bool
    ensures { result ≡ list_all is_ascii_hexdigit word.now }
{
    word.iter().all(|byte| byte.is_ascii_hexdigit())
}

// Appends the bytes of pairs of digits, for which there is room.
fn read_pairs(bytes: &mut Vec<u8>, word: &[u8])
    requires pairs { IsTrue (are_pairs word.now) }
    requires room { vec_len bytes.old + length word.now / 2 ≤ vec_capacity bytes.old }
    ensures { bytes.new.items ≡ bytes.old.items ++ pair_bytes word.now }
{
    for place in 0..word.len() / 2 {
        bytes.push_reserved(pair(word[2 * place], word[2 * place + 1]));
    }
}

fn pair(high: u8, low: u8) -> u8
    requires high { digit_value high < 16 }
    requires low { digit_value low < 16 }
    ensures { result ≡ 16 * digit_value high + digit_value low }
{
    16 * digit(high) + digit(low)
}

// Without a branch, since digits come in no order: the low four bits count the digits from 0 and the letters from 1,
// and 64 is set in letters alone.
fn digit(byte: u8) -> u8
    requires { digit_value byte < 16 }
    ensures { result ≡ digit_value byte }
{
    byte % 16 + 9 * (byte / 64)
}

/// Writes the bytes in hexadecimal: two digits a byte, letters in lower case, and `-` for no bytes.
pub fn hex_put<O: Out>(out: &mut O, bytes: &[u8]) -> Result<(), Failed>
    ensures { Writes (O.state out.old) (O.state out.new) (hex_text bytes.now) result }
{
    if bytes.is_empty() {
        return out.put(b"-");
    }
    let mut at = 0;
    while at < bytes.len() {
        let end = bytes.len().min(at + PIECE);
        put_piece(out, &bytes[at..end])?;
        at = end;
    }
    Ok(())
}

/// Writes the digits of a few bytes by one put.
fn put_piece<O: Out>(out: &mut O, piece: &[u8]) -> Result<(), Failed>
    requires { length piece.now ≤ PIECE }
    ensures { Writes (O.state out.old) (O.state out.new) (flat_map hex_pair piece.now) result }
{
    let mut digits = [0u8; 2 * PIECE];
    spell(piece, &mut digits);
    out.put(&digits[..2 * piece.len()])
}

/// Writes the bytes in hexadecimal, as `hex_put` does, behind a text that is gathered.
pub fn hex_gather<O: Out>(text: &mut Gathered, out: &mut O, bytes: &[u8]) -> Result<(), Failed>
    ensures { Gathers (O.state out.old) (O.state out.new) text.old text.new (hex_text bytes.now) result }
{
    if bytes.is_empty() {
        return text.put(out, b"-");
    }
    let mut at = 0;
    while at < bytes.len() {
        let end = bytes.len().min(at + PIECE);
        gather_piece(text, out, &bytes[at..end])?;
        at = end;
    }
    Ok(())
}

/// Writes the digits of a few bytes as one piece of the text.
fn gather_piece<O: Out>(text: &mut Gathered, out: &mut O, piece: &[u8]) -> Result<(), Failed>
    requires { length piece.now ≤ PIECE }
    ensures { Gathers (O.state out.old) (O.state out.new) text.old text.new (flat_map hex_pair piece.now) result }
{
    let mut digits = [0u8; 2 * PIECE];
    spell(piece, &mut digits);
    text.put(out, &digits[..2 * piece.len()])
}

/// Writes the digits of some bytes into the front of a buffer.
fn spell(bytes: &[u8], digits: &mut [u8])
    requires { 2 * length bytes.now ≤ length digits.old }
    ensures { take (2 * length bytes.now) digits.new ≡ flat_map hex_pair bytes.now }
{
    for (place, byte) in bytes.iter().enumerate() {
        digits[2 * place] = hex_digit(*byte / 16);
        digits[2 * place + 1] = hex_digit(*byte % 16);
    }
}

/// The hexadecimal digit of four bits, in lower case.
pub fn hex_digit(bits: u8) -> u8
    requires { bits < 16 }
    ensures { result ≡ digit_char bits }
{
    if bits < 10 {
        b'0' + bits
    } else {
        b'a' + (bits - 10)
    }
}
