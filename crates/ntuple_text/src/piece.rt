//! Numbers that are joined by a separator, as the parts of an address are.
ghost use Rattle.std.specs.Prelude.{◌≡◌, ◌≤◌, ◌<◌, ◌∷◌, [], length, count_by, MatchOption, IfSome};
ghost use Rattle.std.specs.List.{position, slice_split};
ghost use Rattle.arrayvec.specs.ArrayVec.{array_vec_len};
ghost use Rattle.vnff_base.specs.Numbers.{number_of};
ghost use Rattle.ntuple_text.specs.Pieces.{byte_within, hex_group, ipv6_group_digits, is_separator, most_groups};
ghost use Rattle.ntuple_text.specs.Pieces.{piece_of, pieces_of};

use crate::numeral::hex_number;
use arrayvec::ArrayVec;
use vnff_base::num_read;

/// How one piece of an address is spelled.
#[derive(Clone, Copy, Debug, PartialEq, Eq)]
pub enum Spelling {
    /// One or two hexadecimal digits.
    MacGroup,
    /// A decimal number below 256, without a leading zero.
    Ipv4Byte,
    /// One to four hexadecimal digits.
    Ipv6Group,
}

/// The base in which a MAC or IPv4 address is a number, with bytes as digits.
pub(crate) const BYTE_BASE: u128 = 256;

/// The base in which an IPv6 address is a number, with groups as digits.
pub(crate) const GROUP_BASE: u128 = 65536;

/// The most parts that an address has.
pub(crate) const MOST_GROUPS: usize = 8;

// The most digits of a group.
const MAC_GROUP_DIGITS: usize = 2;

const IPV6_GROUP_DIGITS: usize = 4;

/// The numbers of an address's parts, of which there are at most eight.
pub(crate) type Groups = ArrayVec<u16, 8>;

/// The numbers of all pieces of a text but the last, and the last piece; none where there are more
/// than eight pieces, or one of those numbers is spelled wrongly.
#[tactic(auto, unfolding(crate::specs::Pieces::pieces_of))]
pub(crate) fn pieces_of(text: &[u8], separator: u8, spelling: Spelling) -> Option<(Groups, &[u8])>
    ensures value { MatchOption result (pieces_of spelling separator text.now ≡ None)
        (λ pieces. pieces_of spelling separator text.now ≡ Some (pieces.0.items, pieces.1.now)) }
    ensures room { IfSome result (λ pieces. array_vec_len pieces.0 < most_groups) }
{
    if separators(text, separator) >= MOST_GROUPS {
        return None;
    }
    let mut front = ArrayVec::new();
    let mut rest = text;
    while let Some((first, more)) = first_piece(rest, separator) {
        front.push(piece_of(first, spelling)?);
        rest = more;
    }
    Some((front, rest))
}

fn separators(text: &[u8], separator: u8) -> usize
    ensures { result ≡ count_by (is_separator separator) text.now }
{
    text.iter().filter(|byte| **byte == separator).count()
}

// The first piece of a text and the text after its separator; none where the text is one piece.
fn first_piece(text: &[u8], separator: u8) -> Option<(&[u8], &[u8])>
    ensures first { MatchOption result (slice_split (is_separator separator) text.now ≡ text.now ∷ [])
        (λ found. slice_split (is_separator separator) text.now
        ≡ found.0.now ∷ slice_split (is_separator separator) found.1.now) }
    ensures shorter { IfSome result (λ found. length found.1.now < length text.now) }
{
    match separator_place(text, separator) {
        Some(end) => Some((&text[..end], &text[end + 1..])),
        None => None,
    }
}

fn separator_place(text: &[u8], separator: u8) -> Option<usize>
    ensures { result ≡ position (is_separator separator) text.now }
{
    text.iter().position(|byte| *byte == separator)
}

/// The number of one piece.
#[tactic(auto, unfolding(crate::specs::Pieces::piece_of))]
pub(crate) fn piece_of(piece: &[u8], spelling: Spelling) -> Option<u16>
    ensures { result ≡ piece_of spelling piece.now }
{
    match spelling {
        Spelling::MacGroup => hex_group(piece, MAC_GROUP_DIGITS),
        Spelling::Ipv4Byte => byte_of(piece),
        Spelling::Ipv6Group => hex_group(piece, IPV6_GROUP_DIGITS),
    }
}

fn byte_of(piece: &[u8]) -> Option<u16>
    ensures { result ≡ byte_within (number_of piece.now) }
{
    let value = num_read(piece)?;
    if value < 256 {
        Some(value as u16)
    } else {
        None
    }
}

// The number that at most so many hexadecimal digits spell.
fn hex_group(digits: &[u8], most: usize) -> Option<u16>
    requires { most ≤ ipv6_group_digits }
    ensures { result ≡ hex_group most digits.now }
{
    if digits.len() > most {
        return None;
    }
    let value = hex_number(digits)?;
    Some(value as u16)
}
