//! MAC, IPv4 and IPv6 addresses, as numbers.
ghost use Rattle.std.specs.Prelude.{◌≡◌, ◌≤◌, ◌<◌, ◌+◌, length};
ghost use Rattle.std.specs.Prelude.{option_map, IfSome};
ghost use Rattle.std.specs.Int.Digits.{number_from_digits};
ghost use Rattle.std.specs.List.{list_any};
ghost use Rattle.arrayvec.specs.ArrayVec.{array_vec_len};
ghost use Rattle.ntuple_text.specs.Addresses.{address_around_gap, address_at, address_of_bytes, address_of_groups};
ghost use Rattle.ntuple_text.specs.Addresses.{address_with_gap, all_groups, gap_of, groups_of, ipv4_of, ipv6_of};
ghost use Rattle.ntuple_text.specs.Addresses.{is_dot, is_gap, last_groups, mac_of};
ghost use Rattle.ntuple_text.specs.Pieces.{group_base, most_groups};

use crate::piece::{BYTE_BASE, GROUP_BASE, Groups, MOST_GROUPS, Spelling, piece_of, pieces_of};
use arrayvec::ArrayVec;

const MAC_BYTES: usize = 6;

const IPV4_BYTES: usize = 4;

/// The address that six groups joined by `:` spell.
#[tactic(auto, unfolding(crate::specs::Addresses::mac_of))]
pub(crate) fn mac_of(word: &[u8]) -> Option<u128>
    ensures { result ≡ mac_of word.now }
{
    match pieces_of(word, b':', Spelling::MacGroup) {
        Some((front, last)) => address_of_bytes(front, last, Spelling::MacGroup, MAC_BYTES),
        None => None,
    }
}

/// The address that four decimal numbers joined by `.` spell.
#[tactic(auto, unfolding(crate::specs::Addresses::ipv4_of))]
pub(crate) fn ipv4_of(word: &[u8]) -> Option<u128>
    ensures { result ≡ ipv4_of word.now }
{
    match pieces_of(word, b'.', Spelling::Ipv4Byte) {
        Some((front, last)) => address_of_bytes(front, last, Spelling::Ipv4Byte, IPV4_BYTES),
        None => None,
    }
}

// The address of so many bytes, of which the last is still spelled.
fn address_of_bytes(
    mut front: Groups,
    last: &[u8],
    spelling: Spelling,
    count: usize,
) -> Option<u128>
    requires { array_vec_len front < most_groups }
    ensures { result ≡ address_of_bytes spelling count (front.items, last.now) }
{
    let number = piece_of(last, spelling)?;
    if front.len() + 1 != count {
        return None;
    }
    front.push(number);
    Some(number_from_digits(front.as_slice(), BYTE_BASE))
}

// The number whose digits in a base are the groups.
fn number_from_digits(groups: &[u16], base: u128) -> u128
    requires base { base ≤ group_base }
    requires few { length groups.now ≤ most_groups }
    ensures { result ≡ number_from_digits base groups.now }
{
    let mut value = 0;
    for group in groups {
        value = value * base + u128::from(*group);
    }
    value
}

/// The address that groups joined by `:` spell, with at most one `::` for one zero group or more. The
/// last two groups may be spelled as an IPv4 address.
#[tactic(auto, unfolding(crate::specs::Addresses::ipv6_of))]
pub(crate) fn ipv6_of(word: &[u8]) -> Option<u128>
    ensures { result ≡ ipv6_of word.now }
{
    match gap_of(word) {
        Some(place) => address_with_gap(&word[..place], &word[place + 2..]),
        None => address_without_gap(word),
    }
}

// Where the first `::` begins.
#[tactic(auto, using(crate::proofs::GapLemmas::gap_steps))]
fn gap_of(word: &[u8]) -> Option<usize>
    ensures place { result ≡ gap_of word.now }
    ensures inside { IfSome result (λ place. place + 2 ≤ length word.now) }
{
    let mut place = 0;
    while place + 1 < word.len() {
        if is_gap(word[place], word[place + 1]) {
            return Some(place);
        }
        place += 1;
    }
    None
}

fn is_gap(first: u8, second: u8) -> bool
    ensures { result ≡ is_gap first second }
{
    first == b':' && second == b':'
}

// The address of eight groups.
fn address_without_gap(word: &[u8]) -> Option<u128>
    ensures { result ≡ address_at word.now None }
{
    match groups_of(word) {
        Some(groups) => address_of_groups(&groups),
        None => None,
    }
}

fn address_of_groups(groups: &Groups) -> Option<u128>
    ensures { result ≡ address_of_groups groups.now.items }
{
    if groups.len() != MOST_GROUPS {
        return None;
    }
    Some(number_from_digits(groups.as_slice(), GROUP_BASE))
}

// The groups that stand in a text, joined by `:`; none in an empty one.
#[tactic(auto, unfolding(crate::specs::Addresses::groups_of))]
fn groups_of(text: &[u8]) -> Option<Groups>
    ensures value { option_map (λ groups. groups.items) result ≡ groups_of text.now }
    ensures few { IfSome result (λ groups. array_vec_len groups ≤ most_groups) }
{
    if text.is_empty() {
        return Some(ArrayVec::new());
    }
    match pieces_of(text, b':', Spelling::Ipv6Group) {
        Some((front, last)) => all_groups(front, last),
        None => None,
    }
}

fn all_groups(mut front: Groups, last: &[u8]) -> Option<Groups>
    requires { array_vec_len front < most_groups }
    ensures { option_map (λ groups. groups.items) result ≡ all_groups (front.items, last.now) }
{
    match last_groups(last) {
        Some(last) => match front.try_extend_from_slice(last.as_slice()) {
            Ok(()) => Some(front),
            Err(_) => None,
        },
        None => None,
    }
}

// The groups of the last piece: two where it is spelled as an IPv4 address.
#[tactic(auto, unfolding(crate::specs::Addresses::last_groups))]
fn last_groups(piece: &[u8]) -> Option<Groups>
    ensures { option_map (λ groups. groups.items) result ≡ last_groups piece.now }
{
    let mut groups = ArrayVec::new();
    if has_dot(piece) {
        let address = ipv4_of(piece)?;
        groups.push((address / GROUP_BASE) as u16);
        groups.push((address % GROUP_BASE) as u16);
    } else {
        groups.push(piece_of(piece, Spelling::Ipv6Group)?);
    }
    Some(groups)
}

fn has_dot(text: &[u8]) -> bool
    ensures { result ≡ list_any is_dot text.now }
{
    text.contains(&b'.')
}

// The address of the texts before and after a `::`.
#[tactic(auto, unfolding(crate::specs::Addresses::address_with_gap))]
fn address_with_gap(before: &[u8], after: &[u8]) -> Option<u128>
    ensures { result ≡ address_with_gap before.now after.now }
{
    if has_dot(before) {
        return None;
    }
    let front = groups_of(before)?;
    let back = groups_of(after)?;
    address_around_gap(&front, &back)
}

// The address of the groups before and after a `::`.
fn address_around_gap(front: &Groups, back: &Groups) -> Option<u128>
    ensures { result ≡ address_around_gap front.now.items back.now.items }
{
    if front.len() + back.len() + 1 > MOST_GROUPS {
        return None;
    }
    let zeros = MOST_GROUPS - (front.len() + back.len());
    let mut all: Groups = ArrayVec::new();
    all.try_extend_from_slice(front.as_slice()).unwrap();
    all.try_extend_from_slice(&[0; 8][..zeros]).unwrap();
    all.try_extend_from_slice(back.as_slice()).unwrap();
    Some(number_from_digits(all.as_slice(), GROUP_BASE))
}
