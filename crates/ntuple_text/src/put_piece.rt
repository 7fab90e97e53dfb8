//! Addresses and numbers, put to an output.
ghost use Rattle.std.specs.Prelude.{◌≡◌, ◌<◌, ◌≤◌, decimal, drop};
ghost use Rattle.std.specs.List.{flat_map};
ghost use Rattle.vnff_base.specs.Outputs.{Writes};
ghost use Rattle.ntuple_text.specs.Pieces.{group_base, most_groups};
ghost use Rattle.ntuple_text.specs.SpecTexts.{form_text, four_digits, ipv4_text, ipv6_text, joined_text};
ghost use Rattle.ntuple_text.specs.SpecTexts.{leading_zeros, low_digits, mac_text};
ghost use Rattle.ntuple_text.specs.SpecTexts.{next_piece, piece_text, pieces_text, type_text};

use crate::key::FieldForm;
use crate::piece::{BYTE_BASE, GROUP_BASE, Groups, Spelling};
use arrayvec::ArrayVec;
use itoa::Buffer;
use vnff_base::{Failed, Out, hex_digit};

/// Writes a value in its form.
#[tactic(auto, unfolding(crate::specs::SpecTexts::form_text))]
pub(crate) fn put_form<O: Out>(out: &mut O, form: FieldForm, value: u128) -> Result<(), Failed>
    ensures { Writes (O.state out.old) (O.state out.new) (form_text form value) result }
{
    match form {
        FieldForm::Mac => put_mac(out, value),
        FieldForm::Ipv4 => put_ipv4(out, value),
        FieldForm::Ipv6 => put_ipv6(out, value),
        FieldForm::Bits8 | FieldForm::Bits16 => put_number(out, value),
    }
}

/// Writes a number in decimal.
pub(crate) fn put_number<O: Out>(out: &mut O, number: u128) -> Result<(), Failed>
    ensures { Writes (O.state out.old) (O.state out.new) (decimal number) result }
{
    let mut buffer = Buffer::new();
    out.put(buffer.format(number).as_bytes())
}

/// Writes an Ethernet type: `0x` and four digits.
#[tactic(auto, unfolding(crate::specs::SpecTexts::type_text))]
pub(crate) fn put_type<O: Out>(out: &mut O, value: u128) -> Result<(), Failed>
    ensures { Writes (O.state out.old) (O.state out.new) (type_text value) result }
{
    let [first, second, third, fourth] = digits(value);
    out.put(&[b'0', b'x', first, second, third, fourth])
}

/// Writes a MAC address: six groups of two digits.
#[tactic(auto, unfolding(crate::specs::SpecTexts::mac_text))]
pub(crate) fn put_mac<O: Out>(out: &mut O, address: u128) -> Result<(), Failed>
    ensures { Writes (O.state out.old) (O.state out.new) (mac_text address) result }
{
    let groups = low_digits(address, BYTE_BASE, 5);
    put_joined(out, Spelling::MacGroup, b':', groups.as_slice())
}

#[tactic(auto, unfolding(crate::specs::SpecTexts::ipv4_text))]
fn put_ipv4<O: Out>(out: &mut O, address: u128) -> Result<(), Failed>
    ensures { Writes (O.state out.old) (O.state out.new) (ipv4_text address) result }
{
    let bytes = low_digits(address, BYTE_BASE, 3);
    put_joined(out, Spelling::Ipv4Byte, b'.', bytes.as_slice())
}

#[tactic(auto, unfolding(crate::specs::SpecTexts::ipv6_text))]
fn put_ipv6<O: Out>(out: &mut O, address: u128) -> Result<(), Failed>
    ensures { Writes (O.state out.old) (O.state out.new) (ipv6_text address) result }
{
    let groups = low_digits(address, GROUP_BASE, 7);
    put_joined(out, Spelling::Ipv6Group, b':', groups.as_slice())
}

// The digits of a number in a base, from a place down to the last, the highest first.
fn low_digits(number: u128, base: u128, highest: u32) -> Groups
    requires some { 2 ≤ base }
    requires base { base ≤ group_base }
    requires few { highest < most_groups }
    ensures { result.items ≡ low_digits base highest number }
{
    let mut digits: Groups = ArrayVec::new();
    let mut place = highest;
    while place > 0 {
        digits.push((number / base.pow(place) % base) as u16);
        place -= 1;
    }
    digits.push((number % base) as u16);
    digits
}

fn put_joined<O: Out>(
    out: &mut O,
    spelling: Spelling,
    separator: u8,
    pieces: &[u16],
) -> Result<(), Failed>
    ensures { Writes (O.state out.old) (O.state out.new) (joined_text spelling separator pieces.now) result }
{
    match pieces.split_first() {
        Some((first, rest)) => put_pieces(out, spelling, separator, *first, rest),
        None => Ok(()),
    }
}

// Writes a first piece and the others, with separators between them.
fn put_pieces<O: Out>(
    out: &mut O,
    spelling: Spelling,
    separator: u8,
    first: u16,
    rest: &[u16],
) -> Result<(), Failed>
    ensures { Writes (O.state out.old) (O.state out.new) (pieces_text spelling separator first rest.now) result }
{
    put_piece(out, spelling, first)?;
    put_rest(out, spelling, separator, rest)
}

fn put_rest<O: Out>(
    out: &mut O,
    spelling: Spelling,
    separator: u8,
    rest: &[u16],
) -> Result<(), Failed>
    ensures { Writes (O.state out.old) (O.state out.new) (flat_map (next_piece spelling separator) rest.now) result }
{
    for piece in rest {
        put_next(out, spelling, separator, *piece)?;
    }
    Ok(())
}

fn put_next<O: Out>(
    out: &mut O,
    spelling: Spelling,
    separator: u8,
    piece: u16,
) -> Result<(), Failed>
    ensures { Writes (O.state out.old) (O.state out.new) (next_piece spelling separator piece) result }
{
    out.put(&[separator])?;
    put_piece(out, spelling, piece)
}

#[tactic(auto, unfolding(crate::specs::SpecTexts::piece_text))]
fn put_piece<O: Out>(out: &mut O, spelling: Spelling, piece: u16) -> Result<(), Failed>
    ensures { Writes (O.state out.old) (O.state out.new) (piece_text spelling piece) result }
{
    let piece = u128::from(piece);
    match spelling {
        Spelling::MacGroup => put_from(out, piece, 2),
        Spelling::Ipv4Byte => put_number(out, piece),
        Spelling::Ipv6Group => put_from(out, piece, leading_zeros(piece)),
    }
}

// Writes the four digits of a number but the first few.
fn put_from<O: Out>(out: &mut O, number: u128, skipped: usize) -> Result<(), Failed>
    requires { skipped < 4 }
    ensures { Writes (O.state out.old) (O.state out.new) (drop skipped (four_digits number)) result }
{
    let digits = digits(number);
    out.put(&digits[skipped..])
}

fn leading_zeros(number: u128) -> usize
    ensures value { result ≡ leading_zeros number }
    ensures bound { result < 4 }
{
    if number < 16 {
        3
    } else if number < 256 {
        2
    } else if number < 4096 {
        1
    } else {
        0
    }
}

fn digits(number: u128) -> [u8; 4]
    ensures { result ≡ four_digits number }
{
    [
        hex_digit((number / 4096 % 16) as u8),
        hex_digit((number / 256 % 16) as u8),
        hex_digit((number / 16 % 16) as u8),
        hex_digit((number % 16) as u8),
    ]
}
