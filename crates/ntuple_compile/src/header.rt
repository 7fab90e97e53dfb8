//! Headers that are written field by field.

ghost use Rattle.std.specs.Prelude.{◌≡◌, ℕ, ◌+◌, ◌*◌, ◌/◌, ◌%◌, ◌^◌, ◌<◌, ◌≤◌, ◌++◌, length};
ghost use Rattle.std.specs.Int.{bytes_high_first};
ghost use Rattle.ff_headers.specs.Fields.{LiesWithin};
ghost use Rattle.ntuple_compile.specs.Written.{SpellsNumber};

use arrayvec::ArrayVec;
use ff_headers::Field;

/// The bytes of a header.
pub(crate) type HeaderBytes = ArrayVec<u8, 40>;

/// Writes the next field of a header. `rest` is what was written behind the last whole byte, and so is the result.
pub(crate) fn put_field(bytes: &mut HeaderBytes, rest: u128, field: &Field, value: u128) -> u128
    requires within { LiesWithin 40 field.now }
    requires next { length bytes.old.items ≡ field.now.first / 8 }
    requires rest { rest < 2 ^ (field.now.first % 8) }
    requires value { value < 2 ^ field.now.bits }
    ensures { (n : ℕ) → SpellsNumber field.now.first n bytes.old.items rest
        → SpellsNumber (field.now.first + field.now.bits) (n * 2 ^ field.now.bits + value) bytes.new.items result }
{
    let bits = field.first % 8 + field.bits;
    let all = joined_number(rest, field.bits, value);
    put_number(bytes, all >> (bits % 8), bits / 8);
    all % (1 << (bits % 8))
}

/// A number and the number of so many bits that stands behind it.
fn joined_number(number: u128, bits: usize, behind: u128) -> u128
    requires few { bits ≤ 128 }
    requires fits { number * 2 ^ bits + behind < 2 ^ 128 }
    ensures { result ≡ number * 2 ^ bits + behind }
{
    if bits < 128 {
        number * (1 << bits) + behind
    } else {
        behind
    }
}

/// Writes so many bytes of a number, the most significant first.
fn put_number(bytes: &mut HeaderBytes, number: u128, count: usize)
    requires few { count ≤ 16 }
    requires room { length bytes.old.items + count ≤ 40 }
    ensures { bytes.new.items ≡ bytes.old.items ++ bytes_high_first count number }
{
    let all = number.to_be_bytes();
    bytes.try_extend_from_slice(&all[16 - count..]).unwrap();
}
