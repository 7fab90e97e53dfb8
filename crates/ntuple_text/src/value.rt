//! The values of an option.
ghost use Rattle.std.specs.Prelude.{◌≡◌, ◌<◌, IfOk};
ghost use Rattle.ntuple_text.specs.Numerals.{numeral_up_to};
ghost use Rattle.ntuple_text.specs.TableMaps.{location_count};
ghost use Rattle.ntuple_text.specs.Values.{action_value, field_value, location_value, queue_value};

use crate::address::{ipv4_of, ipv6_of, mac_of};
use crate::error::Fault;
use crate::key::FieldForm;
use crate::numeral::{numeral_of, numeral_up_to};
use crate::spec::TableDo;

/// How many locations a table has.
pub(crate) const LOCATION_COUNT: u64 = 1024;

// The greatest numbers of 8 and of 16 bits.
const MOST_8_BITS: u64 = 0xff;

const MOST_16_BITS: u64 = 0xffff;

/// The value of a field, or of its mask, in the field's form.
#[tactic(auto, unfolding(crate::specs::Values::field_value))]
pub(crate) fn field_value(word: &[u8], form: FieldForm) -> Result<u128, Fault>
    ensures { result ≡ field_value form word.now }
{
    match form {
        FieldForm::Mac => mac_of(word).ok_or(Fault::Address),
        FieldForm::Ipv4 => ipv4_of(word).ok_or(Fault::Address),
        FieldForm::Ipv6 => ipv6_of(word).ok_or(Fault::Address),
        FieldForm::Bits8 => wide_number(word, MOST_8_BITS),
        FieldForm::Bits16 => wide_number(word, MOST_16_BITS),
    }
}

fn wide_number(word: &[u8], most: u64) -> Result<u128, Fault>
    ensures { result ≡ numeral_up_to most word.now }
{
    match numeral_up_to(word, most) {
        Ok(value) => Ok(u128::from(value)),
        Err(fault) => Err(fault),
    }
}

/// What `action` asks for: `-1` is a drop, and another number a receive queue.
#[tactic(auto, unfolding(crate::specs::Values::action_value))]
pub(crate) fn action_value(word: &[u8], pairs: u8) -> Result<TableDo, Fault>
    ensures { result ≡ action_value pairs word.now }
{
    if word == b"-1".as_slice() {
        Ok(TableDo::Drop)
    } else {
        queue_value(word, pairs)
    }
}

/// A receive queue, which is below the queue pairs.
#[tactic(auto, unfolding(crate::specs::Values::queue_value))]
pub(crate) fn queue_value(word: &[u8], pairs: u8) -> Result<TableDo, Fault>
    ensures { result ≡ queue_value pairs word.now }
{
    let queue = numeral_of(word)?;
    if queue >= u64::from(pairs) {
        return Err(Fault::Queue);
    }
    Ok(TableDo::Queue(queue as u8))
}

/// A location.
#[tactic(auto, unfolding(crate::specs::Values::location_value))]
pub(crate) fn location_value(word: &[u8]) -> Result<u16, Fault>
    ensures value { result ≡ location_value word.now }
    ensures bound { IfOk result (λ loc. loc < location_count) }
{
    let loc = numeral_of(word)?;
    if loc >= LOCATION_COUNT {
        return Err(Fault::Loc);
    }
    Ok(loc as u16)
}
