//! Numbers that are spelled in decimal.
ghost use Rattle.std.specs.Prelude.{◌≡◌, ◌≢◌, ◌^◌, ◌<◌, ◌↔◌, ◌⊎◌, ℕ, length, slice_index, IsTrue, IfSome, IfNone};
ghost use Rattle.std.specs.Fmt.{decimal};
ghost use Rattle.std.specs.Option.{SomeIff};
ghost use Rattle.std.specs.Str.Parse.{IsNumeral, digits_value};
ghost use Rattle.vnff_base.specs.Numbers.{number_of};

/// The number that a word spells: decimal digits with no sign, and no leading zero but that of `0`
/// itself. There is none where the word is no such spelling, or the number is above 2^64 - 1. This
/// project's own rule for every number of a script and of the command line.
pub fn num_read(word: &[u8]) -> Option<u64>
    ensures value { result ≡ number_of word.now }
    ensures spelled { IfSome result (λ n. word.now ≡ decimal n) }
    ensures not_spelled { IfNone result ((n : ℕ) → n < 2 ^ 64 → word.now ≢ decimal n) }
{
    if is_padded(word) {
        return None;
    }
    digits_value(word)
}

// A plus sign or a leading zero, either of which `parse` would take.
fn is_padded(word: &[u8]) -> bool
    ensures { IsTrue result
        ↔ ((slice_index word.now 0 ≡ 43) ⊎ ((slice_index word.now 0 ≡ 48) × (1 < length word.now))) }
{
    matches!(word, [b'+', ..] | [b'0', _, ..])
}

// The number of a word of digits alone.
fn digits_value(word: &[u8]) -> Option<u64>
    requires { slice_index word.now 0 ≢ 43 }
    ensures { SomeIff result (IsNumeral 10 word.now × (digits_value 10 word.now < 2 ^ 64))
        (digits_value 10 word.now) }
{
    let Ok(text) = str::from_utf8(word) else {
        return None;
    };
    text.parse().ok()
}
