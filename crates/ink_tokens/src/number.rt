//! Whether an integer fits the signed 64 bits.
ghost use Rattle.std.specs.Prelude.{◌≡◌, ◌+◌, ◌*◌, ◌≤◌, ◌<◌, ◌^◌, ℕ, nat_lt, min, length, slice_index, fold};
ghost use Rattle.std.specs.Char.{digit_value};
ghost use Rattle.ink_tokens.specs.Integer.{number_behind, magnitude, is_too_wide};

use crate::bytes::{byte_at, bytes_from};
use crate::integer::begins_hexadecimal;

/// A number that no integer which fits comes near. Larger ones are counted as this one.
const GREAT: u128 = 0x1_0000_0000_0000_0000;

/// The greatest number that fits behind a `-`.
const GREATEST_BELOW: u128 = 0x8000_0000_0000_0000;

/// What a digit is worth, and 36 for a byte that is none.
fn digit_value(byte: u8) -> u8
    ensures { result ≡ digit_value byte }
{
    match byte {
        b'0'..=b'9' => byte - b'0',
        b'A'..=b'Z' => byte - b'A' + 10,
        b'a'..=b'z' => byte - b'a' + 10,
        _ => 36,
    }
}

/// The number so far, with one byte more.
#[tactic(auto, unfolding(crate::specs::Integer::number_behind))]
fn number_behind(base: u128, number: u128, byte: u8) -> u128
    requires { base ≤ 16 }
    ensures { result ≡ number_behind base (min number GREAT) byte }
{
    let number = number.min(GREAT);
    if byte == b'_' {
        number
    } else {
        number * base + u128::from(digit_value(byte))
    }
}

/// What is counted of the number that the digits spell.
fn capped_number(base: u128, digits: &[u8]) -> u128
    requires { base ≤ 16 }
    ensures { result ≡ fold (λ number byte. number_behind base (min number GREAT) byte) 0 digits.now }
{
    digits
        .iter()
        .fold(0, |number, byte| number_behind(base, number, *byte))
}

/// What is counted of the number that an integer without a sign spells.
fn magnitude(text: &[u8]) -> u128
    ensures { min result GREAT ≡ min (magnitude text.now) GREAT }
{
    if begins_hexadecimal(text) {
        capped_number(16, bytes_from(text, 2))
    } else {
        capped_number(10, text)
    }
}

/// Whether an integer is outside the signed 64 bits.
#[tactic(auto, unfolding(crate::specs::Integer::is_too_wide), using(crate::proofs::NumberLemmas::past_min))]
pub(crate) fn is_too_wide(text: &[u8]) -> bool
    ensures { result ≡ is_too_wide text.now }
{
    if byte_at(text, 0) == b'-' {
        magnitude(bytes_from(text, 1)) > GREATEST_BELOW
    } else {
        magnitude(text) >= GREATEST_BELOW
    }
}
