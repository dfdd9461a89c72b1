//! The value of an integer by its spelling.
ghost use Rattle.std.specs.Prelude.{◌≡◌, ◌<◌, ◌^◌, ◌-◌, min, slice_index};
ghost use Rattle.std.specs.Char.{digit_value};
ghost use Rattle.ink_tokens.specs.Integer as spelling;
ghost use Rattle.ink_tables.specs.Value as spec;

/// What a digit is worth, and 36 for a byte that is none.
fn digit_value(byte: u8) -> u8
    ensures { result ≡ digit_value byte }
{
    match byte {
        b'0'..=b'9' => byte - b'0',
        b'A'..=b'Z' => byte - b'A' + 10,
        b'a'..=b'z' => byte - b'a' + 10,
        _ => 36,
    }
}

/// The byte at this index, or 0.
fn byte_at(bytes: &[u8], index: usize) -> u8
    ensures { result ≡ slice_index bytes.now index }
{
    match bytes.get(index) {
        Some(byte) => *byte,
        None => 0,
    }
}

/// The number so far, with one byte more, or the greatest number.
#[tactic(auto, unfolding(ink_tokens::specs::Integer::number_behind))]
fn number_behind(base: u64, number: u64, byte: u8) -> u64
    ensures { result ≡ min (spelling.number_behind base number byte) u64.MAX }
{
    if byte == b'_' {
        number
    } else {
        number
            .saturating_mul(base)
            .saturating_add(u64::from(digit_value(byte)))
    }
}

/// The number that digits spell, or the greatest number.
fn number_of(base: u64, digits: &[u8]) -> u64
    requires { 0 < base }
    ensures { result ≡ min (spelling.number_of base digits.now) u64.MAX }
{
    let mut number = 0;
    for byte in digits {
        number = number_behind(base, number, *byte);
    }
    number
}

/// The number that an integer without a sign spells, or the greatest number.
#[tactic(auto, unfolding(ink_tokens::specs::Integer::begins_hexadecimal))]
fn magnitude(text: &[u8]) -> u64
    ensures { result ≡ min (spelling.magnitude text.now) u64.MAX }
{
    if byte_at(text, 0) == b'0' && byte_at(text, 1) == b'x' {
        number_of(16, &text[2..])
    } else {
        number_of(10, text)
    }
}

/// The negative of a number, or the least integer.
fn negative(number: u64) -> i64
    ensures { result ≡ spec.negative number }
{
    if number == 0 {
        0
    } else {
        let below = (number - 1).min(i64::MAX as u64) as i64;
        -1 - below
    }
}

/// A number, or the greatest integer.
fn positive(number: u64) -> i64
    ensures { result ≡ spec.positive number }
{
    number.min(i64::MAX as u64) as i64
}

/// The value of an integer by its spelling: perhaps a `-`, then decimal digits, or hexadecimal ones behind `0x`, and `_`
/// between them.
///
/// Where the spelling is past the signed 64 bits, which no source has, it is the nearest integer.
#[tactic(auto, unfolding(crate::specs::Value::integer_value))]
pub fn integer_value(text: &[u8]) -> i64
    ensures { result ≡ spec.integer_value text.now }
{
    if byte_at(text, 0) == b'-' {
        negative(magnitude(&text[1..]))
    } else {
        positive(magnitude(text))
    }
}
