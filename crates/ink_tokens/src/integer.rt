//! The form of integers, and whether one fits the signed 64 bits.
ghost use Rattle.std.specs.Prelude.{◌≡◌, ◌≤◌, length, true};
ghost use Rattle.std.specs.List.{list_any};
ghost use Rattle.std.specs.Char.{is_ascii_hexdigit};
ghost use Rattle.ink_tokens.specs.Integer.{decimal_length, begins_hexadecimal, hexadecimal_length, unsigned_length, begins_signed, integer_length};

use crate::bytes::{Class, byte_at, run};

/// How many bytes the decimal integer at the front takes, and 0 where none stands there.
#[tactic(auto, unfolding(crate::specs::Integer::decimal_length))]
fn decimal_length(bytes: &[u8]) -> usize
    ensures value { result ≡ decimal_length bytes.now }
    ensures inside { result ≤ length bytes.now }
{
    if byte_at(bytes, 0).is_ascii_digit() {
        run(bytes, Class::Decimal)
    } else {
        0
    }
}

/// Whether `0x` stands at the front.
#[tactic(auto, unfolding(crate::specs::Integer::begins_hexadecimal))]
pub(crate) fn begins_hexadecimal(bytes: &[u8]) -> bool
    ensures value { result ≡ begins_hexadecimal bytes.now }
    ensures inside { result ≡ true → 2 ≤ length bytes.now }
{
    byte_at(bytes, 0) == b'0' && byte_at(bytes, 1) == b'x'
}

/// Whether one of the bytes is a hexadecimal digit.
fn has_digit(bytes: &[u8]) -> bool
    ensures { result ≡ list_any is_ascii_hexdigit bytes.now }
{
    bytes.iter().any(|byte| byte.is_ascii_hexdigit())
}

/// How many bytes the hexadecimal integer at the front takes, and 0 where none stands there.
#[tactic(auto, unfolding(crate::specs::Integer::hexadecimal_length))]
fn hexadecimal_length(bytes: &[u8]) -> usize
    ensures value { result ≡ hexadecimal_length bytes.now }
    ensures inside { result ≤ length bytes.now }
{
    if !begins_hexadecimal(bytes) {
        return 0;
    }
    let digits = &bytes[2..];
    let run = run(digits, Class::Hexadecimal);
    if has_digit(&digits[..run]) {
        2 + run
    } else {
        0
    }
}

/// How many bytes the integer without a sign at the front takes, and 0 where none stands there.
#[tactic(auto, unfolding(crate::specs::Integer::unsigned_length))]
fn unsigned_length(bytes: &[u8]) -> usize
    ensures value { result ≡ unsigned_length bytes.now }
    ensures inside { result ≤ length bytes.now }
{
    decimal_length(bytes).max(hexadecimal_length(bytes))
}

/// Whether a `-` stands directly before a digit.
#[tactic(auto, unfolding(crate::specs::Integer::begins_signed))]
fn begins_signed(bytes: &[u8]) -> bool
    ensures value { result ≡ begins_signed bytes.now }
    ensures inside { result ≡ true → 2 ≤ length bytes.now }
{
    byte_at(bytes, 0) == b'-' && byte_at(bytes, 1).is_ascii_digit()
}

/// How many bytes the integer at the front takes, and 0 where none stands there. A `-` belongs to it if one may.
#[tactic(auto, unfolding(crate::specs::Integer::integer_length))]
pub(crate) fn integer_length(bytes: &[u8], may_be_signed: bool) -> usize
    ensures value { result ≡ integer_length may_be_signed bytes.now }
    ensures inside { result ≤ length bytes.now }
{
    if may_be_signed && begins_signed(bytes) {
        1 + unsigned_length(&bytes[1..])
    } else {
        unsigned_length(bytes)
    }
}
