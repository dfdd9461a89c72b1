//! The parts of a text: its longest runs of characters and escapes.
ghost use Rattle.std.specs.Prelude.{◌≡◌, ◌≤◌, length, true};
ghost use Rattle.ink_tokens.specs.Part.{unit_length, part_length, begins_opening};

use crate::bytes::{byte_at, bytes_from, is_escaped};

/// Whether `${` stands at the front.
pub(crate) fn begins_opening(bytes: &[u8]) -> bool
    ensures value { result ≡ begins_opening bytes.now }
    ensures inside { result ≡ true → 2 ≤ length bytes.now }
{
    byte_at(bytes, 0) == b'$' && byte_at(bytes, 1) == b'{'
}

/// How many bytes the escape at the front takes, or the one byte of a character, and 0 where the part ends.
#[tactic(auto, unfolding(crate::specs::Part::unit_length))]
fn unit_length(quote: u8, bytes: &[u8]) -> usize
    ensures value { result ≡ unit_length quote bytes.now }
    ensures inside { result ≤ length bytes.now }
{
    let first = byte_at(bytes, 0);
    if bytes.is_empty() || first == quote || begins_opening(bytes) {
        0
    } else if first == b'\\' {
        if is_escaped(byte_at(bytes, 1)) { 2 } else { 0 }
    } else {
        1
    }
}

/// How many bytes the part at the front takes, and 0 where none stands there.
#[tactic(auto, using(crate::proofs::PartLemmas::part_ends))]
pub(crate) fn part_length(quote: u8, bytes: &[u8]) -> usize
    ensures value { result ≡ part_length quote bytes.now }
    ensures inside { result ≤ length bytes.now }
{
    let mut end = 0;
    let mut unit = unit_length(quote, bytes);
    while unit > 0 {
        end += unit;
        unit = unit_length(quote, bytes_from(bytes, end));
    }
    end
}
