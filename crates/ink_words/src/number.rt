//! The numbers among the words.
ghost use Rattle.std.specs.Prelude.{◌≡◌, ℕ, IfSome, IfNone};
ghost use Rattle.ink_words.specs.Commands.{IsNumber};

use ink_base::Text;
use itoa::Buffer;
use std::str;

/// The number that the word is, where it is one from 1 to the greatest, in digits without a leading zero.
pub(crate) fn number_of(word: &Text, greatest: u64) -> Option<u64>
    ensures some { IfSome result (λ number. IsNumber greatest number word.now) }
    ensures none { IfNone result ((number : ℕ) → IsNumber greatest number word.now → ⊥) }
{
    let Ok(digits) = str::from_utf8(word.bytes()) else {
        return None;
    };
    let Ok(number) = digits.parse::<u64>() else {
        return None;
    };
    if number < 1 || number > greatest {
        return None;
    }
    // A sign or a zero in front would be read too.
    if !word.is(Buffer::new().format(number).as_bytes()) {
        return None;
    }
    Some(number)
}
