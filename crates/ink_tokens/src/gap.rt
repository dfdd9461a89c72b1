//! What stands between tokens: blanks and comments.
ghost use Rattle.std.specs.Prelude.{◌≡◌, ◌≤◌, length};
ghost use Rattle.ink_tokens.specs.Gap.{is_blank, separator_length};

use crate::bytes::{Class, byte_at, run};

/// Whether the byte separates tokens by itself.
fn is_blank(byte: u8) -> bool
    ensures { result ≡ is_blank byte }
{
    byte == b' ' || byte == b'\t' || byte == b'\r' || byte == b'\n'
}

/// How many bytes the blank or the comment at the front takes, and 0 where neither stands there.
#[tactic(auto, unfolding(crate::specs::Gap::separator_length))]
pub(crate) fn separator_length(bytes: &[u8]) -> usize
    ensures value { result ≡ separator_length bytes.now }
    ensures inside { result ≤ length bytes.now }
{
    let first = byte_at(bytes, 0);
    if is_blank(first) {
        1
    } else if first == b'#' {
        run(bytes, Class::Comment)
    } else {
        0
    }
}
