//! The marks, by their texts.
ghost use Rattle.std.specs.Prelude.{◌≡◌, map};
ghost use Rattle.ink_shapes.specs.Marks as spec;

use ink_grammar::Mark;

const MARKS: [Mark; 15] = [
    Mark::LeftParen,
    Mark::RightParen,
    Mark::LeftBracket,
    Mark::RightBracket,
    Mark::LeftBrace,
    Mark::RightBrace,
    Mark::Comma,
    Mark::Dot,
    Mark::Colon,
    Mark::Swap,
    Mark::Equals,
    Mark::Arrow,
    Mark::Plus,
    Mark::Operator,
    Mark::OperatorEquals,
];

/// How a mark may be written.
fn texts(mark: Mark) -> &'static [&'static [u8]]
    ensures { map (λ text. text.now) result.now ≡ spec.texts mark }
{
    match mark {
        Mark::LeftParen => &[b"("],
        Mark::RightParen => &[b")"],
        Mark::LeftBracket => &[b"["],
        Mark::RightBracket => &[b"]"],
        Mark::LeftBrace => &[b"{"],
        Mark::RightBrace => &[b"}"],
        Mark::Comma => &[b","],
        Mark::Dot => &[b"."],
        Mark::Colon => &[b":"],
        Mark::Swap => &[b":="],
        Mark::Equals => &[b"="],
        Mark::Arrow => &[b"->"],
        Mark::Plus => &[b"+"],
        Mark::Operator => &[
            b"-", b"*", b"/", b"%", b"==", b"!=", b"<", b"<=", b">", b">=", b"&", b"|", b"^",
            b"<<", b">>",
        ],
        Mark::OperatorEquals => &[b"+=", b"-=", b"*=", b"/=", b"%="],
    }
}

/// Whether the mark may be written so.
fn is_written(mark: Mark, written: &[u8]) -> bool
    ensures { result ≡ spec.is_written mark written.now }
{
    texts(mark).contains(&written)
}

/// The first of these marks that may be written so.
fn first_written(marks: &[Mark], written: &[u8]) -> Option<Mark>
    ensures { result ≡ spec.first_written marks.now written.now }
{
    for mark in marks {
        if is_written(*mark, written) {
            return Some(*mark);
        }
    }
    None
}

/// The mark that is written so, if one is.
#[tactic(auto, unfolding(crate::specs::Marks::mark_of))]
pub(crate) fn mark_of(written: &[u8]) -> Option<Mark>
    ensures { result ≡ spec.mark_of written.now }
{
    first_written(&MARKS, written)
}
