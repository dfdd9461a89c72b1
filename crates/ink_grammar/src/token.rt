//! The tokens as the grammar sees them: each with its shape, which is all that tells the productions apart.
//!
//! Which bytes have a shape is not known here.

ghost use Rattle.std.specs.Prelude.{◌≡◌};
ghost use Rattle.ink_grammar.specs.Shapes as spec;

/// A word that the language keeps for itself.
#[derive(Clone, Copy, Debug, PartialEq, Eq)]
pub enum Keyword {
    And,
    Async,
    Break,
    Case,
    Else,
    Enum,
    False,
    Fn,
    For,
    If,
    Impl,
    Import,
    Let,
    Loop,
    Match,
    Move,
    Mut,
    Next,
    Nil,
    Or,
    Pub,
    Recover,
    Ref,
    Return,
    /// The word `self`.
    SelfWord,
    Static,
    Throw,
    Trait,
    True,
    Try,
    Type,
    Uni,
    While,
}

/// A mark. The operators that the grammar treats alike have one shape.
#[derive(Clone, Copy, Debug, PartialEq, Eq)]
pub enum Mark {
    LeftParen,
    RightParen,
    LeftBracket,
    RightBracket,
    LeftBrace,
    RightBrace,
    Comma,
    Dot,
    Colon,
    /// `:=`.
    Swap,
    /// `=`.
    Equals,
    /// `->`.
    Arrow,
    /// `+`, which stands between bounds too.
    Plus,
    /// Each operator between two operands but `+`: `- * / % == != < <= > >= & | ^ << >>`.
    Operator,
    /// `+= -= *= /= %=`.
    OperatorEquals,
}

/// What the grammar tells apart.
#[derive(Clone, Copy, Debug, PartialEq, Eq)]
pub enum Shape {
    /// A word that begins with a small letter or `_`, and is no keyword.
    Name,
    /// A word that begins with a capital letter.
    Constant,
    /// `@` and a word.
    Field,
    /// A whole number in decimal digits, with its sign.
    Integer,
    /// A whole number in hexadecimal digits, with its sign.
    Hexadecimal,
    /// `_` alone.
    Underscore,
    /// The quote at either end of a text.
    Quote,
    /// A run of characters and escapes of a text.
    TextPart,
    /// The `${` in a text.
    Opening,
    /// The `}` that belongs to a `${`.
    Closing,
    Keyword(Keyword),
    Mark(Mark),
}

/// A token: its shape and the bytes of the source that it takes, from `start` to before `end`, counted from 0.
#[derive(Clone, Copy, Debug, PartialEq, Eq)]
pub struct Terminal {
    pub shape: Shape,
    pub start: u32,
    pub end: u32,
    /// Whether a line feed stands between it and the token before.
    pub new_line: bool,
}

fn keyword_number(keyword: Keyword) -> u8
    ensures { result ≡ spec.keyword_number keyword }
{
    match keyword {
        Keyword::And => 10,
        Keyword::Async => 11,
        Keyword::Break => 12,
        Keyword::Case => 13,
        Keyword::Else => 14,
        Keyword::Enum => 15,
        Keyword::False => 16,
        Keyword::Fn => 17,
        Keyword::For => 18,
        Keyword::If => 19,
        Keyword::Impl => 20,
        Keyword::Import => 21,
        Keyword::Let => 22,
        Keyword::Loop => 23,
        Keyword::Match => 24,
        Keyword::Move => 25,
        Keyword::Mut => 26,
        Keyword::Next => 27,
        Keyword::Nil => 28,
        Keyword::Or => 29,
        Keyword::Pub => 30,
        Keyword::Recover => 31,
        Keyword::Ref => 32,
        Keyword::Return => 33,
        Keyword::SelfWord => 34,
        Keyword::Static => 35,
        Keyword::Throw => 36,
        Keyword::Trait => 37,
        Keyword::True => 38,
        Keyword::Try => 39,
        Keyword::Type => 40,
        Keyword::Uni => 41,
        Keyword::While => 42,
    }
}

fn mark_number(mark: Mark) -> u8
    ensures { result ≡ spec.mark_number mark }
{
    match mark {
        Mark::LeftParen => 43,
        Mark::RightParen => 44,
        Mark::LeftBracket => 45,
        Mark::RightBracket => 46,
        Mark::LeftBrace => 47,
        Mark::RightBrace => 48,
        Mark::Comma => 49,
        Mark::Dot => 50,
        Mark::Colon => 51,
        Mark::Swap => 52,
        Mark::Equals => 53,
        Mark::Arrow => 54,
        Mark::Plus => 55,
        Mark::Operator => 56,
        Mark::OperatorEquals => 57,
    }
}

/// A number that no other shape has.
fn number(shape: Shape) -> u8
    ensures { result ≡ spec.number shape }
{
    match shape {
        Shape::Name => 0,
        Shape::Constant => 1,
        Shape::Field => 2,
        Shape::Integer => 3,
        Shape::Hexadecimal => 4,
        Shape::Underscore => 5,
        Shape::Quote => 6,
        Shape::TextPart => 7,
        Shape::Opening => 8,
        Shape::Closing => 9,
        Shape::Keyword(keyword) => keyword_number(keyword),
        Shape::Mark(mark) => mark_number(mark),
    }
}

/// Whether the two are one shape.
pub fn same(a: Shape, b: Shape) -> bool
    ensures { result ≡ spec.same a b }
{
    number(a) == number(b)
}
