//! Tokens as plain data: what a scanner gives and what the grammar is said of.
//!
//! Which bytes make a token is not known here.
ghost use Rattle.std.specs.Prelude.{◌≡◌, ◌≤◌, length};
ghost use Rattle.ink_base.specs.Token.{token_text};

/// What a token is.
#[derive(Clone, Copy, Debug, PartialEq, Eq)]
pub enum TokenKind {
    /// A word that begins with a small letter or `_`, and is no keyword.
    Name,
    /// A word that begins with a capital letter.
    Const,
    /// `@` and the word behind it.
    Field,
    /// A whole number, with its sign.
    Int,
    /// An operator, a bracket or another mark.
    Symbol,
    /// A word that the language keeps for itself.
    Keyword,
    /// `_` alone.
    Underscore,
    /// The quote at either end of a text.
    Quote,
    /// A run of characters and escapes of a text.
    Part,
    /// The `${` in a text.
    Opening,
    /// The `}` that belongs to a `${`.
    Closing,
}

/// A token: its kind and the bytes of the source that it takes, from `start` to before `end`, counted from 0.
#[derive(Clone, Copy)]
pub struct Token {
    pub kind: TokenKind,
    pub start: u32,
    pub end: u32,
    /// Whether a line feed stands between it and the token before. It is false for the first token, and in a text for
    /// its parts, for each `${` and for the quote that closes it.
    pub new_line: bool,
}

impl Token {
    /// Its bytes in the source.
    pub fn text<'a>(&self, source: &'a [u8]) -> &'a [u8]
        requires forward { self.now.start ≤ self.now.end }
        requires inside { self.now.end ≤ length source.now }
        ensures { result.now ≡ token_text self.now source.now }
    {
        &source[self.start as usize..self.end as usize]
    }
}
