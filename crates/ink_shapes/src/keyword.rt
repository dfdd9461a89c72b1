//! The words that the language keeps for itself, by their texts.
ghost use Rattle.std.specs.Prelude.{◌≡◌};
ghost use Rattle.ink_shapes.specs.Keywords as spec;

use ink_grammar::Keyword;

const KEYWORDS: [Keyword; 33] = [
    Keyword::And,
    Keyword::Async,
    Keyword::Break,
    Keyword::Case,
    Keyword::Else,
    Keyword::Enum,
    Keyword::False,
    Keyword::Fn,
    Keyword::For,
    Keyword::If,
    Keyword::Impl,
    Keyword::Import,
    Keyword::Let,
    Keyword::Loop,
    Keyword::Match,
    Keyword::Move,
    Keyword::Mut,
    Keyword::Next,
    Keyword::Nil,
    Keyword::Or,
    Keyword::Pub,
    Keyword::Recover,
    Keyword::Ref,
    Keyword::Return,
    Keyword::SelfWord,
    Keyword::Static,
    Keyword::Throw,
    Keyword::Trait,
    Keyword::True,
    Keyword::Try,
    Keyword::Type,
    Keyword::Uni,
    Keyword::While,
];

fn text(keyword: Keyword) -> &'static [u8]
    ensures { result.now ≡ spec.text keyword }
{
    match keyword {
        Keyword::And => b"and",
        Keyword::Async => b"async",
        Keyword::Break => b"break",
        Keyword::Case => b"case",
        Keyword::Else => b"else",
        Keyword::Enum => b"enum",
        Keyword::False => b"false",
        Keyword::Fn => b"fn",
        Keyword::For => b"for",
        Keyword::If => b"if",
        Keyword::Impl => b"impl",
        Keyword::Import => b"import",
        Keyword::Let => b"let",
        Keyword::Loop => b"loop",
        Keyword::Match => b"match",
        Keyword::Move => b"move",
        Keyword::Mut => b"mut",
        Keyword::Next => b"next",
        Keyword::Nil => b"nil",
        Keyword::Or => b"or",
        Keyword::Pub => b"pub",
        Keyword::Recover => b"recover",
        Keyword::Ref => b"ref",
        Keyword::Return => b"return",
        Keyword::SelfWord => b"self",
        Keyword::Static => b"static",
        Keyword::Throw => b"throw",
        Keyword::Trait => b"trait",
        Keyword::True => b"true",
        Keyword::Try => b"try",
        Keyword::Type => b"type",
        Keyword::Uni => b"uni",
        Keyword::While => b"while",
    }
}

/// The first of these keywords that is written so.
fn first_written(keywords: &[Keyword], written: &[u8]) -> Option<Keyword>
    ensures { result ≡ spec.first_written keywords.now written.now }
{
    for keyword in keywords {
        if text(*keyword) == written {
            return Some(*keyword);
        }
    }
    None
}

/// The keyword that is written so, if one is.
#[tactic(auto, unfolding(crate::specs::Keywords::keyword_of))]
pub(crate) fn keyword_of(written: &[u8]) -> Option<Keyword>
    ensures { result ≡ spec.keyword_of written.now }
{
    first_written(&KEYWORDS, written)
}
