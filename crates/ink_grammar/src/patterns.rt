//! The grammar of patterns: for each part its productions, whether it may be no token, and which tokens it may
//! begin with.

ghost use Rattle.std.specs.Prelude.{◌≡◌, map};
ghost use Rattle.ink_grammar.specs.Grammar as spec;

use crate::first::begins_alternative;
use crate::names::{action, part, token};
use crate::shape;
use crate::symbol::{PatternPart, Symbol};
use crate::token::{Shape, same};

const PATTERN: &[&[Symbol]] = &[&[part::ALTERNATIVE, part::PATTERN_REST]];

const ALTERNATIVE: &[&[Symbol]] = &[
    &[token::PATTERN_ATOM],
    &[
        token::KEPT_QUOTE,
        action::EMPTY,
        part::PATTERN_TEXT_REST,
        action::TEXT,
    ],
    &[token::MUT, token::NAME, action::MUTABLE_NAME],
    &[token::CONSTANT, part::CONSTRUCTOR_PATTERN_REST],
    &[
        token::KEPT_LEFT_PAREN,
        part::PATTERN,
        token::COMMA,
        part::PATTERN,
        part::TUPLE_PATTERN_REST,
    ],
    &[
        token::KEPT_LEFT_BRACE,
        action::EMPTY,
        part::FIELD_PATTERN,
        action::MORE,
        part::FIELD_PATTERNS_REST,
        action::FIELD_PATTERNS,
    ],
];

const PATTERN_REST: &[&[Symbol]] = &[
    &[
        token::OR,
        part::ALTERNATIVE,
        action::EITHER,
        part::PATTERN_REST,
    ],
    &[],
];

const PATTERN_TEXT_REST: &[&[Symbol]] = &[
    &[token::QUOTE],
    &[token::TEXT_PART, action::MORE, part::PATTERN_TEXT_REST],
];

const CONSTRUCTOR_PATTERN_REST: &[&[Symbol]] = &[
    &[
        token::LEFT_PAREN,
        action::EMPTY,
        part::PATTERN,
        action::MORE,
        part::PATTERNS_REST,
        action::CONSTRUCTOR_PATTERN,
    ],
    &[],
];

const PATTERNS_REST: &[&[Symbol]] = &[&[token::RIGHT_PAREN], &[token::COMMA, part::PATTERNS_MORE]];

const PATTERNS_MORE: &[&[Symbol]] = &[
    &[token::RIGHT_PAREN],
    &[part::PATTERN, action::MORE, part::PATTERNS_REST],
];

const TUPLE_PATTERN_REST: &[&[Symbol]] = &[
    &[token::RIGHT_PAREN, action::PAIR_PATTERN],
    &[
        token::COMMA,
        part::PATTERN,
        token::RIGHT_PAREN,
        action::TRIPLE_PATTERN,
    ],
];

const FIELD_PATTERN: &[&[Symbol]] = &[&[
    token::FIELD,
    token::EQUALS,
    part::PATTERN,
    action::FIELD_PATTERN,
]];

const FIELD_PATTERNS_REST: &[&[Symbol]] = &[
    &[token::RIGHT_BRACE],
    &[token::COMMA, part::FIELD_PATTERNS_MORE],
];

const FIELD_PATTERNS_MORE: &[&[Symbol]] = &[
    &[token::RIGHT_BRACE],
    &[part::FIELD_PATTERN, action::MORE, part::FIELD_PATTERNS_REST],
];

/// Each way to write the part.
pub fn rules(part: PatternPart) -> &'static [&'static [Symbol]]
    ensures { map (λ rule. rule.now) result.now ≡ spec.pattern_rules part }
{
    match part {
        PatternPart::Pattern => PATTERN,
        PatternPart::Alternative => ALTERNATIVE,
        PatternPart::PatternRest => PATTERN_REST,
        PatternPart::PatternTextRest => PATTERN_TEXT_REST,
        PatternPart::ConstructorPatternRest => CONSTRUCTOR_PATTERN_REST,
        PatternPart::PatternsRest => PATTERNS_REST,
        PatternPart::PatternsMore => PATTERNS_MORE,
        PatternPart::TuplePatternRest => TUPLE_PATTERN_REST,
        PatternPart::FieldPattern => FIELD_PATTERN,
        PatternPart::FieldPatternsRest => FIELD_PATTERNS_REST,
        PatternPart::FieldPatternsMore => FIELD_PATTERNS_MORE,
    }
}

/// Whether the part may be no token at all.
pub fn may_be_empty(part: PatternPart) -> bool
    ensures { result ≡ spec.pattern_may_be_empty part }
{
    match part {
        PatternPart::Pattern => false,
        PatternPart::Alternative => false,
        PatternPart::PatternRest => true,
        PatternPart::PatternTextRest => false,
        PatternPart::ConstructorPatternRest => true,
        PatternPart::PatternsRest => false,
        PatternPart::PatternsMore => false,
        PatternPart::TuplePatternRest => false,
        PatternPart::FieldPattern => false,
        PatternPart::FieldPatternsRest => false,
        PatternPart::FieldPatternsMore => false,
    }
}

/// Whether the part may begin with a token of this shape.
pub fn begins(part: PatternPart, shape: Shape, _new_line: bool) -> bool
    ensures { result ≡ spec.pattern_begins part shape _new_line }
{
    match part {
        PatternPart::Pattern => begins_alternative(shape),
        PatternPart::Alternative => begins_alternative(shape),
        PatternPart::PatternRest => same(shape::OR, shape),
        PatternPart::PatternTextRest => same(shape::QUOTE, shape) || same(shape::TEXT_PART, shape),
        PatternPart::ConstructorPatternRest => same(shape::LEFT_PAREN, shape),
        PatternPart::PatternsRest => same(shape::RIGHT_PAREN, shape) || same(shape::COMMA, shape),
        PatternPart::PatternsMore => same(shape::RIGHT_PAREN, shape) || begins_alternative(shape),
        PatternPart::TuplePatternRest => same(shape::RIGHT_PAREN, shape)
            || same(shape::COMMA, shape),
        PatternPart::FieldPattern => same(shape::FIELD, shape),
        PatternPart::FieldPatternsRest => same(shape::RIGHT_BRACE, shape)
            || same(shape::COMMA, shape),
        PatternPart::FieldPatternsMore => same(shape::RIGHT_BRACE, shape)
            || same(shape::FIELD, shape),
    }
}
