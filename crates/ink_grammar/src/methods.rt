//! The grammar of methods: for each part its productions, whether it may be no token, and which tokens it may
//! begin with.

ghost use Rattle.std.specs.Prelude.{◌≡◌, map};
ghost use Rattle.ink_grammar.specs.Grammar as spec;

use crate::names::{action, part, token};
use crate::shape;
use crate::symbol::{MethodPart, Symbol};
use crate::token::{Shape, same};

const OPTIONAL_PUB: &[&[Symbol]] = &[&[token::PUB, action::MORE], &[]];

const OPTIONAL_ASYNC: &[&[Symbol]] = &[&[token::ASYNC, action::MORE], &[]];

const OPTIONAL_MUT: &[&[Symbol]] = &[&[token::MUT, action::MORE], &[]];

const METHOD_KIND: &[&[Symbol]] = &[
    &[token::MUT, action::MORE],
    &[token::MOVE, action::MORE],
    &[token::STATIC, action::MORE],
    &[],
];

const TRAIT_METHOD_KIND: &[&[Symbol]] = &[
    &[token::MUT, action::MORE],
    &[token::MOVE, action::MORE],
    &[],
];

const METHODS: &[&[Symbol]] = &[&[part::METHOD, action::MORE, part::METHODS], &[]];

const METHOD: &[&[Symbol]] = &[&[
    token::FN,
    action::EMPTY,
    part::OPTIONAL_PUB,
    part::OPTIONAL_ASYNC,
    part::METHOD_KIND,
    token::NAME,
    part::TYPE_PARAMETERS,
    part::PARAMETERS,
    part::METHOD_RESULT,
    action::SIGNATURE,
    part::BLOCK,
    action::METHOD,
]];

const PARAMETERS: &[&[Symbol]] = &[
    &[token::LEFT_PAREN, action::EMPTY, part::PARAMETERS_MORE],
    &[action::NOTHING],
];

const PARAMETERS_MORE: &[&[Symbol]] = &[
    &[token::RIGHT_PAREN],
    &[part::PARAMETER, action::MORE, part::PARAMETERS_REST],
];

const PARAMETERS_REST: &[&[Symbol]] = &[
    &[token::RIGHT_PAREN],
    &[token::COMMA, part::PARAMETERS_MORE],
];

const PARAMETER: &[&[Symbol]] = &[&[
    token::NAME,
    token::COLON,
    part::FULL_TYPE,
    action::PARAMETER,
]];

const METHOD_RESULT: &[&[Symbol]] = &[&[token::ARROW, part::FULL_TYPE], &[action::NOTHING]];

/// Each way to write the part.
pub fn rules(part: MethodPart) -> &'static [&'static [Symbol]]
    ensures { map (λ rule. rule.now) result.now ≡ spec.method_rules part }
{
    match part {
        MethodPart::OptionalPub => OPTIONAL_PUB,
        MethodPart::OptionalAsync => OPTIONAL_ASYNC,
        MethodPart::OptionalMut => OPTIONAL_MUT,
        MethodPart::MethodKind => METHOD_KIND,
        MethodPart::TraitMethodKind => TRAIT_METHOD_KIND,
        MethodPart::Methods => METHODS,
        MethodPart::Method => METHOD,
        MethodPart::Parameters => PARAMETERS,
        MethodPart::ParametersMore => PARAMETERS_MORE,
        MethodPart::ParametersRest => PARAMETERS_REST,
        MethodPart::Parameter => PARAMETER,
        MethodPart::MethodResult => METHOD_RESULT,
    }
}

/// Whether the part may be no token at all.
pub fn may_be_empty(part: MethodPart) -> bool
    ensures { result ≡ spec.method_may_be_empty part }
{
    match part {
        MethodPart::OptionalPub => true,
        MethodPart::OptionalAsync => true,
        MethodPart::OptionalMut => true,
        MethodPart::MethodKind => true,
        MethodPart::TraitMethodKind => true,
        MethodPart::Methods => true,
        MethodPart::Method => false,
        MethodPart::Parameters => true,
        MethodPart::ParametersMore => false,
        MethodPart::ParametersRest => false,
        MethodPart::Parameter => false,
        MethodPart::MethodResult => true,
    }
}

/// Whether the part may begin with a token of this shape.
pub fn begins(part: MethodPart, shape: Shape, _new_line: bool) -> bool
    ensures { result ≡ spec.method_begins part shape _new_line }
{
    match part {
        MethodPart::OptionalPub => same(shape::PUB, shape),
        MethodPart::OptionalAsync => same(shape::ASYNC, shape),
        MethodPart::OptionalMut => same(shape::MUT, shape),
        MethodPart::MethodKind => same(shape::MUT, shape)
            || same(shape::MOVE, shape)
            || same(shape::STATIC, shape),
        MethodPart::TraitMethodKind => same(shape::MUT, shape) || same(shape::MOVE, shape),
        MethodPart::Methods => same(shape::FN, shape),
        MethodPart::Method => same(shape::FN, shape),
        MethodPart::Parameters => same(shape::LEFT_PAREN, shape),
        MethodPart::ParametersMore => same(shape::RIGHT_PAREN, shape) || same(shape::NAME, shape),
        MethodPart::ParametersRest => same(shape::RIGHT_PAREN, shape) || same(shape::COMMA, shape),
        MethodPart::Parameter => same(shape::NAME, shape),
        MethodPart::MethodResult => same(shape::ARROW, shape),
    }
}
