//! The grammar of types: for each part its productions, whether it may be no token, and which tokens it may
//! begin with.

ghost use Rattle.std.specs.Prelude.{◌≡◌, map};
ghost use Rattle.ink_grammar.specs.Grammar as spec;

use crate::first::begins_full_type;
use crate::names::{action, part, token};
use crate::shape;
use crate::symbol::{Symbol, TypePart};
use crate::token::{Shape, same};

const FULL_TYPE: &[&[Symbol]] = &[
    &[token::TYPE_PREFIX, part::BARE_TYPE, action::PREFIXED_TYPE],
    &[part::BARE_TYPE],
];

const BARE_TYPE: &[&[Symbol]] = &[
    &[token::CONSTANT, part::TYPE_ARGUMENTS, action::NAMED_TYPE],
    &[
        token::KEPT_LEFT_PAREN,
        part::FULL_TYPE,
        token::COMMA,
        part::FULL_TYPE,
        part::TUPLE_TYPE_REST,
    ],
];

const TUPLE_TYPE_REST: &[&[Symbol]] = &[
    &[token::RIGHT_PAREN, action::PAIR_TYPE],
    &[
        token::COMMA,
        part::FULL_TYPE,
        token::RIGHT_PAREN,
        action::TRIPLE_TYPE,
    ],
];

const TYPE_ARGUMENTS: &[&[Symbol]] = &[
    &[
        token::LEFT_BRACKET,
        action::EMPTY,
        part::FULL_TYPE,
        action::MORE,
        part::TYPE_ARGUMENTS_REST,
    ],
    &[action::NOTHING],
];

const TYPE_ARGUMENTS_REST: &[&[Symbol]] = &[
    &[token::RIGHT_BRACKET],
    &[token::COMMA, part::TYPE_ARGUMENTS_MORE],
];

const TYPE_ARGUMENTS_MORE: &[&[Symbol]] = &[
    &[token::RIGHT_BRACKET],
    &[part::FULL_TYPE, action::MORE, part::TYPE_ARGUMENTS_REST],
];

const TYPE_PARAMETERS: &[&[Symbol]] = &[
    &[
        token::LEFT_BRACKET,
        action::EMPTY,
        part::TYPE_PARAMETER,
        action::MORE,
        part::TYPE_PARAMETERS_REST,
    ],
    &[action::NOTHING],
];

const TYPE_PARAMETERS_REST: &[&[Symbol]] = &[
    &[token::RIGHT_BRACKET],
    &[token::COMMA, part::TYPE_PARAMETERS_MORE],
];

const TYPE_PARAMETERS_MORE: &[&[Symbol]] = &[
    &[token::RIGHT_BRACKET],
    &[
        part::TYPE_PARAMETER,
        action::MORE,
        part::TYPE_PARAMETERS_REST,
    ],
];

const TYPE_PARAMETER: &[&[Symbol]] = &[&[token::CONSTANT, part::BOUNDS, action::TYPE_PARAMETER]];

const BOUNDS: &[&[Symbol]] = &[
    &[
        token::COLON,
        action::EMPTY,
        token::CONSTANT,
        action::MORE,
        part::BOUNDS_REST,
    ],
    &[action::NOTHING],
];

const BOUNDS_REST: &[&[Symbol]] = &[
    &[
        token::PLUS,
        token::CONSTANT,
        action::MORE,
        part::BOUNDS_REST,
    ],
    &[],
];

const CONSTRUCTOR_TYPES: &[&[Symbol]] = &[
    &[
        token::LEFT_PAREN,
        action::EMPTY,
        part::FULL_TYPE,
        action::MORE,
        part::CONSTRUCTOR_TYPES_REST,
    ],
    &[action::NOTHING],
];

const CONSTRUCTOR_TYPES_REST: &[&[Symbol]] = &[
    &[token::RIGHT_PAREN],
    &[token::COMMA, part::CONSTRUCTOR_TYPES_MORE],
];

const CONSTRUCTOR_TYPES_MORE: &[&[Symbol]] = &[
    &[token::RIGHT_PAREN],
    &[part::FULL_TYPE, action::MORE, part::CONSTRUCTOR_TYPES_REST],
];

/// Each way to write the part.
pub fn rules(part: TypePart) -> &'static [&'static [Symbol]]
    ensures { map (λ rule. rule.now) result.now ≡ spec.type_rules part }
{
    match part {
        TypePart::FullType => FULL_TYPE,
        TypePart::BareType => BARE_TYPE,
        TypePart::TupleTypeRest => TUPLE_TYPE_REST,
        TypePart::TypeArguments => TYPE_ARGUMENTS,
        TypePart::TypeArgumentsRest => TYPE_ARGUMENTS_REST,
        TypePart::TypeArgumentsMore => TYPE_ARGUMENTS_MORE,
        TypePart::TypeParameters => TYPE_PARAMETERS,
        TypePart::TypeParametersRest => TYPE_PARAMETERS_REST,
        TypePart::TypeParametersMore => TYPE_PARAMETERS_MORE,
        TypePart::TypeParameter => TYPE_PARAMETER,
        TypePart::Bounds => BOUNDS,
        TypePart::BoundsRest => BOUNDS_REST,
        TypePart::ConstructorTypes => CONSTRUCTOR_TYPES,
        TypePart::ConstructorTypesRest => CONSTRUCTOR_TYPES_REST,
        TypePart::ConstructorTypesMore => CONSTRUCTOR_TYPES_MORE,
    }
}

/// Whether the part may be no token at all.
pub fn may_be_empty(part: TypePart) -> bool
    ensures { result ≡ spec.type_may_be_empty part }
{
    match part {
        TypePart::FullType => false,
        TypePart::BareType => false,
        TypePart::TupleTypeRest => false,
        TypePart::TypeArguments => true,
        TypePart::TypeArgumentsRest => false,
        TypePart::TypeArgumentsMore => false,
        TypePart::TypeParameters => true,
        TypePart::TypeParametersRest => false,
        TypePart::TypeParametersMore => false,
        TypePart::TypeParameter => false,
        TypePart::Bounds => true,
        TypePart::BoundsRest => true,
        TypePart::ConstructorTypes => true,
        TypePart::ConstructorTypesRest => false,
        TypePart::ConstructorTypesMore => false,
    }
}

/// Whether the part may begin with a token of this shape.
pub fn begins(part: TypePart, shape: Shape, _new_line: bool) -> bool
    ensures { result ≡ spec.type_begins part shape _new_line }
{
    match part {
        TypePart::FullType => begins_full_type(shape),
        TypePart::BareType => same(shape::CONSTANT, shape) || same(shape::LEFT_PAREN, shape),
        TypePart::TupleTypeRest => same(shape::RIGHT_PAREN, shape) || same(shape::COMMA, shape),
        TypePart::TypeArguments => same(shape::LEFT_BRACKET, shape),
        TypePart::TypeArgumentsRest => same(shape::RIGHT_BRACKET, shape)
            || same(shape::COMMA, shape),
        TypePart::TypeArgumentsMore => same(shape::RIGHT_BRACKET, shape) || begins_full_type(shape),
        TypePart::TypeParameters => same(shape::LEFT_BRACKET, shape),
        TypePart::TypeParametersRest => same(shape::RIGHT_BRACKET, shape)
            || same(shape::COMMA, shape),
        TypePart::TypeParametersMore => same(shape::RIGHT_BRACKET, shape)
            || same(shape::CONSTANT, shape),
        TypePart::TypeParameter => same(shape::CONSTANT, shape),
        TypePart::Bounds => same(shape::COLON, shape),
        TypePart::BoundsRest => same(shape::PLUS, shape),
        TypePart::ConstructorTypes => same(shape::LEFT_PAREN, shape),
        TypePart::ConstructorTypesRest => same(shape::RIGHT_PAREN, shape)
            || same(shape::COMMA, shape),
        TypePart::ConstructorTypesMore => same(shape::RIGHT_PAREN, shape)
            || begins_full_type(shape),
    }
}
