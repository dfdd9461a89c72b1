//! The grammar of operands: for each part its productions, whether it may be no token, and which tokens it may
//! begin with.

ghost use Rattle.std.specs.Prelude.{◌≡◌, map};
ghost use Rattle.ink_grammar.specs.Grammar as spec;
ghost use Rattle.ink_grammar.specs.declared.symbol.OperandPart.TheVariants.{NamedOrNot};

use crate::first::{
    begins_expression, begins_operand, begins_primary, begins_unnamed_expression,
    begins_unnamed_operand, goes_on_a_chain,
};
use crate::names::{action, part, token};
use crate::shape;
use crate::symbol::{OperandPart, Symbol, Wanted, is};
use crate::token::{Shape, same};

const OPERAND: &[&[Symbol]] = &[
    &[token::NAME, part::NAME_REST, part::LINKS],
    &[part::UNNAMED_OPERAND],
];

const UNNAMED_OPERAND: &[&[Symbol]] = &[
    &[token::BORROW_WORD, part::OPERAND, action::BORROW],
    &[token::TRY, part::OPERAND, action::TRY],
    &[token::RECOVER, part::RECOVER_REST],
    &[token::CONSTANT, part::CONSTANT_REST],
    &[part::PRIMARY, part::LINKS],
];

const RECOVER_REST: &[&[Symbol]] = &[
    &[part::BLOCK, action::RECOVER],
    &[part::OPERAND, action::STATEMENT, action::RECOVER],
];

const NAME_REST: &[&[Symbol]] = &[
    &[
        token::SAME_LINE_LEFT_PAREN,
        action::EMPTY,
        part::ARGUMENTS,
        action::CALL,
    ],
    &[],
];

const LINKS: &[&[Symbol]] = &[&[token::DOT, part::LINK, part::LINKS], &[]];

const LINK: &[&[Symbol]] = &[
    &[token::LINK_NAME, part::LINK_REST],
    &[token::INTEGER, action::TUPLE_ITEM],
];

const LINK_REST: &[&[Symbol]] = &[
    &[
        token::SAME_LINE_LEFT_PAREN,
        action::EMPTY,
        part::ARGUMENTS,
        action::MEMBER_CALL,
    ],
    &[action::MEMBER],
];

const CONSTANT_REST: &[&[Symbol]] = &[
    &[
        token::SAME_LINE_LEFT_PAREN,
        action::EMPTY,
        part::CONSTRUCTOR_ARGUMENTS,
        action::CONSTRUCT,
        part::LINKS,
    ],
    &[token::DOT, part::AFTER_CONSTANT],
    &[],
];

const AFTER_CONSTANT: &[&[Symbol]] = &[
    &[
        token::CONSTANT,
        action::QUALIFIED,
        part::QUALIFIED_REST,
        part::LINKS,
    ],
    &[part::LINK, part::LINKS],
];

const QUALIFIED_REST: &[&[Symbol]] = &[
    &[
        token::SAME_LINE_LEFT_PAREN,
        action::EMPTY,
        part::CONSTRUCTOR_ARGUMENTS,
        action::CONSTRUCT,
    ],
    &[],
];

const PRIMARY: &[&[Symbol]] = &[
    &[token::ATOM],
    &[
        token::KEPT_QUOTE,
        action::EMPTY,
        part::TEXT_REST,
        action::TEXT,
    ],
    &[
        token::KEPT_LEFT_PAREN,
        part::EXPRESSION,
        part::PARENTHESIS_REST,
    ],
    &[
        token::KEPT_LEFT_BRACKET,
        action::EMPTY,
        part::ITEMS,
        action::ARRAY,
    ],
    &[part::CONDITIONAL],
    &[
        token::WHILE,
        part::CHAIN,
        action::STATEMENT,
        part::BLOCK,
        action::WHILE,
    ],
    &[token::LOOP, part::BLOCK, action::LOOP],
    &[
        token::MATCH,
        part::CHAIN,
        action::STATEMENT,
        token::LEFT_BRACE,
        action::EMPTY,
        part::ARM,
        action::MORE,
        part::ARMS,
        token::RIGHT_BRACE,
        action::MATCH,
    ],
];

const TEXT_REST: &[&[Symbol]] = &[
    &[token::QUOTE],
    &[token::TEXT_PART, action::MORE, part::TEXT_REST],
    &[
        token::OPENING,
        part::EXPRESSION,
        token::CLOSING,
        action::MORE,
        part::TEXT_REST,
    ],
];

const PARENTHESIS_REST: &[&[Symbol]] = &[
    &[token::RIGHT_PAREN, action::CLOSED],
    &[token::COMMA, part::EXPRESSION, part::TUPLE_REST],
];

const TUPLE_REST: &[&[Symbol]] = &[
    &[token::RIGHT_PAREN, action::PAIR],
    &[
        token::COMMA,
        part::EXPRESSION,
        token::RIGHT_PAREN,
        action::TRIPLE,
    ],
];

const ITEMS: &[&[Symbol]] = &[
    &[token::RIGHT_BRACKET],
    &[part::EXPRESSION, action::MORE, part::ITEMS_REST],
];

const ITEMS_REST: &[&[Symbol]] = &[&[token::RIGHT_BRACKET], &[token::COMMA, part::ITEMS]];

const ARGUMENTS: &[&[Symbol]] = &[
    &[token::RIGHT_PAREN],
    &[part::EXPRESSION, action::MORE, part::ARGUMENTS_REST],
];

const ARGUMENTS_REST: &[&[Symbol]] = &[&[token::RIGHT_PAREN], &[token::COMMA, part::ARGUMENTS]];

const CONSTRUCTOR_ARGUMENTS: &[&[Symbol]] = &[
    &[token::RIGHT_PAREN],
    &[token::NAME, part::NAMED_OR_NOT],
    &[part::UNNAMED_EXPRESSION, action::MORE, part::ARGUMENTS_REST],
];

const NAMED_OR_NOT: &[&[Symbol]] = &[
    &[
        token::COLON,
        part::EXPRESSION,
        action::NAMED,
        action::MORE,
        part::NAMED_REST,
    ],
    &[
        part::NAME_REST,
        part::LINKS,
        part::AFTER_OPERAND,
        action::MORE,
        part::ARGUMENTS_REST,
    ],
];

const NAMED_REST: &[&[Symbol]] = &[&[token::RIGHT_PAREN], &[token::COMMA, part::NAMED_MORE]];

const NAMED_MORE: &[&[Symbol]] = &[
    &[token::RIGHT_PAREN],
    &[
        token::NAME,
        token::COLON,
        part::EXPRESSION,
        action::NAMED,
        action::MORE,
        part::NAMED_REST,
    ],
];

/// Each way to write the part.
pub fn rules(part: OperandPart) -> &'static [&'static [Symbol]]
    ensures { map (λ rule. rule.now) result.now ≡ spec.operand_rules part }
{
    match part {
        OperandPart::Operand => OPERAND,
        OperandPart::UnnamedOperand => UNNAMED_OPERAND,
        OperandPart::RecoverRest => RECOVER_REST,
        OperandPart::NameRest => NAME_REST,
        OperandPart::Links => LINKS,
        OperandPart::Link => LINK,
        OperandPart::LinkRest => LINK_REST,
        OperandPart::ConstantRest => CONSTANT_REST,
        OperandPart::AfterConstant => AFTER_CONSTANT,
        OperandPart::QualifiedRest => QUALIFIED_REST,
        OperandPart::Primary => PRIMARY,
        OperandPart::TextRest => TEXT_REST,
        OperandPart::ParenthesisRest => PARENTHESIS_REST,
        OperandPart::TupleRest => TUPLE_REST,
        OperandPart::Items => ITEMS,
        OperandPart::ItemsRest => ITEMS_REST,
        OperandPart::Arguments => ARGUMENTS,
        OperandPart::ArgumentsRest => ARGUMENTS_REST,
        OperandPart::ConstructorArguments => CONSTRUCTOR_ARGUMENTS,
        OperandPart::NamedOrNot => NAMED_OR_NOT,
        OperandPart::NamedRest => NAMED_REST,
        OperandPart::NamedMore => NAMED_MORE,
    }
}

/// Whether the part may be no token at all.
pub fn may_be_empty(part: OperandPart) -> bool
    ensures { result ≡ spec.operand_may_be_empty part }
{
    match part {
        OperandPart::Operand => false,
        OperandPart::UnnamedOperand => false,
        OperandPart::RecoverRest => false,
        OperandPart::NameRest => true,
        OperandPart::Links => true,
        OperandPart::Link => false,
        OperandPart::LinkRest => true,
        OperandPart::ConstantRest => true,
        OperandPart::AfterConstant => false,
        OperandPart::QualifiedRest => true,
        OperandPart::Primary => false,
        OperandPart::TextRest => false,
        OperandPart::ParenthesisRest => false,
        OperandPart::TupleRest => false,
        OperandPart::Items => false,
        OperandPart::ItemsRest => false,
        OperandPart::Arguments => false,
        OperandPart::ArgumentsRest => false,
        OperandPart::ConstructorArguments => false,
        OperandPart::NamedOrNot => false,
        OperandPart::NamedRest => false,
        OperandPart::NamedMore => false,
    }
}

fn begins_named_or_not(shape: Shape, new_line: bool) -> bool
    ensures { result ≡ spec.operand_begins NamedOrNot shape new_line }
{
    same(shape::COLON, shape)
        || same(shape::DOT, shape)
        || same(shape::RIGHT_PAREN, shape)
        || same(shape::COMMA, shape)
        || (!new_line
            && (same(shape::LEFT_PAREN, shape)
                || is(Wanted::Setter, shape)
                || goes_on_a_chain(shape)))
}

/// Whether the part may begin with a token of this shape.
pub fn begins(part: OperandPart, shape: Shape, new_line: bool) -> bool
    ensures { result ≡ spec.operand_begins part shape new_line }
{
    match part {
        OperandPart::Operand => begins_operand(shape),
        OperandPart::UnnamedOperand => begins_unnamed_operand(shape),
        OperandPart::RecoverRest => same(shape::LEFT_BRACE, shape) || begins_operand(shape),
        OperandPart::NameRest => !new_line && same(shape::LEFT_PAREN, shape),
        OperandPart::Links => same(shape::DOT, shape),
        OperandPart::Link => is(Wanted::LinkName, shape) || same(shape::INTEGER, shape),
        OperandPart::LinkRest => !new_line && same(shape::LEFT_PAREN, shape),
        OperandPart::ConstantRest => same(shape::DOT, shape)
            || (!new_line && same(shape::LEFT_PAREN, shape)),
        OperandPart::AfterConstant => same(shape::CONSTANT, shape)
            || is(Wanted::LinkName, shape)
            || same(shape::INTEGER, shape),
        OperandPart::QualifiedRest => !new_line && same(shape::LEFT_PAREN, shape),
        OperandPart::Primary => begins_primary(shape),
        OperandPart::TextRest => same(shape::QUOTE, shape)
            || same(shape::TEXT_PART, shape)
            || same(shape::OPENING, shape),
        OperandPart::ParenthesisRest => same(shape::RIGHT_PAREN, shape)
            || same(shape::COMMA, shape),
        OperandPart::TupleRest => same(shape::RIGHT_PAREN, shape) || same(shape::COMMA, shape),
        OperandPart::Items => same(shape::RIGHT_BRACKET, shape) || begins_expression(shape),
        OperandPart::ItemsRest => same(shape::RIGHT_BRACKET, shape) || same(shape::COMMA, shape),
        OperandPart::Arguments => same(shape::RIGHT_PAREN, shape) || begins_expression(shape),
        OperandPart::ArgumentsRest => same(shape::RIGHT_PAREN, shape) || same(shape::COMMA, shape),
        OperandPart::ConstructorArguments => same(shape::RIGHT_PAREN, shape)
            || same(shape::NAME, shape)
            || begins_unnamed_expression(shape),
        OperandPart::NamedOrNot => begins_named_or_not(shape, new_line),
        OperandPart::NamedRest => same(shape::RIGHT_PAREN, shape) || same(shape::COMMA, shape),
        OperandPart::NamedMore => same(shape::RIGHT_PAREN, shape) || same(shape::NAME, shape),
    }
}
