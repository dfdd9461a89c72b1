//! The grammar of blocks, statements and expressions: for each part its productions, whether it may be no token, and which tokens it may
//! begin with.

ghost use Rattle.std.specs.Prelude.{◌≡◌, map};
ghost use Rattle.ink_grammar.specs.Grammar as spec;

use crate::first::{
    begins_expression, begins_jump, begins_operand, begins_statement, begins_unnamed_expression,
    goes_on_a_chain,
};
use crate::names::{action, part, token};
use crate::shape;
use crate::symbol::{StatementPart, Symbol, Wanted, is};
use crate::token::{Shape, same};

const BLOCK: &[&[Symbol]] = &[&[
    token::KEPT_LEFT_BRACE,
    action::EMPTY,
    part::STATEMENTS,
    token::KEPT_RIGHT_BRACE,
    action::BLOCK,
]];

const STATEMENTS: &[&[Symbol]] = &[&[part::STATEMENT, action::MORE, part::MORE_STATEMENTS], &[]];

const MORE_STATEMENTS: &[&[Symbol]] = &[
    &[
        part::NEW_LINE_STATEMENT,
        action::MORE,
        part::MORE_STATEMENTS,
    ],
    &[],
];

const STATEMENT: &[&[Symbol]] = &[
    &[
        token::LET,
        part::MUTABLE,
        part::LET_NAME,
        part::LET_TYPE,
        token::EQUALS,
        part::EXPRESSION,
        action::LET,
    ],
    &[part::EXPRESSION, action::STATEMENT],
];

const MUTABLE: &[&[Symbol]] = &[&[token::MUT], &[action::NOTHING]];

const LET_NAME: &[&[Symbol]] = &[&[token::NAME], &[token::UNDERSCORE]];

const LET_TYPE: &[&[Symbol]] = &[&[token::COLON, part::FULL_TYPE], &[action::NOTHING]];

const EXPRESSION: &[&[Symbol]] = &[&[part::JUMP], &[part::OPERAND, part::AFTER_OPERAND]];

const JUMP: &[&[Symbol]] = &[
    &[token::RETURN, part::RETURN_REST],
    &[token::THROW, part::EXPRESSION, action::THROW],
    &[token::LOOP_JUMP],
];

const RETURN_REST: &[&[Symbol]] = &[
    &[part::SAME_LINE_EXPRESSION, action::RETURN],
    &[action::NOTHING, action::RETURN],
];

const AFTER_OPERAND: &[&[Symbol]] = &[
    &[token::AT_PLACE_SETTER, part::EXPRESSION, action::ASSIGN],
    &[part::CHAIN_REST],
];

const CHAIN: &[&[Symbol]] = &[&[part::OPERAND, part::CHAIN_REST]];

const CHAIN_REST: &[&[Symbol]] = &[
    &[
        token::SAME_LINE_OPERATOR,
        part::OPERAND,
        action::BINARY,
        part::CHAIN_REST,
    ],
    &[
        token::SAME_LINE_LOGICAL,
        part::OPERAND,
        action::STATEMENT,
        action::BINARY,
        part::CHAIN_REST,
    ],
    &[],
];

const UNNAMED_EXPRESSION: &[&[Symbol]] = &[
    &[part::JUMP],
    &[part::UNNAMED_OPERAND, part::AFTER_OPERAND],
];

const CONDITIONAL: &[&[Symbol]] = &[&[
    token::KEPT_IF,
    part::CHAIN,
    action::STATEMENT,
    part::BLOCK,
    part::ELSE_REST,
]];

const ELSE_REST: &[&[Symbol]] = &[
    &[token::ELSE, part::ELSE_BRANCH, action::IF],
    &[action::NOTHING, action::IF],
];

const ELSE_BRANCH: &[&[Symbol]] = &[&[part::BLOCK], &[part::CONDITIONAL]];

const ARMS: &[&[Symbol]] = &[&[part::ARM, action::MORE, part::ARMS], &[]];

const ARM: &[&[Symbol]] = &[&[
    token::CASE,
    part::PATTERN,
    part::GUARD,
    token::ARROW,
    part::ARM_VALUE,
    action::ARM,
]];

const GUARD: &[&[Symbol]] = &[
    &[token::IF, part::CHAIN, action::STATEMENT],
    &[action::NOTHING],
];

const ARM_VALUE: &[&[Symbol]] = &[&[part::BLOCK], &[part::EXPRESSION, action::STATEMENT]];

/// Each way to write the part.
pub fn rules(part: StatementPart) -> &'static [&'static [Symbol]]
    ensures { map (λ rule. rule.now) result.now ≡ spec.statement_rules part }
{
    match part {
        StatementPart::Block => BLOCK,
        StatementPart::Statements => STATEMENTS,
        StatementPart::MoreStatements => MORE_STATEMENTS,
        StatementPart::Statement => STATEMENT,
        StatementPart::Mutable => MUTABLE,
        StatementPart::LetName => LET_NAME,
        StatementPart::LetType => LET_TYPE,
        StatementPart::Expression => EXPRESSION,
        StatementPart::Jump => JUMP,
        StatementPart::ReturnRest => RETURN_REST,
        StatementPart::AfterOperand => AFTER_OPERAND,
        StatementPart::Chain => CHAIN,
        StatementPart::ChainRest => CHAIN_REST,
        StatementPart::UnnamedExpression => UNNAMED_EXPRESSION,
        StatementPart::Conditional => CONDITIONAL,
        StatementPart::ElseRest => ELSE_REST,
        StatementPart::ElseBranch => ELSE_BRANCH,
        StatementPart::Arms => ARMS,
        StatementPart::Arm => ARM,
        StatementPart::Guard => GUARD,
        StatementPart::ArmValue => ARM_VALUE,
    }
}

/// Whether the part may be no token at all.
pub fn may_be_empty(part: StatementPart) -> bool
    ensures { result ≡ spec.statement_may_be_empty part }
{
    match part {
        StatementPart::Block => false,
        StatementPart::Statements => true,
        StatementPart::MoreStatements => true,
        StatementPart::Statement => false,
        StatementPart::Mutable => true,
        StatementPart::LetName => false,
        StatementPart::LetType => true,
        StatementPart::Expression => false,
        StatementPart::Jump => false,
        StatementPart::ReturnRest => true,
        StatementPart::AfterOperand => true,
        StatementPart::Chain => false,
        StatementPart::ChainRest => true,
        StatementPart::UnnamedExpression => false,
        StatementPart::Conditional => false,
        StatementPart::ElseRest => true,
        StatementPart::ElseBranch => false,
        StatementPart::Arms => true,
        StatementPart::Arm => false,
        StatementPart::Guard => true,
        StatementPart::ArmValue => false,
    }
}

/// Whether the part may begin with a token of this shape.
pub fn begins(part: StatementPart, shape: Shape, new_line: bool) -> bool
    ensures { result ≡ spec.statement_begins part shape new_line }
{
    match part {
        StatementPart::Block => same(shape::LEFT_BRACE, shape),
        StatementPart::Statements => begins_statement(shape),
        StatementPart::MoreStatements => new_line && begins_statement(shape),
        StatementPart::Statement => begins_statement(shape),
        StatementPart::Mutable => same(shape::MUT, shape),
        StatementPart::LetName => same(shape::NAME, shape) || same(shape::UNDERSCORE, shape),
        StatementPart::LetType => same(shape::COLON, shape),
        StatementPart::Expression => begins_expression(shape),
        StatementPart::Jump => begins_jump(shape),
        StatementPart::ReturnRest => !new_line && begins_expression(shape),
        StatementPart::AfterOperand => !new_line
            && (is(Wanted::Setter, shape) || goes_on_a_chain(shape)),
        StatementPart::Chain => begins_operand(shape),
        StatementPart::ChainRest => !new_line && goes_on_a_chain(shape),
        StatementPart::UnnamedExpression => begins_unnamed_expression(shape),
        StatementPart::Conditional => same(shape::IF, shape),
        StatementPart::ElseRest => same(shape::ELSE, shape),
        StatementPart::ElseBranch => same(shape::LEFT_BRACE, shape) || same(shape::IF, shape),
        StatementPart::Arms => same(shape::CASE, shape),
        StatementPart::Arm => same(shape::CASE, shape),
        StatementPart::Guard => same(shape::IF, shape),
        StatementPart::ArmValue => same(shape::LEFT_BRACE, shape) || begins_expression(shape),
    }
}
