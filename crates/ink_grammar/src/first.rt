//! Which tokens the larger parts may begin with.

ghost use Rattle.std.specs.Prelude.{◌≡◌};
ghost use Rattle.ink_grammar.specs.Grammar as spec;

use crate::shape;
use crate::symbol::{Wanted, is};
use crate::token::{Shape, same};

/// Whether a token of this shape may begin a literal, a text, brackets, or a form with its own word.
pub fn begins_primary(shape: Shape) -> bool
    ensures { result ≡ spec.begins_primary shape }
{
    is(Wanted::Atom, shape)
        || same(shape::QUOTE, shape)
        || same(shape::LEFT_PAREN, shape)
        || same(shape::LEFT_BRACKET, shape)
        || same(shape::IF, shape)
        || same(shape::WHILE, shape)
        || same(shape::LOOP, shape)
        || same(shape::MATCH, shape)
}

/// Whether a token of this shape may begin an operand that begins with no name.
pub fn begins_unnamed_operand(shape: Shape) -> bool
    ensures { result ≡ spec.begins_unnamed_operand shape }
{
    is(Wanted::BorrowWord, shape)
        || same(shape::TRY, shape)
        || same(shape::RECOVER, shape)
        || same(shape::CONSTANT, shape)
        || begins_primary(shape)
}

/// Whether a token of this shape may begin an expression that leaves where it stands.
pub fn begins_jump(shape: Shape) -> bool
    ensures { result ≡ spec.begins_jump shape }
{
    same(shape::RETURN, shape) || same(shape::THROW, shape) || is(Wanted::LoopJump, shape)
}

/// Whether a token of this shape may begin an operand.
pub fn begins_operand(shape: Shape) -> bool
    ensures { result ≡ spec.begins_operand shape }
{
    same(shape::NAME, shape) || begins_unnamed_operand(shape)
}

/// Whether a token of this shape may go on a chain of operands.
pub fn goes_on_a_chain(shape: Shape) -> bool
    ensures { result ≡ spec.goes_on_a_chain shape }
{
    is(Wanted::Operator, shape) || is(Wanted::Logical, shape)
}

/// Whether a token of this shape may begin an expression.
pub fn begins_expression(shape: Shape) -> bool
    ensures { result ≡ spec.begins_expression shape }
{
    begins_jump(shape) || begins_operand(shape)
}

/// Whether a token of this shape may begin an expression that begins with no name.
pub fn begins_unnamed_expression(shape: Shape) -> bool
    ensures { result ≡ spec.begins_unnamed_expression shape }
{
    begins_jump(shape) || begins_unnamed_operand(shape)
}

/// Whether a token of this shape may begin a statement.
pub fn begins_statement(shape: Shape) -> bool
    ensures { result ≡ spec.begins_statement shape }
{
    same(shape::LET, shape) || begins_expression(shape)
}

/// Whether a token of this shape may begin a type.
pub fn begins_full_type(shape: Shape) -> bool
    ensures { result ≡ spec.begins_full_type shape }
{
    is(Wanted::TypePrefix, shape) || same(shape::CONSTANT, shape) || same(shape::LEFT_PAREN, shape)
}

/// Whether a token of this shape may begin one alternative of a pattern.
pub fn begins_alternative(shape: Shape) -> bool
    ensures { result ≡ spec.begins_alternative shape }
{
    is(Wanted::PatternAtom, shape)
        || same(shape::QUOTE, shape)
        || same(shape::MUT, shape)
        || same(shape::CONSTANT, shape)
        || same(shape::LEFT_PAREN, shape)
        || same(shape::LEFT_BRACE, shape)
}
