//! What stands round a part at its context: the parentheses that the grammar asks for, and the signs before and behind a
//! part that may be left out.

ghost use Rattle.std.specs.Prelude.{◌≡◌};
ghost use Rattle.ink_print.specs.Surround as spec;

use crate::context::{Context, Rank};
use crate::step::Sign;
use ink_grammar::{Keyword, Shape, ThreeChildren, TwoChildren};

/// The rank of a token.
pub fn rank_of_shape(shape: Shape) -> Rank
    ensures { result ≡ spec.rank_of_shape shape }
{
    match shape {
        Shape::TextPart => Rank::TextPart,
        Shape::Keyword(Keyword::Break) => Rank::Expression,
        Shape::Keyword(Keyword::Next) => Rank::Expression,
        _ => Rank::Base,
    }
}

/// The rank of a form with two children.
pub fn rank_of_two(form: TwoChildren) -> Rank
    ensures { result ≡ spec.rank_of_two form }
{
    match form {
        TwoChildren::Return => Rank::Expression,
        TwoChildren::Throw => Rank::Expression,
        TwoChildren::Borrow => Rank::Operand,
        TwoChildren::Try => Rank::Operand,
        TwoChildren::Recover => Rank::Operand,
        _ => Rank::Base,
    }
}

/// The rank of a form with three children.
pub fn rank_of_three(form: ThreeChildren) -> Rank
    ensures { result ≡ spec.rank_of_three form }
{
    match form {
        ThreeChildren::Assign => Rank::Expression,
        ThreeChildren::Binary => Rank::Chain,
        _ => Rank::Base,
    }
}

/// Whether the grammar doesn't derive a part of this rank there without parentheses.
fn needs_parentheses(context: Context, rank: Rank) -> bool
    ensures { result ≡ spec.needs_parentheses context rank }
{
    match context {
        Context::Chain => matches!(rank, Rank::Expression),
        Context::Operand => matches!(rank, Rank::Expression | Rank::Chain),
        Context::Base => matches!(rank, Rank::Expression | Rank::Chain | Rank::Operand),
        _ => false,
    }
}

/// The sign before a part that stands there, parentheses aside.
fn introduction(context: Context, rank: Rank) -> Option<Sign>
    ensures { result ≡ spec.introduction context rank }
{
    match context {
        Context::Body => match rank {
            Rank::NoItems => None,
            _ => Some(Sign::Line),
        },
        Context::TextItem => match rank {
            Rank::TextPart => None,
            _ => Some(Sign::TextOpening),
        },
        Context::Bracketed => Some(Sign::LeftBracket),
        Context::Parenthesised => Some(Sign::LeftParen),
        Context::ImportNames => Some(Sign::ImportParen),
        Context::Bounded => Some(Sign::Colon),
        Context::Annotated => Some(Sign::Colon),
        Context::Returned => Some(Sign::Arrow),
        Context::Implemented => Some(Sign::For),
        Context::Otherwise => Some(Sign::Else),
        Context::Guard => Some(Sign::If),
        _ => None,
    }
}

/// The sign behind a part that stands there, parentheses aside.
fn conclusion(context: Context, rank: Rank) -> Option<Sign>
    ensures { result ≡ spec.conclusion context rank }
{
    match context {
        Context::TextItem => match rank {
            Rank::TextPart => None,
            _ => Some(Sign::TextClosing),
        },
        Context::Bracketed => Some(Sign::RightBracket),
        Context::Parenthesised => Some(Sign::RightParen),
        Context::ImportNames => Some(Sign::RightParen),
        _ => None,
    }
}

/// The sign before a part that stands there, if it asks for one.
pub fn opening(context: Context, rank: Rank) -> Option<Sign>
    ensures { result ≡ spec.opening context rank }
{
    if needs_parentheses(context, rank) {
        Some(Sign::LeftParen)
    } else {
        introduction(context, rank)
    }
}

/// The sign behind a part that stands there, if it asks for one.
pub fn closing(context: Context, rank: Rank) -> Option<Sign>
    ensures { result ≡ spec.closing context rank }
{
    if needs_parentheses(context, rank) {
        Some(Sign::RightParen)
    } else {
        conclusion(context, rank)
    }
}

/// The context between the two signs.
pub fn inner(context: Context) -> Context
    ensures { result ≡ spec.inner context }
{
    match context {
        Context::Body => Context::Lines,
        Context::TextItem => Context::Expression,
        Context::Bracketed => Context::Items,
        Context::Parenthesised => Context::Items,
        Context::ImportNames => Context::Items,
        Context::Bounded => Context::Bounds,
        Context::Annotated => Context::Expression,
        Context::Returned => Context::Expression,
        Context::Implemented => Context::Expression,
        Context::Otherwise => Context::Expression,
        Context::Guard => Context::Chain,
        _ => context,
    }
}
