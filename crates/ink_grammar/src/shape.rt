//! The shapes that the tables name, each by one short name.

use crate::token::{Keyword, Mark, Shape};

pub const NAME: Shape = Shape::Name;

pub const CONSTANT: Shape = Shape::Constant;

pub const FIELD: Shape = Shape::Field;

pub const INTEGER: Shape = Shape::Integer;

pub const HEXADECIMAL: Shape = Shape::Hexadecimal;

pub const UNDERSCORE: Shape = Shape::Underscore;

pub const QUOTE: Shape = Shape::Quote;

pub const TEXT_PART: Shape = Shape::TextPart;

pub const OPENING: Shape = Shape::Opening;

pub const CLOSING: Shape = Shape::Closing;

pub const AND: Shape = Shape::Keyword(Keyword::And);

pub const ASYNC: Shape = Shape::Keyword(Keyword::Async);

pub const BREAK: Shape = Shape::Keyword(Keyword::Break);

pub const CASE: Shape = Shape::Keyword(Keyword::Case);

pub const ELSE: Shape = Shape::Keyword(Keyword::Else);

pub const ENUM: Shape = Shape::Keyword(Keyword::Enum);

pub const FALSE: Shape = Shape::Keyword(Keyword::False);

pub const FN: Shape = Shape::Keyword(Keyword::Fn);

pub const FOR: Shape = Shape::Keyword(Keyword::For);

pub const IF: Shape = Shape::Keyword(Keyword::If);

pub const IMPL: Shape = Shape::Keyword(Keyword::Impl);

pub const IMPORT: Shape = Shape::Keyword(Keyword::Import);

pub const LET: Shape = Shape::Keyword(Keyword::Let);

pub const LOOP: Shape = Shape::Keyword(Keyword::Loop);

pub const MATCH: Shape = Shape::Keyword(Keyword::Match);

pub const MOVE: Shape = Shape::Keyword(Keyword::Move);

pub const MUT: Shape = Shape::Keyword(Keyword::Mut);

pub const NEXT: Shape = Shape::Keyword(Keyword::Next);

pub const NIL: Shape = Shape::Keyword(Keyword::Nil);

pub const OR: Shape = Shape::Keyword(Keyword::Or);

pub const PUB: Shape = Shape::Keyword(Keyword::Pub);

pub const RECOVER: Shape = Shape::Keyword(Keyword::Recover);

pub const REF: Shape = Shape::Keyword(Keyword::Ref);

pub const RETURN: Shape = Shape::Keyword(Keyword::Return);

pub const SELF: Shape = Shape::Keyword(Keyword::SelfWord);

pub const STATIC: Shape = Shape::Keyword(Keyword::Static);

pub const THROW: Shape = Shape::Keyword(Keyword::Throw);

pub const TRAIT: Shape = Shape::Keyword(Keyword::Trait);

pub const TRUE: Shape = Shape::Keyword(Keyword::True);

pub const TRY: Shape = Shape::Keyword(Keyword::Try);

pub const TYPE: Shape = Shape::Keyword(Keyword::Type);

pub const UNI: Shape = Shape::Keyword(Keyword::Uni);

pub const WHILE: Shape = Shape::Keyword(Keyword::While);

pub const LEFT_PAREN: Shape = Shape::Mark(Mark::LeftParen);

pub const RIGHT_PAREN: Shape = Shape::Mark(Mark::RightParen);

pub const LEFT_BRACKET: Shape = Shape::Mark(Mark::LeftBracket);

pub const RIGHT_BRACKET: Shape = Shape::Mark(Mark::RightBracket);

pub const LEFT_BRACE: Shape = Shape::Mark(Mark::LeftBrace);

pub const RIGHT_BRACE: Shape = Shape::Mark(Mark::RightBrace);

pub const COMMA: Shape = Shape::Mark(Mark::Comma);

pub const DOT: Shape = Shape::Mark(Mark::Dot);

pub const COLON: Shape = Shape::Mark(Mark::Colon);

pub const SWAP: Shape = Shape::Mark(Mark::Swap);

pub const EQUALS: Shape = Shape::Mark(Mark::Equals);

pub const ARROW: Shape = Shape::Mark(Mark::Arrow);

pub const PLUS: Shape = Shape::Mark(Mark::Plus);

pub const OPERATOR: Shape = Shape::Mark(Mark::Operator);

pub const OPERATOR_EQUALS: Shape = Shape::Mark(Mark::OperatorEquals);
