//! The tokens that productions want, by short names.

use crate::shape;
use crate::symbol::{Line, Symbol, Wanted};

pub const IMPORT: Symbol = Symbol::Token(Line::Any, Wanted::Word(shape::IMPORT));

pub const NAME: Symbol = Symbol::Token(Line::Any, Wanted::Word(shape::NAME));

pub const DOT: Symbol = Symbol::Token(Line::Any, Wanted::Mark(shape::DOT));

pub const LEFT_PAREN: Symbol = Symbol::Token(Line::Any, Wanted::Mark(shape::LEFT_PAREN));

pub const CONSTANT: Symbol = Symbol::Token(Line::Any, Wanted::Word(shape::CONSTANT));

pub const RIGHT_PAREN: Symbol = Symbol::Token(Line::Any, Wanted::Mark(shape::RIGHT_PAREN));

pub const COMMA: Symbol = Symbol::Token(Line::Any, Wanted::Mark(shape::COMMA));

pub const TYPE: Symbol = Symbol::Token(Line::Any, Wanted::Word(shape::TYPE));

pub const TRAIT: Symbol = Symbol::Token(Line::Any, Wanted::Word(shape::TRAIT));

pub const LEFT_BRACE: Symbol = Symbol::Token(Line::Any, Wanted::Mark(shape::LEFT_BRACE));

pub const RIGHT_BRACE: Symbol = Symbol::Token(Line::Any, Wanted::Mark(shape::RIGHT_BRACE));

pub const IMPL: Symbol = Symbol::Token(Line::Any, Wanted::Word(shape::IMPL));

pub const ENUM: Symbol = Symbol::Token(Line::Any, Wanted::Mark(shape::ENUM));

pub const ASYNC: Symbol = Symbol::Token(Line::Any, Wanted::Word(shape::ASYNC));

pub const LET: Symbol = Symbol::Token(Line::Any, Wanted::Word(shape::LET));

pub const FIELD: Symbol = Symbol::Token(Line::Any, Wanted::Word(shape::FIELD));

pub const COLON: Symbol = Symbol::Token(Line::Any, Wanted::Mark(shape::COLON));

pub const CASE: Symbol = Symbol::Token(Line::Any, Wanted::Word(shape::CASE));

pub const PUB: Symbol = Symbol::Token(Line::Any, Wanted::Word(shape::PUB));

pub const MUT: Symbol = Symbol::Token(Line::Any, Wanted::Word(shape::MUT));

pub const MOVE: Symbol = Symbol::Token(Line::Any, Wanted::Word(shape::MOVE));

pub const STATIC: Symbol = Symbol::Token(Line::Any, Wanted::Word(shape::STATIC));

pub const FN: Symbol = Symbol::Token(Line::Any, Wanted::Word(shape::FN));

pub const ARROW: Symbol = Symbol::Token(Line::Any, Wanted::Mark(shape::ARROW));

pub const FOR: Symbol = Symbol::Token(Line::Any, Wanted::Mark(shape::FOR));

pub const TYPE_PREFIX: Symbol = Symbol::Token(Line::Any, Wanted::TypePrefix);

pub const KEPT_LEFT_PAREN: Symbol = Symbol::Token(Line::Any, Wanted::Word(shape::LEFT_PAREN));

pub const LEFT_BRACKET: Symbol = Symbol::Token(Line::Any, Wanted::Mark(shape::LEFT_BRACKET));

pub const RIGHT_BRACKET: Symbol = Symbol::Token(Line::Any, Wanted::Mark(shape::RIGHT_BRACKET));

pub const PLUS: Symbol = Symbol::Token(Line::Any, Wanted::Mark(shape::PLUS));

pub const KEPT_LEFT_BRACE: Symbol = Symbol::Token(Line::Any, Wanted::Word(shape::LEFT_BRACE));

pub const KEPT_RIGHT_BRACE: Symbol = Symbol::Token(Line::Any, Wanted::Word(shape::RIGHT_BRACE));

pub const EQUALS: Symbol = Symbol::Token(Line::Any, Wanted::Mark(shape::EQUALS));

pub const UNDERSCORE: Symbol = Symbol::Token(Line::Any, Wanted::Word(shape::UNDERSCORE));

pub const RETURN: Symbol = Symbol::Token(Line::Any, Wanted::Word(shape::RETURN));

pub const THROW: Symbol = Symbol::Token(Line::Any, Wanted::Word(shape::THROW));

pub const LOOP_JUMP: Symbol = Symbol::Token(Line::Any, Wanted::LoopJump);

pub const AT_PLACE_SETTER: Symbol = Symbol::Place(Wanted::Setter);

pub const SAME_LINE_OPERATOR: Symbol = Symbol::Token(Line::Same, Wanted::Operator);

pub const SAME_LINE_LOGICAL: Symbol = Symbol::Token(Line::Same, Wanted::Logical);

pub const BORROW_WORD: Symbol = Symbol::Token(Line::Any, Wanted::BorrowWord);

pub const TRY: Symbol = Symbol::Token(Line::Any, Wanted::Word(shape::TRY));

pub const RECOVER: Symbol = Symbol::Token(Line::Any, Wanted::Word(shape::RECOVER));

pub const SAME_LINE_LEFT_PAREN: Symbol = Symbol::Token(Line::Same, Wanted::Mark(shape::LEFT_PAREN));

pub const LINK_NAME: Symbol = Symbol::Token(Line::Any, Wanted::LinkName);

pub const INTEGER: Symbol = Symbol::Token(Line::Any, Wanted::Word(shape::INTEGER));

pub const ATOM: Symbol = Symbol::Token(Line::Any, Wanted::Atom);

pub const KEPT_QUOTE: Symbol = Symbol::Token(Line::Any, Wanted::Word(shape::QUOTE));

pub const KEPT_LEFT_BRACKET: Symbol = Symbol::Token(Line::Any, Wanted::Word(shape::LEFT_BRACKET));

pub const WHILE: Symbol = Symbol::Token(Line::Any, Wanted::Word(shape::WHILE));

pub const LOOP: Symbol = Symbol::Token(Line::Any, Wanted::Word(shape::LOOP));

pub const MATCH: Symbol = Symbol::Token(Line::Any, Wanted::Word(shape::MATCH));

pub const QUOTE: Symbol = Symbol::Token(Line::Any, Wanted::Mark(shape::QUOTE));

pub const TEXT_PART: Symbol = Symbol::Token(Line::Any, Wanted::Word(shape::TEXT_PART));

pub const OPENING: Symbol = Symbol::Token(Line::Any, Wanted::Mark(shape::OPENING));

pub const CLOSING: Symbol = Symbol::Token(Line::Any, Wanted::Mark(shape::CLOSING));

pub const KEPT_IF: Symbol = Symbol::Token(Line::Any, Wanted::Word(shape::IF));

pub const ELSE: Symbol = Symbol::Token(Line::Any, Wanted::Mark(shape::ELSE));

pub const IF: Symbol = Symbol::Token(Line::Any, Wanted::Mark(shape::IF));

pub const OR: Symbol = Symbol::Token(Line::Any, Wanted::Mark(shape::OR));

pub const PATTERN_ATOM: Symbol = Symbol::Token(Line::Any, Wanted::PatternAtom);
