//! What each form is printed as: a table of steps.

ghost use Rattle.std.specs.Prelude.{◌≡◌};
ghost use Rattle.ink_print.specs.Table as spec;

use crate::context::Context;
use crate::step::{Sign, Slot, Step};
use ink_grammar::{FiveChildren, FourChildren, OneChild, ThreeChildren, TwoChildren};

const ARROW: Step = Step::Sign(Sign::Arrow);

const BLOCK_CLOSING: Step = Step::Sign(Sign::BlockClosing);

const BLOCK_OPENING: Step = Step::Sign(Sign::BlockOpening);

const COLON: Step = Step::Sign(Sign::Colon);

const COMMA: Step = Step::Sign(Sign::Comma);

const DOT: Step = Step::Sign(Sign::Dot);

const ENUM: Step = Step::Sign(Sign::Enum);

const EQUALS: Step = Step::Sign(Sign::Equals);

const LEFT_BRACKET: Step = Step::Sign(Sign::LeftBracket);

const LEFT_PAREN: Step = Step::Sign(Sign::LeftParen);

const LINE: Step = Step::Sign(Sign::Line);

const OR: Step = Step::Sign(Sign::Or);

const PATTERN_CLOSING: Step = Step::Sign(Sign::PatternClosing);

const PATTERN_OPENING: Step = Step::Sign(Sign::PatternOpening);

const PLUS: Step = Step::Sign(Sign::Plus);

const RIGHT_BRACKET: Step = Step::Sign(Sign::RightBracket);

const RIGHT_PAREN: Step = Step::Sign(Sign::RightParen);

const FIRST: Step = Step::Child(Slot::First, Context::Expression);

const FIRST_AS_BASE: Step = Step::Child(Slot::First, Context::Base);

const FIRST_AS_BEFORE_COMMA: Step = Step::Child(Slot::First, Context::BeforeComma);

const FIRST_AS_BEFORE_DOT: Step = Step::Child(Slot::First, Context::BeforeDot);

const FIRST_AS_BEFORE_PLUS: Step = Step::Child(Slot::First, Context::BeforePlus);

const FIRST_AS_CHAIN: Step = Step::Child(Slot::First, Context::Chain);

const FIRST_AS_LINES: Step = Step::Child(Slot::First, Context::Lines);

const FIRST_AS_OPERAND: Step = Step::Child(Slot::First, Context::Operand);

const FIRST_AS_TEXT_PARTS: Step = Step::Child(Slot::First, Context::TextParts);

const FIRST_AS_WORDS: Step = Step::Child(Slot::First, Context::Words);

const SECOND: Step = Step::Child(Slot::Second, Context::Expression);

const SECOND_AS_BODY: Step = Step::Child(Slot::Second, Context::Body);

const SECOND_AS_BOUNDED: Step = Step::Child(Slot::Second, Context::Bounded);

const SECOND_AS_BRACKETED: Step = Step::Child(Slot::Second, Context::Bracketed);

const SECOND_AS_CHAIN: Step = Step::Child(Slot::Second, Context::Chain);

const SECOND_AS_DOTTED: Step = Step::Child(Slot::Second, Context::Dotted);

const SECOND_AS_ITEMS: Step = Step::Child(Slot::Second, Context::Items);

const SECOND_AS_LINES: Step = Step::Child(Slot::Second, Context::Lines);

const SECOND_AS_NAME: Step = Step::Child(Slot::Second, Context::Name);

const SECOND_AS_OPERAND: Step = Step::Child(Slot::Second, Context::Operand);

const SECOND_AS_TEXT_ITEM: Step = Step::Child(Slot::Second, Context::TextItem);

const SECOND_AS_TEXT_PARTS: Step = Step::Child(Slot::Second, Context::TextParts);

const SECOND_AS_WORDS: Step = Step::Child(Slot::Second, Context::Words);

const THIRD: Step = Step::Child(Slot::Third, Context::Expression);

const THIRD_AS_BODY: Step = Step::Child(Slot::Third, Context::Body);

const THIRD_AS_GUARD: Step = Step::Child(Slot::Third, Context::Guard);

const THIRD_AS_IMPLEMENTED: Step = Step::Child(Slot::Third, Context::Implemented);

const THIRD_AS_IMPORT_NAMES: Step = Step::Child(Slot::Third, Context::ImportNames);

const THIRD_AS_ITEMS: Step = Step::Child(Slot::Third, Context::Items);

const THIRD_AS_OPERAND: Step = Step::Child(Slot::Third, Context::Operand);

const THIRD_AS_PARENTHESISED: Step = Step::Child(Slot::Third, Context::Parenthesised);

const FOURTH: Step = Step::Child(Slot::Fourth, Context::Expression);

const FOURTH_AS_ANNOTATED: Step = Step::Child(Slot::Fourth, Context::Annotated);

const FOURTH_AS_BODY: Step = Step::Child(Slot::Fourth, Context::Body);

const FOURTH_AS_BRACKETED: Step = Step::Child(Slot::Fourth, Context::Bracketed);

const FOURTH_AS_OTHERWISE: Step = Step::Child(Slot::Fourth, Context::Otherwise);

const FOURTH_AS_PARENTHESISED: Step = Step::Child(Slot::Fourth, Context::Parenthesised);

const FOURTH_AS_RETURNED: Step = Step::Child(Slot::Fourth, Context::Returned);

const FIFTH: Step = Step::Child(Slot::Fifth, Context::Expression);

const FIFTH_AS_BODY: Step = Step::Child(Slot::Fifth, Context::Body);

const FIFTH_AS_RETURNED: Step = Step::Child(Slot::Fifth, Context::Returned);

const CHAIN_STATEMENT: &[Step] = &[FIRST_AS_CHAIN];

const OPERAND_STATEMENT: &[Step] = &[FIRST_AS_OPERAND];

const BASE_STATEMENT: &[Step] = &[FIRST_AS_BASE];

const PLAIN_STATEMENT: &[Step] = &[FIRST];

const LINES: &[Step] = &[FIRST_AS_LINES, SECOND, LINE];

const DOTTED: &[Step] = &[FIRST_AS_BEFORE_DOT, SECOND];

const BEFORE_DOT: &[Step] = &[FIRST_AS_BEFORE_DOT, SECOND, DOT];

const ITEMS: &[Step] = &[FIRST_AS_BEFORE_COMMA, SECOND];

const BEFORE_COMMA: &[Step] = &[FIRST_AS_BEFORE_COMMA, SECOND, COMMA];

const BOUNDS: &[Step] = &[FIRST_AS_BEFORE_PLUS, SECOND];

const BEFORE_PLUS: &[Step] = &[FIRST_AS_BEFORE_PLUS, SECOND, PLUS];

const TEXT_PARTS: &[Step] = &[FIRST_AS_TEXT_PARTS, SECOND_AS_TEXT_ITEM];

const WORDS: &[Step] = &[FIRST_AS_WORDS, SECOND];

const MODULE: &[Step] = &[FIRST_AS_LINES, SECOND_AS_LINES];

const TYPE_PARAMETER: &[Step] = &[FIRST, SECOND_AS_BOUNDED];

const WITH_COLON: &[Step] = &[FIRST, COLON, SECOND];

const BOTH: &[Step] = &[FIRST, SECOND];

const PREFIXED: &[Step] = &[FIRST, SECOND_AS_OPERAND];

const WITH_ARGUMENTS: &[Step] = &[FIRST, LEFT_PAREN, SECOND_AS_ITEMS, RIGHT_PAREN];

const QUALIFIED: &[Step] = &[FIRST, DOT, SECOND];

const TEXT: &[Step] = &[FIRST, SECOND_AS_TEXT_PARTS, FIRST];

const ARRAY: &[Step] = &[LEFT_BRACKET, SECOND_AS_ITEMS, RIGHT_BRACKET];

const MEMBER: &[Step] = &[FIRST_AS_BASE, DOT, SECOND_AS_NAME];

const TUPLE_ITEM: &[Step] = &[FIRST_AS_BASE, DOT, SECOND];

const EITHER: &[Step] = &[FIRST, OR, SECOND];

const FIELD_PATTERN: &[Step] = &[FIRST, EQUALS, SECOND];

const FIELD_PATTERNS: &[Step] = &[PATTERN_OPENING, SECOND_AS_ITEMS, PATTERN_CLOSING];

const NAMED_TYPE: &[Step] = &[FIRST, SECOND_AS_BRACKETED];

const IMPORT: &[Step] = &[FIRST, SECOND_AS_DOTTED, THIRD_AS_IMPORT_NAMES];

const CONSTRUCTOR: &[Step] = &[FIRST, SECOND, THIRD_AS_PARENTHESISED];

const BLOCK: &[Step] = &[BLOCK_OPENING, SECOND_AS_BODY, BLOCK_CLOSING];

const ASSIGN: &[Step] = &[FIRST_AS_BASE, SECOND, THIRD];

const BINARY: &[Step] = &[FIRST_AS_CHAIN, SECOND, THIRD_AS_OPERAND];

const WHILE: &[Step] = &[FIRST, SECOND_AS_CHAIN, THIRD];

const MATCH: &[Step] = &[
    FIRST,
    SECOND_AS_CHAIN,
    BLOCK_OPENING,
    THIRD_AS_BODY,
    BLOCK_CLOSING,
];

const MEMBER_CALL: &[Step] = &[
    FIRST_AS_BASE,
    DOT,
    SECOND_AS_NAME,
    LEFT_PAREN,
    THIRD_AS_ITEMS,
    RIGHT_PAREN,
];

const PAIR: &[Step] = &[LEFT_PAREN, SECOND, COMMA, THIRD, RIGHT_PAREN];

const FIELD_DECLARATION: &[Step] = &[FIRST, SECOND_AS_WORDS, THIRD, COLON, FOURTH];

const SIGNATURE: &[Step] = &[
    FIRST,
    SECOND_AS_BRACKETED,
    THIRD_AS_PARENTHESISED,
    FOURTH_AS_RETURNED,
];

const METHOD: &[Step] = &[FIRST, SECOND_AS_WORDS, THIRD, FOURTH];

const TRAIT: &[Step] = &[
    FIRST,
    SECOND_AS_WORDS,
    THIRD,
    BLOCK_OPENING,
    FOURTH_AS_BODY,
    BLOCK_CLOSING,
];

const IMPLEMENTATION: &[Step] = &[
    FIRST,
    SECOND,
    THIRD_AS_IMPLEMENTED,
    BLOCK_OPENING,
    FOURTH_AS_BODY,
    BLOCK_CLOSING,
];

const IF: &[Step] = &[FIRST, SECOND_AS_CHAIN, THIRD, FOURTH_AS_OTHERWISE];

const ARM: &[Step] = &[FIRST, SECOND, THIRD_AS_GUARD, ARROW, FOURTH];

const TRIPLE: &[Step] = &[LEFT_PAREN, SECOND, COMMA, THIRD, COMMA, FOURTH, RIGHT_PAREN];

const TYPE_DECLARATION: &[Step] = &[
    FIRST,
    SECOND_AS_WORDS,
    THIRD,
    FOURTH_AS_BRACKETED,
    BLOCK_OPENING,
    FIFTH_AS_BODY,
    BLOCK_CLOSING,
];

const ENUM_DECLARATION: &[Step] = &[
    FIRST,
    SECOND_AS_WORDS,
    ENUM,
    THIRD,
    FOURTH_AS_BRACKETED,
    BLOCK_OPENING,
    FIFTH_AS_BODY,
    BLOCK_CLOSING,
];

const LET: &[Step] = &[FIRST, SECOND, THIRD, FOURTH_AS_ANNOTATED, EQUALS, FIFTH];

const TRAIT_METHOD: &[Step] = &[
    FIRST,
    SECOND_AS_WORDS,
    THIRD,
    FOURTH_AS_PARENTHESISED,
    FIFTH_AS_RETURNED,
];

/// What a statement is printed as.
fn statement(context: Context) -> &'static [Step]
    ensures { result.now ≡ spec.statement context }
{
    match context {
        Context::Chain => CHAIN_STATEMENT,
        Context::Operand => OPERAND_STATEMENT,
        Context::Base => BASE_STATEMENT,
        _ => PLAIN_STATEMENT,
    }
}

/// What a list and one more item are printed as.
fn more(context: Context) -> &'static [Step]
    ensures { result.now ≡ spec.more context }
{
    match context {
        Context::Lines => LINES,
        Context::Dotted => DOTTED,
        Context::BeforeDot => BEFORE_DOT,
        Context::Items => ITEMS,
        Context::BeforeComma => BEFORE_COMMA,
        Context::Bounds => BOUNDS,
        Context::BeforePlus => BEFORE_PLUS,
        Context::TextParts => TEXT_PARTS,
        _ => WORDS,
    }
}

/// What a form with two children is printed as, at its context.
pub fn two(form: TwoChildren, context: Context) -> &'static [Step]
    ensures { result.now ≡ spec.two form context }
{
    match form {
        TwoChildren::More => more(context),
        TwoChildren::Module => MODULE,
        TwoChildren::TypeParameter => TYPE_PARAMETER,
        TwoChildren::Parameter => WITH_COLON,
        TwoChildren::Return => BOTH,
        TwoChildren::Throw => BOTH,
        TwoChildren::Borrow => PREFIXED,
        TwoChildren::Try => PREFIXED,
        TwoChildren::Recover => PREFIXED,
        TwoChildren::Call => WITH_ARGUMENTS,
        TwoChildren::Construct => WITH_ARGUMENTS,
        TwoChildren::Qualified => QUALIFIED,
        TwoChildren::Named => WITH_COLON,
        TwoChildren::Text => TEXT,
        TwoChildren::Array => ARRAY,
        TwoChildren::Loop => BOTH,
        TwoChildren::Member => MEMBER,
        TwoChildren::TupleItem => TUPLE_ITEM,
        TwoChildren::Either => EITHER,
        TwoChildren::MutableName => BOTH,
        TwoChildren::ConstructorPattern => WITH_ARGUMENTS,
        TwoChildren::FieldPattern => FIELD_PATTERN,
        TwoChildren::FieldPatterns => FIELD_PATTERNS,
        TwoChildren::NamedType => NAMED_TYPE,
        TwoChildren::PrefixedType => BOTH,
    }
}

/// What a form with three children is printed as.
pub fn three(form: ThreeChildren) -> &'static [Step]
    ensures { result.now ≡ spec.three form }
{
    match form {
        ThreeChildren::Import => IMPORT,
        ThreeChildren::Constructor => CONSTRUCTOR,
        ThreeChildren::Block => BLOCK,
        ThreeChildren::Assign => ASSIGN,
        ThreeChildren::Binary => BINARY,
        ThreeChildren::While => WHILE,
        ThreeChildren::Match => MATCH,
        ThreeChildren::MemberCall => MEMBER_CALL,
        ThreeChildren::Pair => PAIR,
        ThreeChildren::PairPattern => PAIR,
        ThreeChildren::PairType => PAIR,
    }
}

/// What a form with four children is printed as.
pub fn four(form: FourChildren) -> &'static [Step]
    ensures { result.now ≡ spec.four form }
{
    match form {
        FourChildren::FieldDeclaration => FIELD_DECLARATION,
        FourChildren::Signature => SIGNATURE,
        FourChildren::Method => METHOD,
        FourChildren::Trait => TRAIT,
        FourChildren::Implementation => IMPLEMENTATION,
        FourChildren::If => IF,
        FourChildren::Arm => ARM,
        FourChildren::Triple => TRIPLE,
        FourChildren::TriplePattern => TRIPLE,
        FourChildren::TripleType => TRIPLE,
    }
}

/// What a form with five children is printed as.
pub fn five(form: FiveChildren) -> &'static [Step]
    ensures { result.now ≡ spec.five form }
{
    match form {
        FiveChildren::TypeDeclaration => TYPE_DECLARATION,
        FiveChildren::EnumDeclaration => ENUM_DECLARATION,
        FiveChildren::Let => LET,
        FiveChildren::TraitMethod => TRAIT_METHOD,
    }
}

/// What a form with one child is printed as, at its context.
pub fn one(form: OneChild, context: Context) -> &'static [Step]
    ensures { result.now ≡ spec.one form context }
{
    match form {
        OneChild::Statement => statement(context),
    }
}
