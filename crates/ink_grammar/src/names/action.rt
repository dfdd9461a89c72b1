//! The actions in productions, by short names.

use crate::symbol::{Action, Symbol};
use crate::tree::{FiveChildren, FourChildren, OneChild, ThreeChildren, TwoChildren};

pub const EMPTY: Symbol = Symbol::Do(Action::Empty);

pub const MODULE: Symbol = Symbol::Do(Action::Two(TwoChildren::Module));

pub const MORE: Symbol = Symbol::Do(Action::Two(TwoChildren::More));

pub const IMPORT: Symbol = Symbol::Do(Action::Three(ThreeChildren::Import));

pub const NOTHING: Symbol = Symbol::Do(Action::Nothing);

pub const TRAIT: Symbol = Symbol::Do(Action::Four(FourChildren::Trait));

pub const IMPLEMENTATION: Symbol = Symbol::Do(Action::Four(FourChildren::Implementation));

pub const ENUM_DECLARATION: Symbol = Symbol::Do(Action::Five(FiveChildren::EnumDeclaration));

pub const TYPE_DECLARATION: Symbol = Symbol::Do(Action::Five(FiveChildren::TypeDeclaration));

pub const FIELD_DECLARATION: Symbol = Symbol::Do(Action::Four(FourChildren::FieldDeclaration));

pub const CONSTRUCTOR: Symbol = Symbol::Do(Action::Three(ThreeChildren::Constructor));

pub const SIGNATURE: Symbol = Symbol::Do(Action::Four(FourChildren::Signature));

pub const METHOD: Symbol = Symbol::Do(Action::Four(FourChildren::Method));

pub const PARAMETER: Symbol = Symbol::Do(Action::Two(TwoChildren::Parameter));

pub const TRAIT_METHOD: Symbol = Symbol::Do(Action::Five(FiveChildren::TraitMethod));

pub const PREFIXED_TYPE: Symbol = Symbol::Do(Action::Two(TwoChildren::PrefixedType));

pub const NAMED_TYPE: Symbol = Symbol::Do(Action::Two(TwoChildren::NamedType));

pub const PAIR_TYPE: Symbol = Symbol::Do(Action::Three(ThreeChildren::PairType));

pub const TRIPLE_TYPE: Symbol = Symbol::Do(Action::Four(FourChildren::TripleType));

pub const TYPE_PARAMETER: Symbol = Symbol::Do(Action::Two(TwoChildren::TypeParameter));

pub const BLOCK: Symbol = Symbol::Do(Action::Three(ThreeChildren::Block));

pub const LET: Symbol = Symbol::Do(Action::Five(FiveChildren::Let));

pub const STATEMENT: Symbol = Symbol::Do(Action::One(OneChild::Statement));

pub const THROW: Symbol = Symbol::Do(Action::Two(TwoChildren::Throw));

pub const RETURN: Symbol = Symbol::Do(Action::Two(TwoChildren::Return));

pub const ASSIGN: Symbol = Symbol::Do(Action::Three(ThreeChildren::Assign));

pub const BINARY: Symbol = Symbol::Do(Action::Three(ThreeChildren::Binary));

pub const BORROW: Symbol = Symbol::Do(Action::Two(TwoChildren::Borrow));

pub const TRY: Symbol = Symbol::Do(Action::Two(TwoChildren::Try));

pub const RECOVER: Symbol = Symbol::Do(Action::Two(TwoChildren::Recover));

pub const CALL: Symbol = Symbol::Do(Action::Two(TwoChildren::Call));

pub const TUPLE_ITEM: Symbol = Symbol::Do(Action::Two(TwoChildren::TupleItem));

pub const MEMBER_CALL: Symbol = Symbol::Do(Action::Three(ThreeChildren::MemberCall));

pub const MEMBER: Symbol = Symbol::Do(Action::Two(TwoChildren::Member));

pub const CONSTRUCT: Symbol = Symbol::Do(Action::Two(TwoChildren::Construct));

pub const QUALIFIED: Symbol = Symbol::Do(Action::Two(TwoChildren::Qualified));

pub const TEXT: Symbol = Symbol::Do(Action::Two(TwoChildren::Text));

pub const ARRAY: Symbol = Symbol::Do(Action::Two(TwoChildren::Array));

pub const WHILE: Symbol = Symbol::Do(Action::Three(ThreeChildren::While));

pub const LOOP: Symbol = Symbol::Do(Action::Two(TwoChildren::Loop));

pub const MATCH: Symbol = Symbol::Do(Action::Three(ThreeChildren::Match));

pub const CLOSED: Symbol = Symbol::Do(Action::Closed);

pub const PAIR: Symbol = Symbol::Do(Action::Three(ThreeChildren::Pair));

pub const TRIPLE: Symbol = Symbol::Do(Action::Four(FourChildren::Triple));

pub const NAMED: Symbol = Symbol::Do(Action::Two(TwoChildren::Named));

pub const IF: Symbol = Symbol::Do(Action::Four(FourChildren::If));

pub const ARM: Symbol = Symbol::Do(Action::Four(FourChildren::Arm));

pub const EITHER: Symbol = Symbol::Do(Action::Two(TwoChildren::Either));

pub const MUTABLE_NAME: Symbol = Symbol::Do(Action::Two(TwoChildren::MutableName));

pub const FIELD_PATTERNS: Symbol = Symbol::Do(Action::Two(TwoChildren::FieldPatterns));

pub const CONSTRUCTOR_PATTERN: Symbol = Symbol::Do(Action::Two(TwoChildren::ConstructorPattern));

pub const PAIR_PATTERN: Symbol = Symbol::Do(Action::Three(ThreeChildren::PairPattern));

pub const TRIPLE_PATTERN: Symbol = Symbol::Do(Action::Four(FourChildren::TriplePattern));

pub const FIELD_PATTERN: Symbol = Symbol::Do(Action::Two(TwoChildren::FieldPattern));
