//! Which nodes are expressions, patterns or types, and which of their children count for the height. A word, a mark and
//! a name that a node goes by count for nothing.
ghost use Rattle.std.specs.Prelude.{◌≡◌};
ghost use Rattle.ink_heights.specs.Counted as spec;

use ink_grammar::{FiveChildren, FourChildren, Shape, ThreeChildren, TwoChildren};

/// What a node of two children is for the height.
#[derive(Clone, Copy)]
pub(crate) enum Kind {
    /// A list with one item more.
    List,
    /// A text with its parts and embedded expressions.
    Text,
    /// A pattern with one alternative more.
    Alternatives,
    /// A type behind a word, which is one type with it.
    Prefixed,
    /// An expression, a pattern or a type.
    Node,
    /// None of these.
    Plain,
}

/// Whether a token is a part of a text, which is no expression by itself.
pub(crate) fn is_text_part(shape: Shape) -> bool
    ensures { result ≡ spec.is_text_part shape }
{
    match shape {
        Shape::TextPart => true,
        _ => false,
    }
}

/// What a node of two children is for the height.
pub(crate) fn kind_of_two(form: TwoChildren) -> Kind
    ensures { result ≡ spec.kind_of_two form }
{
    match form {
        TwoChildren::More => Kind::List,
        TwoChildren::Text => Kind::Text,
        TwoChildren::Either => Kind::Alternatives,
        TwoChildren::PrefixedType => Kind::Prefixed,
        TwoChildren::Module
        | TwoChildren::TypeParameter
        | TwoChildren::Parameter
        | TwoChildren::Named
        | TwoChildren::FieldPattern => Kind::Plain,
        TwoChildren::Return
        | TwoChildren::Throw
        | TwoChildren::Borrow
        | TwoChildren::Try
        | TwoChildren::Recover
        | TwoChildren::Call
        | TwoChildren::Construct
        | TwoChildren::Qualified
        | TwoChildren::Array
        | TwoChildren::Loop
        | TwoChildren::Member
        | TwoChildren::TupleItem
        | TwoChildren::MutableName
        | TwoChildren::ConstructorPattern
        | TwoChildren::FieldPatterns
        | TwoChildren::NamedType => Kind::Node,
    }
}

pub(crate) fn first_of_two(form: TwoChildren) -> bool
    ensures { result ≡ spec.first_of_two form }
{
    match form {
        TwoChildren::Module | TwoChildren::Member | TwoChildren::TupleItem => true,
        _ => false,
    }
}

pub(crate) fn second_of_two(form: TwoChildren) -> bool
    ensures { result ≡ spec.second_of_two form }
{
    match form {
        TwoChildren::Member
        | TwoChildren::TupleItem
        | TwoChildren::Qualified
        | TwoChildren::MutableName => false,
        _ => true,
    }
}

pub(crate) fn is_node_of_three(form: ThreeChildren) -> bool
    ensures { result ≡ spec.is_node_of_three form }
{
    match form {
        ThreeChildren::Import | ThreeChildren::Constructor | ThreeChildren::Block => false,
        _ => true,
    }
}

pub(crate) fn first_of_three(form: ThreeChildren) -> bool
    ensures { result ≡ spec.first_of_three form }
{
    match form {
        ThreeChildren::Assign | ThreeChildren::Binary | ThreeChildren::MemberCall => true,
        _ => false,
    }
}

pub(crate) fn second_of_three(form: ThreeChildren) -> bool
    ensures { result ≡ spec.second_of_three form }
{
    match form {
        ThreeChildren::Block
        | ThreeChildren::While
        | ThreeChildren::Match
        | ThreeChildren::Pair
        | ThreeChildren::PairPattern
        | ThreeChildren::PairType => true,
        _ => false,
    }
}

pub(crate) fn third_of_three(form: ThreeChildren) -> bool
    ensures { result ≡ spec.third_of_three form }
{
    match form {
        ThreeChildren::Import | ThreeChildren::Block => false,
        _ => true,
    }
}

pub(crate) fn is_node_of_four(form: FourChildren) -> bool
    ensures { result ≡ spec.is_node_of_four form }
{
    match form {
        FourChildren::If
        | FourChildren::Triple
        | FourChildren::TriplePattern
        | FourChildren::TripleType => true,
        _ => false,
    }
}

pub(crate) fn second_of_four(form: FourChildren) -> bool
    ensures { result ≡ spec.second_of_four form }
{
    match form {
        FourChildren::If
        | FourChildren::Arm
        | FourChildren::Triple
        | FourChildren::TriplePattern
        | FourChildren::TripleType => true,
        _ => false,
    }
}

pub(crate) fn third_of_four(form: FourChildren) -> bool
    ensures { result ≡ spec.third_of_four form }
{
    match form {
        FourChildren::FieldDeclaration | FourChildren::Trait | FourChildren::Implementation => {
            false
        }
        _ => true,
    }
}

pub(crate) fn fourth_of_five(form: FiveChildren) -> bool
    ensures { result ≡ spec.fourth_of_five form }
{
    match form {
        FiveChildren::Let | FiveChildren::TraitMethod => true,
        _ => false,
    }
}
