//! What the tables of the grammar are made of. A production is a list of symbols: tokens, parts, and what is to be made
//! of the values that were read last.

ghost use Rattle.std.specs.Prelude.{◌≡◌};
ghost use Rattle.ink_grammar.specs.Shapes as spec;

use crate::shape;
use crate::token::{Shape, same};
use crate::tree::{FiveChildren, FourChildren, OneChild, ThreeChildren, TwoChildren};

/// Where a token stands.
#[derive(Clone, Copy)]
pub enum Line {
    /// Anywhere.
    Any,
    /// On the line of the token before it.
    Same,
    /// At the begin of a line.
    Fresh,
}

/// Which token is wanted, and whether it is kept as a value.
#[derive(Clone, Copy)]
pub enum Wanted {
    /// One of this shape, not kept.
    Mark(Shape),
    /// One of this shape. This and all that follow are kept.
    Word(Shape),
    /// A whole expression: an integer, a field, `true`, `false`, `nil` or `self`.
    Atom,
    /// A whole pattern: `_`, an integer, a name, `true` or `false`.
    PatternAtom,
    /// What stands between two operands, but for `and` and `or`.
    Operator,
    /// `and` or `or` between two operands, of which the right one counts as a statement.
    Logical,
    /// `=`, `:=`, or an operator with `=`.
    Setter,
    /// `ref` or `mut` before an operand.
    BorrowWord,
    /// `ref`, `mut` or `uni` before a type.
    TypePrefix,
    /// `break` or `next`.
    LoopJump,
    /// A name behind a `.`, where a keyword is one too.
    LinkName,
}

/// Parts of a module: imports, declarations and their members.
#[derive(Clone, Copy)]
pub enum ModulePart {
    Module,
    Imports,
    Import,
    ImportPath,
    ImportNames,
    ImportName,
    ImportNamesRest,
    ImportNamesMore,
    Declarations,
    Declaration,
    TypeForm,
    ObjectForm,
    ObjectMembers,
    EnumMembers,
    FieldDeclaration,
    Constructor,
    TraitMethods,
    TraitMethod,
    ImplementedTrait,
}

/// Parts of a method.
#[derive(Clone, Copy)]
pub enum MethodPart {
    OptionalPub,
    OptionalAsync,
    OptionalMut,
    MethodKind,
    TraitMethodKind,
    Methods,
    Method,
    Parameters,
    ParametersMore,
    ParametersRest,
    Parameter,
    MethodResult,
}

/// Parts of a type, and lists of types and of type parameters.
#[derive(Clone, Copy)]
pub enum TypePart {
    FullType,
    BareType,
    TupleTypeRest,
    TypeArguments,
    TypeArgumentsRest,
    TypeArgumentsMore,
    TypeParameters,
    TypeParametersRest,
    TypeParametersMore,
    TypeParameter,
    Bounds,
    BoundsRest,
    ConstructorTypes,
    ConstructorTypesRest,
    ConstructorTypesMore,
}

/// Parts of blocks and statements, and of expressions as a whole.
#[derive(Clone, Copy)]
pub enum StatementPart {
    Block,
    Statements,
    MoreStatements,
    Statement,
    Mutable,
    LetName,
    LetType,
    Expression,
    Jump,
    ReturnRest,
    AfterOperand,
    Chain,
    ChainRest,
    UnnamedExpression,
    Conditional,
    ElseRest,
    ElseBranch,
    Arms,
    Arm,
    Guard,
    ArmValue,
}

/// Parts of operands: what stands between two operators.
#[derive(Clone, Copy)]
pub enum OperandPart {
    Operand,
    UnnamedOperand,
    RecoverRest,
    NameRest,
    Links,
    Link,
    LinkRest,
    ConstantRest,
    AfterConstant,
    QualifiedRest,
    Primary,
    TextRest,
    ParenthesisRest,
    TupleRest,
    Items,
    ItemsRest,
    Arguments,
    ArgumentsRest,
    ConstructorArguments,
    NamedOrNot,
    NamedRest,
    NamedMore,
}

/// Parts of a pattern.
#[derive(Clone, Copy)]
pub enum PatternPart {
    Pattern,
    Alternative,
    PatternRest,
    PatternTextRest,
    ConstructorPatternRest,
    PatternsRest,
    PatternsMore,
    TuplePatternRest,
    FieldPattern,
    FieldPatternsRest,
    FieldPatternsMore,
}

/// A part of a module that has productions of its own.
#[derive(Clone, Copy)]
pub enum Nonterminal {
    Module(ModulePart),
    Method(MethodPart),
    Type(TypePart),
    Statement(StatementPart),
    Operand(OperandPart),
    Pattern(PatternPart),
}

/// What is made of the values that were read last.
#[derive(Clone, Copy)]
pub enum Action {
    /// An empty list.
    Empty,
    /// Nothing, where something may be left out.
    Nothing,
    /// The last value, which begins at the parenthesis before it and is no place.
    Closed,
    /// A node of the last value.
    One(OneChild),
    /// A node of the last two values, and so on.
    Two(TwoChildren),
    Three(ThreeChildren),
    Four(FourChildren),
    Five(FiveChildren),
}

/// One step of a production.
#[derive(Clone, Copy)]
pub enum Symbol {
    /// A token that stands so.
    Token(Line, Wanted),
    /// A token directly after a place, on its line.
    Place(Wanted),
    /// A part whose first token stands so.
    Part(Line, Nonterminal),
    Do(Action),
}

fn is_atom(found: Shape) -> bool
    ensures { result ≡ spec.is_atom found }
{
    same(shape::INTEGER, found)
        || same(shape::HEXADECIMAL, found)
        || same(shape::FIELD, found)
        || same(shape::TRUE, found)
        || same(shape::FALSE, found)
        || same(shape::NIL, found)
        || same(shape::SELF, found)
}

fn is_pattern_atom(found: Shape) -> bool
    ensures { result ≡ spec.is_pattern_atom found }
{
    same(shape::UNDERSCORE, found)
        || same(shape::INTEGER, found)
        || same(shape::HEXADECIMAL, found)
        || same(shape::NAME, found)
        || same(shape::TRUE, found)
        || same(shape::FALSE, found)
}

fn is_operator(found: Shape) -> bool
    ensures { result ≡ spec.is_operator found }
{
    same(shape::OPERATOR, found) || same(shape::PLUS, found)
}

fn is_logical(found: Shape) -> bool
    ensures { result ≡ spec.is_logical found }
{
    same(shape::AND, found) || same(shape::OR, found)
}

fn is_setter(found: Shape) -> bool
    ensures { result ≡ spec.is_setter found }
{
    same(shape::EQUALS, found) || same(shape::SWAP, found) || same(shape::OPERATOR_EQUALS, found)
}

fn is_borrow_word(found: Shape) -> bool
    ensures { result ≡ spec.is_borrow_word found }
{
    same(shape::REF, found) || same(shape::MUT, found)
}

fn is_type_prefix(found: Shape) -> bool
    ensures { result ≡ spec.is_type_prefix found }
{
    same(shape::REF, found) || same(shape::MUT, found) || same(shape::UNI, found)
}

fn is_loop_jump(found: Shape) -> bool
    ensures { result ≡ spec.is_loop_jump found }
{
    same(shape::BREAK, found) || same(shape::NEXT, found)
}

fn is_link_name(found: Shape) -> bool
    ensures { result ≡ spec.is_link_name found }
{
    match found {
        Shape::Name | Shape::Keyword(_) => true,
        _ => false,
    }
}

/// Whether a token of this shape is one that is wanted.
pub fn is(wanted: Wanted, found: Shape) -> bool
    ensures { result ≡ spec.is wanted found }
{
    match wanted {
        Wanted::Mark(shape) => same(shape, found),
        Wanted::Word(shape) => same(shape, found),
        Wanted::Atom => is_atom(found),
        Wanted::PatternAtom => is_pattern_atom(found),
        Wanted::Operator => is_operator(found),
        Wanted::Logical => is_logical(found),
        Wanted::Setter => is_setter(found),
        Wanted::BorrowWord => is_borrow_word(found),
        Wanted::TypePrefix => is_type_prefix(found),
        Wanted::LoopJump => is_loop_jump(found),
        Wanted::LinkName => is_link_name(found),
    }
}

/// Whether a token stands so, by whether a line feed stands before it.
pub fn stands(line: Line, new_line: bool) -> bool
    ensures { result ≡ spec.stands line new_line }
{
    match line {
        Line::Any => true,
        Line::Same => !new_line,
        Line::Fresh => new_line,
    }
}
