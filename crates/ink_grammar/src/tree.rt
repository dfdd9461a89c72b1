//! The tree of a module, as a vector of nodes in which each node comes after its children.

ghost use Rattle.std.specs.Prelude.{◌≡◌, slice_get};
ghost use Rattle.ink_grammar.specs.Built.{IsPostorder};
ghost use Rattle.ink_grammar.specs.Tree as spec;

use crate::token::{Shape, Terminal};

/// What a node with one child is.
#[derive(Clone, Copy, Debug)]
pub enum OneChild {
    /// A value that counts as a statement. It begins where the statement does, parentheses included.
    Statement,
}

/// What a node with two children is. Where a word or an opening mark is a child, it is the first.
#[derive(Clone, Copy, Debug)]
pub enum TwoChildren {
    /// A list and the item behind it.
    More,
    /// The imports and the declarations.
    Module,
    /// The name and the list of its bounds, or nothing.
    TypeParameter,
    /// The name and the type.
    Parameter,
    /// The word and the value, or nothing.
    Return,
    Throw,
    /// `ref` or `mut`, and the operand.
    Borrow,
    Try,
    /// The word, and the block or statement.
    Recover,
    /// The name and the arguments.
    Call,
    /// The name of a type or constructor, and the arguments.
    Construct,
    /// The type and its constructor.
    Qualified,
    /// The field's name and the value, as an argument.
    Named,
    /// The quote and what stands in the text.
    Text,
    /// The bracket and the items.
    Array,
    Loop,
    /// The base and the name, without arguments.
    Member,
    /// The base and the number.
    TupleItem,
    /// The alternatives so far and the next one.
    Either,
    /// `mut` and the name that a pattern binds.
    MutableName,
    /// The constructor and its patterns.
    ConstructorPattern,
    /// The field and its pattern.
    FieldPattern,
    /// The brace and the list of fields with patterns.
    FieldPatterns,
    /// The name and the list of type arguments, or nothing.
    NamedType,
    /// `ref`, `mut` or `uni`, and the type.
    PrefixedType,
}

/// What a node with three children is.
#[derive(Clone, Copy, Debug)]
pub enum ThreeChildren {
    /// The word, the list of names of the path, and the list of imported names, or nothing.
    Import,
    /// The word, the name and the list of types, or nothing.
    Constructor,
    /// The brace, the statements and the closing brace.
    Block,
    /// The place, `=`, `:=` or an operator with `=`, and the value.
    Assign,
    /// The left operand, the operator and the right one.
    Binary,
    /// The word, the condition and the block.
    While,
    /// The word, the scrutinee and the arms.
    Match,
    /// The base, the name and the arguments.
    MemberCall,
    /// The parenthesis and the two items.
    Pair,
    PairPattern,
    PairType,
}

/// What a node with four children is.
#[derive(Clone, Copy, Debug)]
pub enum FourChildren {
    /// The word, the list of words behind it, the field and its type.
    FieldDeclaration,
    /// The name, the type parameters, the parameters and the result. Each but the name may be nothing.
    Signature,
    /// The word, the list of words behind it, the signature and the block.
    Method,
    /// The word, the list of words behind it, the name and the methods.
    Trait,
    /// The word, the first name, the name behind `for` or nothing, and the methods.
    Implementation,
    /// The word, the condition, the block, and what stands behind `else`, or nothing.
    If,
    /// The word, the pattern, the guard or nothing, and the value.
    Arm,
    /// The parenthesis and the three items.
    Triple,
    TriplePattern,
    TripleType,
}

/// What a node with five children is.
#[derive(Clone, Copy, Debug)]
pub enum FiveChildren {
    /// The word, the list of words behind it, the name, the type parameters or nothing, and the members.
    TypeDeclaration,
    EnumDeclaration,
    /// The word, `mut` or nothing, the name, its type or nothing, and the value.
    Let,
    /// The word, the list of words behind it, the name, the parameters or nothing, and the result or nothing.
    TraitMethod,
}

/// A node: what it is, the byte at which it begins, and the numbers of its children. A number that is no node's stands
/// for nothing.
#[derive(Clone, Copy)]
pub enum Node {
    /// A token that is kept.
    Leaf(Terminal),
    /// A list without items.
    Empty,
    One(OneChild, u32, u32),
    Two(TwoChildren, u32, u32, u32),
    Three(ThreeChildren, u32, u32, u32, u32),
    Four(FourChildren, u32, u32, u32, u32, u32),
    Five(FiveChildren, u32, u32, u32, u32, u32, u32),
}

/// A module: its nodes, each after its children, and the number of the node that holds all.
#[derive(Drop)]
pub struct Module {
    nodes: Vec<Node>,
    root: u32,
    ghost order: { IsPostorder nodes.items },
}

impl Module {
    ghost use Rattle.ink_grammar.specs.Views as view;

    /// The module of these nodes, held by that of this number.
    pub(crate) fn new(nodes: Vec<Node>, root: u32) -> Self
        requires { IsPostorder nodes.items }
        ensures nodes { result.nodes.items ≡ nodes.items }
        ensures root { result.root ≡ root }
    {
        Module { nodes, root }
    }

    /// The nodes, each after its children. A parenthesis that makes no node leaves a leaf that no node names.
    pub fn nodes(&self) -> &[Node]
        ensures nodes { result.now ≡ self.now.nodes.items }
        ensures order { IsPostorder result.now }
    {
        &self.nodes
    }

    /// The node of this number, whose children are of smaller numbers. There is none where a child is left out.
    #[tactic(auto, using(crate::proofs::Postorder::node_tree, crate::proofs::Postorder::node_before))]
    pub fn node(&self, number: u32) -> Option<Node>
        ensures tree { view.tree_at self.now number ≡ view.tree_of self.now result }
        ensures before { view.AreBefore self.now number result }
    {
        node_at(&self.nodes, number)
    }

    /// The number of the node that holds all.
    pub fn root(&self) -> u32
        ensures { result ≡ self.now.root }
    {
        self.root
    }
}

fn node_at(nodes: &[Node], number: u32) -> Option<Node>
    ensures { result ≡ slice_get nodes.now number }
{
    match nodes.get(number as usize) {
        Some(node) => Some(*node),
        None => None,
    }
}

/// Whether a token of this shape is a place by itself.
pub fn is_place_word(shape: Shape) -> bool
    ensures { result ≡ spec.is_place_word shape }
{
    match shape {
        Shape::Name => true,
        Shape::Field => true,
        _ => false,
    }
}

/// Whether a node of two children is a place.
pub fn is_place_form(form: TwoChildren) -> bool
    ensures { result ≡ spec.is_place_form form }
{
    match form {
        TwoChildren::Member => true,
        _ => false,
    }
}
