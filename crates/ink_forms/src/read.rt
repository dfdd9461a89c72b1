//! What is read of a node, or of none.
ghost use Rattle.std.specs.Prelude.{◌≡◌, slice_get};
ghost use Rattle.ink_forms.specs.Reads as read;

use crate::expr::Expr;
use crate::list::Children;
use crate::method::{Method, Mode, Parameter};
use crate::node::{ExprNode, Form, MethodNode, Node, ParameterNode, PatternNode, WrittenNode};
use crate::pattern::Pattern;
use crate::word::Literal;
use crate::written::WrittenType;

/// What a number that is no expression's gives.
const NO_EXPR: ExprNode = ExprNode {
    start: 0,
    place: 0,
    expr: Expr::Lit {
        literal: Literal::Nil,
    },
};

/// What a number that is no pattern's gives.
const NO_PATTERN: PatternNode = PatternNode {
    start: 0,
    place: 0,
    pattern: Pattern::Wildcard,
};

/// A list without items.
const NO_CHILDREN: Children = Children { start: 0, end: 0 };

/// What a number that is no written type's gives.
const NO_WRITTEN: WrittenNode = WrittenNode {
    start: 0,
    place: 0,
    written: WrittenType::Named {
        name: 0,
        arguments: NO_CHILDREN,
    },
};

/// A node by its number.
pub(crate) fn node_at(nodes: &[Node], number: u32) -> Option<Node>
    ensures { result ≡ slice_get nodes.now number }
{
    match nodes.get(number as usize) {
        Some(node) => Some(*node),
        None => None,
    }
}

/// The expression that a node is, or nil.
pub(crate) fn expr_of(node: Option<Node>) -> ExprNode
    ensures { result ≡ read.expr_of node }
{
    match node {
        Some(node) => match node.form {
            Form::Expr(expr) => ExprNode {
                start: node.start,
                place: node.place,
                expr,
            },
            _ => NO_EXPR,
        },
        None => NO_EXPR,
    }
}

/// The pattern that a node is, or `_`.
pub(crate) fn pattern_of(node: Option<Node>) -> PatternNode
    ensures { result ≡ read.pattern_of node }
{
    match node {
        Some(node) => match node.form {
            Form::Pattern(pattern) => PatternNode {
                start: node.start,
                place: node.place,
                pattern,
            },
            _ => NO_PATTERN,
        },
        None => NO_PATTERN,
    }
}

/// The written type that a node is, or one without a name.
pub(crate) fn written_of(node: Option<Node>) -> WrittenNode
    ensures { result ≡ read.written_of node }
{
    match node {
        Some(node) => match node.form {
            Form::Written(written) => WrittenNode {
                start: node.start,
                place: node.place,
                written,
            },
            _ => NO_WRITTEN,
        },
        None => NO_WRITTEN,
    }
}

/// A parameter without a name.
fn no_parameter(number: u32) -> ParameterNode
    ensures { result ≡ read.no_parameter_node number }
{
    ParameterNode {
        start: 0,
        place: 0,
        parameter: Parameter {
            name: 0,
            annotation: number,
        },
    }
}

/// The parameter that a node is, or one whose type has this number.
pub(crate) fn parameter_of(number: u32, node: Option<Node>) -> ParameterNode
    ensures { result ≡ read.parameter_of number node }
{
    match node {
        Some(node) => match node.form {
            Form::Parameter(parameter) => ParameterNode {
                start: node.start,
                place: node.place,
                parameter,
            },
            _ => no_parameter(number),
        },
        None => no_parameter(number),
    }
}

/// A method without parameters.
fn no_method(number: u32) -> MethodNode
    ensures { result ≡ read.no_method_node number }
{
    MethodNode {
        start: 0,
        place: 0,
        method: Method {
            mode: Mode::Plain,
            is_async: false,
            parameters: NO_CHILDREN,
            body: number,
        },
    }
}

/// The method that a node is, or one whose body has this number.
pub(crate) fn method_of(number: u32, node: Option<Node>) -> MethodNode
    ensures { result ≡ read.method_of number node }
{
    match node {
        Some(node) => match node.form {
            Form::Method(method) => MethodNode {
                start: node.start,
                place: node.place,
                method,
            },
            _ => no_method(number),
        },
        None => no_method(number),
    }
}
