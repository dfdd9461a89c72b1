//! Nodes, of each kind.

use crate::expr::Expr;
use crate::method::{Method, Parameter};
use crate::pattern::Pattern;
use crate::written::WrittenType;

/// What a node is.
#[derive(Clone, Copy)]
pub enum Form {
    Expr(Expr),
    Pattern(Pattern),
    Written(WrittenType),
    Parameter(Parameter),
    Method(Method),
}

/// A node, the byte of its first token, and the byte of its own place.
#[derive(Clone, Copy)]
pub struct Node {
    pub start: u32,
    pub place: u32,
    pub form: Form,
}

/// An expression, the byte of its first token, and the byte of its own place.
#[derive(Clone, Copy)]
pub struct ExprNode {
    pub start: u32,
    pub place: u32,
    pub expr: Expr,
}

/// A pattern, the byte of its first token, and the byte of its own place.
#[derive(Clone, Copy)]
pub struct PatternNode {
    pub start: u32,
    pub place: u32,
    pub pattern: Pattern,
}

/// A written type, the byte of its first token, and the byte of its own place.
#[derive(Clone, Copy)]
pub struct WrittenNode {
    pub start: u32,
    pub place: u32,
    pub written: WrittenType,
}

/// A parameter, the byte of its first token, and the byte of its own place.
#[derive(Clone, Copy)]
pub struct ParameterNode {
    pub start: u32,
    pub place: u32,
    pub parameter: Parameter,
}

/// A method, the byte of its first token, and the byte of its own place.
#[derive(Clone, Copy)]
pub struct MethodNode {
    pub start: u32,
    pub place: u32,
    pub method: Method,
}
