//! Methods and their parameters, as nodes: what the meaning of a body rests on.

use crate::expr::ExprId;
use crate::list::Children;
use crate::word::NameId;
use crate::written::WrittenTypeId;

/// The number of a method. It stands also for its body's end and for its `self`.
pub type MethodId = u32;

/// The number of a parameter.
pub type ParameterId = u32;

/// How a method takes its receiver.
#[derive(Clone, Copy)]
pub enum Mode {
    Plain,
    Mut,
    Move,
    /// It has no receiver.
    Static,
}

/// A parameter, which starts at its name.
#[derive(Clone, Copy)]
pub struct Parameter {
    pub name: NameId,
    pub annotation: WrittenTypeId,
}

/// A method, whose own place is its name.
#[derive(Clone, Copy)]
pub struct Method {
    pub mode: Mode,
    pub is_async: bool,
    pub parameters: Children,
    pub body: ExprId,
}
