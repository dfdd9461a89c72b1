//! What expressions are judged in, and what goes through a body while that is done.

use ink_findings::{TypeArguments, Typed};
use ink_forms::{ExprId, PatternId};
use ink_members::MemberRoom;
use ink_names::MethodNumber;
use ink_types::TypeId;

/// What stays the same all the time.
#[derive(Clone, Copy)]
pub struct Room<'a> {
    pub members: MemberRoom<'a>,
    pub written: ink_signatures::Room<'a>,
}

/// A guard that is walked: what its arm matches, and the arm's pattern. Nodes are numbered in the order of the source, so
/// that what the pattern binds has a number between the two, and what the guard declares a greater one.
#[derive(Clone, Copy)]
pub struct Guard {
    pub scrutinee: ExprId,
    pub pattern: PatternId,
}

/// What changes on the way.
#[derive(Drop)]
pub struct State {
    pub signed: ink_signatures::State,
    pub typed: Typed,
    pub arguments: TypeArguments,
    /// The guards round the present expression, the outermost first.
    pub guards: Vec<Guard>,
    /// The loops round it, the outermost first: whether a `break` of it was found.
    pub loops: Vec<bool>,
}

/// An expression that is judged: its number, the bytes of its first token and of its own place, and the type that is
/// expected of it.
#[derive(Clone, Copy)]
pub struct Spot {
    pub number: ExprId,
    pub start: u32,
    pub place: u32,
    pub wanted: Option<TypeId>,
}

/// An expression in another, with its type if it has one.
#[derive(Clone, Copy)]
pub struct Operand {
    pub number: ExprId,
    pub of: Option<TypeId>,
}

/// The method round an expression, and the nearest `recover` in it.
#[derive(Clone, Copy)]
pub struct Within {
    pub method: MethodNumber,
    /// What the method gives.
    pub outcome: TypeId,
    /// The type of `self`, and that in a guard. In an async type both are the process reference.
    pub own: Option<TypeId>,
    pub own_in_guard: Option<TypeId>,
    /// Whether `self` is the process reference, whose fields are those of the state.
    pub is_process: bool,
    /// Whether the state is read only.
    pub is_state_fixed: bool,
    /// The byte of the nearest `recover`.
    pub recover: Option<u32>,
}

impl State {
    /// Whether the present expression stands in a guard.
    pub(crate) fn is_in_guard(&self) -> bool {
        !self.guards.is_empty()
    }
}
