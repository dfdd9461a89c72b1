//! Paths of fields, and what begins them.
ghost use Rattle.std.specs.Prelude.{◌<◌, IfSome};

use crate::sight::Sight;
use ink_forms::{Expr, ExprId};
use ink_names::Resolution;

/// The base of a field that is read or written. A field that calls a method is none.
pub fn base_of(sight: Sight, path: ExprId) -> Option<ExprId>
    ensures { IfSome result (λ base. base < path) }
{
    match sight.arena.expr(path).expr {
        Expr::Field { base, .. } => match sight.typed.target(path) {
            Some(_) => None,
            None => Some(base),
        },
        _ => None,
    }
}

/// Whether a field path hangs in a unique value: its base is unique, or hangs in a unique value itself.
pub fn hangs(sight: Sight, path: ExprId) -> bool {
    let mut end = path;
    while let Some(base) = base_of(sight, end) {
        if sight.is_unique(base) {
            return true;
        }
        end = base;
    }
    false
}

/// The byte at which a variable is declared: by a `let`, in a pattern or as a parameter. What is at no such node stands
/// at 0.
fn declared_at(sight: Sight, variable: u32) -> u32 {
    let arena = sight.arena;
    let by_let = arena.expr(variable).start;
    if by_let > 0 {
        return by_let;
    }
    let in_pattern = arena.pattern(variable).start;
    if in_pattern > 0 {
        return in_pattern;
    }
    arena.parameter(variable).start
}

/// Whether an expression is a variable that is declared before a byte. Inside of what begins at that byte, that is a
/// variable that is declared outside.
pub fn is_declared_before(sight: Sight, byte: u32, number: ExprId) -> bool {
    match sight.resolutions.get(number) {
        Resolution::Variable(variable) => declared_at(sight, variable) < byte,
        _ => false,
    }
}

/// Whether the type of the variable that an expression is may be sent.
fn is_variable_sendable(sight: Sight, number: ExprId) -> bool {
    match sight.resolutions.get(number) {
        Resolution::Variable(variable) => sight.is_sendable(variable),
        _ => false,
    }
}

/// Whether a `recover`, by the byte of its word, hides what an expression stands for: a variable from outside that may not
/// be sent, or `self`. Without one nothing is hidden.
///
/// `self` is meant as the object itself, and as the state in an async type: the base of a field, or the receiver of a
/// method that is no message. As a process it isn't hidden, which is not asked here.
pub fn is_hidden(sight: Sight, recover: Option<u32>, number: ExprId) -> bool {
    let Some(word) = recover else {
        return false;
    };
    match sight.arena.expr(number).expr {
        Expr::Var { .. } => {
            is_declared_before(sight, word, number) && !is_variable_sendable(sight, number)
        }
        Expr::SelfValue => true,
        _ => false,
    }
}

/// Whether a call of a `fn` or `fn mut` crosses into a unique value, by its receiver: that has a type `uni T`, is hidden by
/// the nearest `recover`, or hangs in a unique value. The `recover` is given by the byte of its word.
pub fn is_crossing(sight: Sight, recover: Option<u32>, receiver: ExprId) -> bool {
    sight.is_unique(receiver) || is_hidden(sight, recover, receiver) || hangs(sight, receiver)
}
