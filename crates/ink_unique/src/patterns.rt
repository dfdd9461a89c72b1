//! The rule on what patterns bind below a borrow.
ghost use Rattle.ink_forms.specs.Views as view;

use crate::room::Room;
use ink_base::Rule;
use ink_forms::{Children, Pattern, PatternId};
use ink_names::Least;
use ink_types::{Term, TypeId, Types};

/// What a part of a pattern is below.
#[derive(Clone, Copy)]
pub(crate) enum Below {
    Owned,
    Borrow,
    /// A unique part below a borrow.
    UniquePart,
}

/// What the parts of a pattern are below, which is matched with a value of this type.
fn below_type(types: &Types, below: Below, of: TypeId) -> Below {
    match below {
        Below::Owned if types.is_borrow(of) => Below::Borrow,
        Below::Borrow => match types.term(of) {
            Term::Uni(_) => Below::UniquePart,
            _ => Below::Borrow,
        },
        other => other,
    }
}

/// What the parts of a pattern are below.
fn below_pattern(room: Room, below: Below, number: PatternId) -> Below {
    match room.sight.typed.type_of(number) {
        Some(of) => below_type(room.sight.types, below, of),
        None => below,
    }
}

/// Whether a name binds there what it may: below a borrow no unborrowable part, and below a unique part there only values.
fn may_bind(room: Room, below: Below, number: PatternId) -> bool {
    match below {
        Below::Owned => true,
        Below::Borrow => !room.sight.is_unborrowable(number),
        Below::UniquePart => room.sight.is_value(number),
    }
}

/// A name of a pattern binds what it may.
fn judge_name(room: Room, least: &mut Least, below: Below, number: PatternId, start: u32) {
    if !may_bind(room, below, number) {
        least.break_at(Rule::BorrowOfUni, start);
    }
}

/// The names of a pattern bind what they may.
#[cycle(judge)]
pub(crate) fn judge_pattern(room: Room, least: &mut Least, below: Below, number: PatternId) {
    let node = room.sight.arena.pattern(number);
    match node.pattern {
        Pattern::Wildcard | Pattern::Lit { .. } => {}
        Pattern::Name { .. } => judge_name(room, least, below, number, node.start),
        Pattern::Either { alternatives } => judge_parts(room, least, below, number, alternatives),
        Pattern::Constructor { parts, .. } => {
            let below = below_pattern(room, below, number);
            judge_parts(room, least, below, number, parts);
        }
        Pattern::Fields { fields } => {
            let below = below_pattern(room, below, number);
            judge_fields(room, least, below, number, fields);
        }
    }
}

/// The names of some patterns bind what they may.
#[cycle(judge)]
fn judge_parts(room: Room, least: &mut Least, below: Below, parent: PatternId, parts: Children)
    requires { view.AreBefore room.sight.arena.now parent parts }
{
    for part in room.sight.arena.list(parts) {
        judge_pattern(room, least, below, *part);
    }
}

/// The names of field patterns bind what they may.
#[cycle(judge)]
fn judge_fields(room: Room, least: &mut Least, below: Below, parent: PatternId, fields: Children)
    requires { view.AreFieldsBefore room.sight.arena.now parent fields }
{
    for field in room.sight.arena.fields(fields) {
        judge_pattern(room, least, below, field.pattern);
    }
}
