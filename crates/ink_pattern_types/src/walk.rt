//! The rules on patterns, and the walk through one.
ghost use Rattle.std.specs.Prelude.{◌≡◌};
ghost use Rattle.ink_forms.specs.Views as view;

use crate::bindings::{Alternatives, Bindings};
use crate::constructors::{Opened, field_at, fits_literal, open_constructor, open_fields, part_at};
use crate::matched::Matched;
use ink_base::Rule;
use ink_findings::{Found, Typed};
use ink_forms::{Children, Identifier, Literal, Made, NameId, Pattern, PatternId};
use ink_members::MemberRoom;
use ink_names::Least;
use ink_signatures::State;
use ink_types::TypeId;
use std::alloc::AllocError;

/// Puts the type of what a pattern is matched with, where it is known.
fn put(typed: &mut Typed, number: PatternId, matched: Option<Matched>) {
    if let Some(Matched { of, .. }) = matched {
        typed.put(number, Found { of, target: None });
    }
}

/// Tells that the rule on patterns is broken at a pattern, where what it is matched with is known.
fn break_pattern(
    room: &MemberRoom,
    least: &mut Least,
    number: PatternId,
    matched: Option<Matched>,
) {
    if matched.is_some() {
        least.break_at(Rule::BadPattern, room.arena.pattern(number).start);
    }
}

/// A name binds a variable of the type of what it is matched with. No name is bound twice.
fn judge_name(
    room: &MemberRoom,
    least: &mut Least,
    typed: &mut Typed,
    bindings: &mut Bindings,
    number: PatternId,
    matched: Option<Matched>,
    is_mutable: bool,
    name: NameId,
) -> Result<bool, AllocError> {
    let of = match matched {
        Some(matched) => Some(matched.of),
        None => None,
    };
    let is_first = bindings.bind(name, is_mutable, of)?;
    if is_first {
        put(typed, number, matched);
    } else {
        break_pattern(room, least, number, matched);
    }
    Ok(is_first && matched.is_some())
}

/// A literal is one of the type of what it is matched with.
fn judge_literal(
    room: &MemberRoom,
    state: &mut State,
    typed: &mut Typed,
    number: PatternId,
    matched: Option<Matched>,
    literal: Literal,
) -> bool
    ensures kinds { state.new.types.kinds ≡ state.old.types.kinds }
{
    let Some(known) = matched else {
        return false;
    };
    let fits = fits_literal(&state.types, known, literal);
    if fits {
        put(typed, number, matched);
    } else {
        break_pattern(room, &mut state.least, number, matched);
    }
    fits
}

/// What a constructor goes into. It has to be one of the type of what it is matched with, with as many parts.
fn enter_constructor(
    room: &MemberRoom,
    state: &mut State,
    typed: &mut Typed,
    number: PatternId,
    matched: Option<Matched>,
    made: Made,
    count: usize,
) -> Result<Option<Opened>, AllocError>
    ensures kinds { state.new.types.kinds ≡ state.old.types.kinds }
{
    let Some(known) = matched else {
        return Ok(None);
    };
    let opened = open_constructor(room, &state.types, known, number, made, count)?;
    if opened.is_some() {
        put(typed, number, matched);
    } else {
        break_pattern(room, &mut state.least, number, matched);
    }
    Ok(opened)
}

/// What a pattern of fields goes into. It has to be matched with an object of the module.
fn enter_fields(
    room: &MemberRoom,
    state: &mut State,
    typed: &mut Typed,
    number: PatternId,
    matched: Option<Matched>,
) -> Result<Option<Opened>, AllocError>
    ensures kinds { state.new.types.kinds ≡ state.old.types.kinds }
{
    let Some(known) = matched else {
        return Ok(None);
    };
    let opened = open_fields(room, &state.types, known)?;
    if opened.is_some() {
        put(typed, number, matched);
    } else {
        break_pattern(room, &mut state.least, number, matched);
    }
    Ok(opened)
}

/// The part at this place of what a pattern goes into, where that is known.
fn part_of(
    room: &MemberRoom,
    state: &mut State,
    opened: &Option<Opened>,
    place: usize,
) -> Result<Option<Matched>, AllocError>
    ensures kinds { state.new.types.kinds ≡ state.old.types.kinds }
{
    match opened {
        Some(opened) => part_at(room, state, opened, place),
        None => Ok(None),
    }
}

/// The field that a pattern names of what it goes into, where that is known. There has to be one of that name.
fn field_of(
    room: &MemberRoom,
    state: &mut State,
    opened: &Option<Opened>,
    field: Identifier,
) -> Result<Option<Matched>, AllocError>
    ensures kinds { state.new.types.kinds ≡ state.old.types.kinds }
{
    let Some(opened) = opened else {
        return Ok(None);
    };
    let found = field_at(room, state, opened, field.name)?;
    if found.is_none() {
        state.least.break_at(Rule::UnknownMember, field.place);
    }
    Ok(found)
}

/// The alternatives of a pattern bind the same variables.
fn judge_alike(
    room: &MemberRoom,
    least: &mut Least,
    typed: &mut Typed,
    alternatives: Alternatives,
    matched: Option<Matched>,
) -> bool {
    if alternatives.is_alike {
        put(typed, alternatives.number, matched);
    } else {
        break_pattern(room, least, alternatives.number, matched);
    }
    alternatives.is_alike
}

/// Judges a pattern that has no parts.
fn judge_leaf(
    room: &MemberRoom,
    state: &mut State,
    typed: &mut Typed,
    bindings: &mut Bindings,
    number: PatternId,
    matched: Option<Matched>,
) -> Result<bool, AllocError>
    ensures kinds { state.new.types.kinds ≡ state.old.types.kinds }
{
    match room.arena.pattern(number).pattern {
        Pattern::Lit { literal } => {
            Ok(judge_literal(room, state, typed, number, matched, literal))
        }
        Pattern::Name { is_mutable, name } => {
            let least = &mut state.least;
            judge_name(
                room, least, typed, bindings, number, matched, is_mutable, name,
            )
        }
        _ => {
            put(typed, number, matched);
            Ok(matched.is_some())
        }
    }
}

/// Judges a pattern by what it is matched with, and tells whether no rule is broken in it. Where that isn't known, it only
/// binds its names.
#[cycle(judge)]
fn judge(
    room: &MemberRoom,
    state: &mut State,
    typed: &mut Typed,
    bindings: &mut Bindings,
    number: PatternId,
    matched: Option<Matched>,
) -> Result<bool, AllocError>
    ensures kinds { state.new.types.kinds ≡ state.old.types.kinds }
{
    match room.arena.pattern(number).pattern {
        Pattern::Constructor { made, parts } => {
            let count = room.arena.list(parts).len();
            let opened = enter_constructor(room, state, typed, number, matched, made, count)?;
            judge_parts(room, state, typed, bindings, number, parts, &opened)
        }
        Pattern::Either { alternatives } => {
            judge_alternatives(room, state, typed, bindings, number, alternatives, matched)
        }
        Pattern::Fields { fields } => {
            let opened = enter_fields(room, state, typed, number, matched)?;
            judge_fields(room, state, typed, bindings, number, fields, &opened)
        }
        _ => judge_leaf(room, state, typed, bindings, number, matched),
    }
}

/// Judges the parts of a constructor or a tuple.
#[cycle(judge)]
fn judge_parts(
    room: &MemberRoom,
    state: &mut State,
    typed: &mut Typed,
    bindings: &mut Bindings,
    parent: PatternId,
    parts: Children,
    opened: &Option<Opened>,
) -> Result<bool, AllocError>
    requires { view.AreBefore room.now.arena.now parent parts }
    ensures kinds { state.new.types.kinds ≡ state.old.types.kinds }
{
    let mut hold = opened.is_some();
    for (place, part) in room.arena.list(parts).iter().enumerate() {
        let matched = part_of(room, state, opened, place)?;
        let holds = judge(room, state, typed, bindings, *part, matched)?;
        hold = hold && holds;
    }
    Ok(hold)
}

/// Judges the fields of a pattern.
#[cycle(judge)]
fn judge_fields(
    room: &MemberRoom,
    state: &mut State,
    typed: &mut Typed,
    bindings: &mut Bindings,
    parent: PatternId,
    fields: Children,
    opened: &Option<Opened>,
) -> Result<bool, AllocError>
    requires { view.AreFieldsBefore room.now.arena.now parent fields }
    ensures kinds { state.new.types.kinds ≡ state.old.types.kinds }
{
    let mut hold = opened.is_some();
    for field in room.arena.fields(fields) {
        let matched = field_of(room, state, opened, field.field)?;
        let holds = judge(room, state, typed, bindings, field.pattern, matched)?;
        hold = hold && holds;
    }
    Ok(hold)
}

/// Judges the alternatives of a pattern, each by the same.
#[cycle(judge)]
fn judge_alternatives(
    room: &MemberRoom,
    state: &mut State,
    typed: &mut Typed,
    bindings: &mut Bindings,
    parent: PatternId,
    list: Children,
    matched: Option<Matched>,
) -> Result<bool, AllocError>
    requires { view.AreBefore room.now.arena.now parent list }
    ensures kinds { state.new.types.kinds ≡ state.old.types.kinds }
{
    let mut hold = true;
    let mut alternatives = bindings.alternatives(parent);
    for alternative in room.arena.list(list) {
        let holds = judge(room, state, typed, bindings, *alternative, matched)?;
        hold = hold && holds;
        alternatives = bindings.end_alternative(&state.types, alternatives, *alternative)?;
    }
    bindings.end_alternatives(alternatives)?;
    let are_alike = judge_alike(room, &mut state.least, typed, alternatives, matched);
    Ok(hold && are_alike)
}

/// Judges a pattern by the type of what it is matched with, and tells whether no rule is broken in it.
///
/// The type of what each part is matched with, as it is seen there, is put at its node, and at that of a name the type of
/// the variable. A variable that stands in several alternatives has its type at the first node that binds it. Where no type
/// is given, nothing is judged and nothing put.
///
/// The rules are E38, at the pattern that is broken, and E32 at an unknown field. An `AllocError` is want of memory.
pub fn pattern_types(
    room: &MemberRoom,
    state: &mut State,
    typed: &mut Typed,
    pattern: PatternId,
    scrutinee: Option<TypeId>,
) -> Result<bool, AllocError>
    ensures kinds { state.new.types.kinds ≡ state.old.types.kinds }
{
    let Some(scrutinee) = scrutinee else {
        return Ok(false);
    };
    let matched = Matched::whole(&state.types, scrutinee);
    let mut bindings = Bindings::new(room.alloc);
    judge(room, state, typed, &mut bindings, pattern, Some(matched))
}
