//! Patterns of the core form as patterns of the sheet.
ghost use Rattle.ink_forms.specs.Views as view;

use crate::columns::open_column;
use crate::room::Room;
use crate::sheet::Sheet;
use ink_forms::{Children, Literal, Made, Pattern, PatternId};
use ink_matrix::{Part, Shape};
use ink_names::KindId;
use ink_types::{NEVER, Term, Types};
use std::alloc::AllocError;

/// Whether a pattern of the core form takes any value.
fn is_any(pattern: Pattern) -> bool {
    match pattern {
        Pattern::Wildcard | Pattern::Name { .. } => true,
        Pattern::Lit { .. }
        | Pattern::Constructor { .. }
        | Pattern::Either { .. }
        | Pattern::Fields { .. } => false,
    }
}

/// A literal: `true` is the first case of Bool and `false` the second, and others are plain values.
fn literal_shape(room: &Room, literal: Literal) -> Shape {
    match literal {
        Literal::Int(number) => Shape::Literal(number as usize),
        Literal::Text(number) => Shape::Literal(number as usize),
        Literal::Bool(value) => Shape::Case {
            case: if value { 0 } else { 1 },
            parts: Vec::new(room.alloc),
        },
        Literal::Nil => Shape::Any,
    }
}

/// The kind of a column's type.
fn kind_at(types: &Types, sheet: &Sheet, column: usize) -> KindId {
    match sheet.type_of(column) {
        Some(of) => match types.term(of) {
            Term::Of { kind, .. } => kind,
            _ => NEVER,
        },
        None => NEVER,
    }
}

/// The case of a constructor in a kind that has it: Some and Ok come before None and Error.
fn case_of(room: &Room, kind: KindId, made: Made) -> usize {
    match made {
        Made::Named(name) => match room.tables.constructor(kind, name) {
            Some(place) => place as usize,
            None => 0,
        },
        Made::Some | Made::Ok | Made::Tuple2 | Made::Tuple3 => 0,
        Made::None | Made::Error => 1,
    }
}

/// The column of a part, by its place.
fn column_at(columns: &[usize], place: usize) -> usize {
    match columns.get(place) {
        Some(column) => *column,
        None => 0,
    }
}

/// `_` for so many parts.
fn any_parts(room: &Room, count: usize) -> Result<Vec<Part>, AllocError> {
    let mut parts = Vec::new(room.alloc);
    for _ in 0..count {
        parts.push(None)?;
    }
    Ok(parts)
}

/// Puts a pattern of a part at its place.
fn set_part(parts: &mut Vec<Part>, place: usize, part: Part) {
    if let Some(old) = parts.get_mut(place) {
        *old = part;
    }
}

/// A pattern of a column on the sheet.
#[cycle(shapes)]
pub(crate) fn part_of(
    room: &Room,
    types: &mut Types,
    sheet: &mut Sheet,
    column: usize,
    number: PatternId,
) -> Result<Part, AllocError> {
    if is_any(room.core.arena.pattern(number).pattern) {
        return Ok(None);
    }
    open_column(room, types, sheet, column)?;
    let mut shapes = Vec::new(room.alloc);
    push_shapes(room, types, sheet, column, number, &mut shapes)?;
    sheet.add(shapes)
}

/// Adds the alternatives of a pattern of a column that is open.
#[cycle(shapes)]
fn push_shapes(
    room: &Room,
    types: &mut Types,
    sheet: &mut Sheet,
    column: usize,
    number: PatternId,
    shapes: &mut Vec<Shape>,
) -> Result<(), AllocError> {
    let shape = match room.core.arena.pattern(number).pattern {
        Pattern::Wildcard | Pattern::Name { .. } => Shape::Any,
        Pattern::Lit { literal } => literal_shape(room, literal),
        Pattern::Constructor { made, parts } => {
            let case = case_of(room, kind_at(types, sheet, column), made);
            let columns = Vec::from_slice(room.alloc, sheet.fields(column, case))?;
            let parts = constructor_parts(room, types, sheet, &columns, number, parts)?;
            Shape::Case { case, parts }
        }
        Pattern::Either { alternatives } => {
            return push_all(room, types, sheet, column, number, alternatives, shapes);
        }
        Pattern::Fields { fields } => {
            let kind = kind_at(types, sheet, column);
            let columns = Vec::from_slice(room.alloc, sheet.fields(column, 0))?;
            let parts = field_parts(room, types, sheet, kind, &columns, number, fields)?;
            Shape::Case { case: 0, parts }
        }
    };
    shapes.push(shape)?;
    Ok(())
}

/// Adds alternatives.
#[cycle(shapes)]
fn push_all(
    room: &Room,
    types: &mut Types,
    sheet: &mut Sheet,
    column: usize,
    parent: PatternId,
    alternatives: Children,
    shapes: &mut Vec<Shape>,
) -> Result<(), AllocError>
    requires { view.AreBefore room.now.core.now.arena parent alternatives }
{
    for alternative in room.core.arena.list(alternatives) {
        push_shapes(room, types, sheet, column, *alternative, shapes)?;
    }
    Ok(())
}

/// The patterns of a case's parts, which have these columns.
#[cycle(shapes)]
fn constructor_parts(
    room: &Room,
    types: &mut Types,
    sheet: &mut Sheet,
    columns: &[usize],
    parent: PatternId,
    children: Children,
) -> Result<Vec<Part>, AllocError>
    requires { view.AreBefore room.now.core.now.arena parent children }
{
    let mut parts = Vec::new(room.alloc);
    for (place, child) in room.core.arena.list(children).iter().enumerate() {
        let part = part_of(room, types, sheet, column_at(columns, place), *child)?;
        parts.push(part)?;
    }
    Ok(parts)
}

/// The patterns of the fields of a kind, which have these columns, in declared order: one that isn't named has `_`.
#[cycle(shapes)]
fn field_parts(
    room: &Room,
    types: &mut Types,
    sheet: &mut Sheet,
    kind: KindId,
    columns: &[usize],
    parent: PatternId,
    fields: Children,
) -> Result<Vec<Part>, AllocError>
    requires { view.AreFieldsBefore room.now.core.now.arena parent fields }
{
    let mut parts = any_parts(room, columns.len())?;
    for field in room.core.arena.fields(fields) {
        let place = match room.tables.field(kind, field.field.name) {
            Some(place) => place as usize,
            None => 0,
        };
        let part = part_of(room, types, sheet, column_at(columns, place), field.pattern)?;
        set_part(&mut parts, place, part);
    }
    Ok(parts)
}
