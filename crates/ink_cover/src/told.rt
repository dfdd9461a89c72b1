//! A missing pattern as text.

use crate::room::Room;
use crate::sheet::Sheet;
use ink_base::Text;
use ink_forms::{Made, NameId, TypeForm};
use ink_matrix::Choice;
use ink_names::{ConstructorEntry, FieldEntry, KindEntry};
use ink_types::{BOOL, Term, Types};
use std::alloc::AllocError;

/// What is still to be told.
#[derive(Clone, Copy)]
enum Piece {
    Word(&'static [u8]),
    Name(NameId),
    /// A pattern of a column, by the next choice.
    Part(usize),
}

/// How the parts of a case are told.
#[derive(Clone, Copy)]
enum Style {
    /// `true`.
    Word(&'static [u8]),
    /// `Some(_)`, or the bare name where it has no parts.
    Constructor(Made),
    /// `(_, None)`.
    Tuple,
    /// `{ @f = _, @g = _ }`.
    Object,
}

/// How a constructor of a type is told.
fn style_of(entry: &KindEntry, constructor: &ConstructorEntry) -> Style {
    match constructor.name {
        Made::Tuple2 | Made::Tuple3 => Style::Tuple,
        made => match entry.form {
            TypeForm::Enum => Style::Constructor(made),
            TypeForm::Plain | TypeForm::Async => Style::Object,
        },
    }
}

/// How a case of a column is told, and the fields of its constructor.
fn case_style<'a>(
    room: &Room<'a>,
    types: &Types,
    sheet: &Sheet,
    column: usize,
    case: usize,
) -> (Style, &'a [FieldEntry]) {
    let Some(of) = sheet.type_of(column) else {
        return (Style::Word(b"_"), &[]);
    };
    let Term::Of { kind, .. } = types.term(of) else {
        return (Style::Word(b"_"), &[]);
    };
    if kind == BOOL {
        return (Style::Word(if case == 0 { b"true" } else { b"false" }), &[]);
    }
    let Some(entry) = room.tables.kind(kind) else {
        return (Style::Word(b"_"), &[]);
    };
    let Some(constructor) = entry.constructors.get(case) else {
        return (Style::Word(b"_"), &[]);
    };
    (style_of(entry, constructor), &constructor.fields)
}

/// Adds the name of a constructor.
fn push_name(pieces: &mut Vec<Piece>, made: Made) -> Result<(), AllocError> {
    let piece = match made {
        Made::Named(name) => Piece::Name(name),
        Made::Some => Piece::Word(b"Some"),
        Made::None => Piece::Word(b"None"),
        Made::Ok => Piece::Word(b"Ok"),
        Made::Error => Piece::Word(b"Error"),
        Made::Tuple2 | Made::Tuple3 => Piece::Word(b""),
    };
    pieces.push(piece)?;
    Ok(())
}

/// Adds parts with commas between them.
fn push_parts(pieces: &mut Vec<Piece>, columns: &[usize]) -> Result<(), AllocError> {
    for (place, column) in columns.iter().enumerate() {
        if place > 0 {
            pieces.push(Piece::Word(b", "))?;
        }
        pieces.push(Piece::Part(*column))?;
    }
    Ok(())
}

/// Adds parts in parentheses.
fn push_list(pieces: &mut Vec<Piece>, columns: &[usize]) -> Result<(), AllocError> {
    pieces.push(Piece::Word(b"("))?;
    push_parts(pieces, columns)?;
    pieces.push(Piece::Word(b")"))?;
    Ok(())
}

/// Adds a field and its part.
fn push_field(
    pieces: &mut Vec<Piece>,
    field: FieldEntry,
    column: Option<&usize>,
) -> Result<(), AllocError> {
    pieces.push(Piece::Word(b"@"))?;
    if let Some(name) = field.name {
        pieces.push(Piece::Name(name))?;
    }
    pieces.push(Piece::Word(b" = "))?;
    if let Some(column) = column {
        pieces.push(Piece::Part(*column))?;
    }
    Ok(())
}

/// Adds fields with commas between them, in braces.
fn push_object(
    pieces: &mut Vec<Piece>,
    fields: &[FieldEntry],
    columns: &[usize],
) -> Result<(), AllocError> {
    pieces.push(Piece::Word(b"{ "))?;
    for (place, field) in fields.iter().enumerate() {
        if place > 0 {
            pieces.push(Piece::Word(b", "))?;
        }
        push_field(pieces, *field, columns.get(place))?;
    }
    pieces.push(Piece::Word(b" }"))?;
    Ok(())
}

/// The pieces of a case of a column, as they are told.
fn case_pieces(
    room: &Room,
    types: &Types,
    sheet: &Sheet,
    column: usize,
    case: usize,
) -> Result<Vec<Piece>, AllocError> {
    let mut pieces = Vec::new(room.alloc);
    let columns = sheet.fields(column, case);
    let (style, fields) = case_style(room, types, sheet, column, case);
    match style {
        Style::Word(word) => pieces.push(Piece::Word(word))?,
        Style::Constructor(made) => {
            push_name(&mut pieces, made)?;
            if !columns.is_empty() {
                push_list(&mut pieces, columns)?;
            }
        }
        Style::Tuple => push_list(&mut pieces, columns)?,
        Style::Object => push_object(&mut pieces, fields, columns)?,
    }
    Ok(pieces)
}

/// A text that is being told: the bytes so far, the pieces that come next, the next one last, and how many choices were
/// told.
#[derive(Drop)]
struct Telling {
    bytes: Vec<u8>,
    pieces: Vec<Piece>,
    next: usize,
}

/// Puts pieces before those that come next.
fn put_before(telling: &mut Telling, pieces: &[Piece]) -> Result<(), AllocError> {
    for piece in pieces.iter().rev() {
        telling.pieces.push(*piece)?;
    }
    Ok(())
}

/// Tells the next choice, which is one of a column.
fn tell_choice(
    room: &Room,
    types: &Types,
    sheet: &Sheet,
    telling: &mut Telling,
    column: usize,
    choices: &[Choice],
) -> Result<(), AllocError> {
    let choice = choices.get(telling.next).copied();
    telling.next = telling.next.saturating_add(1);
    match choice {
        Some(Choice::Case(case)) => {
            let pieces = case_pieces(room, types, sheet, column, case)?;
            put_before(telling, &pieces)
        }
        Some(Choice::Any) | None => {
            telling.bytes.push(b'_')?;
            Ok(())
        }
    }
}

/// Tells a piece.
fn tell_piece(
    room: &Room,
    types: &Types,
    sheet: &Sheet,
    telling: &mut Telling,
    piece: Piece,
    choices: &[Choice],
) -> Result<(), AllocError> {
    match piece {
        Piece::Word(word) => telling.bytes.extend_from_slice(word)?,
        Piece::Name(name) => telling.bytes.extend_from_slice(room.core.names.text(name))?,
        Piece::Part(column) => tell_choice(room, types, sheet, telling, column, choices)?,
    }
    Ok(())
}

/// The text of a missing pattern of a column, which is told by what is chosen in it.
pub(crate) fn told(
    room: &Room,
    types: &Types,
    sheet: &Sheet,
    column: usize,
    choices: &[Choice],
) -> Result<Text, AllocError> {
    let mut pieces = Vec::new(room.alloc);
    pieces.push(Piece::Part(column))?;
    let mut telling = Telling {
        bytes: Vec::new(room.alloc),
        pieces,
        next: 0,
    };
    // The pieces end by themselves, since each part takes a choice. The count is more than any text has.
    for _ in 0..u64::MAX {
        let Some(piece) = telling.pieces.pop() else {
            return Ok(Text::from_bytes(telling.bytes));
        };
        tell_piece(room, types, sheet, &mut telling, piece, choices)?;
    }
    Err(AllocError)
}
