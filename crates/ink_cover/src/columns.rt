//! Types as columns: their cases, and the types of the parts.

use crate::room::Room;
use crate::sheet::Sheet;
use ink_forms::TypeForm;
use ink_matrix::Kind;
use ink_names::{ConstructorEntry, FieldEntry, FieldType, KindEntry};
use ink_types::{BOOL, INT, STRING, Term, TypeId, Types};
use std::alloc::{AllocError, Global};

/// The number of no type, which stands for Never.
const NO_TYPE: TypeId = u32::MAX;

/// The type within borrows and `uni`. A value of those is a value of the type within, as far as patterns see it.
fn within(types: &Types, of: TypeId) -> TypeId {
    match types.term(of) {
        Term::Ref(inner) | Term::Mut(inner) | Term::Uni(inner) => within(types, inner),
        Term::Of { .. } | Term::Parameter(_) => of,
    }
}

/// The number of the column of a type.
pub(crate) fn column_of(
    room: &Room,
    types: &Types,
    sheet: &mut Sheet,
    of: TypeId,
) -> Result<usize, AllocError> {
    sheet.number_of(room.alloc, within(types, of))
}

/// The arguments of a type.
fn arguments_of(alloc: Global, types: &Types, of: TypeId) -> Result<Vec<TypeId>, AllocError> {
    let mut arguments = Vec::new(alloc);
    for index in 0..types.argument_count(of) {
        if let Some(argument) = types.argument(of, index) {
            arguments.push(argument)?;
        }
    }
    Ok(arguments)
}

/// The type of a field in a type with these arguments.
fn field_type(
    room: &Room,
    types: &mut Types,
    arguments: &[TypeId],
    field: FieldEntry,
) -> Result<TypeId, AllocError> {
    match field.of {
        FieldType::Parameter(number) => match arguments.get(number as usize) {
            Some(argument) => Ok(*argument),
            None => Ok(NO_TYPE),
        },
        FieldType::Written(written) => match room.signatures.type_of(written) {
            Some(of) => types.substitute(of, arguments),
            None => Ok(NO_TYPE),
        },
    }
}

/// The columns of a constructor's parts.
fn part_columns(
    room: &Room,
    types: &mut Types,
    sheet: &mut Sheet,
    arguments: &[TypeId],
    fields: &[FieldEntry],
) -> Result<Vec<usize>, AllocError> {
    let mut columns = Vec::new(room.alloc);
    for field in fields {
        let of = field_type(room, types, arguments, *field)?;
        let column = column_of(room, types, sheet, of)?;
        columns.push(column)?;
    }
    Ok(columns)
}

/// The cases of a type with these constructors and arguments.
fn cases_of(
    room: &Room,
    types: &mut Types,
    sheet: &mut Sheet,
    arguments: &[TypeId],
    constructors: &[ConstructorEntry],
) -> Result<Vec<Vec<usize>>, AllocError> {
    let mut cases = Vec::new(room.alloc);
    for constructor in constructors {
        let columns = part_columns(room, types, sheet, arguments, &constructor.fields)?;
        cases.push(columns)?;
    }
    Ok(cases)
}

/// `true` and `false`, in that order.
fn truth_values(alloc: Global) -> Result<Vec<Vec<usize>>, AllocError> {
    let mut cases = Vec::new(alloc);
    cases.push(Vec::new(alloc))?;
    cases.push(Vec::new(alloc))?;
    Ok(cases)
}

/// The constructors that patterns name of a type: none of an async one.
fn constructors_of(entry: &KindEntry) -> &[ConstructorEntry] {
    match entry.form {
        TypeForm::Async => &[],
        TypeForm::Plain | TypeForm::Enum => &entry.constructors,
    }
}

/// What values a type has that is no borrow and no `uni`.
fn kind_of(
    room: &Room,
    types: &mut Types,
    sheet: &mut Sheet,
    of: TypeId,
) -> Result<Kind, AllocError> {
    let Term::Of { kind, .. } = types.term(of) else {
        return Ok(Kind::Cases(Vec::new(room.alloc)));
    };
    if kind == INT || kind == STRING {
        return Ok(Kind::Literals);
    }
    if kind == BOOL {
        return Ok(Kind::Cases(truth_values(room.alloc)?));
    }
    let Some(entry) = room.tables.kind(kind) else {
        return Ok(Kind::Cases(Vec::new(room.alloc)));
    };
    let arguments = arguments_of(room.alloc, types, of)?;
    let cases = cases_of(room, types, sheet, &arguments, constructors_of(entry))?;
    Ok(Kind::Cases(cases))
}

/// Opens a column of which a pattern names something.
pub(crate) fn open_column(
    room: &Room,
    types: &mut Types,
    sheet: &mut Sheet,
    column: usize,
) -> Result<(), AllocError> {
    if sheet.is_open(column) {
        return Ok(());
    }
    let Some(of) = sheet.type_of(column) else {
        return Ok(());
    };
    let kind = kind_of(room, types, sheet, of)?;
    sheet.open(column, kind);
    Ok(())
}
