//! The rows of a matrix, and those that count where its first column is opened.
ghost use Rattle.std.specs.Prelude.{◌≡◌, ◌++◌, [], None, Some, replicate, length, OnOk, IfOk, map};
ghost use Rattle.ink_matrix.specs.Rows as spec;
ghost use Rattle.ink_matrix.specs.Views as view;

use crate::pattern::{Arm, Part, Pattern, Shape};
use std::alloc::{AllocError, Global};

/// A pattern for each column.
#[derive(Drop)]
pub struct Row {
    pub parts: Vec<Part>,
}

/// Rows over columns of these types.
#[derive(Drop)]
pub struct Matrix {
    pub columns: Vec<usize>,
    pub rows: Vec<Row>,
}

/// Whether an alternative is `_`.
fn is_any(shape: &Shape) -> bool
    ensures { result ≡ spec.is_any (view.shape_of shape.now) }
{
    match shape {
        Shape::Any => true,
        Shape::Literal(_) => false,
        Shape::Case { .. } => false,
    }
}

/// Whether an alternative is a case.
fn is_case(shape: &Shape) -> bool
    ensures { result ≡ spec.is_case (view.shape_of shape.now) }
{
    match shape {
        Shape::Any => false,
        Shape::Literal(_) => false,
        Shape::Case { .. } => true,
    }
}

/// Whether `_` is one of these.
fn has_any(shapes: &[Shape]) -> bool
    ensures { result ≡ spec.some_of spec.is_any (map view.shape_of shapes.now) }
{
    for shape in shapes {
        if is_any(shape) {
            return true;
        }
    }
    false
}

/// Whether one of these is a case.
fn has_case(shapes: &[Shape]) -> bool
    ensures { result ≡ spec.some_of spec.is_case (map view.shape_of shapes.now) }
{
    for shape in shapes {
        if is_case(shape) {
            return true;
        }
    }
    false
}

/// The alternatives of a pattern: none where there is no such pattern.
fn shapes_at(patterns: &[Pattern], number: usize) -> &[Shape]
    ensures { map view.shape_of result.now ≡ view.alternatives patterns.now (Some number) }
{
    match patterns.get(number) {
        Some(pattern) => &pattern.alternatives,
        None => &[],
    }
}

/// Whether a pattern has `_` as an alternative.
fn takes_any(patterns: &[Pattern], part: Part) -> bool
    ensures { result ≡ spec.some_of spec.is_any (view.alternatives patterns.now part) }
{
    match part {
        None => true,
        Some(number) => has_any(shapes_at(patterns, number)),
    }
}

/// Whether a pattern names a case.
fn names_case(patterns: &[Pattern], part: Part) -> bool
    ensures { result ≡ spec.some_of spec.is_case (view.alternatives patterns.now part) }
{
    match part {
        None => false,
        Some(number) => has_case(shapes_at(patterns, number)),
    }
}

/// Whether a row names a case at its first column.
fn row_names(patterns: &[Pattern], row: &Row) -> bool
    ensures { result ≡ spec.names (view.alternatives patterns.now) row.now.parts.items }
{
    match row.parts.first() {
        Some(part) => names_case(patterns, *part),
        None => false,
    }
}

/// Whether one of these rows names a case at its first column.
pub(crate) fn names_any(patterns: &[Pattern], rows: &[Row]) -> bool
    ensures { result ≡ spec.names_any (view.alternatives patterns.now) (view.rows_of rows.now) }
{
    for row in rows {
        if row_names(patterns, row) {
            return true;
        }
    }
    false
}

/// Whether a row has `_` at each column.
fn is_whole(patterns: &[Pattern], parts: &[Part]) -> bool
    ensures { result ≡ spec.is_whole (view.alternatives patterns.now) parts.now }
{
    for part in parts {
        if !takes_any(patterns, *part) {
            return false;
        }
    }
    true
}

/// Whether one of these rows has `_` at each column.
pub(crate) fn any_whole(patterns: &[Pattern], rows: &[Row]) -> bool
    ensures { result ≡ spec.some_of (spec.is_whole (view.alternatives patterns.now)) (view.rows_of rows.now) }
{
    for row in rows {
        if is_whole(patterns, &row.parts) {
            return true;
        }
    }
    false
}

/// A row of these parts, and of the rest of a row behind its first.
fn joined(alloc: Global, parts: &[Part], row: &Row) -> Result<Row, AllocError>
    ensures { IfOk result (λ r. r.parts.items ≡ parts.now ++ spec.behind row.now.parts.items) }
{
    let mut all = Vec::from_slice(alloc, parts)?;
    if let Some((_, rest)) = row.parts.split_first() {
        all.extend_from_slice(rest)?;
    }
    Ok(Row { parts: all })
}

/// So many times `_`.
pub(crate) fn anys(alloc: Global, count: usize) -> Result<Vec<Part>, AllocError>
    ensures { IfOk result (λ v. v.items ≡ replicate count None) }
{
    let mut parts = Vec::new(alloc);
    for _ in 0..count {
        parts.push(None)?;
    }
    Ok(parts)
}

/// Adds a row without its first pattern, where that is `_`.
fn push_rest(
    alloc: Global,
    patterns: &[Pattern],
    kept: &mut Vec<Row>,
    row: &Row,
) -> Result<(), AllocError>
    ensures { OnOk result (view.rows_of kept.new.items ≡ view.rows_of kept.old.items ++ spec.rest_of (view.alternatives patterns.now) row.now.parts.items) }
{
    let Some(first) = row.parts.first() else {
        return Ok(());
    };
    if takes_any(patterns, *first) {
        let rest = joined(alloc, &[], row)?;
        kept.push(rest)?;
    }
    Ok(())
}

/// The rows that have `_` first, without it.
pub(crate) fn rest_rows(
    alloc: Global,
    patterns: &[Pattern],
    rows: &[Row],
) -> Result<Vec<Row>, AllocError>
    ensures { IfOk result (λ v. view.rows_of v.items ≡ spec.rest_rows (view.alternatives patterns.now) (view.rows_of rows.now)) }
{
    let mut kept = Vec::new(alloc);
    for row in rows {
        push_rest(alloc, patterns, &mut kept, row)?;
    }
    Ok(kept)
}

/// Adds what an alternative gives where the column has this case, before the rest of its row.
fn push_shape(
    alloc: Global,
    case: usize,
    anys: &[Part],
    kept: &mut Vec<Row>,
    shape: &Shape,
    row: &Row,
) -> Result<(), AllocError>
    ensures { OnOk result (view.rows_of kept.new.items ≡ view.rows_of kept.old.items ++ spec.opened case anys.now (spec.behind row.now.parts.items) (view.shape_of shape.now)) }
{
    match shape {
        Shape::Any => {
            let all = joined(alloc, anys, row)?;
            kept.push(all)?;
            Ok(())
        }
        Shape::Literal(_) => Ok(()),
        Shape::Case { case: own, parts } => {
            if *own == case {
                let all = joined(alloc, parts, row)?;
                kept.push(all)?;
            }
            Ok(())
        }
    }
}

/// Adds what these alternatives give.
fn push_shapes(
    alloc: Global,
    case: usize,
    anys: &[Part],
    kept: &mut Vec<Row>,
    shapes: &[Shape],
    row: &Row,
) -> Result<(), AllocError>
    ensures { OnOk result (view.rows_of kept.new.items ≡ view.rows_of kept.old.items ++ spec.gather (spec.opened case anys.now (spec.behind row.now.parts.items)) (map view.shape_of shapes.now)) }
{
    for shape in shapes {
        push_shape(alloc, case, anys, kept, shape, row)?;
    }
    Ok(())
}

/// Adds what the alternatives of a row's first pattern give.
fn push_open(
    alloc: Global,
    patterns: &[Pattern],
    case: usize,
    anys: &[Part],
    kept: &mut Vec<Row>,
    row: &Row,
) -> Result<(), AllocError>
    requires { anys.now ≡ replicate (length anys.now) None }
    ensures { OnOk result (view.rows_of kept.new.items ≡ view.rows_of kept.old.items ++ spec.open_of (view.alternatives patterns.now) case (length anys.now) row.now.parts.items) }
{
    match row.parts.first() {
        None => Ok(()),
        Some(None) => {
            let all = joined(alloc, anys, row)?;
            kept.push(all)?;
            Ok(())
        }
        Some(Some(number)) => {
            let shapes = shapes_at(patterns, *number);
            push_shapes(alloc, case, anys, kept, shapes, row)
        }
    }
}

/// The rows that count where the first column has a case of so many parts, opened.
pub(crate) fn open_rows(
    alloc: Global,
    patterns: &[Pattern],
    case: usize,
    count: usize,
    rows: &[Row],
) -> Result<Vec<Row>, AllocError>
    ensures { IfOk result (λ v. view.rows_of v.items ≡ spec.open_rows (view.alternatives patterns.now) case count (view.rows_of rows.now)) }
{
    let anys = anys(alloc, count)?;
    let mut kept = Vec::new(alloc);
    for row in rows {
        push_open(alloc, patterns, case, &anys, &mut kept, row)?;
    }
    Ok(kept)
}

/// Adds the row of an arm, if it has no guard.
fn push_arm(alloc: Global, rows: &mut Vec<Row>, arm: Arm) -> Result<(), AllocError>
    ensures { OnOk result (view.rows_of rows.new.items ≡ view.rows_of rows.old.items ++ view.row_of arm) }
{
    if !arm.is_guarded {
        let parts = Vec::from_slice(alloc, &[arm.pattern])?;
        rows.push(Row { parts })?;
    }
    Ok(())
}

/// The rows of arms: an arm with a guard has none.
pub(crate) fn arm_rows(alloc: Global, arms: &[Arm]) -> Result<Vec<Row>, AllocError>
    ensures { IfOk result (λ v. view.rows_of v.items ≡ view.arm_rows arms.now) }
{
    let mut rows = Vec::new(alloc);
    for arm in arms {
        push_arm(alloc, &mut rows, *arm)?;
    }
    Ok(rows)
}
