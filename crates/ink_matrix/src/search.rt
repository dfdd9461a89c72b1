//! The search for the least missing row, by a stack of what was chosen so far.
ghost use Rattle.std.specs.Prelude.{◌≡◌, ◌∷◌, ◌++◌, [], List, ℕ, ◌<◌, IfOk, IfSome, IfNone, MatchBool, Some, None, length, map, replicate};
ghost use Rattle.std.specs.Option.{option_map};
ghost use Rattle.ink_matrix.specs.declared.pattern.Choice.{Choice};
ghost use Rattle.ink_matrix.specs.declared.pattern.Choice.TheVariants as choice;
ghost use Rattle.ink_matrix.specs.Rows as spec;
ghost use Rattle.ink_matrix.specs.Views as view;
ghost use Rattle.ink_matrix.specs.Cover as cover;
ghost use Rattle.ink_matrix.specs.Search as search;

use crate::pattern::{Arm, Choice, Kind, Pattern};
use crate::rows::{Matrix, any_whole, arm_rows, names_any, open_rows, rest_rows};
use std::alloc::{AllocError, Global};

/// What was chosen at a column, on the way to the matrix above.
#[derive(Drop)]
pub enum Frame {
    /// `_`: where the matrix above is covered, so is the one before.
    Any,
    /// A case of the first column of a matrix, of which the cases before are covered.
    Case { matrix: Matrix, case: usize },
}

/// What a turn of the search comes to: a matrix to go on with, or none where the one above the frames is covered; or the
/// end of the search.
#[derive(Drop)]
pub enum Turn {
    On(Option<Matrix>),
    Found(Vec<Choice>),
    Covered,
}

/// The types of the parts of a case of a type.
fn fields_of(kinds: &[Kind], column: usize, case: usize) -> Option<&[usize]>
    ensures some { IfSome result (λ fields. search.fields_in (view.kind_at kinds.now column) case ≡ Some fields.now) }
    ensures none { IfNone result (search.fields_in (view.kind_at kinds.now column) case ≡ None) }
{
    match kinds.get(column) {
        Some(Kind::Cases(cases)) => match cases.get(case) {
            Some(fields) => Some(fields),
            None => None,
        },
        Some(Kind::Literals) => None,
        None => None,
    }
}

/// Whether a type has plain values.
fn is_plain(kinds: &[Kind], column: usize) -> bool
    ensures { MatchBool result (view.kind_at kinds.now column ≡ spec.Literals) (view.kind_at kinds.now column ≡ spec.Cases (search.cases_in (view.kind_at kinds.now column))) }
{
    match kinds.get(column) {
        Some(Kind::Literals) => true,
        Some(Kind::Cases(_)) => false,
        None => false,
    }
}

/// What was chosen at a frame.
fn choice_of(frame: &Frame) -> Choice
    ensures { result ≡ search.choice_of frame.now }
{
    match frame {
        Frame::Any => Choice::Any,
        Frame::Case { case, .. } => Choice::Case(*case),
    }
}

/// What was chosen on the way.
fn choices_of(alloc: Global, frames: &[Frame]) -> Result<Vec<Choice>, AllocError>
    ensures { IfOk result (λ v. v.items ≡ map search.choice_of frames.now) }
{
    let mut choices = Vec::new(alloc);
    for frame in frames {
        choices.push(choice_of(frame))?;
    }
    Ok(choices)
}

/// What was chosen on the way, and `_` for so many columns behind it.
fn chosen(alloc: Global, frames: &[Frame], rest: usize) -> Result<Vec<Choice>, AllocError>
    ensures { IfOk result (λ v. v.items ≡ map search.choice_of frames.now ++ replicate rest choice.Any) }
{
    let mut choices = choices_of(alloc, frames)?;
    for _ in 0..rest {
        choices.push(Choice::Any)?;
    }
    Ok(choices)
}

/// Goes on with a case of the first column, or behind the matrix where there is no such case.
fn open_case(
    alloc: Global,
    kinds: &[Kind],
    patterns: &[Pattern],
    frames: &mut Vec<Frame>,
    matrix: Matrix,
    case: usize,
) -> Result<Option<Matrix>, AllocError>
    ensures { IfOk result (search.Opens (view.kind_at kinds.now) (view.alternatives patterns.now) frames.old.items matrix case frames.new.items) }
{
    let Some((column, rest)) = matrix.columns.split_first() else {
        return Ok(None);
    };
    let Some(fields) = fields_of(kinds, *column, case) else {
        return Ok(None);
    };
    let mut columns = Vec::from_slice(alloc, fields)?;
    columns.extend_from_slice(rest)?;
    let rows = open_rows(alloc, patterns, case, fields.len(), &matrix.rows)?;
    frames.push(Frame::Case { matrix, case })?;
    Ok(Some(Matrix { columns, rows }))
}

/// Goes on behind the first column, with the rows that have `_` there.
fn skip_column(
    alloc: Global,
    patterns: &[Pattern],
    frames: &mut Vec<Frame>,
    matrix: &Matrix,
) -> Result<Option<Matrix>, AllocError>
    ensures { IfOk result (search.Skips (view.alternatives patterns.now) frames.old.items matrix.now frames.new.items) }
{
    let Some((_, rest)) = matrix.columns.split_first() else {
        return Ok(None);
    };
    let columns = Vec::from_slice(alloc, rest)?;
    let rows = rest_rows(alloc, patterns, &matrix.rows)?;
    frames.push(Frame::Any)?;
    Ok(Some(Matrix { columns, rows }))
}

/// Whether the first column has plain values, or no row names a case there.
fn is_skipped(kinds: &[Kind], patterns: &[Pattern], matrix: &Matrix) -> bool
    ensures { MatchBool result (search.IsSkipped (view.kind_at kinds.now) (view.alternatives patterns.now) matrix.now) (search.IsOpened (view.kind_at kinds.now) (view.alternatives patterns.now) matrix.now) }
{
    match matrix.columns.first() {
        Some(column) => is_plain(kinds, *column) || !names_any(patterns, &matrix.rows),
        None => true,
    }
}

/// Goes on at a matrix that has rows, none of which has `_` at each column.
fn open_column(
    alloc: Global,
    kinds: &[Kind],
    patterns: &[Pattern],
    frames: &mut Vec<Frame>,
    matrix: Matrix,
) -> Result<Option<Matrix>, AllocError>
    requires { 0 < length matrix.rows.items }
    ensures { IfOk result (search.GoesOn (view.kind_at kinds.now) (view.alternatives patterns.now) frames.old.items (Some matrix) frames.new.items) }
{
    if is_skipped(kinds, patterns, &matrix) {
        let next = skip_column(alloc, patterns, frames, &matrix)?;
        return Ok(next);
    }
    open_case(alloc, kinds, patterns, frames, matrix, 0)
}

/// A turn at a matrix.
fn descend(
    alloc: Global,
    kinds: &[Kind],
    patterns: &[Pattern],
    frames: &mut Vec<Frame>,
    matrix: Matrix,
) -> Result<Turn, AllocError>
    ensures { IfOk result (search.TurnsFrom (view.kind_at kinds.now) (view.alternatives patterns.now) frames.old.items (Some matrix) frames.new.items) }
{
    if matrix.rows.is_empty() {
        let choices = chosen(alloc, frames, matrix.columns.len())?;
        return Ok(Turn::Found(choices));
    }
    if any_whole(patterns, &matrix.rows) {
        return Ok(Turn::On(None));
    }
    let here = open_column(alloc, kinds, patterns, frames, matrix)?;
    Ok(Turn::On(here))
}

/// A turn where the matrix above the frames is covered: the next case of the last one that has cases left.
fn retreat(
    alloc: Global,
    kinds: &[Kind],
    patterns: &[Pattern],
    frames: &mut Vec<Frame>,
) -> Result<Turn, AllocError>
    ensures { IfOk result (search.TurnsFrom (view.kind_at kinds.now) (view.alternatives patterns.now) frames.old.items None frames.new.items) }
{
    match frames.pop() {
        None => Ok(Turn::Covered),
        Some(Frame::Any) => Ok(Turn::On(None)),
        Some(Frame::Case { matrix, case }) => {
            if case == usize::MAX {
                return Err(AllocError);
            }
            let here = open_case(alloc, kinds, patterns, frames, matrix, case + 1)?;
            Ok(Turn::On(here))
        }
    }
}

/// A turn of the search.
fn take_turn(
    alloc: Global,
    kinds: &[Kind],
    patterns: &[Pattern],
    frames: &mut Vec<Frame>,
    here: Option<Matrix>,
) -> Result<Turn, AllocError>
    ensures { IfOk result (search.TurnsFrom (view.kind_at kinds.now) (view.alternatives patterns.now) frames.old.items here frames.new.items) }
{
    match here {
        Some(matrix) => descend(alloc, kinds, patterns, frames, matrix),
        None => retreat(alloc, kinds, patterns, frames),
    }
}

/// The least pattern that arms leave of a type, or `None` where each value matches an arm without a guard.
///
/// The pattern is told by what is chosen in it, in the order in which it is written. A type and a pattern are named by
/// their places in `kinds` and `patterns`; the answer says something of patterns that are of their columns' types. An
/// `AllocError` is want of memory.
pub fn missing(
    alloc: Global,
    kinds: &[Kind],
    patterns: &[Pattern],
    scrutinee: usize,
    arms: &[Arm],
) -> Result<Option<Vec<Choice>>, AllocError>
    ensures { IfOk result (λ found. cover.ComesTo (view.kind_at kinds.now) (view.alternatives patterns.now) (scrutinee ∷ []) (view.arm_rows arms.now) (option_map (λ v. v.items) found)) }
{
    let rows = arm_rows(alloc, arms)?;
    let columns = Vec::from_slice(alloc, &[scrutinee])?;
    let mut frames = Vec::new(alloc);
    let mut here = Some(Matrix { columns, rows });
    // The search ends by itself. The count is more turns than any machine makes.
    for _ in 0..u64::MAX {
        match take_turn(alloc, kinds, patterns, &mut frames, here)? {
            Turn::On(next) => here = next,
            Turn::Found(choices) => return Ok(Some(choices)),
            Turn::Covered => return Ok(None),
        }
    }
    Err(AllocError)
}
