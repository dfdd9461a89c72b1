//! The phase over all matches of a module.
ghost use Rattle.std.specs.Prelude.{IfErr};
ghost use Rattle.ink_forms.specs.Views as view;
ghost use Rattle.ink_names.specs.Later.{IsLaterFault};

use crate::columns::column_of;
use crate::room::Room;
use crate::shapes::part_of;
use crate::sheet::Sheet;
use crate::told::told;
use ink_base::{JudgeFault, Place, Refusal, Rule, Text};
use ink_findings::Typed;
use ink_forms::{Children, Choice, Expr, ExprId};
use ink_matrix::{Arm, missing};
use ink_module::CoreModule;
use ink_names::Tables;
use ink_signatures::Signatures;
use ink_tables::Lines;
use ink_types::{TypeId, Types};
use std::alloc::{AllocError, Global};

/// A match that leaves a value: the byte of its word, and the least pattern that is missing.
#[derive(Drop)]
struct Gap {
    byte: u32,
    pattern: Text,
}

/// The arms of a match over a column.
fn arms_of(
    room: &Room,
    types: &mut Types,
    sheet: &mut Sheet,
    column: usize,
    arms: Children,
) -> Result<Vec<Arm>, AllocError>
    requires { view.IsArmList room.now.core.now.arena arms }
{
    let mut rows = Vec::new(room.alloc);
    for arm in room.core.arena.arms(arms) {
        let pattern = part_of(room, types, sheet, column, arm.pattern)?;
        let is_guarded = arm.guard.is_some();
        rows.push(Arm {
            pattern,
            is_guarded,
        })?;
    }
    Ok(rows)
}

/// The least pattern that the arms of a match leave, whose scrutinee is of this type.
fn missing_pattern(
    room: &Room,
    types: &mut Types,
    of: TypeId,
    arms: Children,
) -> Result<Option<Text>, AllocError>
    requires { view.IsArmList room.now.core.now.arena arms }
{
    let mut sheet = Sheet::new(room.alloc);
    let column = column_of(room, types, &mut sheet, of)?;
    let rows = arms_of(room, types, &mut sheet, column, arms)?;
    match missing(room.alloc, sheet.kinds(), sheet.patterns(), column, &rows)? {
        None => Ok(None),
        Some(choices) => {
            let text = told(room, types, &sheet, column, &choices)?;
            Ok(Some(text))
        }
    }
}

/// Whether a byte is before that of a match that leaves a value.
fn is_before(byte: u32, least: &Option<Gap>) -> bool {
    match least {
        Some(gap) => byte < gap.byte,
        None => true,
    }
}

/// Judges a node, if it is a `match`: one that was written so, since what an `if` and the like are made into takes all.
fn judge_node(
    room: &Room,
    types: &mut Types,
    typed: &Typed,
    least: &mut Option<Gap>,
    number: ExprId,
) -> Result<(), AllocError> {
    let node = room.core.arena.expr(number);
    let Expr::Match {
        choice: Choice::Match,
        scrutinee,
        arms,
    } = node.expr
    else {
        return Ok(());
    };
    if !is_before(node.place, least) {
        return Ok(());
    }
    let Some(of) = typed.type_of(scrutinee) else {
        return Ok(());
    };
    if let Some(pattern) = missing_pattern(room, types, of, arms)? {
        *least = Some(Gap {
            byte: node.place,
            pattern,
        });
    }
    Ok(())
}

/// The match that stands first of those that leave a value.
fn first_gap(room: &Room, types: &mut Types, typed: &Typed) -> Result<Option<Gap>, AllocError> {
    let mut least = None;
    for number in 0..room.core.arena.len() {
        judge_node(room, types, typed, &mut least, number as u32)?;
    }
    Ok(least)
}

/// The refusal of a match that leaves a value.
fn finish(lines: &Lines, least: Option<Gap>) -> Result<(), JudgeFault>
    ensures { IfErr result IsLaterFault }
{
    match least {
        None => Ok(()),
        Some(Gap { byte, pattern }) => {
            let Place { line, column, .. } = lines.place_of(byte);
            Err(JudgeFault::Refused(Refusal {
                rule: Rule::MissingArm,
                place: Place { line, column, byte },
                detail: Some(pattern),
            }))
        }
    }
}

/// The phase Cover for a module whose expressions hold: each value of the scrutinee of a `match` fits an arm that has no
/// guard.
///
/// Refused is the `match` at the least byte where one does not, with the least pattern that is missing as the detail. What
/// an `if`, a `while`, an `and`, an `or` and a `try` are made into takes every value. `OutOfMemory` is want of memory, or of
/// numbers.
pub fn cover(
    alloc: Global,
    core: &CoreModule,
    tables: &Tables,
    types: &mut Types,
    signatures: &Signatures,
    typed: &Typed,
) -> Result<(), JudgeFault>
    ensures late { IfErr result IsLaterFault }
{
    let room = Room {
        alloc,
        core,
        tables,
        signatures,
    };
    let least = first_gap(&room, types, typed)?;
    finish(&core.lines, least)
}
