//! Paths: a root, and the fields that are read from it.
//!
//! A root that is a variable or `self` is read late, behind the arguments or the written value, and any other is worked
//! before them and held. The fields are read late.
ghost use Rattle.std.specs.Prelude.{◌≤◌};

use crate::names::{read_viewed, variable_register};
use crate::room::Room;
use crate::work::Work;
use ink_code::Instr;
use ink_emit::{Given, Holding, LowerFault};
use ink_forms::{Expr, ExprId, IntegerId, NameId, Selector};
use ink_members::{field_place, kind_of};

/// What came of a path's root before the arguments or the written value.
#[derive(Clone, Copy)]
pub enum Root {
    /// It is a variable or `self`, and is read later.
    Late,
    /// It is held to the end of the statement, in this register.
    Kept(u32),
    /// It is the whole path, and is held as an operand, in this register.
    Operand(u32),
}

/// Where what a path names is found.
#[derive(Clone, Copy)]
pub(crate) enum Base {
    /// In the register of a variable, or in one that is held to the end of the statement.
    Stays(u32),
    /// In a free register: a value of a value type, read just now.
    Fresh(u32),
    /// In a register that is held as an operand.
    Operand(u32),
}

impl Base {
    /// Its register.
    pub fn register(self) -> u32 {
        match self {
            Base::Stays(register) => register,
            Base::Fresh(register) => register,
            Base::Operand(register) => register,
        }
    }
}

/// The root of a path.
pub fn root_of(room: &Room, path: ExprId) -> ExprId
    ensures { result ≤ path }
{
    match room.arena.expr(path).expr {
        Expr::Field { base, .. } => {
            if room.is_call(path) {
                path
            } else {
                root_of(room, base)
            }
        }
        _ => path,
    }
}

/// Whether a root is read late.
pub fn is_late(room: &Room, root: ExprId) -> bool {
    matches!(
        room.arena.expr(root).expr,
        Expr::Var { .. } | Expr::SelfValue
    )
}

/// Holds a root that was worked. One that an instruction takes away, and one of a value type, is an operand if it is the
/// whole path, and any other is a temporary.
pub fn hold_root(
    room: &Room,
    work: &mut Work,
    root: ExprId,
    is_taken: bool,
    register: u32,
) -> Result<Root, LowerFault> {
    if is_taken || room.is_value(root) {
        work.body.hold(register, Holding::Operand)?;
        return Ok(Root::Operand(register));
    }
    work.body.hold(register, Holding::Temporary)?;
    Ok(Root::Kept(register))
}

/// The place of a part of a tuple.
fn part_place(room: &Room, part: IntegerId) -> u32 {
    match room.context.checked.core().integers.value(part) {
        1 => 1,
        2 => 2,
        _ => 0,
    }
}

/// The place of a field by its name.
fn named_place(room: &Room, base: ExprId, name: NameId) -> Option<u32> {
    let of = room.type_of(base)?;
    let kind = kind_of(room.types(), of)?;
    field_place(room.tables(), kind, name)
}

/// The place of what is selected of a base among the fields of its object.
fn selected_place(room: &Room, base: ExprId, selector: Selector) -> u32 {
    match selector {
        Selector::Part(part) => part_place(room, part),
        Selector::Field(name) | Selector::Named(name) => {
            named_place(room, base, name).unwrap_or(0)
        }
    }
}

/// The base of a field, and the place of the field in its object.
pub(crate) fn field_of(room: &Room, number: ExprId) -> Option<(ExprId, u32)> {
    match room.arena.expr(number).expr {
        Expr::Field { selector, base } => Some((base, selected_place(room, base, selector))),
        _ => None,
    }
}

/// Reads a field of an object into the free register: a value as it is, and of anything else a borrow.
fn read_field(
    room: &Room,
    work: &mut Work,
    number: ExprId,
    object: u32,
    field: u32,
) -> Result<u32, LowerFault> {
    let to = work.body.free();
    let instr = if room.is_value(number) {
        Instr::Load { to, object, field }
    } else {
        Instr::LoadBorrow { to, object, field }
    };
    work.body.emit(room.line_of(number), instr)?;
    Ok(to)
}

/// What was read of a path: a value in a free register, or a borrow that is held to the end of the statement.
fn keep(room: &Room, work: &mut Work, number: ExprId, register: u32) -> Result<Base, LowerFault> {
    if room.is_value(number) {
        return Ok(Base::Fresh(register));
    }
    work.body.hold(register, Holding::Temporary)?;
    Ok(Base::Stays(register))
}

/// Finds a variable. One that a guard sees as a view is read.
fn find_variable(room: &Room, work: &mut Work, number: ExprId) -> Result<Base, LowerFault> {
    match read_viewed(room, work, number)? {
        Some(register) => keep(room, work, number, register),
        None => Ok(Base::Stays(variable_register(room, number))),
    }
}

/// Finds a root that was worked.
fn find_root(root: Root) -> Base {
    match root {
        Root::Late => Base::Stays(0),
        Root::Kept(register) => Base::Stays(register),
        Root::Operand(register) => Base::Operand(register),
    }
}

/// Finds what a path names, of which this came before: reads a late root, and the fields.
pub(crate) fn find_path(
    room: &Room,
    work: &mut Work,
    path: ExprId,
    root: Root,
) -> Result<Base, LowerFault> {
    match room.arena.expr(path).expr {
        Expr::Var { .. } => find_variable(room, work, path),
        Expr::SelfValue => Ok(Base::Stays(0)),
        Expr::Field { selector, base } => {
            if room.is_call(path) {
                return Ok(find_root(root));
            }
            let object = find_path(room, work, base, root)?.register();
            let field = selected_place(room, base, selector);
            let register = read_field(room, work, path, object, field)?;
            keep(room, work, path, register)
        }
        _ => Ok(find_root(root)),
    }
}

/// A field as a value, of whose base this came before.
pub fn give_field(
    room: &Room,
    work: &mut Work,
    number: ExprId,
    root: Root,
) -> Result<Given, LowerFault> {
    let Some((base, field)) = field_of(room, number) else {
        return Ok(Given::Nil);
    };
    let object = find_path(room, work, base, root)?.register();
    let register = read_field(room, work, number, object, field)?;
    Ok(Given::At(register))
}

/// A borrow of what a path names, of which this came before.
pub fn give_borrow(
    room: &Room,
    work: &mut Work,
    number: ExprId,
    operand: ExprId,
    root: Root,
) -> Result<Given, LowerFault> {
    let from = find_path(room, work, operand, root)?.register();
    let to = work.body.free();
    work.body
        .emit(room.line_of(number), Instr::Borrow { to, from })?;
    Ok(Given::At(to))
}
