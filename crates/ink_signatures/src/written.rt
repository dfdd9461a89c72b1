//! What a written type stands for.
ghost use Rattle.std.specs.Prelude.{◌≡◌};
ghost use Rattle.ink_forms.specs.Views as view;

use crate::room::{Room, Site, State};
use crate::rules::{has_arity, has_borrowable, has_bounds, is_well_unique};
use ink_base::BorrowKind;
use ink_forms::{Children, Prefix, WrittenType, WrittenTypeId};
use ink_names::{KindId, Resolution};
use ink_types::{BorrowFault, NEVER, TUPLE2, TUPLE3, TypeId, Types};
use std::alloc::AllocError;

/// A type that is written, whether the rules on it were asked, and whether no rule is broken in it.
#[derive(Clone, Copy)]
pub struct Judged {
    pub of: TypeId,
    pub is_asked: bool,
    pub holds: bool,
}

/// The parts of a written type, and whether no rule is broken in them.
#[derive(Drop)]
struct Parts {
    types: Vec<TypeId>,
    hold: bool,
}

/// The type of `Self` in the braces of a type.
fn own_type(room: &Room, types: &mut Types, kind: KindId) -> Result<TypeId, AllocError>
    ensures kinds { types.new.kinds ≡ types.old.kinds }
{
    match room.own_types.get(kind as usize) {
        Some(own) => Ok(*own),
        None => types.of(kind, &[]),
    }
}

/// The type that a name with these arguments stands for. Neither a type parameter nor `Self` has any.
fn type_named(
    room: &Room,
    types: &mut Types,
    named: Resolution,
    arguments: &[TypeId],
) -> Result<TypeId, AllocError>
    ensures kinds { types.new.kinds ≡ types.old.kinds }
{
    match named {
        Resolution::Kind(kind) => types.of(kind, arguments),
        Resolution::SelfType(kind) => own_type(room, types, kind),
        Resolution::TypeParameter(number) => types.parameter(number),
        _ => types.of(NEVER, &[]),
    }
}

/// The type of a name with arguments, by the rules on it.
fn judge_named(
    room: &Room,
    site: Site,
    state: &mut State,
    number: WrittenTypeId,
    start: u32,
    parts: &Parts,
) -> Result<Judged, AllocError>
    ensures kinds { state.new.types.kinds ≡ state.old.types.kinds }
{
    let named = room.resolutions.get(number);
    let of = type_named(room, &mut state.types, named, &parts.types)?;
    let is_asked = parts.hold || !site.is_in_body;
    if !is_asked {
        return Ok(Judged {
            of,
            is_asked,
            holds: false,
        });
    }
    let name = room.arena.written(number).start;
    let fits = has_arity(room, &mut state.least, name, named, parts.types.len());
    let is_borrowable = has_borrowable(&state.types, &mut state.least, start, named, &parts.types);
    let is_met = has_bounds(
        room,
        site.owner,
        &state.types,
        &mut state.least,
        start,
        named,
        &parts.types,
    );
    let holds = parts.hold && fits && is_borrowable && is_met;
    Ok(Judged {
        of,
        is_asked,
        holds,
    })
}

/// The type of a tuple.
fn judge_tuple(site: Site, state: &mut State, parts: &Parts) -> Result<Judged, AllocError>
    ensures kinds { state.new.types.kinds ≡ state.old.types.kinds }
{
    let kind = if parts.types.len() == 2 {
        TUPLE2
    } else {
        TUPLE3
    };
    let of = state.types.of(kind, &parts.types)?;
    Ok(Judged {
        of,
        is_asked: parts.hold || !site.is_in_body,
        holds: parts.hold,
    })
}

/// A borrow as it is written. That of an unborrowable type is a type too, which a later phase refuses.
fn borrow_written(types: &mut Types, kind: BorrowKind, of: TypeId) -> Result<TypeId, AllocError>
    ensures kinds { types.new.kinds ≡ types.old.kinds }
{
    match types.borrow_of(kind, of) {
        Ok(borrow) => Ok(borrow),
        Err(BorrowFault::Unborrowable) => borrow_anyway(types, kind, of),
        Err(BorrowFault::OutOfMemory) => Err(AllocError),
    }
}

/// A borrow of a type parameter, with a type in its place.
fn borrow_anyway(types: &mut Types, kind: BorrowKind, of: TypeId) -> Result<TypeId, AllocError>
    ensures kinds { types.new.kinds ≡ types.old.kinds }
{
    let parameter = types.parameter(0)?;
    match types.borrow_of(kind, parameter) {
        Ok(pattern) => types.substitute(pattern, &[of]),
        Err(BorrowFault::Unborrowable) => Err(AllocError),
        Err(BorrowFault::OutOfMemory) => Err(AllocError),
    }
}

/// A type with a prefix that starts at this byte, by the rules on it.
fn judge_prefixed(
    site: Site,
    state: &mut State,
    start: u32,
    prefix: Prefix,
    bare: Judged,
) -> Result<Judged, AllocError>
    ensures kinds { state.new.types.kinds ≡ state.old.types.kinds }
{
    let (of, is_well) = match prefix {
        Prefix::Ref => (
            borrow_written(&mut state.types, BorrowKind::Ref, bare.of)?,
            true,
        ),
        Prefix::Mut => (
            borrow_written(&mut state.types, BorrowKind::Mut, bare.of)?,
            true,
        ),
        Prefix::Uni => {
            let is_well = !bare.is_asked
                || is_well_unique(&state.types, &mut state.least, site.owner, start, bare.of);
            (state.types.unique_of(bare.of)?, is_well)
        }
    };
    Ok(Judged {
        of,
        is_asked: bare.is_asked,
        holds: bare.holds && is_well,
    })
}

/// The type of a node that is written from this byte on, its prefix included.
#[cycle(written)]
fn type_from(
    room: &Room,
    site: Site,
    state: &mut State,
    number: WrittenTypeId,
    start: u32,
) -> Result<Judged, AllocError>
    ensures kinds { state.new.types.kinds ≡ state.old.types.kinds }
{
    let judged = match room.arena.written(number).written {
        WrittenType::Named { arguments, .. } => {
            let parts = parts_of(room, site, state, number, arguments)?;
            judge_named(room, site, state, number, start, &parts)?
        }
        WrittenType::Tuple { parts } => {
            let parts = parts_of(room, site, state, number, parts)?;
            judge_tuple(site, state, &parts)?
        }
        WrittenType::Prefixed { prefix, bare } => {
            let bare = type_from(room, site, state, bare, start)?;
            judge_prefixed(site, state, start, prefix, bare)?
        }
    };
    state.signatures.put(number, judged.of);
    Ok(judged)
}

/// The types of the parts of a written type.
#[cycle(written)]
fn parts_of(
    room: &Room,
    site: Site,
    state: &mut State,
    parent: WrittenTypeId,
    parts: Children,
) -> Result<Parts, AllocError>
    requires { view.AreBefore room.now.arena.now parent parts }
    ensures kinds { state.new.types.kinds ≡ state.old.types.kinds }
{
    let mut types = Vec::new(room.alloc);
    let mut hold = true;
    for part in room.arena.list(parts) {
        let start = room.arena.written(*part).start;
        let judged = type_from(room, site, state, *part, start)?;
        types.push(judged.of)?;
        hold = hold && judged.holds;
    }
    Ok(Parts { types, hold })
}

/// The type that is written at a node, by the rules on how types are written. It and those of its parts are put among the
/// signatures.
///
/// It is a type also where a rule is broken: a name with the wrong number of arguments has those that are written.
pub fn written_type(
    room: &Room,
    site: Site,
    state: &mut State,
    number: WrittenTypeId,
) -> Result<Judged, AllocError>
    ensures kinds { state.new.types.kinds ≡ state.old.types.kinds }
{
    let start = room.arena.written(number).start;
    type_from(room, site, state, number, start)
}
