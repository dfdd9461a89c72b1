//! Written types.
ghost use Rattle.std.specs.Prelude.{◌≡◌, ◌≤◌, ◌<◌, All, IfOk, IfSome};
ghost use Rattle.ink_forms.specs.Trees as tree;
ghost use Rattle.ink_forms.specs.Views as view;
ghost use Rattle.ink_patterns.specs.Makes as makes;
ghost use Rattle.ink_patterns.specs.Types as table;

use crate::depth::{DEEPEST, deeper};
use crate::type_form::{TypeForm, type_form};
use ink_forms::{Arena, NameId, Prefix, WrittenType, WrittenTypeId};
use ink_lexicon::{Surface, is_written, start_of};
use std::alloc::AllocError;

/// Makes a type with a name over its arguments.
fn push_named(
    arena: &mut Arena,
    start: u32,
    name: NameId,
    numbers: &[WrittenTypeId],
) -> Result<WrittenTypeId, AllocError>
    requires { All (view.IsBefore (view.count arena.old)) numbers.now }
    ensures made { IfOk result (makes.IsTypeOverAll numbers.now (λ trees. tree.Named (makes.here start) name (tree.written_list trees)) arena.old arena.new) }
    ensures below { IfOk result (λ n. n < view.count arena.new) }
    ensures keeps { view.Keeps arena.old arena.new }
{
    let arguments = arena.add_list(numbers)?;
    let number = arena.push_written(start, start, WrittenType::Named { name, arguments })?;
    Ok(number)
}

/// Makes a tuple over its parts.
fn push_tuple(
    arena: &mut Arena,
    start: u32,
    numbers: &[WrittenTypeId],
) -> Result<WrittenTypeId, AllocError>
    requires { All (view.IsBefore (view.count arena.old)) numbers.now }
    ensures made { IfOk result (makes.IsTypeOverAll numbers.now (λ trees. tree.Tuple (makes.here start) (tree.written_list trees)) arena.old arena.new) }
    ensures below { IfOk result (λ n. n < view.count arena.new) }
    ensures keeps { view.Keeps arena.old arena.new }
{
    let parts = arena.add_list(numbers)?;
    let number = arena.push_written(start, start, WrittenType::Tuple { parts })?;
    Ok(number)
}

/// Makes a type behind a word over the type alone.
fn push_prefixed(
    arena: &mut Arena,
    start: u32,
    prefix: Prefix,
    bare: WrittenTypeId,
) -> Result<WrittenTypeId, AllocError>
    requires { bare < view.count arena.old }
    ensures made { IfOk result (makes.IsTypeOver bare (λ inner. tree.Prefixed (makes.here start) prefix inner) arena.old arena.new) }
    ensures below { IfOk result (λ n. n < view.count arena.new) }
    ensures keeps { view.Keeps arena.old arena.new }
{
    let number = arena.push_written(start, start, WrittenType::Prefixed { prefix, bare })?;
    Ok(number)
}

/// The written types of these nodes, in their order.
#[cycle(types)]
pub fn types(
    surface: &Surface,
    arena: &mut Arena,
    depth: u32,
    items: &[u32],
) -> Result<Vec<WrittenTypeId>, AllocError>
    ensures made { IfOk result (λ numbers. makes.AreTypes (table.types_at surface.now items.now) arena.old arena.new numbers.items) }
    ensures below { IfOk result (λ numbers. All (view.IsBefore (view.count arena.new)) numbers.items) }
    ensures keeps { view.Keeps arena.old arena.new }
{
    let mut numbers = Vec::new(surface.alloc);
    for item in items {
        let number = written_type(surface, arena, depth, *item)?;
        numbers.push(number)?;
    }
    Ok(numbers)
}

/// The written type of a node, which may have so many types in one another.
#[cycle(types)]
pub fn written_type(
    surface: &Surface,
    arena: &mut Arena,
    depth: u32,
    number: u32,
) -> Result<WrittenTypeId, AllocError>
    ensures made { IfOk result (makes.IsType (table.written_at surface.now number) arena.old arena.new) }
    ensures below { IfOk result (λ n. n < view.count arena.new) }
    ensures keeps { view.Keeps arena.old arena.new }
{
    let left = deeper(depth)?;
    let start = start_of(surface.module, number);
    match type_form(surface, number)? {
        TypeForm::Named { name, arguments } => {
            let numbers = types(surface, arena, left, &arguments)?;
            push_named(arena, start, name, &numbers)
        }
        TypeForm::Prefixed { prefix, bare } => {
            let bare = written_type(surface, arena, left, bare)?;
            push_prefixed(arena, start, prefix, bare)
        }
        TypeForm::Tuple { parts } => {
            let numbers = types(surface, arena, left, &parts)?;
            push_tuple(arena, start, &numbers)
        }
    }
}

/// The written type of a node, where one is written.
pub fn optional_type(
    surface: &Surface,
    arena: &mut Arena,
    number: u32,
) -> Result<Option<WrittenTypeId>, AllocError>
    ensures made { IfOk result (makes.IsOptional (table.optional_at surface.now number) arena.old arena.new) }
    ensures below { IfOk result (λ written. IfSome written (λ n. n < view.count arena.new)) }
    ensures keeps { view.Keeps arena.old arena.new }
{
    if is_written(surface.module, number) {
        let written = written_type(surface, arena, DEEPEST, number)?;
        Ok(Some(written))
    } else {
        Ok(None)
    }
}
