//! Methods, with their parameters and bodies.
ghost use Rattle.std.specs.Prelude.{◌≤◌, ◌<◌, All, IfOk};
ghost use Rattle.ink_forms.specs.Views as view;

use ink_forms::{
    Arena, ExprId, Identifier, Method, MethodDeclaration, MethodId, Mode, Parameter, ParameterId,
    TypeParameter,
};
use ink_grammar::{FourChildren, Keyword, Module, Node, TwoChildren};
use ink_lexicon::{Surface, has_word, identifier, is_written, items_of, token_of};
use ink_patterns::{DEEPEST, optional_type, written_type};
use ink_values::value;
use std::alloc::AllocError;

/// How many values may stand in one another, so that none exhausts the stack: one is at most three calls deep. A module
/// whose heights are in their limit has fewer.
const DEEPEST_VALUE: u32 = 1024;

/// The names of a list.
pub(crate) fn identifiers(surface: &Surface, list: u32) -> Result<Vec<Identifier>, AllocError> {
    let items = items_of(surface.alloc, surface.module, list)?;
    let mut names = Vec::new(surface.alloc);
    for item in &items {
        names.push(identifier(surface, token_of(surface.module, *item)))?;
    }
    Ok(names)
}

/// The type parameters of a list.
pub(crate) fn type_parameters(
    surface: &Surface,
    list: u32,
) -> Result<Vec<TypeParameter>, AllocError> {
    let items = items_of(surface.alloc, surface.module, list)?;
    let mut made = Vec::new(surface.alloc);
    for item in &items {
        if let Some(Node::Two(TwoChildren::TypeParameter, _, named, bounds)) = surface
            .module
            .node(*item)
        {
            let name = identifier(surface, token_of(surface.module, named));
            let bounds = identifiers(surface, bounds)?;
            made.push(TypeParameter { name, bounds })?;
        }
    }
    Ok(made)
}

/// The name and the type of a parameter.
fn parts_of_parameter(parsed: &Module, item: u32) -> (u32, u32) {
    match parsed.node(item) {
        Some(Node::Two(TwoChildren::Parameter, _, named, written)) => (named, written),
        _ => (item, item),
    }
}

/// The parameters of a list.
pub(crate) fn parameters(
    surface: &Surface,
    arena: &mut Arena,
    list: u32,
) -> Result<Vec<ParameterId>, AllocError>
    ensures below { IfOk result (λ numbers. All (view.IsBefore (view.count arena.new)) numbers.items) }
    ensures grows { view.count arena.old ≤ view.count arena.new }
{
    let items = items_of(surface.alloc, surface.module, list)?;
    let mut numbers = Vec::new(surface.alloc);
    for item in &items {
        let (named, written) = parts_of_parameter(surface.module, *item);
        let annotation = written_type(surface, arena, DEEPEST, written)?;
        let Identifier { name, place } = identifier(surface, token_of(surface.module, named));
        let number = arena.push_parameter(place, place, Parameter { name, annotation })?;
        numbers.push(number)?;
    }
    Ok(numbers)
}

/// How a method takes its receiver, by the words behind its own.
pub(crate) fn mode_of(surface: &Surface, words: u32) -> Result<Mode, AllocError> {
    if has_word(surface.alloc, surface.module, words, Keyword::Mut)? {
        return Ok(Mode::Mut);
    }
    if has_word(surface.alloc, surface.module, words, Keyword::Move)? {
        return Ok(Mode::Move);
    }
    if has_word(surface.alloc, surface.module, words, Keyword::Static)? {
        return Ok(Mode::Static);
    }
    Ok(Mode::Plain)
}

/// Makes the node of a method, over its parameters and its body.
fn push_method(
    arena: &mut Arena,
    start: u32,
    place: u32,
    mode: Mode,
    is_async: bool,
    numbers: &[ParameterId],
    body: ExprId,
) -> Result<MethodId, AllocError>
    requires parameters { All (view.IsBefore (view.count arena.old)) numbers.now }
    requires body { body < view.count arena.old }
    ensures below { IfOk result (λ n. n < view.count arena.new) }
    ensures grows { view.count arena.old ≤ view.count arena.new }
{
    let parameters = arena.add_list(numbers)?;
    let number = arena.push_method(
        start,
        place,
        Method {
            mode,
            is_async,
            parameters,
            body,
        },
    )?;
    Ok(number)
}

/// The name, the type parameters, the parameters and the result of a signature.
fn parts_of_signature(parsed: &Module, number: u32) -> [u32; 4] {
    match parsed.node(number) {
        Some(Node::Four(FourChildren::Signature, _, a, b, c, d)) => [a, b, c, d],
        _ => [number, number, number, number],
    }
}

/// A method, by its words, its signature and its block. Without a result it gives its value up.
pub(crate) fn method(
    surface: &Surface,
    arena: &mut Arena,
    start: u32,
    words: u32,
    signature: u32,
    block: u32,
) -> Result<MethodDeclaration, AllocError>
    ensures grows { view.count arena.old ≤ view.count arena.new }
{
    let parts = parts_of_signature(surface.module, signature);
    let is_public = has_word(surface.alloc, surface.module, words, Keyword::Pub)?;
    let is_async = has_word(surface.alloc, surface.module, words, Keyword::Async)?;
    let mode = mode_of(surface, words)?;
    let name = identifier(surface, token_of(surface.module, parts[0]));
    let type_parameters = type_parameters(surface, parts[1])?;
    let result = optional_type(surface, arena, parts[3])?;
    let numbers = parameters(surface, arena, parts[2])?;
    let is_given_up = !is_written(surface.module, parts[3]);
    let body = value(surface, arena, DEEPEST_VALUE, is_given_up, block)?;
    let method = push_method(arena, start, name.place, mode, is_async, &numbers, body)?;
    Ok(MethodDeclaration {
        method,
        is_public,
        name,
        type_parameters,
        result,
    })
}
