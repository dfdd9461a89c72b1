//! Patterns.
ghost use Rattle.std.specs.Prelude.{◌≡◌, ◌≤◌, ◌<◌, All, IfOk, map};
ghost use Rattle.ink_forms.specs.Trees as tree;
ghost use Rattle.ink_forms.specs.Views as view;
ghost use Rattle.ink_patterns.specs.Makes as makes;
ghost use Rattle.ink_patterns.specs.Patterns as table;

use crate::depth::deeper;
use crate::pattern_form::{FieldPart, PatternForm, pattern_form};
use ink_forms::{Arena, FieldPattern, Literal, Made, NameId, Pattern, PatternId};
use ink_lexicon::{Surface, start_of};
use std::alloc::AllocError;

/// Makes `_`.
#[tactic(auto, unfolding(ink_forms::specs::Numbers::number_pat))]
fn push_wildcard(arena: &mut Arena, start: u32) -> Result<PatternId, AllocError>
    ensures made { IfOk result (makes.IsPat (tree.Wildcard (makes.here start)) arena.old arena.new) }
    ensures below { IfOk result (λ n. n < view.count arena.new) }
    ensures keeps { view.Keeps arena.old arena.new }
{
    let number = arena.push_pattern(start, start, Pattern::Wildcard)?;
    Ok(number)
}

/// Makes the pattern of a literal.
#[tactic(auto, unfolding(ink_forms::specs::Numbers::number_pat))]
pub fn push_literal_pattern(
    arena: &mut Arena,
    start: u32,
    literal: Literal,
) -> Result<PatternId, AllocError>
    ensures made { IfOk result (makes.IsPat (tree.LitPat (makes.here start) literal) arena.old arena.new) }
    ensures below { IfOk result (λ n. n < view.count arena.new) }
    ensures keeps { view.Keeps arena.old arena.new }
{
    let number = arena.push_pattern(start, start, Pattern::Lit { literal })?;
    Ok(number)
}

/// Makes the pattern that binds a variable.
#[tactic(auto, unfolding(ink_forms::specs::Numbers::number_pat))]
pub fn push_name(
    arena: &mut Arena,
    start: u32,
    is_mutable: bool,
    name: NameId,
) -> Result<PatternId, AllocError>
    ensures made { IfOk result (makes.IsPat (tree.Name (makes.here start) is_mutable name) arena.old arena.new) }
    ensures below { IfOk result (λ n. n < view.count arena.new) }
    ensures keeps { view.Keeps arena.old arena.new }
{
    let number = arena.push_pattern(start, start, Pattern::Name { is_mutable, name })?;
    Ok(number)
}

/// Makes a constructor or a tuple over its parts.
pub fn push_constructor(
    arena: &mut Arena,
    start: u32,
    made: Made,
    numbers: &[PatternId],
) -> Result<PatternId, AllocError>
    requires { All (view.IsBefore (view.count arena.old)) numbers.now }
    ensures made { IfOk result (makes.IsPatOverAll numbers.now (λ trees. tree.Constructor (makes.here start) made (tree.pats trees)) arena.old arena.new) }
    ensures below { IfOk result (λ n. n < view.count arena.new) }
    ensures keeps { view.Keeps arena.old arena.new }
{
    let parts = arena.add_list(numbers)?;
    let number = arena.push_pattern(start, start, Pattern::Constructor { made, parts })?;
    Ok(number)
}

/// Makes the pattern of any of these.
fn push_either(
    arena: &mut Arena,
    start: u32,
    numbers: &[PatternId],
) -> Result<PatternId, AllocError>
    requires { All (view.IsBefore (view.count arena.old)) numbers.now }
    ensures made { IfOk result (makes.IsPatOverAll numbers.now (λ trees. tree.Either (makes.here start) (tree.pats trees)) arena.old arena.new) }
    ensures below { IfOk result (λ n. n < view.count arena.new) }
    ensures keeps { view.Keeps arena.old arena.new }
{
    let alternatives = arena.add_list(numbers)?;
    let number = arena.push_pattern(start, start, Pattern::Either { alternatives })?;
    Ok(number)
}

/// Makes the pattern of an object with these fields.
fn push_fields(
    arena: &mut Arena,
    start: u32,
    made: &[FieldPattern],
) -> Result<PatternId, AllocError>
    requires { All (view.IsFieldBefore (view.count arena.old)) made.now }
    ensures made { IfOk result (makes.IsPatOverFields made.now (λ trees. tree.Fields (makes.here start) (tree.field_pats trees)) arena.old arena.new) }
    ensures below { IfOk result (λ n. n < view.count arena.new) }
    ensures keeps { view.Keeps arena.old arena.new }
{
    let fields = arena.add_fields(made)?;
    let number = arena.push_pattern(start, start, Pattern::Fields { fields })?;
    Ok(number)
}

/// The patterns of these nodes, in their order.
#[cycle(patterns)]
fn patterns(
    surface: &Surface,
    arena: &mut Arena,
    depth: u32,
    items: &[u32],
) -> Result<Vec<PatternId>, AllocError>
    ensures made { IfOk result (λ numbers. makes.ArePats (table.patterns_at surface.now items.now) arena.old arena.new numbers.items) }
    ensures below { IfOk result (λ numbers. All (view.IsBefore (view.count arena.new)) numbers.items) }
    ensures keeps { view.Keeps arena.old arena.new }
{
    let mut numbers = Vec::new(surface.alloc);
    for item in items {
        let number = pattern(surface, arena, depth, *item)?;
        numbers.push(number)?;
    }
    Ok(numbers)
}

/// The field patterns of these fields, in their order.
#[cycle(patterns)]
fn field_patterns(
    surface: &Surface,
    arena: &mut Arena,
    depth: u32,
    fields: &[FieldPart],
) -> Result<Vec<FieldPattern>, AllocError>
    ensures made { IfOk result (λ made. makes.AreFields (map (table.field_at surface.now) fields.now) arena.old arena.new made.items) }
    ensures below { IfOk result (λ made. All (view.IsFieldBefore (view.count arena.new)) made.items) }
    ensures keeps { view.Keeps arena.old arena.new }
{
    let mut made = Vec::new(surface.alloc);
    for named in fields {
        let pattern = pattern(surface, arena, depth, named.part)?;
        let field = named.field;
        made.push(FieldPattern { field, pattern })?;
    }
    Ok(made)
}

/// The pattern of a node, which may have so many patterns in one another.
#[cycle(patterns)]
pub fn pattern(
    surface: &Surface,
    arena: &mut Arena,
    depth: u32,
    number: u32,
) -> Result<PatternId, AllocError>
    ensures made { IfOk result (makes.IsPat (table.pattern_at surface.now number) arena.old arena.new) }
    ensures below { IfOk result (λ n. n < view.count arena.new) }
    ensures keeps { view.Keeps arena.old arena.new }
{
    let left = deeper(depth)?;
    let start = start_of(surface.module, number);
    match pattern_form(surface, number)? {
        PatternForm::Wildcard => push_wildcard(arena, start),
        PatternForm::Lit { literal } => push_literal_pattern(arena, start, literal),
        PatternForm::Name { is_mutable, name } => push_name(arena, start, is_mutable, name),
        PatternForm::Constructor { made, parts } => {
            let numbers = patterns(surface, arena, left, &parts)?;
            push_constructor(arena, start, made, &numbers)
        }
        PatternForm::Either { alternatives } => {
            let numbers = patterns(surface, arena, left, &alternatives)?;
            push_either(arena, start, &numbers)
        }
        PatternForm::Fields { fields } => {
            let made = field_patterns(surface, arena, left, &fields)?;
            push_fields(arena, start, &made)
        }
    }
}
