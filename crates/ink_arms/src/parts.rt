//! The parts of an object, each with the pattern that it is matched with.
ghost use Rattle.std.specs.Prelude.{◌≡◌, ℕ, ◌<◌, All, IfOk, slice_set};
ghost use Rattle.ink_forms.specs.Views as view;
ghost use Rattle.ink_arms.specs.Parts as spec;

use crate::site::Site;
use ink_emit::LowerFault;
use ink_forms::{Children, FieldPattern, Pattern, PatternId};
use ink_names::KindId;
use std::alloc::{AllocError, Global};

/// A part of an object: its place among the fields, and its pattern, if one is written for it.
#[derive(Clone, Copy)]
pub(crate) struct Part {
    pub place: u32,
    pub pattern: Option<PatternId>,
}

/// So many parts without a pattern.
fn bare_parts(alloc: Global, count: u32) -> Result<Vec<Part>, AllocError>
    ensures { IfOk result (λ parts. (parent : ℕ) → All (spec.IsPartBefore parent) parts.items) }
{
    let mut parts = Vec::new(alloc);
    for place in 0..count {
        parts.push(Part {
            place,
            pattern: None,
        })?;
    }
    Ok(parts)
}

/// Puts a part in the place of another, if there is one.
fn set_part(parts: &mut Vec<Part>, part: Part)
    ensures { parts.new.items ≡ slice_set parts.old.items part.place part }
{
    if let Some(old) = parts.get_mut(part.place as usize) {
        *old = part;
    }
}

/// Gives the part at a place its pattern, where there is such a part. A pattern comes before the one that it stands in.
#[tactic(auto, using(crate::proofs::PartLemmas::set_before))]
fn put_pattern(parts: &mut Vec<Part>, parent: PatternId, place: u32, pattern: PatternId)
    requires { All (spec.IsPartBefore parent) parts.old.items }
    ensures { All (spec.IsPartBefore parent) parts.new.items }
{
    if pattern < parent {
        let part = Part {
            place,
            pattern: Some(pattern),
        };
        set_part(parts, part);
    }
}

/// Gives the part of a field its pattern, where there is such a field.
fn put_field(
    site: Site,
    parts: &mut Vec<Part>,
    parent: PatternId,
    kind: KindId,
    field: FieldPattern,
)
    requires { All (spec.IsPartBefore parent) parts.old.items }
    ensures { All (spec.IsPartBefore parent) parts.new.items }
{
    match site.context.checked.tables().field(kind, field.field.name) {
        None => {}
        Some(place) => put_pattern(parts, parent, place, field.pattern),
    }
}

/// Gives parts the patterns of a constructor, one after the other.
fn put_list(site: Site, parts: &mut Vec<Part>, parent: PatternId, list: Children)
    requires list { view.AreBefore site.arena.now parent list }
    requires parts { All (spec.IsPartBefore parent) parts.old.items }
    ensures { All (spec.IsPartBefore parent) parts.new.items }
{
    let mut place: u32 = 0;
    for pattern in site.arena.list(list) {
        put_pattern(parts, parent, place, *pattern);
        place = place.saturating_add(1);
    }
}

/// Gives parts the patterns of fields, by their names.
fn put_fields(site: Site, parts: &mut Vec<Part>, parent: PatternId, kind: KindId, list: Children)
    requires list { view.AreFieldsBefore site.arena.now parent list }
    requires parts { All (spec.IsPartBefore parent) parts.old.items }
    ensures { All (spec.IsPartBefore parent) parts.new.items }
{
    for field in site.arena.fields(list) {
        put_field(site, parts, parent, kind, *field);
    }
}

/// The parts of what a constructor, a tuple or a pattern of fields is matched with, in the order of its fields. Other
/// patterns have none that matter.
pub(crate) fn parts_of(site: Site, number: PatternId) -> Result<Vec<Part>, LowerFault>
    ensures { IfOk result (λ parts. All (spec.IsPartBefore number) parts.items) }
{
    let case = site.case_of(number);
    let mut parts = bare_parts(site.context.alloc, site.field_count(case))?;
    match site.arena.pattern(number).pattern {
        Pattern::Constructor { parts: list, .. } => put_list(site, &mut parts, number, list),
        Pattern::Fields { fields } => put_fields(site, &mut parts, number, case.kind, fields),
        _ => {}
    }
    Ok(parts)
}
