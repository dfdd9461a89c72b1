//! Whether a pattern fits every value of its type.
ghost use Rattle.ink_forms.specs.Views as view;

use crate::site::Site;
use ink_forms::{Children, Literal, Pattern, PatternId};

/// Whether some value of its type may not fit a pattern, so that it has to be tested.
#[cycle(fitting)]
pub(crate) fn is_tested(site: Site, number: PatternId) -> bool {
    match site.arena.pattern(number).pattern {
        Pattern::Wildcard | Pattern::Name { .. } => false,
        Pattern::Lit { literal } => !matches!(literal, Literal::Nil),
        Pattern::Constructor { parts, .. } => {
            !site.is_single(site.kind_of(number)) || is_any_tested(site, number, parts)
        }
        Pattern::Either { alternatives } => are_all_tested(site, number, alternatives),
        Pattern::Fields { fields } => is_any_field_tested(site, number, fields),
    }
}

/// Whether some of these patterns has to be tested.
#[cycle(fitting)]
fn is_any_tested(site: Site, parent: PatternId, parts: Children) -> bool
    requires { view.AreBefore site.arena.now parent parts }
{
    for part in site.arena.list(parts) {
        if is_tested(site, *part) {
            return true;
        }
    }
    false
}

/// Whether each of these patterns has to be tested.
#[cycle(fitting)]
fn are_all_tested(site: Site, parent: PatternId, alternatives: Children) -> bool
    requires { view.AreBefore site.arena.now parent alternatives }
{
    for alternative in site.arena.list(alternatives) {
        if !is_tested(site, *alternative) {
            return false;
        }
    }
    true
}

/// Whether the pattern of some of these fields has to be tested.
#[cycle(fitting)]
fn is_any_field_tested(site: Site, parent: PatternId, fields: Children) -> bool
    requires { view.AreFieldsBefore site.arena.now parent fields }
{
    for field in site.arena.fields(fields) {
        if is_tested(site, field.pattern) {
            return true;
        }
    }
    false
}
