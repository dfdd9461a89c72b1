//! The variables that patterns bind.
ghost use Rattle.ink_forms.specs.Views as view;

use crate::context::Context;
use crate::site::Site;
use ink_forms::{Children, Pattern, PatternId};
use ink_names::Resolution;

impl Site<'_> {
    /// The variable that a name stands for: that of the first alternative, where there are some.
    pub fn variable_of(&self, name: PatternId) -> u32 {
        match self.context.checked.resolutions().get(name) {
            Resolution::Variable(variable) => variable,
            _ => name,
        }
    }

    /// The register of the variable that a name stands for.
    pub fn register_of(&self, name: PatternId) -> u32 {
        self.context.registers.register(self.variable_of(name))
    }
}

/// Whether a pattern binds a variable.
#[cycle(names)]
pub(crate) fn is_bound_in(site: Site, number: PatternId, variable: u32) -> bool {
    match site.arena.pattern(number).pattern {
        Pattern::Wildcard | Pattern::Lit { .. } => false,
        Pattern::Name { .. } => site.variable_of(number) == variable,
        Pattern::Constructor { parts, .. } => is_bound_in_any(site, number, parts, variable),
        Pattern::Either { alternatives } => is_bound_in_any(site, number, alternatives, variable),
        Pattern::Fields { fields } => is_bound_in_fields(site, number, fields, variable),
    }
}

/// Whether some of these patterns binds a variable.
#[cycle(names)]
fn is_bound_in_any(site: Site, parent: PatternId, list: Children, variable: u32) -> bool
    requires { view.AreBefore site.arena.now parent list }
{
    for pattern in site.arena.list(list) {
        if is_bound_in(site, *pattern, variable) {
            return true;
        }
    }
    false
}

/// Whether the pattern of some of these fields binds a variable.
#[cycle(names)]
fn is_bound_in_fields(site: Site, parent: PatternId, list: Children, variable: u32) -> bool
    requires { view.AreFieldsBefore site.arena.now parent list }
{
    for field in site.arena.fields(list) {
        if is_bound_in(site, field.pattern, variable) {
            return true;
        }
    }
    false
}

/// Whether a pattern binds a variable, which is named by the first node that declares it.
pub fn binds(context: &Context, pattern: PatternId, variable: u32) -> bool {
    is_bound_in(Site::new(context, 0), pattern, variable)
}
