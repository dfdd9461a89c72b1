//! The drops at exits.
ghost use Rattle.std.specs.Prelude.{◌≡◌, ◌↔◌, IfOk, IsTrue, OnOk, option_to_list};
ghost use Rattle.ink_forms.specs.Views as view;
ghost use Rattle.ink_exits.specs.Exits.{left};
ghost use Rattle.ink_findings.specs.Moves.{fate_of};
ghost use Rattle.ink_plan.specs.Plans as spec;

use ink_checked::Checked;
use ink_exits::{Exits, add_method};
use ink_findings::{Fate, Moves};
use ink_forms::{Arena, Expr, ExprId};
use ink_names::{MethodEntry, Resolution};
use std::alloc::{AllocError, Global};

/// How a variable ends where it may hold its value: it does so on every path, or on some.
#[derive(Clone, Copy)]
pub enum How {
    Sure,
    Maybe,
}

/// A variable that ends at an exit, by the first node that declares it, or `self` by its method.
#[derive(Clone, Copy)]
pub struct Planned {
    pub variable: u32,
    pub how: How,
}

/// The plan of the drops of a module.
#[derive(Drop)]
pub struct DropPlan<'a> {
    exits: Exits,
    checked: &'a Checked,
}

/// How a variable with a fate ends. One that is gone doesn't.
fn how_of(fate: Option<Fate>) -> Option<How>
    ensures { result ≡ spec.how_of fate }
{
    match fate {
        None => Some(How::Sure),
        Some(Fate::Live) => Some(How::Sure),
        Some(Fate::Maybe) => Some(How::Maybe),
        Some(Fate::Gone) => None,
    }
}

/// Whether a variable is there on each path to an exit, or on none.
fn is_certain(moves: &Moves, exit: u32, variable: u32) -> bool
    ensures { IsTrue result ↔ spec.IsCertain moves.now exit variable }
{
    !matches!(moves.at(exit, variable), Some(Fate::Maybe))
}

/// Whether each of some is.
fn are_certain(moves: &Moves, exit: u32, variables: &[u32]) -> bool
    ensures { IsTrue result ↔ spec.AreCertain moves.now exit variables.now }
{
    variables
        .iter()
        .all(|variable| is_certain(moves, exit, *variable))
}

/// The variable that a name stands for, if it does.
fn variable_of(of: Resolution) -> Option<u32>
    ensures { option_to_list result ≡ spec.variable_of of }
{
    match of {
        Resolution::Variable(variable) => Some(variable),
        Resolution::SelfOf(method) => Some(method),
        _ => None,
    }
}

/// The variable that a place is, if it is one.
fn variable_at(checked: &Checked, place: ExprId) -> Option<u32>
    ensures { option_to_list result ≡ spec.variable_at checked.now.named.resolutions (view.term checked.now.core.arena place) }
{
    match checked.core().arena.expr(place).expr {
        Expr::Var { .. } => variable_of(checked.resolutions().get(place)),
        Expr::SelfValue => variable_of(checked.resolutions().get(place)),
        _ => None,
    }
}

/// The variable whose old value a write ends, if the node is such a write.
fn written(checked: &Checked, node: ExprId) -> Option<u32>
    ensures { option_to_list result ≡ spec.written checked.now.named.resolutions (view.term checked.now.core.arena node) }
{
    match checked.core().arena.expr(node).expr {
        Expr::Set { place, .. } => variable_at(checked, place),
        _ => None,
    }
}

/// Whether the variable that a node writes is there on each path to it, or on none.
fn is_write_certain(checked: &Checked, node: ExprId) -> bool
    ensures { IsTrue result ↔ spec.AreCertain checked.now.found.moves node (spec.written checked.now.named.resolutions (view.term checked.now.core.arena node)) }
{
    match written(checked, node) {
        Some(variable) => is_certain(checked.moves(), node, variable),
        None => true,
    }
}

/// Adds the exits of methods.
fn add_methods(
    alloc: Global,
    arena: &Arena,
    methods: &[MethodEntry],
    exits: &mut Exits,
) -> Result<(), AllocError>
    ensures { OnOk result (exits.new ≡ spec.exits_of_methods arena.now methods.now exits.old) }
{
    for entry in methods {
        add_method(alloc, arena, entry.node, exits)?;
    }
    Ok(())
}

/// The plan of the drops of a module. An `AllocError` is want of memory, or of numbers.
pub fn drop_plan<'a>(alloc: Global, checked: &'a Checked) -> Result<DropPlan<'a>, AllocError>
    ensures exits { IfOk result (λ plan. plan.exits ≡ spec.exits_of_module checked.now) }
    ensures checked { IfOk result (λ plan. plan.checked.now ≡ checked.now) }
{
    let arena = &checked.core().arena;
    let mut exits = Exits::new(alloc, arena)?;
    add_methods(alloc, arena, checked.tables().methods(), &mut exits)?;
    Ok(DropPlan { exits, checked })
}

impl DropPlan<'_> {
    /// What ends at an exit, the last declared first: each variable that the exit leaves and that isn't gone there.
    pub fn at(&self, alloc: Global, exit: u32) -> Result<Vec<Planned>, AllocError>
        ensures { IfOk result (λ planned. planned.items ≡ spec.planned self.now.checked.now.found.moves exit (left self.now.exits exit)) }
    {
        let mut planned = Vec::new(alloc);
        for variable in self.exits.leaves(exit) {
            if let Some(how) = self.how(exit, *variable) {
                planned.push(Planned {
                    variable: *variable,
                    how,
                })?;
            }
        }
        planned.reverse();
        Ok(planned)
    }

    /// How a variable ends at an exit, or before it is written where the exit is a write of it. `None` where it is gone.
    pub fn how(&self, exit: u32, variable: u32) -> Option<How>
        ensures { result ≡ spec.how_of (fate_of self.now.checked.now.found.moves exit variable) }
    {
        how_of(self.checked.moves().at(exit, variable))
    }

    /// Whether what ends at each node from one to before another is there on each path to that node, or on none. These
    /// are the variables that an exit leaves, and one that is written.
    pub fn is_certain(&self, first: u32, end: u32) -> bool
        ensures { IsTrue result ↔ spec.IsCertainBetween self.now.exits self.now.checked.now first end }
    {
        for node in first..end {
            if !self.is_certain_at(node) {
                return false;
            }
        }
        true
    }

    /// Whether what ends at a node is there on each path to it, or on none.
    fn is_certain_at(&self, node: u32) -> bool
        ensures { IsTrue result ↔ spec.IsCertainAt self.now.exits self.now.checked.now node }
    {
        self.are_left_certain(node) && is_write_certain(self.checked, node)
    }

    /// Whether what an exit leaves is there on each path to it, or on none.
    fn are_left_certain(&self, exit: u32) -> bool
        ensures { IsTrue result ↔ spec.AreCertain self.now.checked.now.found.moves exit (left self.now.exits exit) }
    {
        are_certain(self.checked.moves(), exit, self.exits.leaves(exit))
    }
}
