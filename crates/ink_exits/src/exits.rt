//! The exits, each with the variables that it leaves.
ghost use Rattle.std.specs.Prelude.{◌≡◌, [], IfOk, OnOk, slice_set, replicate};
ghost use Rattle.ink_exits.specs.Exits as spec;
ghost use Rattle.ink_forms.specs.Views as view;

use ink_forms::{Arena, Children};
use std::alloc::{AllocError, Global};
use std::marker::Model;

/// The greatest number of variables that all exits leave.
const MOST_VARIABLES: usize = 0x8000_0000;

/// So many lists without items.
fn no_parts(alloc: Global, count: usize) -> Result<Vec<Children>, AllocError>
    ensures { IfOk result (λ table. table.items ≡ replicate count spec.no_part) }
{
    let mut table = Vec::new(alloc);
    for _ in 0..count {
        table.push(Children { start: 0, end: 0 })?;
    }
    Ok(table)
}

/// Puts a list in the place of another, where there is one.
fn set_part(table: &mut Vec<Children>, number: u32, part: Children)
    ensures { table.new.items ≡ slice_set table.old.items number part }
{
    if let Some(old) = table.get_mut(number as usize) {
        *old = part;
    }
}

/// What each node leaves, where it is an exit: seen as a list with an entry for each node of an arena. In an entry the
/// variables stand in the order in which they are declared; they are dropped from the last to the first.
#[derive(Drop)]
pub struct Exits {
    table: Vec<Children>,
    variables: Vec<u32>,
}

impl Model for Exits {
    ghost use Rattle.std.specs.Prelude.{ℕ, List, map, length, slice_range, All, ◌≤◌};

    ghost Value = { List (List ℕ) };

    ghost view = { λ s. map (λ c. slice_range s.variables.items c.start c.end) s.table.items };

    ghost invariant = { λ s. All (λ c. (c.start ≤ c.end) × (c.end ≤ length s.variables.items)) s.table.items };
}

impl Exits {
    /// No exits, for the nodes of this arena.
    #[tactic(auto, using(crate::proofs::Tables::new_shows, crate::proofs::Tables::none_are_parts))]
    pub fn new(alloc: Global, arena: &Arena) -> Result<Exits, AllocError>
        ensures { IfOk result (λ exits. exits ≡ replicate (view.count arena.now) []) }
    {
        let table = no_parts(alloc, arena.len())?;
        let variables = Vec::new(alloc);
        Ok(Exits { table, variables })
    }

    /// The variables that this exit leaves, in the order in which they are declared. What is no exit leaves none.
    pub fn leaves(&self, exit: u32) -> &[u32]
        ensures { result.now ≡ spec.left self.now exit }
    {
        match self.table.get(exit as usize) {
            Some(part) => &self.variables[part.start as usize..part.end as usize],
            None => &[],
        }
    }

    /// Puts what an exit leaves. The greatest number of variables is want of memory too.
    pub(crate) fn put(&mut self, exit: u32, left: &[u32]) -> Result<(), AllocError>
        ensures { OnOk result (self.new ≡ spec.put exit left.now self.old) }
    {
        let start = self.variables.len();
        if start >= MOST_VARIABLES || left.len() >= 0x7fff_ffff {
            return Err(AllocError);
        }
        self.variables.extend_from_slice(left)?;
        let part = Children {
            start: start as u32,
            end: start as u32 + left.len() as u32,
        };
        set_part(&mut self.table, exit, part);
        Ok(())
    }
}
