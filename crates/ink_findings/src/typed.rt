//! The types of nodes, and what they call.
ghost use Rattle.std.specs.Prelude.{◌≡◌, IfOk, None, Some, replicate, slice_set, option_map};
ghost use Rattle.std.specs.Option.{option_and_then};
ghost use Rattle.ink_findings.specs.Typed as spec;

use ink_names::{MethodNumber, SlotNumber};
use ink_types::TypeId;
use std::alloc::{AllocError, Global};
use std::marker::Model;

/// What a node calls.
#[derive(Clone, Copy)]
pub enum Target {
    /// A method with a body.
    Method(MethodNumber),
    /// The method that fills this slot of a trait for the type of the receiver.
    Bound(SlotNumber),
    /// A built-in method, by its row.
    Row(u32),
}

/// What was found of a node: its type, and what it calls, if it calls something.
#[derive(Clone, Copy)]
pub struct Found {
    pub of: TypeId,
    pub target: Option<Target>,
}

/// So many times nothing.
fn nothing(alloc: Global, count: usize) -> Result<Vec<Option<Found>>, AllocError>
    ensures { IfOk result (λ table. table.items ≡ replicate count None) }
{
    let mut table = Vec::new(alloc);
    for _ in 0..count {
        table.push(None)?;
    }
    Ok(table)
}

/// Puts what was found in the place of what was there, if there is such a place.
fn set_at(table: &mut Vec<Option<Found>>, node: u32, found: Found)
    ensures { table.new.items ≡ slice_set table.old.items node (Some found) }
{
    if let Some(old) = table.get_mut(node as usize) {
        *old = Some(found);
    }
}

/// What was found of each node, seen as a list with an entry for each node.
#[derive(Drop)]
pub struct Typed {
    table: Vec<Option<Found>>,
}

impl Model for Typed {
    ghost use Rattle.std.specs.Prelude.{List, Option};
    ghost use Rattle.ink_findings.specs.declared.typed.Found.{Found};

    ghost Value = { List (Option Found) };

    ghost view = { λ s. s.table.items };
}

impl Typed {
    /// Nothing, for so many nodes.
    pub fn empty(alloc: Global, nodes: usize) -> Result<Typed, AllocError>
        ensures { IfOk result (λ s. s ≡ replicate nodes None) }
    {
        let table = nothing(alloc, nodes)?;
        Ok(Typed { table })
    }

    /// Puts what was found of a node, in the place of what was there. It leaves the other nodes, and does nothing where
    /// there is no such node.
    pub fn put(&mut self, node: u32, found: Found)
        ensures { self.new ≡ slice_set self.old node (Some found) }
    {
        set_at(&mut self.table, node, found);
    }

    /// What was found of a node. There is none exactly where none was put.
    pub fn get(&self, node: u32) -> Option<Found>
        ensures { result ≡ spec.at self.now node }
    {
        match self.table.get(node as usize) {
            Some(found) => *found,
            None => None,
        }
    }

    /// The type of a node. There is none exactly where none was put.
    pub fn type_of(&self, node: u32) -> Option<TypeId>
        ensures { result ≡ option_map (λ found. found.of) (spec.at self.now node) }
    {
        match self.get(node) {
            Some(found) => Some(found.of),
            None => None,
        }
    }

    /// What a node calls. There is none exactly where none was put.
    pub fn target(&self, node: u32) -> Option<Target>
        ensures { result ≡ option_and_then (λ found. found.target) (spec.at self.now node) }
    {
        match self.get(node) {
            Some(found) => found.target,
            None => None,
        }
    }
}
