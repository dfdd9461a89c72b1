//! What the name of a node stands for.
ghost use Rattle.std.specs.Prelude.{◌≡◌, IfOk, slice_set, replicate};
ghost use Rattle.ink_names.specs.Resolutions as spec;

use crate::kind::KindId;
use crate::methods::MethodNumber;
use std::alloc::{AllocError, Global};
use std::marker::Model;

/// What a name stands for.
///
/// In an expression a variable, `self`, a method of the module, a constructor, or the type before a static method; in a
/// written type a type or a type parameter; in a pattern the variable that a name binds, or a built-in constructor. Which
/// constructor of a declared enum a pattern is of rests on what is matched, so that nothing stands there.
#[derive(Clone, Copy)]
pub enum Resolution {
    /// The node has no name, or one that rests on a type.
    Nothing,
    /// A variable, by the first node that declares it: a parameter, a `let` or the name in a pattern.
    Variable(u32),
    /// `self`, by the node of its method.
    SelfOf(u32),
    /// A method of the module.
    Method(MethodNumber),
    /// A type by its name.
    Kind(KindId),
    /// `Self` in the braces of this type, or of an impl for it: that type with its own parameters.
    SelfType(KindId),
    /// A constructor, by its place in its type.
    Constructor { kind: KindId, index: u32 },
    /// A type parameter. Those of a type come before those of its method; in a trait `Self` is the first.
    TypeParameter(u32),
}

/// So many times nothing.
fn nothing(alloc: Global, count: usize) -> Result<Vec<Resolution>, AllocError>
    ensures { IfOk result (λ table. table.items ≡ replicate count Resolution.Nothing) }
{
    let mut table = Vec::new(alloc);
    for _ in 0..count {
        table.push(Resolution::Nothing)?;
    }
    Ok(table)
}

/// Puts what a name stands for in the place of what was there, if there is such a place.
fn set_at(table: &mut Vec<Resolution>, node: u32, of: Resolution)
    ensures { table.new.items ≡ slice_set table.old.items node of }
{
    if let Some(old) = table.get_mut(node as usize) {
        *old = of;
    }
}

/// What the name of each node stands for, seen as a list with an entry for each node.
#[derive(Drop)]
pub struct Resolutions {
    table: Vec<Resolution>,
}

impl Model for Resolutions {
    ghost use Rattle.std.specs.Prelude.{List};
    ghost use Rattle.ink_names.specs.declared.resolution.Resolution.{Resolution};

    ghost Value = { List Resolution };

    ghost view = { λ s. s.table.items };
}

impl Resolutions {
    /// Nothing, for so many nodes.
    pub fn empty(alloc: Global, nodes: usize) -> Result<Resolutions, AllocError>
        ensures { IfOk result (λ s. s ≡ replicate nodes Resolution.Nothing) }
    {
        let table = nothing(alloc, nodes)?;
        Ok(Resolutions { table })
    }

    /// What the name of a node stands for. A number that is no node's has none.
    pub fn get(&self, node: u32) -> Resolution
        ensures { result ≡ spec.at self.now node }
    {
        match self.table.get(node as usize) {
            Some(found) => *found,
            None => Resolution::Nothing,
        }
    }

    /// Puts what the name of a node stands for, in the place of what was there. It leaves the other nodes, and does
    /// nothing where there is no such node.
    pub fn put(&mut self, node: u32, of: Resolution)
        ensures { self.new ≡ slice_set self.old node of }
    {
        set_at(&mut self.table, node, of);
    }
}
