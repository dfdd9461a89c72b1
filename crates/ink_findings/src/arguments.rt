//! The type arguments of calls and constructions.
ghost use Rattle.std.specs.Prelude.{◌≡◌, ℕ, [], OnOk, OnErr};
ghost use Rattle.ink_findings.specs.Arguments as spec;

use indexmap::IndexMap;
use ink_types::TypeId;
use std::alloc::{AllocError, Global};

/// The type arguments that nodes have, in the order of the type parameters.
#[derive(Drop)]
pub struct TypeArguments {
    lists: IndexMap<u32, Vec<TypeId>>,
}

impl TypeArguments {
    /// No node has any.
    pub fn empty(alloc: Global) -> Self
        ensures { (node : ℕ) → spec.arguments_of result node ≡ [] }
    {
        TypeArguments {
            lists: IndexMap::new(alloc),
        }
    }

    /// The type arguments of a node. There are none where none were put.
    pub fn of(&self, node: u32) -> &[TypeId]
        ensures { result.now ≡ spec.arguments_of self.now node }
    {
        match self.lists.get(&node) {
            Some(list) => list.as_slice(),
            None => &[],
        }
    }

    /// Puts the type arguments of a node, in the place of others. An `AllocError` is want of memory.
    pub fn put(&mut self, alloc: Global, node: u32, arguments: &[TypeId]) -> Result<(), AllocError>
        ensures put { OnOk result (spec.arguments_of self.new node ≡ arguments.now) }
        ensures others { OnOk result (spec.SameBut node self.old self.new) }
        ensures refused { OnErr result (spec.Same self.old self.new) }
    {
        let list = Vec::from_slice(alloc, arguments)?;
        self.lists.insert(node, list)?;
        Ok(())
    }
}
