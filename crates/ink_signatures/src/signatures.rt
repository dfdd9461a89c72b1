//! The types of written types, by the numbers of their nodes.
ghost use Rattle.std.specs.Prelude.{◌≡◌, IfOk, None, Some, slice_set, replicate};
ghost use Rattle.ink_signatures.specs.Signatures as spec;

use ink_forms::WrittenTypeId;
use ink_types::TypeId;
use std::alloc::{AllocError, Global};
use std::marker::Model;

/// So many times no type.
fn nothing(alloc: Global, count: usize) -> Result<Vec<Option<TypeId>>, AllocError>
    ensures { IfOk result (λ table. table.items ≡ replicate count None) }
{
    let mut table = Vec::new(alloc);
    for _ in 0..count {
        table.push(None)?;
    }
    Ok(table)
}

/// Puts a type in the place of what was there, if there is such a place.
fn set_at(table: &mut Vec<Option<TypeId>>, node: u32, of: TypeId)
    ensures { table.new.items ≡ slice_set table.old.items node (Some of) }
{
    if let Some(old) = table.get_mut(node as usize) {
        *old = Some(of);
    }
}

/// The type of each written type, seen as a list with an entry for each node.
#[derive(Drop)]
pub struct Signatures {
    types: Vec<Option<TypeId>>,
}

impl Model for Signatures {
    ghost use Rattle.std.specs.Prelude.{ℕ, List, Option};

    ghost Value = { List (Option ℕ) };

    ghost view = { λ s. s.types.items };
}

impl Signatures {
    /// No types, for so many nodes.
    pub fn empty(alloc: Global, nodes: usize) -> Result<Signatures, AllocError>
        ensures { IfOk result (λ s. s ≡ replicate nodes None) }
    {
        let types = nothing(alloc, nodes)?;
        Ok(Signatures { types })
    }

    /// The type of a written type. There is none where none was put, and where there is no such node.
    pub fn type_of(&self, written: WrittenTypeId) -> Option<TypeId>
        ensures { result ≡ spec.at self.now written }
    {
        match self.types.get(written as usize) {
            Some(found) => *found,
            None => None,
        }
    }

    /// Puts the type of a written type, in the place of what was there. It leaves the others, and does nothing where there
    /// is no such node.
    pub fn put(&mut self, written: WrittenTypeId, of: TypeId)
        ensures { self.new ≡ slice_set self.old written (Some of) }
    {
        set_at(&mut self.types, written, of);
    }
}
