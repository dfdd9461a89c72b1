//! The methods of types by their names.
ghost use Rattle.std.specs.Prelude.{◌≡◌, ℕ, None, Some, OnOk, OnErr};
ghost use Rattle.ink_names.specs.MethodNames as spec;

use crate::kind::KindId;
use crate::methods::{MethodNumber, Named};
use crate::pairs::Pairs;
use indexmap::IndexSet;
use ink_forms::NameId;
use std::alloc::{AllocError, Global};

/// What names stand for among the methods of types. One that two methods of a type have stands for neither.
#[derive(Drop)]
pub struct MethodNames {
    numbers: Pairs,
    repeated: IndexSet<(u32, u32)>,
}

impl MethodNames {
    /// No methods.
    pub fn new(alloc: Global) -> Self
        ensures { (kind name : ℕ) → spec.named result kind name ≡ None }
    {
        MethodNames {
            numbers: Pairs::new(alloc),
            repeated: IndexSet::new(alloc),
        }
    }

    /// What a name stands for among the methods of a type.
    pub fn get(&self, kind: KindId, name: NameId) -> Option<Named>
        ensures { result ≡ spec.named self.now kind name }
    {
        if self.repeated.contains(&(kind, name)) {
            return Some(Named::Several);
        }
        match self.numbers.get(kind, name) {
            Some(number) => Some(Named::One(number)),
            None => None,
        }
    }

    /// Adds a method of a type. An `AllocError` is want of memory.
    pub fn add(
        &mut self,
        kind: KindId,
        name: NameId,
        number: MethodNumber,
    ) -> Result<(), AllocError>
        ensures added { OnOk result (spec.named self.new kind name ≡ Some (spec.with_method (spec.named self.old kind name) number)) }
        ensures others { OnOk result (spec.SameBut kind name self.old self.new) }
        ensures refused { OnErr result (spec.Same self.old self.new) }
    {
        if self.numbers.get(kind, name).is_none() {
            return self.numbers.put(kind, name, number);
        }
        self.repeated.insert((kind, name))?;
        Ok(())
    }
}
