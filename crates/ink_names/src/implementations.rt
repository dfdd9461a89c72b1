//! Which type has which trait, and the methods that fill a trait's slots for a type.
ghost use Rattle.std.specs.Prelude.{◌≡◌, ℕ, true, false, None, Some, OnOk, OnErr};
ghost use Rattle.ink_names.specs.Implementations as spec;

use crate::kind::KindId;
use crate::methods::{MethodNumber, SlotNumber, TraitId};
use crate::pairs::Pairs;
use indexmap::IndexSet;
use std::alloc::{AllocError, Global};

/// The traits that types have, and the methods at their slots.
#[derive(Drop)]
pub struct Impls {
    methods: Pairs,
    traits: IndexSet<(u32, u32)>,
}

impl Impls {
    /// No impls.
    pub fn empty(alloc: Global) -> Self
        ensures methods { (kind slot : ℕ) → spec.method_of result kind slot ≡ None }
        ensures traits { (kind of : ℕ) → spec.has result kind of ≡ false }
    {
        Impls {
            methods: Pairs::new(alloc),
            traits: IndexSet::new(alloc),
        }
    }

    /// The method that a type has at a slot, if it has one.
    pub fn lookup(&self, kind: KindId, slot: SlotNumber) -> Option<MethodNumber>
        ensures { result ≡ spec.method_of self.now kind slot }
    {
        self.methods.get(kind, slot)
    }

    /// Whether a type has an impl of a trait.
    pub fn has(&self, kind: KindId, of_trait: TraitId) -> bool
        ensures { result ≡ spec.has self.now kind of_trait }
    {
        self.traits.contains(&(kind, of_trait))
    }

    /// Puts the method that a type has at a slot, in the place of another. An `AllocError` is want of memory.
    pub fn put(
        &mut self,
        kind: KindId,
        slot: SlotNumber,
        method: MethodNumber,
    ) -> Result<(), AllocError>
        ensures put { OnOk result (spec.method_of self.new kind slot ≡ Some method) }
        ensures others { OnOk result (spec.SameMethodsBut kind slot self.old self.new) }
        ensures traits { spec.SameTraits self.old self.new }
        ensures refused { OnErr result (spec.SameMethods self.old self.new) }
    {
        self.methods.put(kind, slot, method)
    }

    /// Puts that a type has an impl of a trait. An `AllocError` is want of memory.
    pub fn put_trait(&mut self, kind: KindId, of_trait: TraitId) -> Result<(), AllocError>
        ensures put { OnOk result (spec.has self.new kind of_trait ≡ true) }
        ensures others { OnOk result (spec.SameTraitsBut kind of_trait self.old self.new) }
        ensures methods { spec.SameMethods self.old self.new }
        ensures refused { OnErr result (spec.SameTraits self.old self.new) }
    {
        self.traits.insert((kind, of_trait))?;
        Ok(())
    }
}
