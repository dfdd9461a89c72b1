//! The tables of a module: lists of entries, each at its number, and the numbers of names within a type or a trait.
ghost use Rattle.std.specs.Prelude.{◌≡◌, ◌++◌, ◌∷◌, [], ℕ, None, Some, length, slice_get, IfOk, OnOk, OnErr};
ghost use Rattle.std.specs.Option.{option_copied};
ghost use Rattle.ink_names.specs.MethodNames as names;
ghost use Rattle.ink_names.specs.Pairs as pairs;
ghost use Rattle.ink_names.specs.Tables as spec;

use crate::kind::{KindEntry, KindId};
use crate::method_names::MethodNames;
use crate::methods::{
    ImplEntry, ImplId, MethodEntry, MethodNumber, Named, SlotNumber, TraitEntry, TraitId,
};
use crate::pairs::Pairs;
use ink_forms::NameId;
use std::alloc::{AllocError, Global};

/// The number of an entry behind so many others. The greatest number is want of memory too.
fn number_behind(count: usize) -> Result<u32, AllocError>
    ensures { IfOk result (λ n. n ≡ count) }
{
    if count >= u32::MAX as usize {
        return Err(AllocError);
    }
    Ok(count as u32)
}

/// What a module declares.
#[derive(Drop)]
pub struct Tables {
    kinds: Vec<KindEntry>,
    methods: Vec<MethodEntry>,
    traits: Vec<TraitEntry>,
    impls: Vec<ImplEntry>,
    fields: Pairs,
    constructors: Pairs,
    slots: Pairs,
    named: MethodNames,
}

impl Tables {
    /// Tables without entries.
    pub fn new(alloc: Global) -> Self
        ensures kinds { spec.kinds result ≡ [] }
        ensures methods { spec.methods result ≡ [] }
        ensures traits { spec.traits result ≡ [] }
        ensures impls { spec.impls result ≡ [] }
        ensures fields { (kind name : ℕ) → spec.field result kind name ≡ None }
        ensures constructors { (kind name : ℕ) → spec.constructor result kind name ≡ None }
        ensures slots { (number name : ℕ) → spec.slot result number name ≡ None }
        ensures named { (kind name : ℕ) → spec.method_named result kind name ≡ None }
    {
        Tables {
            kinds: Vec::new(alloc),
            methods: Vec::new(alloc),
            traits: Vec::new(alloc),
            impls: Vec::new(alloc),
            fields: Pairs::new(alloc),
            constructors: Pairs::new(alloc),
            slots: Pairs::new(alloc),
            named: MethodNames::new(alloc),
        }
    }

    /// All types, each at its kind.
    pub fn kinds(&self) -> &[KindEntry]
        ensures { result.now ≡ spec.kinds self.now }
    {
        &self.kinds
    }

    /// All methods with a body, each at its number.
    pub fn methods(&self) -> &[MethodEntry]
        ensures { result.now ≡ spec.methods self.now }
    {
        &self.methods
    }

    /// All traits, each at its number.
    pub fn traits(&self) -> &[TraitEntry]
        ensures { result.now ≡ spec.traits self.now }
    {
        &self.traits
    }

    /// All impls, each at its number.
    pub fn impls(&self) -> &[ImplEntry]
        ensures { result.now ≡ spec.impls self.now }
    {
        &self.impls
    }

    /// The type of a kind. There is none exactly past the last.
    pub fn kind(&self, kind: KindId) -> Option<&KindEntry>
        ensures { option_copied result ≡ slice_get (spec.kinds self.now) kind }
    {
        self.kinds.get(kind as usize)
    }

    /// The method of a number. There is none exactly past the last.
    pub fn method(&self, method: MethodNumber) -> Option<&MethodEntry>
        ensures { option_copied result ≡ slice_get (spec.methods self.now) method }
    {
        self.methods.get(method as usize)
    }

    /// The trait of a number. There is none exactly past the last.
    pub fn trait_entry(&self, number: TraitId) -> Option<&TraitEntry>
        ensures { option_copied result ≡ slice_get (spec.traits self.now) number }
    {
        self.traits.get(number as usize)
    }

    /// The impl of a number. There is none exactly past the last.
    pub fn impl_entry(&self, number: ImplId) -> Option<&ImplEntry>
        ensures { option_copied result ≡ slice_get (spec.impls self.now) number }
    {
        self.impls.get(number as usize)
    }

    /// The place of a field among those of a type, by its name.
    pub fn field(&self, kind: KindId, name: NameId) -> Option<u32>
        ensures { result ≡ spec.field self.now kind name }
    {
        self.fields.get(kind, name)
    }

    /// The place of a constructor in a declared enum, by its name.
    pub fn constructor(&self, kind: KindId, name: NameId) -> Option<u32>
        ensures { result ≡ spec.constructor self.now kind name }
    {
        self.constructors.get(kind, name)
    }

    /// The slot of a trait's method, by its name.
    pub fn slot(&self, number: TraitId, name: NameId) -> Option<SlotNumber>
        ensures { result ≡ spec.slot self.now number name }
    {
        self.slots.get(number, name)
    }

    /// What a name stands for among the methods of a type, in its braces and in all impls for it.
    pub fn method_named(&self, kind: KindId, name: NameId) -> Option<Named>
        ensures { result ≡ spec.method_named self.now kind name }
    {
        self.named.get(kind, name)
    }

    /// Adds a type, and gives its kind. An `AllocError` is want of memory, or of numbers.
    pub fn add_kind(&mut self, entry: KindEntry) -> Result<KindId, AllocError>
        ensures number { IfOk result (λ n. n ≡ length (spec.kinds self.old)) }
        ensures added { OnOk result (spec.kinds self.new ≡ spec.kinds self.old ++ entry ∷ []) }
        ensures refused { OnErr result (spec.kinds self.new ≡ spec.kinds self.old) }
        ensures others { spec.SameButKinds self.old self.new }
    {
        let number = number_behind(self.kinds.len())?;
        self.kinds.push(entry)?;
        Ok(number)
    }

    /// Adds a method, and gives its number. An `AllocError` is want of memory, or of numbers.
    pub fn add_method(&mut self, entry: MethodEntry) -> Result<MethodNumber, AllocError>
        ensures number { IfOk result (λ n. n ≡ length (spec.methods self.old)) }
        ensures added { OnOk result (spec.methods self.new ≡ spec.methods self.old ++ entry ∷ []) }
        ensures refused { OnErr result (spec.methods self.new ≡ spec.methods self.old) }
        ensures others { spec.SameButMethods self.old self.new }
    {
        let number = number_behind(self.methods.len())?;
        self.methods.push(entry)?;
        Ok(number)
    }

    /// Adds a trait, and gives its number. An `AllocError` is want of memory, or of numbers.
    pub fn add_trait(&mut self, entry: TraitEntry) -> Result<TraitId, AllocError>
        ensures number { IfOk result (λ n. n ≡ length (spec.traits self.old)) }
        ensures added { OnOk result (spec.traits self.new ≡ spec.traits self.old ++ entry ∷ []) }
        ensures refused { OnErr result (spec.traits self.new ≡ spec.traits self.old) }
        ensures others { spec.SameButTraits self.old self.new }
    {
        let number = number_behind(self.traits.len())?;
        self.traits.push(entry)?;
        Ok(number)
    }

    /// Adds an impl, and gives its number. An `AllocError` is want of memory, or of numbers.
    pub fn add_impl(&mut self, entry: ImplEntry) -> Result<ImplId, AllocError>
        ensures number { IfOk result (λ n. n ≡ length (spec.impls self.old)) }
        ensures added { OnOk result (spec.impls self.new ≡ spec.impls self.old ++ entry ∷ []) }
        ensures refused { OnErr result (spec.impls self.new ≡ spec.impls self.old) }
        ensures others { spec.SameButImpls self.old self.new }
    {
        let number = number_behind(self.impls.len())?;
        self.impls.push(entry)?;
        Ok(number)
    }

    /// Gives a field of a type this place by its name. An `AllocError` is want of memory.
    pub fn put_field(&mut self, kind: KindId, name: NameId, place: u32) -> Result<(), AllocError>
        ensures put { OnOk result (spec.field self.new kind name ≡ Some place) }
        ensures others { OnOk result (pairs.SameBut kind name self.old.fields self.new.fields) }
        ensures refused { OnErr result (pairs.Same self.old.fields self.new.fields) }
        ensures rest { spec.SameButFields self.old self.new }
    {
        self.fields.put(kind, name, place)
    }

    /// Gives a constructor of an enum this place by its name. An `AllocError` is want of memory.
    pub fn put_constructor(
        &mut self,
        kind: KindId,
        name: NameId,
        place: u32,
    ) -> Result<(), AllocError>
        ensures put { OnOk result (spec.constructor self.new kind name ≡ Some place) }
        ensures others { OnOk result (pairs.SameBut kind name self.old.constructors self.new.constructors) }
        ensures refused { OnErr result (pairs.Same self.old.constructors self.new.constructors) }
        ensures rest { spec.SameButConstructors self.old self.new }
    {
        self.constructors.put(kind, name, place)
    }

    /// Gives a trait's method this slot by its name. An `AllocError` is want of memory.
    pub fn put_slot(
        &mut self,
        number: TraitId,
        name: NameId,
        slot: SlotNumber,
    ) -> Result<(), AllocError>
        ensures put { OnOk result (spec.slot self.new number name ≡ Some slot) }
        ensures others { OnOk result (pairs.SameBut number name self.old.slots self.new.slots) }
        ensures refused { OnErr result (pairs.Same self.old.slots self.new.slots) }
        ensures rest { spec.SameButSlots self.old self.new }
    {
        self.slots.put(number, name, slot)
    }

    /// Adds a method of a type to those of its name. An `AllocError` is want of memory.
    pub fn put_method(
        &mut self,
        kind: KindId,
        name: NameId,
        method: MethodNumber,
    ) -> Result<(), AllocError>
        ensures put { OnOk result (spec.method_named self.new kind name ≡ Some (names.with_method (spec.method_named self.old kind name) method)) }
        ensures others { OnOk result (names.SameBut kind name self.old.named self.new.named) }
        ensures refused { OnErr result (names.Same self.old.named self.new.named) }
        ensures rest { spec.SameButNamed self.old self.new }
    {
        self.named.add(kind, name, method)
    }
}
