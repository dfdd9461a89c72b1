//! The parts of a module that no phase refuses.
ghost use Rattle.std.specs.Prelude.{◌≡◌};

use ink_findings::{Moves, TypeArguments, Typed};
use ink_module::CoreModule;
use ink_names::{Impls, Resolutions, Tables};
use ink_signatures::Signatures;
use ink_types::{TypeId, Types};

/// What a module declares, and what each name in it stands for.
#[derive(Drop)]
pub struct Named {
    pub tables: Tables,
    pub resolutions: Resolutions,
}

/// The types of a module: their table, those of written types, those of its kinds with their own parameters, and which of
/// them has which trait by which methods.
#[derive(Drop)]
pub struct Settled {
    pub types: Types,
    pub signatures: Signatures,
    pub own_types: Vec<TypeId>,
    pub impls: Impls,
}

/// What was found in bodies: the types of nodes and what they call, the type arguments of calls and constructions, and
/// what becomes of variables at exits.
#[derive(Drop)]
pub struct Found {
    pub typed: Typed,
    pub arguments: TypeArguments,
    pub moves: Moves,
}

/// A module that no phase refuses.
#[derive(Drop)]
pub struct Checked {
    core: CoreModule,
    named: Named,
    settled: Settled,
    found: Found,
}

impl Checked {
    /// A module of these parts, which the phases found for it one after the other without a refusal.
    pub fn new(core: CoreModule, named: Named, settled: Settled, found: Found) -> Checked
        ensures core { result.core ≡ core }
        ensures named { result.named ≡ named }
        ensures settled { result.settled ≡ settled }
        ensures found { result.found ≡ found }
    {
        Checked {
            core,
            named,
            settled,
            found,
        }
    }

    /// Its core form.
    pub fn core(&self) -> &CoreModule
        ensures { result.now ≡ self.now.core }
    {
        &self.core
    }

    /// What it declares.
    pub fn tables(&self) -> &Tables
        ensures { result.now ≡ self.now.named.tables }
    {
        &self.named.tables
    }

    /// What each name in it stands for.
    pub fn resolutions(&self) -> &Resolutions
        ensures { result.now ≡ self.now.named.resolutions }
    {
        &self.named.resolutions
    }

    /// Its types.
    pub fn types(&self) -> &Types
        ensures { result.now ≡ self.now.settled.types }
    {
        &self.settled.types
    }

    /// The types of its written types.
    pub fn signatures(&self) -> &Signatures
        ensures { result.now ≡ self.now.settled.signatures }
    {
        &self.settled.signatures
    }

    /// Each kind as a type with its own parameters.
    pub fn own_types(&self) -> &[TypeId]
        ensures { result.now ≡ self.now.settled.own_types.items }
    {
        &self.settled.own_types
    }

    /// Which of its types has which trait, and by which methods.
    pub fn impls(&self) -> &Impls
        ensures { result.now ≡ self.now.settled.impls }
    {
        &self.settled.impls
    }

    /// The types of its nodes, and what they call.
    pub fn typed(&self) -> &Typed
        ensures { result.now ≡ self.now.found.typed }
    {
        &self.found.typed
    }

    /// The type arguments of its calls and constructions.
    pub fn arguments(&self) -> &TypeArguments
        ensures { result.now ≡ self.now.found.arguments }
    {
        &self.found.arguments
    }

    /// What becomes of its variables at exits.
    pub fn moves(&self) -> &Moves
        ensures { result.now ≡ self.now.found.moves }
    {
        &self.found.moves
    }
}
