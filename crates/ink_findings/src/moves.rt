//! What becomes of variables at exits.
ghost use Rattle.std.specs.Prelude.{◌≡◌, ℕ, None, Some, OnOk, OnErr};
ghost use Rattle.ink_findings.specs.Moves as spec;

use indexmap::IndexMap;
use std::alloc::{AllocError, Global};

/// What becomes of a variable at an exit: it holds its value on every path there, on none, or on some.
#[derive(Clone, Copy)]
pub enum Fate {
    Live,
    Gone,
    Maybe,
}

/// The fates of variables at exits.
///
/// An exit is named by a node: the end of a block by its block, that of an arm by its pattern, that of a body by its
/// method, and each jump by itself. A variable is named by the first node that declares it, and `self` by its method.
#[derive(Drop)]
pub struct Moves {
    fates: IndexMap<(u32, u32), Fate>,
}

impl Moves {
    /// No exits.
    pub fn empty(alloc: Global) -> Self
        ensures { (exit variable : ℕ) → spec.fate_of result exit variable ≡ None }
    {
        Moves {
            fates: IndexMap::new(alloc),
        }
    }

    /// The fate of a variable at an exit. There is none exactly where none was put.
    pub fn at(&self, exit: u32, variable: u32) -> Option<Fate>
        ensures { result ≡ spec.fate_of self.now exit variable }
    {
        self.fates.get(&(exit, variable)).copied()
    }

    /// Puts the fate of a variable at an exit, in the place of another. An `AllocError` is want of memory.
    pub fn put(&mut self, exit: u32, variable: u32, fate: Fate) -> Result<(), AllocError>
        ensures put { OnOk result (spec.fate_of self.new exit variable ≡ Some fate) }
        ensures others { OnOk result (spec.SameBut exit variable self.old self.new) }
        ensures refused { OnErr result (spec.Same self.old self.new) }
    {
        self.fates.insert((exit, variable), fate)?;
        Ok(())
    }
}
