//! What is found of the type parameters of one call.

use crate::open_parameters::is_open;
use ink_types::{NEVER, TypeId, Types};
use std::alloc::{AllocError, Global};

/// What came of a search for type arguments.
#[derive(Clone, Copy)]
pub enum Outcome {
    /// There is one for each parameter.
    Found,
    /// There is none for some parameter.
    Open,
    /// An argument from which one could be found has no type.
    Lost,
}

/// The type arguments that were found so far, each at the place of its parameter.
#[derive(Drop)]
pub struct Inference {
    found: Vec<Option<TypeId>>,
    is_lost: bool,
}

impl Inference {
    /// A search for so many type arguments, of which the first ones are given.
    pub fn new(alloc: Global, given: &[TypeId], count: u32) -> Result<Inference, AllocError> {
        let mut found = Vec::new(alloc);
        for index in 0..count {
            found.push(given.get(index as usize).copied())?;
        }
        Ok(Inference {
            found,
            is_lost: false,
        })
    }

    /// Finds what it can from the type that is expected of a result.
    pub fn expect(&mut self, types: &Types, outcome: TypeId, wanted: Option<TypeId>) {
        if let Some(wanted) = wanted {
            types.match_one_way(outcome, wanted, &mut self.found);
        }
    }

    /// Whether a type has a parameter for which nothing is found so far.
    pub fn is_open(&self, types: &Types, t: TypeId) -> bool {
        is_open(types, &self.found, t)
    }

    /// Finds what it can from an argument for a parameter of this type, which was open. An argument without a type leaves
    /// the search lost.
    pub fn learn(&mut self, types: &Types, parameter: TypeId, given: Option<TypeId>) {
        match given {
            Some(given) => {
                types.match_one_way(parameter, given, &mut self.found);
            }
            None => self.is_lost = true,
        }
    }

    /// Takes the search as lost.
    pub fn lose(&mut self) {
        self.is_lost = true;
    }

    /// What came of the search.
    pub fn outcome(&self) -> Outcome {
        if self.is_lost {
            return Outcome::Lost;
        }
        for place in &self.found {
            if place.is_none() {
                return Outcome::Open;
            }
        }
        Outcome::Found
    }

    /// The type arguments. Never stands for one that is open.
    pub fn arguments(&self, alloc: Global, types: &mut Types) -> Result<Vec<TypeId>, AllocError> {
        let never = types.of(NEVER, &[])?;
        let mut all = Vec::new(alloc);
        for place in &self.found {
            all.push(place.unwrap_or(never))?;
        }
        Ok(all)
    }

    /// A type with what was found put in for its parameters. There is none where one of them is open.
    pub fn put_in(
        &self,
        alloc: Global,
        types: &mut Types,
        t: TypeId,
    ) -> Result<Option<TypeId>, AllocError> {
        if self.is_open(types, t) {
            return Ok(None);
        }
        let arguments = self.arguments(alloc, types)?;
        let of = types.substitute(t, &arguments)?;
        Ok(Some(of))
    }
}
