//! What types are looked up in, and what goes through the module while that is done.

use crate::signatures::Signatures;
use ink_forms::Arena;
use ink_names::{Impls, KindId, Least, MethodNumber, Resolutions, Tables, TraitId};
use ink_types::{TypeId, Types};
use std::alloc::Global;

/// What stays the same all the time. Of `impls` the traits of types are asked, which have to stand there before.
#[derive(Clone, Copy)]
pub struct Room<'a> {
    pub alloc: Global,
    pub arena: &'a Arena,
    pub tables: &'a Tables,
    pub resolutions: &'a Resolutions,
    pub impls: &'a Impls,
    /// Each kind as a type with its own parameters, which is what `Self` stands for in its braces.
    pub own_types: &'a [TypeId],
}

/// What changes on the way: the least refusal so far, the types, and those of written types so far.
#[derive(Drop)]
pub struct State {
    pub least: Least,
    pub types: Types,
    pub signatures: Signatures,
}

/// What declares the type parameters that are in scope.
#[derive(Clone, Copy)]
pub enum Owner {
    /// A type.
    Kind(KindId),
    /// A method, and its type if it has one.
    Method(MethodNumber),
    /// A trait, in which the first type parameter is `Self`.
    Trait(TraitId),
}

/// Where a written type stands. In a body a type is judged only where its parts break no rule.
#[derive(Clone, Copy)]
pub struct Site {
    pub owner: Owner,
    pub is_in_body: bool,
}
