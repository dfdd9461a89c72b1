//! The tables of a module: what it declares, by numbers, what each name in it stands for, which type has which trait,
//! and the least refusal of a phase.
//!
//! Types, methods, traits and impls are entries of lists, and a number is a place there. Types are seen as they are
//! written: what a written type means is not known here, nor how the tables are filled, nor what is judged by them.
#![tactic(auto)]

mod built_in;
mod implementations;
mod kind;
mod least;
mod method_names;
mod methods;
mod pairs;
mod resolution;
mod tables;

pub use built_in::{BUILT_INS, BuiltIn};
pub use implementations::Impls;
pub use kind::{
    ConstructorEntry, FieldEntry, FieldType, KindEntry, KindId, KindName, TypeParameterEntry,
};
pub use least::{Broken, Least};
pub use method_names::MethodNames;
pub use methods::{
    Home, ImplEntry, ImplId, MethodEntry, MethodNumber, Named, SlotNumber, TraitEntry, TraitId,
    TraitMethodEntry,
};
pub use pairs::Pairs;
pub use resolution::{Resolution, Resolutions};
pub use tables::Tables;
