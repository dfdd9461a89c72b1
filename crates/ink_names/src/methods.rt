//! Methods, traits and impls, as entries: plain data.

use crate::kind::{KindId, TypeParameterEntry};
use ink_forms::{MethodId, Mode, NameId, ParameterId, WrittenTypeId};

/// The number of a method with a body, among all of a module.
pub type MethodNumber = u32;

/// The number of a trait.
pub type TraitId = u32;

/// The number of an impl.
pub type ImplId = u32;

/// The place of a trait's method among the methods of all traits, in order.
pub type SlotNumber = u32;

/// Where a method is declared.
#[derive(Clone, Copy)]
pub enum Home {
    Module,
    /// In the braces of its type.
    Type(KindId),
    /// In an impl for this type.
    Impl { kind: KindId, number: ImplId },
}

/// A method with a body. Its parameters and its mode stand at its node.
///
/// Type parameters are counted from those of its type, if it has one, to its own: the first of its own has the number
/// `inherited`.
#[derive(Drop)]
pub struct MethodEntry {
    pub name: NameId,
    pub home: Home,
    pub mode: Mode,
    pub is_async: bool,
    pub inherited: u32,
    pub type_parameters: Vec<TypeParameterEntry>,
    pub node: MethodId,
    /// None where no result is written.
    pub result: Option<WrittenTypeId>,
}

/// A method of a trait, whose parameters are nodes.
#[derive(Drop)]
pub struct TraitMethodEntry {
    pub name: NameId,
    pub mode: Mode,
    pub parameters: Vec<ParameterId>,
    /// None where no result is written.
    pub result: Option<WrittenTypeId>,
}

/// A trait. The slots of its methods follow one another from `first_slot`.
#[derive(Drop)]
pub struct TraitEntry {
    pub name: NameId,
    pub first_slot: SlotNumber,
    pub methods: Vec<TraitMethodEntry>,
}

/// An impl: the byte at which it is written, its type, its trait if it names one, and its methods in the order of the
/// source.
#[derive(Drop)]
pub struct ImplEntry {
    pub place: u32,
    pub kind: KindId,
    pub of_trait: Option<TraitId>,
    pub methods: Vec<MethodNumber>,
}

/// What a name stands for among the methods of a type: one method, or more than one.
#[derive(Clone, Copy)]
pub enum Named {
    One(MethodNumber),
    Several,
}
