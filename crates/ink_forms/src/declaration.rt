//! Declarations, in which methods, parameters and written types are numbers of nodes.

use crate::method::{MethodId, Mode, ParameterId};
use crate::word::Identifier;
use crate::written::WrittenTypeId;

/// An import, which starts at its word. One that names nothing has no names.
#[derive(Drop)]
pub struct Import {
    pub start: u32,
    pub path: Vec<Identifier>,
    pub names: Vec<Identifier>,
}

/// A type parameter and the traits that bound it.
#[derive(Drop)]
pub struct TypeParameter {
    pub name: Identifier,
    pub bounds: Vec<Identifier>,
}

/// What a declared type is.
#[derive(Clone, Copy)]
pub enum TypeForm {
    Plain,
    Async,
    Enum,
}

/// A type, which starts at its word.
#[derive(Drop)]
pub struct TypeDeclaration {
    pub start: u32,
    pub form: TypeForm,
    pub is_public: bool,
    pub name: Identifier,
    pub parameters: Vec<TypeParameter>,
    pub members: Vec<Member>,
}

/// A member of a type, in the order of the source.
#[derive(Drop)]
pub enum Member {
    Field(Field),
    Constructor(Constructor),
    Method(MethodDeclaration),
}

/// A field, which starts at its `let`.
#[derive(Clone, Copy)]
pub struct Field {
    pub start: u32,
    pub is_public: bool,
    pub is_mutable: bool,
    pub name: Identifier,
    pub annotation: WrittenTypeId,
}

/// A constructor of an enum, which starts at its `case`.
#[derive(Drop)]
pub struct Constructor {
    pub start: u32,
    pub name: Identifier,
    pub types: Vec<WrittenTypeId>,
}

/// A method with a body. Its mode, its parameters and its body stand in its node, where it starts at its `fn`.
#[derive(Drop)]
pub struct MethodDeclaration {
    pub method: MethodId,
    pub is_public: bool,
    pub name: Identifier,
    pub type_parameters: Vec<TypeParameter>,
    pub result: Option<WrittenTypeId>,
}

/// A method of a trait, which has no body, and starts at its `fn`.
#[derive(Drop)]
pub struct TraitMethod {
    pub start: u32,
    pub is_public: bool,
    pub mode: Mode,
    pub name: Identifier,
    pub parameters: Vec<ParameterId>,
    pub result: Option<WrittenTypeId>,
}

/// A trait, which starts at its word.
#[derive(Drop)]
pub struct Trait {
    pub start: u32,
    pub is_public: bool,
    pub name: Identifier,
    pub methods: Vec<TraitMethod>,
}

/// Methods of a type, and the trait that they implement, if one is named. It starts at its `impl`.
#[derive(Drop)]
pub struct Implementation {
    pub start: u32,
    pub of_trait: Option<Identifier>,
    pub name: Identifier,
    pub methods: Vec<MethodDeclaration>,
}

/// A declaration of a module.
#[derive(Drop)]
pub enum Declaration {
    Type(TypeDeclaration),
    Trait(Trait),
    Implementation(Implementation),
    Method(MethodDeclaration),
}

/// What a module declares, in the order of the source.
#[derive(Drop)]
pub struct Declarations {
    pub imports: Vec<Import>,
    pub declarations: Vec<Declaration>,
}
