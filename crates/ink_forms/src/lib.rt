//! The core form of a module as data: an arena of nodes, in which each node has one parent and comes after its children,
//! and the declarations over it.
//!
//! Expressions, patterns, written types, parameters and methods share one space of numbers. A reader takes any number,
//! and a contract sees what stands there as a tree. What a name means, where a node comes from, and what is done with it
//! is not known here.
#![tactic(auto)]

mod arena;
mod declaration;
mod expr;
mod list;
mod method;
mod node;
mod order;
mod pattern;
mod read;
mod word;
mod written;

pub use arena::Arena;
pub use declaration::{
    Constructor, Declaration, Declarations, Field, Implementation, Import, Member,
    MethodDeclaration, Trait, TraitMethod, TypeDeclaration, TypeForm, TypeParameter,
};
pub use expr::{Argument, Arm, Binding, Choice, Expr, ExprId, Operator, Selector};
pub use list::Children;
pub use method::{Method, MethodId, Mode, Parameter, ParameterId};
pub use node::{ExprNode, Form, MethodNode, Node, ParameterNode, PatternNode, WrittenNode};
pub use order::{Part, Step, early_steps, late_steps};
pub use pattern::{FieldPattern, Pattern, PatternId};
pub use word::{Identifier, IntegerId, Literal, Made, NameId, TextId};
pub use written::{Prefix, WrittenType, WrittenTypeId};
