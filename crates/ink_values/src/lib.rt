//! Values, by the table of core forms.
//!
//! Each node of the grammar is read as one of a few forms over the nodes below it, those below are made first, and then
//! its own nodes over them. So only the walk along the tree calls itself. What a declaration is, and what a name means,
//! is not known here: a name alone is a variable, a name with arguments a method of the module.
#![tactic(auto)]

mod choices;
mod lists;
mod nodes;
mod over;
mod parts;
mod value_form;
mod values;

pub use values::value;
