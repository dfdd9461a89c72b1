//! Type terms by their numbers, and the algebra of them: normal forms, what may be sent, borrowed or assigned,
//! substitution and matching.
//!
//! Equal terms have equal numbers. A contract sees a number as the tree that it stands for, and a number that is no
//! term's as Never, so that no call asks anything of its caller. A kind is known here by its number, and by whether it is
//! async: its name, its fields and its methods are not.
#![tactic(auto)]

mod fill;
mod kind;
mod make;
mod matching;
mod read;
mod term;
mod types;

pub use kind::{
    ARRAY, BOOL, FUTURE, INT, NEVER, NIL, OPTION, PROMISE, RESULT, STDOUT, STRING, TUPLE2, TUPLE3,
};
pub use term::{ArgumentList, BorrowFault, Term, TypeId};
pub use types::Types;
