//! The code of a module: its methods, the constants, the names of types, and which method a type has in which slot.
//!
//! What the code of a method is, and where variables end, is said by the rooms below. That no code names what isn't there
//! is tested at the end, and so it holds of each code that is given out. Nothing here knows how a code is run.
#![tactic(auto)]

mod constants;
mod entry;
mod impls;
mod kinds;
mod methods;
mod whole;

pub use whole::lower;
