//! Tables of what a module's words say: the spellings of its names, its integers, its texts, and where its lines begin.
//!
//! Each spelling, integer and text has one number, which stays its number as the tables grow. Behind the tables nothing
//! needs the source any more. What a name or a text is for is not known here.
#![tactic(auto)]

mod integers;
mod lines;
mod spellings;
mod unescaped;
mod value;

pub use integers::{IntegerId, Integers};
pub use lines::Lines;
pub use spellings::{NameId, Names, Spellings, TextId, Texts};
pub use unescaped::unescaped_part;
pub use value::integer_value;
