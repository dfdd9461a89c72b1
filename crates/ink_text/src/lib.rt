//! Bytes as text: whether they are UTF-8, which line and column a byte of them has, and the decimals of a number.
//!
//! All three are about the bytes of a source or of what a program prints, and nothing here knows what those mean.
#![tactic(auto)]

mod number;
mod place;
mod utf8;

pub use number::decimal;
pub use place::place_of;
pub use utf8::{NotUtf8, decode};
