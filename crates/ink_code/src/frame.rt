//! A frame: a method that runs.

use ink_base::{Items, Value};

/// A method that runs, with its registers.
#[derive(Debug, Drop)]
pub struct Frame {
    pub method: u32,
    /// The place of the instruction in work.
    pub place: u32,
    pub registers: Items<Value>,
}
