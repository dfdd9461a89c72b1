//! A method of a code.
ghost use Rattle.std.specs.Prelude.{◌<◌, ◌^◌, length};

use crate::instr::Instr;
use ink_base::{Items, Text};

/// A method.
#[derive(Drop)]
pub struct Method {
    /// Its name, as a report of a panic writes it.
    pub name: Text,
    /// How many registers it has.
    pub registers: u32,
    pub body: Items<Instr>,
    /// The line of the source that each instruction stands for.
    pub lines: Items<u32>,
    /// So a `u32` counts up to the end of the body.
    ghost counted: { length body < 2 ^ 32 },
}
