//! What code is made by.

use ink_checked::Checked;
use ink_emit::Constants;
use ink_plan::Registers;
use std::alloc::Global;

/// What is read while code is made of a module: the module itself, the registers of its variables, and the numbers of its
/// constants.
#[derive(Clone, Copy)]
pub struct Context<'a> {
    pub alloc: Global,
    pub checked: &'a Checked,
    pub registers: &'a Registers,
    pub constants: Constants,
}
