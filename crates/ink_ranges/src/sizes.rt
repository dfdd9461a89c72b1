//! How much there is of what instructions name.

/// How many registers and instructions a method has, and how many methods, constants and types its code has.
#[derive(Clone, Copy)]
pub struct Sizes {
    pub registers: u32,
    pub places: u64,
    pub methods: u64,
    pub constants: u64,
    pub kinds: u64,
}
