//! Code: methods and what they name.
ghost use Rattle.std.specs.Prelude.{◌≡◌, ◌+◌, ◌<◌, ◌^◌, IfSome};
ghost use Rattle.std.specs.Option.{option_copied};
ghost use Rattle.ink_code.specs.Fetch.{fetch};

use crate::instr::Instr;
use crate::method::Method;
use ink_base::{Items, Text, Value};

/// The code of a program.
#[derive(Drop)]
pub struct Code {
    pub methods: Items<Method>,
    /// What `Const` gives: each is an Int, a Bool, Nil or a text.
    pub constants: Items<Value>,
    /// The name of each type.
    pub kinds: Items<Text>,
    /// Which methods `InvokeBound` calls.
    pub impls: Items<Impl>,
    /// The type of the first process.
    pub main_kind: u32,
    /// The method of its first message.
    pub main: u32,
}

/// A type has a method in a slot.
#[derive(Clone, Copy)]
pub struct Impl {
    pub kind: u32,
    pub slot: u32,
    pub method: u32,
}

impl Code {
    /// The instruction at a place of a method. `None` exactly past the last method or the end of its body.
    pub fn fetch(&self, method: u32, place: u32) -> Option<&Instr>
        ensures found { option_copied result ≡ fetch self.now method place }
        ensures room { IfSome result (λ _. place + 1 < 2 ^ 32) }
    {
        match self.methods.get(method as u64) {
            None => None,
            Some(method) => method.body.get(place as u64),
        }
    }
}
