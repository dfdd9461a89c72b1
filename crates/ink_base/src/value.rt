//! Values, as variables, registers and the fields of objects hold them.
ghost use Rattle.std.specs.Prelude.{◌≡◌, IfOk};

use crate::ident::ObjectId;
use crate::text::Text;
use std::alloc::{AllocError, Global};

/// What a variable, a register or a field holds.
#[derive(Debug, Drop)]
pub enum Value {
    Int(i64),
    Bool(bool),
    Nil,
    Txt(Text),
    /// The owner of an object, of which there is one.
    Own(ObjectId),
    /// A borrow of an object.
    Bor(ObjectId),
    /// A reference to a process, by its number.
    Proc(u32),
    /// The reading end of a future, by the future's number.
    Future(u32),
    /// The end of a future at which its value is set.
    Promise(u32),
    /// No value: it was moved away, or none was put there yet.
    Empty,
}

impl Value {
    /// An equal value. Only a text takes memory.
    pub fn copy(&self, alloc: Global) -> Result<Value, AllocError>
        ensures { IfOk result (λ value. value ≡ self.now) }
    {
        Ok(match self {
            Value::Int(number) => Value::Int(*number),
            Value::Bool(truth) => Value::Bool(*truth),
            Value::Nil => Value::Nil,
            Value::Txt(text) => Value::Txt(text.copy(alloc)?),
            Value::Own(id) => Value::Own(*id),
            Value::Bor(id) => Value::Bor(*id),
            Value::Proc(process) => Value::Proc(*process),
            Value::Future(future) => Value::Future(*future),
            Value::Promise(future) => Value::Promise(*future),
            Value::Empty => Value::Empty,
        })
    }
}
