//! The values that wait to be dropped.
ghost use Rattle.std.specs.Prelude.{◌≡◌, ◌+◌, ◌≤◌, ◌∷◌, ◌++◌, [], drop, length, reverse, slice_get, IfErr, MatchOption, OnErr, OnOk};
ghost use Rattle.std.specs.Option.{option_copied};
ghost use Rattle.std.specs.Vec.{vec_capacity, vec_len};
ghost use Rattle.ink_proc.specs.Answers.{IsTakeApartAnswer, IsWaitAnswer};

use crate::fault::{TakeApartFault, WaitFault};
use crate::frames::Frames;
use ink_base::{Items, ObjectId, Value};
use ink_heap::{FreeFault, Heap};
use std::alloc::{AllocFailed, Global};
use std::marker::Model;

/// Values that wait to be dropped, seen as a list with the next in front.
#[derive(Debug, Drop)]
pub struct Pending {
    items: Vec<Value>,
}

impl Model for Pending {
    ghost use Rattle.std.specs.Prelude.{List, reverse};
    ghost use Rattle.ink_base.specs.declared.value.Value.{Value as OneValue};

    ghost Value = { List OneValue };

    ghost view = { λ pending. reverse pending.items.items };
}

impl Pending {
    /// No values.
    pub fn new(alloc: Global) -> Pending
        ensures { result ≡ [] }
    {
        Pending {
            items: Vec::new(alloc),
        }
    }

    /// How many wait.
    pub fn len(&self) -> u64
        ensures { result ≡ length self.now }
    {
        self.items.len() as u64
    }

    /// The next one. `None` exactly where none waits.
    pub fn first(&self) -> Option<&Value>
        ensures { option_copied result ≡ slice_get self.now 0 }
    {
        let count = self.items.len();
        if count == 0 {
            None
        } else {
            Some(&self.items[count - 1])
        }
    }

    /// Puts a value in front. Where there is no memory for it, it comes back and all is as before.
    pub fn push(&mut self, value: Value) -> Result<(), AllocFailed<Value>>
        ensures ok { OnOk result (self.new ≡ value ∷ self.old) }
        ensures err { OnErr result (self.new ≡ self.old) }
        ensures back { IfErr result (λ failed. failed.value ≡ value) }
    {
        self.items.push(value)
    }

    /// Puts values in front, the first of them foremost. Without memory they come back and all is as before.
    pub fn push_all(&mut self, values: Items<Value>) -> Result<(), Items<Value>>
        ensures ok { OnOk result (self.new ≡ values ++ self.old) }
        ensures err { OnErr result (self.new ≡ self.old) }
        ensures back { IfErr result (λ back. back ≡ values) }
    {
        if self.items.reserve(values.len() as usize).is_err() {
            return Err(values);
        }
        put_in_front(&mut self.items, values);
        Ok(())
    }

    /// Puts the value of a register of the innermost frame in front. The register is empty then.
    pub fn push_from(&mut self, frames: &mut Frames, number: u32) -> Result<(), WaitFault>
        ensures { IsWaitAnswer result frames.old frames.new self.old self.new number }
    {
        if self.items.reserve(1).is_err() {
            return Err(WaitFault::OutOfMemory);
        }
        match frames.take(number) {
            Err(why) => Err(WaitFault::Wrong(why)),
            Ok(value) => {
                self.items.push_reserved(value);
                Ok(())
            }
        }
    }

    /// Takes the next one away. `None` exactly where none waits.
    pub fn pop(&mut self) -> Option<Value>
        ensures cases { MatchOption result ((self.old ≡ []) × (self.new ≡ [])) (λ value. self.old ≡ value ∷ self.new) }
        ensures rest { self.new ≡ drop 1 self.old }
    {
        self.items.pop()
    }

    /// Takes an object out of a heap, whose owner is the next one: its fields wait in the owner's place.
    pub fn take_apart(&mut self, heap: &mut Heap, id: &ObjectId) -> Result<(), TakeApartFault>
        ensures { IsTakeApartAnswer result heap.old.objects heap.new.objects self.old self.new id.now }
    {
        let size = match heap.size(id) {
            None => return Err(TakeApartFault::Absent),
            Some(size) => size,
        };
        if self.items.reserve(size as usize).is_err() {
            return Err(TakeApartFault::OutOfMemory);
        }
        match heap.free(id) {
            Err(FreeFault::Absent) => Err(TakeApartFault::Absent),
            Err(FreeFault::Borrowed(count)) => Err(TakeApartFault::Borrowed(count)),
            Ok(fields) => {
                self.items.pop();
                put_in_front(&mut self.items, fields);
                Ok(())
            }
        }
    }
}

/// Puts values behind the others, the first of them last, where there is room for them.
fn put_in_front(items: &mut Vec<Value>, mut values: Items<Value>)
    requires { vec_len items.old + length values ≤ vec_capacity items.old }
    ensures { reverse items.new.items ≡ values ++ reverse items.old.items }
{
    while let Some(value) = values.pop() {
        items.push_reserved(value);
    }
}
