//! The heap: a vector of pairs that is searched from its start.
ghost use Rattle.std.specs.Prelude.{◌≡◌, ◌+◌, ◌<◌, ◌≤◌, ◌↔◌, length, Option, IsOk, IsSome, IsTrue, IfErr, IfNone, IfSome, OnErr, OnOk, OnSome};
ghost use Rattle.std.specs.Bool.{OnFalse, OnTrue};
ghost use Rattle.std.specs.Option.{option_and_then, option_copied, option_map};
ghost use Rattle.std.specs.FinMap as map;
ghost use Rattle.std.specs.List.{slice_get};
ghost use Rattle.ink_base.specs.Objects.{changed_object, counted_down, counted_up, is_counted};
ghost use Rattle.ink_heap.specs.Answers.{IsFreeAnswer, IsMakeAnswer, IsPopAnswer, IsPushAnswer, IsWriteAnswer};
ghost use Rattle.ink_heap.specs.Bounds.{most_borrows};

use crate::fault::{FreeFault, MakeFault, PushFault};
use crate::index::index_of;
use ink_base::{Items, Object, ObjectId, Value};
use std::alloc::{AllocError, Global};
use std::marker::Model;

/// No more borrows of an object are counted.
pub const MOST_BORROWS: u64 = 1 << 62;

/// The objects of a process.
#[derive(Debug, Drop)]
pub struct Heap {
    pairs: Vec<(ObjectId, Object)>,
}

impl Model for Heap {
    ghost use Rattle.std.specs.Prelude.{ℕ, ◌-◌, refl};
    ghost use Rattle.std.specs.Coded.{code_by, coded×, coded_ℕ};
    ghost use Rattle.std.specs.FinMap.{code, from_entries};
    ghost use Rattle.std.specs.Vec.{vec_capacity, vec_len};
    ghost use Rattle.ink_base.specs.Ident.{coded_id};
    ghost use Rattle.ink_base.specs.Objects.{Objects};
    ghost use Rattle.ink_heap.specs.Pairs.{AreApart};
    ghost use Rattle.ink_heap.specs.View.{HeapView};
    ghost use Rattle.ink_base.specs.contracts.object.Object as object;

    ghost Value = { HeapView };

    ghost coded = { code_by (Objects × ℕ) (coded× (code coded_id object.the_row.coded) coded_ℕ) (λ h. (h.objects, h.spare)) (λ p. record { objects = p.0; spare = p.1 }) (λ _. refl) };

    ghost view = { λ h. record { objects = from_entries h.pairs.items; spare = vec_capacity h.pairs - vec_len h.pairs } };

    ghost invariant = { λ h. AreApart h.pairs.items };
}

impl Heap {
    /// No objects.
    pub fn new(alloc: Global) -> Heap
        ensures { result.objects ≡ map.empty }
    {
        Heap {
            pairs: Vec::new(alloc),
        }
    }

    /// How many objects there are.
    pub fn len(&self) -> u64
        ensures { result ≡ map.len self.now.objects }
    {
        self.pairs.len() as u64
    }

    /// Whether there are none.
    pub fn is_empty(&self) -> bool
        ensures { IsTrue result ↔ (map.len self.now.objects ≡ 0) }
    {
        self.len() == 0
    }

    /// Puts a new object under a name that no object has. It has no borrows.
    ///
    /// `Full` exactly where at least `most` objects live. Memory is wanted only where there is no room.
    pub fn make(
        &mut self,
        id: ObjectId,
        kind: u32,
        tag: u32,
        fields: Items<Value>,
        most: u64,
    ) -> Result<(), MakeFault>
        requires { map.get self.old.objects id ≡ Option.None }
        ensures { IsMakeAnswer result self.old self.new id (record { kind = kind; tag = tag; fields = fields; count = 0 }) most }
    {
        if self.pairs.len() as u64 >= most {
            return Err(MakeFault::Full(fields));
        }
        if let Err(_) = self.pairs.reserve(1) {
            return Err(MakeFault::OutOfMemory(fields));
        }
        let object = Object {
            kind,
            tag,
            fields,
            count: 0,
        };
        self.pairs.push_reserved((id, object));
        Ok(())
    }

    /// The value in a field. `None` exactly where there is no such object or field.
    pub fn read(&self, id: &ObjectId, field: u64) -> Option<&Value>
        ensures { option_copied result ≡ option_and_then (λ object. slice_get object.fields field) (map.get self.now.objects id.now) }
    {
        match index_of(&self.pairs, id) {
            None => None,
            Some(index) => self.pairs[index].1.fields.get(field),
        }
    }

    /// The kind and the tag of an object. `None` exactly where it isn't there.
    pub fn kind_of(&self, id: &ObjectId) -> Option<(u32, u32)>
        ensures { result ≡ option_map (λ object. (object.kind, object.tag)) (map.get self.now.objects id.now) }
    {
        match index_of(&self.pairs, id) {
            None => None,
            Some(index) => Some((self.pairs[index].1.kind, self.pairs[index].1.tag)),
        }
    }

    /// How many fields an object has. `None` exactly where it isn't there.
    pub fn size(&self, id: &ObjectId) -> Option<u64>
        ensures { result ≡ option_map (λ object. length object.fields) (map.get self.now.objects id.now) }
    {
        match index_of(&self.pairs, id) {
            None => None,
            Some(index) => Some(self.pairs[index].1.fields.len()),
        }
    }

    /// How many borrows of an object live. `None` exactly where it isn't there.
    pub fn count(&self, id: &ObjectId) -> Option<u64>
        ensures { result ≡ option_map (λ object. object.count) (map.get self.now.objects id.now) }
    {
        match index_of(&self.pairs, id) {
            None => None,
            Some(index) => Some(self.pairs[index].1.count),
        }
    }

    /// Puts a value in a field, and gives the one that stood there.
    ///
    /// The new value comes back as an error exactly where there is no such object or field.
    pub fn write(&mut self, id: &ObjectId, field: u64, value: Value) -> Result<Value, Value>
        ensures { IsWriteAnswer result self.old self.new id.now field value }
    {
        let index = match index_of(&self.pairs, id) {
            None => return Err(value),
            Some(index) => index,
        };
        if field >= self.pairs[index].1.fields.len() {
            return Err(value);
        }
        let object = &mut self.pairs[index].1;
        Ok(object.fields.set(field, value))
    }

    /// Puts a value in a new field behind the others of an object.
    ///
    /// `Full` exactly where it is there with `most` fields or more.
    pub fn push(&mut self, id: &ObjectId, value: Value, most: u64) -> Result<(), PushFault>
        ensures { IsPushAnswer result self.old self.new id.now value most }
    {
        let index = match index_of(&self.pairs, id) {
            None => return Err(PushFault::Absent(value)),
            Some(index) => index,
        };
        if self.pairs[index].1.fields.len() >= most {
            return Err(PushFault::Full(value));
        }
        let object = &mut self.pairs[index].1;
        if let Err(failed) = object.fields.push(value) {
            return Err(PushFault::OutOfMemory(failed.value));
        }
        Ok(())
    }

    /// Takes the last field of an object away with its value. `None` exactly where it isn't there or has none.
    pub fn pop(&mut self, id: &ObjectId) -> Option<Value>
        ensures { IsPopAnswer result self.old self.new id.now }
    {
        let index = match index_of(&self.pairs, id) {
            None => return None,
            Some(index) => index,
        };
        let object = &mut self.pairs[index].1;
        object.fields.pop()
    }

    /// Counts one borrow more. `false` exactly where the object isn't there.
    pub fn count_up(&mut self, id: &ObjectId) -> bool
        requires { IfSome (map.get self.old.objects id.now) (λ object. object.count < most_borrows) }
        ensures found { result ≡ map.contains_key self.old.objects id.now }
        ensures after { self.new ≡ record self.old { objects = changed_object self.old.objects id.now counted_up } }
    {
        let index = match index_of(&self.pairs, id) {
            None => return false,
            Some(index) => index,
        };
        let object = &mut self.pairs[index].1;
        object.count += 1;
        true
    }

    /// Counts one borrow less. `false` exactly where the object isn't there or has none.
    pub fn count_down(&mut self, id: &ObjectId) -> bool
        ensures counted { result ≡ is_counted (map.get self.old.objects id.now) }
        ensures after { OnTrue result (self.new ≡ record self.old { objects = changed_object self.old.objects id.now counted_down }) }
        ensures none { OnFalse result (self.new ≡ self.old) }
    {
        let index = match index_of(&self.pairs, id) {
            None => return false,
            Some(index) => index,
        };
        if self.pairs[index].1.count == 0 {
            return false;
        }
        let object = &mut self.pairs[index].1;
        object.count -= 1;
        true
    }

    /// Takes an object away that has no borrows, and gives the values of its fields.
    pub fn free(&mut self, id: &ObjectId) -> Result<Items<Value>, FreeFault>
        ensures { IsFreeAnswer result self.old self.new id.now (map.get self.old.objects id.now) }
    {
        let index = match index_of(&self.pairs, id) {
            None => return Err(FreeFault::Absent),
            Some(index) => index,
        };
        let count = self.pairs[index].1.count;
        if count > 0 {
            return Err(FreeFault::Borrowed(count));
        }
        let (_, object) = self.pairs.remove(index);
        Ok(object.fields)
    }

    /// Makes room for `count` objects more than there are. No memory is wanted where there is that room.
    pub fn reserve(&mut self, count: u64) -> Result<(), AllocError>
        ensures room { OnOk result (count ≤ self.new.spare) }
        ensures kept { self.old.spare ≤ self.new.spare }
        ensures objects { self.new.objects ≡ self.old.objects }
        ensures err { OnErr result (self.new ≡ self.old) }
        ensures succeeds { count ≤ self.old.spare → IsOk result }
    {
        self.pairs.reserve(count as usize)
    }

    /// Takes an object away with its count. `None` exactly where it isn't there. The room that it had is free.
    pub fn take_out(&mut self, id: &ObjectId) -> Option<Object>
        ensures object { result ≡ map.get self.old.objects id.now }
        ensures taken { OnSome result (self.new.objects ≡ map.remove self.old.objects id.now) }
        ensures room { OnSome result (self.old.spare < self.new.spare) }
        ensures absent { IfNone result (self.new ≡ self.old) }
    {
        let index = match index_of(&self.pairs, id) {
            None => return None,
            Some(index) => index,
        };
        let (_, object) = self.pairs.remove(index);
        Some(object)
    }

    /// Puts an object under a name, where there is room. It comes back exactly where the name has an object.
    pub fn put_in(&mut self, id: ObjectId, object: Object) -> Result<(), Object>
        requires { 1 ≤ self.old.spare }
        ensures absent { OnOk result (map.get self.old.objects id ≡ Option.None) }
        ensures objects { OnOk result (self.new.objects ≡ map.insert self.old.objects id object) }
        ensures room { self.old.spare ≤ self.new.spare + 1 }
        ensures there { OnErr result (IsSome (map.get self.old.objects id)) }
        ensures back { IfErr result (λ back. back ≡ object) }
        ensures err { OnErr result (self.new ≡ self.old) }
    {
        if let Some(_) = index_of(&self.pairs, &id) {
            return Err(object);
        }
        self.pairs.push_reserved((id, object));
        Ok(())
    }
}
