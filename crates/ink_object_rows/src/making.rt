//! New objects that rows give.
ghost use Rattle.std.specs.Prelude.{◌≡◌, ◌≤◌, ◌<◌, [], true};
ghost use Rattle.std.specs.Vec.{vec_capacity};
ghost use Rattle.std.specs.FinMap.{get};
ghost use Rattle.ink_base.specs.Objects.{changed_object, counted_down, is_counted};
ghost use Rattle.ink_code.specs.Full.{most_made};
ghost use Rattle.ink_code.specs.Machine.{with_objects};
ghost use Rattle.ink_code.specs.Makes.{with_made};
ghost use Rattle.ink_code.specs.Process.{next_id};
ghost use Rattle.ink_code.specs.Rows.{gives, gives_option};
ghost use Rattle.ink_object_rows.specs.Answers.{Comes, RowAnswers};
ghost use Rattle.ink_object_rows.specs.Making.{AllHaveRoom, gives_copy};
ghost use Rattle.ink_proc.specs.State.{state_of};

use crate::receiver::end_borrow;
use ink_base::{Items, Object, ObjectId, Value};
use ink_code::{NONE_TAG, OPTION_KIND, SOME_TAG, Wrong};
use ink_proc::{Proc, count_copy, has_room, put_over};
use ink_rows::{Computed, RowFault};
use std::alloc::Global;

/// The owner of a new object.
pub(crate) fn give_made(proc: &mut Proc, kind: u32, tag: u32, fields: Items<Value>) -> Value
    requires room { 1 ≤ proc.old.heap.spare }
    requires made { proc.old.made < most_made }
    ensures value { result ≡ Value.Own (next_id (state_of proc.old)) }
    ensures process { state_of proc.new ≡ with_made kind tag fields (state_of proc.old) }
    ensures ran { proc.new.ran ≡ proc.old.ran }
{
    let id = ObjectId {
        process: proc.number,
        serial: proc.made + 1,
    };
    let object = Object {
        kind,
        tag,
        fields,
        count: 0,
    };
    put_over(&mut proc.heap, id, object);
    proc.made += 1;
    Value::Own(id)
}

/// The owner of a new Option of a value, or of none. There has to be room for the object and the value.
pub(crate) fn give_option(proc: &mut Proc, mut room: Vec<Value>, item: Option<Value>) -> Value
    requires heap { 1 ≤ proc.old.heap.spare }
    requires made { proc.old.made < most_made }
    requires empty { room.items ≡ [] }
    requires room { 1 ≤ vec_capacity room }
    ensures answer { gives_option item (state_of proc.old) ≡ gives result (state_of proc.new) }
    ensures ran { proc.new.ran ≡ proc.old.ran }
{
    match item {
        None => give_made(proc, OPTION_KIND, NONE_TAG, Items::of(room)),
        Some(value) => {
            room.push_reserved(value);
            give_made(proc, OPTION_KIND, SOME_TAG, Items::of(room))
        }
    }
}

/// The owner of a new Option of a copy of a value, or of none. There has to be room for the object and the value.
#[tactic(auto, unfolding(crate::specs::Making::gives_copy, ink_code::specs::Machine::after))]
pub(crate) fn give_copy(
    proc: &mut Proc,
    room: Vec<Value>,
    item: Option<Value>,
) -> Result<Value, Wrong>
    requires counts { AllHaveRoom item proc.old.heap.objects }
    requires heap { 1 ≤ proc.old.heap.spare }
    requires made { proc.old.made < most_made }
    requires empty { room.items ≡ [] }
    requires room { 1 ≤ vec_capacity room }
    ensures answer { Comes (gives_copy item (state_of proc.old)) result (state_of proc.new) }
    ensures ran { proc.new.ran ≡ proc.old.ran }
{
    if let Some(value) = &item {
        count_copy(&mut proc.heap, value)?;
    }
    Ok(give_option(proc, room, item))
}

/// The borrow of the receiver ends, and the owner of a new Option of a copy of a value is given, or of none.
#[tactic(auto, using(crate::proofs::RoomLemmas::room))]
pub(crate) fn give_lent(
    alloc: Global,
    proc: &mut Proc,
    id: &ObjectId,
    item: Option<Value>,
) -> Result<Computed, RowFault>
    requires counted { is_counted (get proc.old.heap.objects id.now) ≡ true }
    requires made { proc.old.made < most_made }
    ensures answer { RowAnswers (gives_copy item (with_objects (changed_object proc.old.heap.objects id.now counted_down) (state_of proc.old))) result (state_of proc.old) (state_of proc.new) [] [] }
    ensures ran { proc.new.ran ≡ proc.old.ran }
{
    if let Some(value) = &item {
        if !has_room(&proc.heap, value) {
            return Err(RowFault::OutOfMemory);
        }
    }
    let room = Vec::with_capacity(alloc, 1)?;
    proc.heap.reserve(1)?;
    end_borrow(&mut proc.heap, id);
    Ok(Computed::Gives(give_copy(proc, room, item)?))
}
