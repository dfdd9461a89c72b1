//! Replies to actions, from the words of a case. Their parcels have no objects.
ghost use Rattle.std.specs.Prelude.{IfOk};
ghost use Rattle.ink_base.specs.Objects.{Objects};
ghost use Rattle.ink_interp.specs.Answers.{IsApart};
ghost use Rattle.ink_parcel.specs.Parts.{AreApartFrom};

use crate::words::{first_word, values};
use ink_base::{Items, Value};
use ink_heap::Heap;
use ink_interp::Reply;
use ink_parcel::{Parcel, cut};
use std::alloc::{AllocError, Global};

/// Why there is no reply.
#[derive(Clone, Copy)]
pub enum NoReply {
    /// The words are none, or a value of theirs owns an object.
    NotUnderstood,
    OutOfMemory,
}

impl From<AllocError> for NoReply {
    fn from(_: AllocError) -> NoReply {
        NoReply::OutOfMemory
    }
}

/// A parcel of values that own no objects.
#[tactic(auto, using(crate::proofs::ParcelLemmas::apart_from_all))]
fn parcel_of(alloc: Global, values: Items<Value>) -> Result<Parcel, NoReply>
    ensures { IfOk result (λ parcel. (objects : Objects) → AreApartFrom objects parcel.objects) }
{
    let mut none = Heap::new(alloc);
    match cut(alloc, &mut none, values) {
        Ok(parcel) => Ok(parcel),
        Err(_) => Err(NoReply::NotUnderstood),
    }
}

/// A parcel of the values of a line.
fn parcel_in(alloc: Global, line: &str) -> Result<Parcel, NoReply>
    ensures { IfOk result (λ parcel. (objects : Objects) → AreApartFrom objects parcel.objects) }
{
    match values(alloc, line)? {
        Some(values) => parcel_of(alloc, values),
        None => Err(NoReply::NotUnderstood),
    }
}

/// The number of a line.
fn number_in(line: &str) -> Result<u32, NoReply> {
    match line.parse() {
        Ok(number) => Ok(number),
        Err(_) => Err(NoReply::NotUnderstood),
    }
}

/// A message: the number of its method, and its values.
fn message_in(alloc: Global, line: &str) -> Result<Reply, NoReply>
    ensures { IfOk result (λ reply. (objects : Objects) → IsApart reply objects) }
{
    let (method, values) = first_word(line);
    let method = number_in(method)?;
    let parcel = parcel_in(alloc, values)?;
    Ok(Reply::Message { method, parcel })
}

/// The reply of a line: `done`, `message METHOD VALUES`, `process NUMBER`, `pair NUMBER` or `got VALUES`.
pub fn reply_in(alloc: Global, line: &str) -> Result<Reply, NoReply>
    ensures { IfOk result (λ reply. (objects : Objects) → IsApart reply objects) }
{
    let (word, rest) = first_word(line);
    match word {
        "done" => Ok(Reply::Done),
        "message" => message_in(alloc, rest),
        "process" => Ok(Reply::Process(number_in(rest)?)),
        "pair" => Ok(Reply::NewPair(number_in(rest)?)),
        "got" => Ok(Reply::Got(parcel_in(alloc, rest)?)),
        _ => Err(NoReply::NotUnderstood),
    }
}
