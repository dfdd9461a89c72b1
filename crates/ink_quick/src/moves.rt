//! What single instructions make of the registers.
ghost use Rattle.std.specs.Prelude.{◌≡◌, ◌<◌, ℕ, List, [], ◌∷◌, length, slice_get, slice_set, MatchOption};
ghost use Rattle.std.specs.Bool.{MatchBool};
ghost use Rattle.ink_base.specs.declared.value.Value.TheVariants as value;
ghost use Rattle.ink_base.specs.declared.value.Value.TheVariants.{Empty};
ghost use Rattle.ink_code.specs.declared.code.Code.{Code as OneCode};
ghost use Rattle.ink_code.specs.Moves.{const_step, copy_step, jump_if_step, move_step};
ghost use Rattle.ink_code.specs.Prims.{prim_step};
ghost use Rattle.ink_quick.specs.Makes.{Makes};

use crate::numbers::row_of;
use ink_base::{Items, Value};
use ink_code::Code;

/// A register gets a constant.
#[tactic(auto, unfolding(ink_code::specs::Moves::const_step, ink_code::specs::Machine::given, ink_code::specs::Machine::after, ink_code::specs::Process::register, ink_code::specs::Process::with_register, ink_code::specs::Process::at_place))]
pub(crate) fn put_constant(
    registers: &mut Items<Value>,
    code: &Code,
    to: u32,
    constant: u32,
) -> bool
    ensures { MatchBool result ((next : ℕ) → Makes (const_step code.now next to constant) registers.old next registers.new) (registers.new ≡ registers.old) }
{
    if registers.get(u64::from(to)).is_none() {
        return false;
    }
    let value = match code.constants.get(u64::from(constant)) {
        Some(Value::Int(number)) => Value::Int(*number),
        Some(Value::Bool(truth)) => Value::Bool(*truth),
        Some(Value::Nil) => Value::Nil,
        _ => return false,
    };
    registers.set(u64::from(to), value);
    true
}

/// A register gets a copy of what another holds.
#[tactic(auto, unfolding(ink_code::specs::Moves::copy_step, ink_code::specs::Machine::given, ink_code::specs::Machine::after, ink_code::specs::Objects::after_copy, ink_code::specs::Process::register, ink_code::specs::Process::with_register, ink_code::specs::Process::at_place))]
pub(crate) fn put_copy(registers: &mut Items<Value>, to: u32, from: u32) -> bool
    ensures { MatchBool result ((next : ℕ) → Makes (copy_step next to from) registers.old next registers.new) (registers.new ≡ registers.old) }
{
    if registers.get(u64::from(to)).is_none() {
        return false;
    }
    let value = match registers.get(u64::from(from)) {
        Some(Value::Int(number)) => Value::Int(*number),
        Some(Value::Bool(truth)) => Value::Bool(*truth),
        Some(Value::Nil) => Value::Nil,
        Some(Value::Proc(process)) => Value::Proc(*process),
        _ => return false,
    };
    registers.set(u64::from(to), value);
    true
}

/// A register gets what another holds, which is empty then.
#[tactic(auto, unfolding(ink_code::specs::Moves::move_step, ink_code::specs::Machine::given, ink_code::specs::Machine::after, ink_code::specs::Process::register, ink_code::specs::Process::with_register, ink_code::specs::Process::at_place))]
pub(crate) fn put_moved(registers: &mut Items<Value>, to: u32, from: u32) -> bool
    ensures { MatchBool result ((next : ℕ) → Makes (move_step next to from) registers.old next registers.new) (registers.new ≡ registers.old) }
{
    if registers.get(u64::from(to)).is_none() {
        return false;
    }
    match registers.get(u64::from(from)) {
        None | Some(Value::Empty) => return false,
        Some(_) => {}
    }
    let value = registers.set(u64::from(from), Value::Empty);
    registers.set(u64::from(to), value);
    true
}

/// Where a frame goes on that jumps where a register holds true.
#[tactic(auto, unfolding(ink_code::specs::Moves::jump_if_step, ink_code::specs::Machine::given, ink_code::specs::Machine::after, ink_code::specs::Process::register, ink_code::specs::Process::at_place))]
pub(crate) fn jump_if(registers: &Items<Value>, next: u32, on: u32, place: u32) -> Option<u32>
    ensures { MatchOption result (registers.now ≡ registers.now) (λ to. Makes (jump_if_step next on place) registers.now to registers.now) }
{
    match registers.get(u64::from(on)) {
        Some(Value::Bool(true)) => Some(place),
        Some(Value::Bool(false)) => Some(next),
        _ => None,
    }
}

/// The first two registers are empty then, and the third gets a value.
fn put_result(registers: &mut Items<Value>, one: u32, other: u32, to: u32, value: Value)
    requires one { one < length registers.old }
    requires other { other < length registers.old }
    requires to { to < length registers.old }
    ensures { registers.new ≡ slice_set (slice_set (slice_set registers.old one Empty) other Empty) to value }
{
    registers.set(u64::from(one), Value::Empty);
    registers.set(u64::from(other), Value::Empty);
    registers.set(u64::from(to), value);
}

/// A register gets what a row gives of two Ints, whose registers are empty then.
fn put_row(registers: &mut Items<Value>, row: u32, to: u32, one: u32, other: u32) -> bool
    ensures { MatchBool result ((code : OneCode) (limits : List ℕ) (next : ℕ) → Makes (prim_step code limits next row to (one ∷ other ∷ [])) registers.old next registers.new) (registers.new ≡ registers.old) }
{
    if one == other {
        return false;
    }
    if u64::from(to) >= registers.len() {
        return false;
    }
    let Some(first) = registers.get(u64::from(one)) else {
        return false;
    };
    let Some(second) = registers.get(u64::from(other)) else {
        return false;
    };
    let Some(value) = row_of(row, first, second) else {
        return false;
    };
    put_result(registers, one, other, to, value);
    true
}

/// The same, with the registers of the operands as a list.
pub(crate) fn put_row_of(registers: &mut Items<Value>, row: u32, to: u32, operands: &[u32]) -> bool
    ensures { MatchBool result ((code : OneCode) (limits : List ℕ) (next : ℕ) → Makes (prim_step code limits next row to operands.now) registers.old next registers.new) (registers.new ≡ registers.old) }
{
    match operands {
        [one, other] => put_row(registers, row, to, *one, *other),
        _ => false,
    }
}
