//! Steps within a frame.
ghost use Rattle.std.specs.Prelude.{◌≡◌, ◌+◌, ◌≤◌, ◌∷◌, ℕ, List, if◌then◌else◌, slice_get, MatchOption, Option};
ghost use Rattle.ink_code.specs.declared.frame.Frame.{Frame as OneFrame};
ghost use Rattle.ink_code.specs.Step.{instr_step};
ghost use Rattle.ink_quick.specs.Makes.{IsAt, Makes, Runs, StepsTo};

use crate::moves::{jump_if, put_constant, put_copy, put_moved, put_row_of};
use ink_base::{Items, Value};
use ink_code::{Code, Frame, Instr, Method};

/// The place behind an instruction that was made.
fn next_if(made: bool, next: u32) -> Option<u32>
    ensures { result ≡ (if made then Option.Some next else Option.None) }
{
    if made { Some(next) } else { None }
}

/// What one instruction makes of the registers, behind which the frame goes on at `next`: the place where it does go on.
/// `None` where nothing was made.
#[tactic(auto, unfolding(ink_code::specs::Step::instr_step, ink_code::specs::Moves::jump_step, ink_code::specs::Process::at_place))]
fn quick_instr(registers: &mut Items<Value>, code: &Code, next: u32, instr: &Instr) -> Option<u32>
    ensures { MatchOption result (registers.new ≡ registers.old)
        (λ to. (limits : List ℕ) → Makes (instr_step code.now limits next instr.now) registers.old to registers.new) }
{
    match instr {
        Instr::Const { to, constant } => {
            next_if(put_constant(registers, code, *to, *constant), next)
        }
        Instr::Move { to, from } => next_if(put_moved(registers, *to, *from), next),
        Instr::Copy { to, from } => next_if(put_copy(registers, *to, *from), next),
        Instr::Prim { row, to, operands } => {
            next_if(put_row_of(registers, *row, *to, operands.as_slice()), next)
        }
        Instr::Jump { place } => Some(*place),
        Instr::JumpIf { on, place } => jump_if(registers, next, *on, *place),
        _ => None,
    }
}

/// The instruction at a place of a method, and the place behind it.
fn instr_at<'a>(method: &'a Method, place: u32) -> Option<(u32, &'a Instr)>
    ensures { MatchOption result (slice_get method.now.body place ≡ Option.None)
        (λ at. (slice_get method.now.body place ≡ Option.Some at.1.now) × (place + 1 ≡ at.0)) }
{
    match method.body.get(u64::from(place)) {
        None => None,
        Some(instr) => Some((place + 1, instr)),
    }
}

/// A step at a place of a method: the place where the frame goes on. `None` where nothing was made.
fn quick_step(registers: &mut Items<Value>, code: &Code, method: &Method, place: u32) -> Option<u32>
    ensures { MatchOption result (registers.new ≡ registers.old)
        (λ to. (limits : List ℕ) (frame : OneFrame) (outer : List OneFrame) → IsAt code.now frame method.now place registers.old
        → StepsTo code.now limits (frame ∷ outer) (record frame { place = to; registers = registers.new } ∷ outer)) }
{
    let Some((next, instr)) = instr_at(method, place) else {
        return None;
    };
    let Some(to) = quick_instr(registers, code, next, instr) else {
        return None;
    };
    Some(to)
}

/// At most so many steps of a frame, up to the first that isn't made here: how many were made.
pub fn run_in_frame(frame: &mut Frame, code: &Code, most: u64) -> u64
    ensures most { result ≤ most }
    ensures runs { (limits : List ℕ) (outer : List OneFrame) → Runs code.now limits result (frame.old ∷ outer) (frame.new ∷ outer) }
{
    let Some(method) = code.methods.get(u64::from(frame.method)) else {
        return 0;
    };
    let mut place = frame.place;
    for made in 0..most {
        let Some(to) = quick_step(&mut frame.registers, code, method, place) else {
            return made;
        };
        frame.place = to;
        place = to;
    }
    most
}
