//! The frames of a process.
ghost use Rattle.std.specs.Prelude.{ℕ, ◌≡◌, ◌+◌, ◌∷◌, ◌≤◌, ◌&&◌, [], drop, length, reverse, slice_get, is_some, IfErr, IfOk, List, MatchOption, MatchResult, OnErr, OnOk, Result};
ghost use Rattle.std.specs.Bool.{MatchBool};
ghost use Rattle.std.specs.Option.{option_copied};
ghost use Rattle.std.specs.Vec.{vec_capacity, vec_len};
ghost use Rattle.ink_base.specs.declared.value.Value.TheVariants.{Empty};
ghost use Rattle.ink_code.specs.declared.frame.Frame.{Frame as OneFrame};
ghost use Rattle.ink_code.specs.Process.{at_place, entered, held, put_out, register, taken_out, with_register, with_swapped};
ghost use Rattle.ink_proc.specs.Answers.{IsEnterAnswer, IsMoved, IsPutAnswer};
ghost use Rattle.ink_quick.specs.Makes.{Runs};

use crate::fault::EnterFault;
use crate::moving::{move_back, move_behind, move_in, move_out, pad};
use ink_base::{Items, Value};
use ink_code::{Code, Frame, Wrong};
use ink_quick::run_in_frame;
use std::alloc::{AllocError, AllocFailed, Global};
use std::marker::Model;

/// Frames, seen as a list with the innermost in front.
#[derive(Debug, Drop)]
pub struct Frames {
    items: Vec<Frame>,
}

impl Model for Frames {
    ghost use Rattle.std.specs.Prelude.{List, reverse};
    ghost use Rattle.ink_code.specs.declared.frame.Frame.{Frame as OneFrame};

    ghost Value = { List OneFrame };

    ghost view = { λ frames. reverse frames.items.items };
}

impl Frames {
    /// No frames.
    pub fn new(alloc: Global) -> Frames
        ensures { result ≡ [] }
    {
        Frames {
            items: Vec::new(alloc),
        }
    }

    /// No frames, and room for so many.
    pub fn with_capacity(alloc: Global, count: usize) -> Result<Frames, AllocError>
        ensures { IfOk result (λ frames. frames ≡ []) }
    {
        Ok(Frames {
            items: Vec::with_capacity(alloc, count)?,
        })
    }

    /// How many frames there are.
    pub fn len(&self) -> u64
        ensures { result ≡ length self.now }
    {
        self.items.len() as u64
    }

    /// All of them, with the outermost in front.
    pub fn as_slice(&self) -> &[Frame]
        ensures { reverse result.now ≡ self.now }
    {
        self.items.as_slice()
    }

    /// The innermost frame. `None` exactly where there is none.
    pub fn top(&self) -> Option<&Frame>
        ensures { option_copied result ≡ slice_get self.now 0 }
    {
        let count = self.items.len();
        if count == 0 {
            None
        } else {
            Some(&self.items[count - 1])
        }
    }

    /// What a register of the innermost frame holds. `None` exactly where there is no such register.
    #[tactic(auto, unfolding(ink_code::specs::Process::register))]
    pub fn register(&self, number: u32) -> Option<&Value>
        ensures { option_copied result ≡ register self.now number }
    {
        match self.top() {
            None => None,
            Some(frame) => frame.registers.get(u64::from(number)),
        }
    }

    /// Whether the innermost frame has such a register.
    pub fn has(&self, number: u32) -> bool
        ensures { result ≡ is_some (register self.now number) }
    {
        self.register(number).is_some()
    }

    /// Puts a value in a register, where it is there, and gives the one that stood there.
    #[tactic(auto, using(crate::proofs::FrontLemmas::front), unfolding(ink_code::specs::Process::with_register, ink_code::specs::Process::register))]
    pub fn set(&mut self, number: u32, value: Value) -> Option<Value>
        ensures had { result ≡ register self.old number }
        ensures after { self.new ≡ with_register number value self.old }
    {
        let count = self.items.len();
        if count == 0 {
            return None;
        }
        if u64::from(number) >= self.items[count - 1].registers.len() {
            return None;
        }
        let frame = &mut self.items[count - 1];
        Some(frame.registers.set(u64::from(number), value))
    }

    /// Takes the value out of a register, where it is there.
    #[tactic(auto, using(crate::proofs::FrontLemmas::front), unfolding(ink_code::specs::Process::with_register, ink_code::specs::Process::register))]
    pub fn take(&mut self, number: u32) -> Result<Value, Wrong>
        ensures value { result ≡ held (register self.old number) }
        ensures ok { OnOk result (self.new ≡ with_register number Empty self.old) }
        ensures err { OnErr result (self.new ≡ self.old) }
    {
        match self.register(number) {
            None => return Err(Wrong::Absent),
            Some(Value::Empty) => return Err(Wrong::Empty),
            Some(_) => {}
        }
        match self.set(number, Value::Empty) {
            None => Err(Wrong::Absent),
            Some(value) => Ok(value),
        }
    }

    /// Two registers change contents. `false` exactly where one of them isn't there.
    #[tactic(auto, using(crate::proofs::FrontLemmas::front), unfolding(ink_code::specs::Process::with_swapped, ink_code::specs::Process::register))]
    pub fn swap(&mut self, one: u32, other: u32) -> bool
        ensures done { result ≡ (is_some (register self.old one) && is_some (register self.old other)) }
        ensures after { MatchBool result (self.new ≡ with_swapped one other self.old) (self.new ≡ self.old) }
    {
        let count = self.items.len();
        if count == 0 {
            return false;
        }
        let registers = self.items[count - 1].registers.len();
        if u64::from(one) >= registers {
            return false;
        }
        if u64::from(other) >= registers {
            return false;
        }
        let frame = &mut self.items[count - 1];
        frame.registers.swap(u64::from(one), u64::from(other));
        true
    }

    /// The innermost frame goes on at a place, where there is one.
    #[tactic(auto, using(crate::proofs::FrontLemmas::front), unfolding(ink_code::specs::Process::at_place))]
    pub fn go_on(&mut self, place: u32)
        ensures { self.new ≡ at_place place self.old }
    {
        let count = self.items.len();
        if count > 0 {
            let frame = &mut self.items[count - 1];
            frame.place = place;
        }
    }

    /// At most so many steps within the innermost frame, up to the first that isn't one: how many were made.
    pub fn run_top(&mut self, code: &Code, most: u64) -> u64
        ensures most { result ≤ most }
        ensures runs { (limits : List ℕ) → Runs code.now limits result self.old self.new }
    {
        let count = self.items.len();
        if count == 0 {
            return 0;
        }
        let frame = &mut self.items[count - 1];
        run_in_frame(frame, code, most)
    }

    /// Moves the values of registers out of the innermost frame, into a vector with room for them.
    ///
    /// Where one isn't there at its turn, those before it are lost.
    pub fn take_out(&mut self, room: Vec<Value>, numbers: &[u32]) -> Result<Items<Value>, Wrong>
        requires empty { room.items ≡ [] }
        requires room { length numbers.now ≤ vec_capacity room }
        ensures moved { IsMoved result self.new (taken_out numbers.now self.old) }
        ensures count { IfOk result (λ values. length values ≡ length numbers.now) }
    {
        Ok(Items::of(take_from_last(&mut self.items, room, numbers)?))
    }

    /// The same, into a vector that the caller may use again.
    pub fn take_values(&mut self, room: Vec<Value>, numbers: &[u32]) -> Result<Vec<Value>, Wrong>
        requires empty { room.items ≡ [] }
        requires room { length numbers.now ≤ vec_capacity room }
        ensures moved { MatchResult result
            (λ values. taken_out numbers.now self.old ≡ Result.Ok (values.items, self.new))
            (λ why. taken_out numbers.now self.old ≡ Result.Err why) }
        ensures count { IfOk result (λ values. vec_len values ≡ length numbers.now) }
    {
        take_from_last(&mut self.items, room, numbers)
    }

    /// Puts values back into the registers of the innermost frame out of which they were moved: the frames are as before.
    #[tactic(auto, using(crate::proofs::FrontLemmas::front), unfolding(ink_code::specs::Process::taken_out))]
    pub fn put_back(&mut self, numbers: &[u32], values: Items<Value>)
        requires { length values ≡ length numbers.now }
        ensures { (before : List OneFrame) → taken_out numbers.now before ≡ Result.Ok (values, self.old) → self.new ≡ before }
    {
        let count = self.items.len();
        if count > 0 {
            let frame = &mut self.items[count - 1];
            move_back(&mut frame.registers, numbers, values);
        }
    }

    /// Puts a value back into the register out of which it was taken: the frames are as before.
    pub fn give_back(&mut self, number: u32, value: Value)
        ensures { (before : List OneFrame) → held (register before number) ≡ Result.Ok value → self.old ≡ with_register number Empty before → self.new ≡ before }
    {
        self.set(number, value);
    }

    /// The frames of a process in which a method begins: one frame, with a value and others behind it in its first
    /// registers. It has at least `registers` of them. No memory is taken: the vectors have room for the frame and for
    /// its registers.
    pub fn first(
        mut frames: Vec<Frame>,
        mut room: Vec<Value>,
        method: u32,
        registers: u32,
        first: Value,
        others: Items<Value>,
    ) -> Frames
        requires none { frames.items ≡ [] }
        requires one { 1 ≤ vec_capacity frames }
        requires empty { room.items ≡ [] }
        requires all { registers ≤ vec_capacity room }
        requires room { length others + 1 ≤ vec_capacity room }
        ensures { result ≡ entered method registers (first ∷ others) [] }
    {
        room.push_reserved(first);
        move_behind(&mut room, others);
        let registers = Items::of(pad(room, registers));
        frames.push_reserved(Frame {
            method,
            place: 0,
            registers,
        });
        Frames { items: frames }
    }

    /// Moves values into registers of the innermost frame, each of which has to be there: as many as there are values.
    ///
    /// Where it is wrong, the values are lost.
    #[tactic(auto, using(crate::proofs::FrontLemmas::front), unfolding(ink_code::specs::Process::put_out))]
    pub fn put_out(&mut self, numbers: &[u32], values: Items<Value>) -> Result<(), Wrong>
        ensures { IsPutAnswer result self.new (put_out numbers.now values self.old) }
    {
        let count = self.items.len();
        if count == 0 {
            return Err(Wrong::Absent);
        }
        let frame = &mut self.items[count - 1];
        move_in(&mut frame.registers, numbers, values)
    }

    /// Puts a new frame in front, in whose first registers are the values that are moved out of registers of the one
    /// before. It has at least `registers` of them.
    #[tactic(auto, using(crate::proofs::FrontLemmas::front))]
    pub fn enter(
        &mut self,
        alloc: Global,
        method: u32,
        registers: u32,
        numbers: &[u32],
    ) -> Result<(), EnterFault>
        ensures { IsEnterAnswer result self.old self.new method registers (taken_out numbers.now self.old) }
    {
        let Ok(room) = Vec::with_capacity(alloc, numbers.len().max(registers as usize)) else {
            return Err(EnterFault::OutOfMemory);
        };
        if self.items.reserve(1).is_err() {
            return Err(EnterFault::OutOfMemory);
        }
        let values = match take_from_last(&mut self.items, room, numbers) {
            Err(why) => return Err(EnterFault::Wrong(why)),
            Ok(values) => values,
        };
        let frame = Frame {
            method,
            place: 0,
            registers: Items::of(pad(values, registers)),
        };
        self.items.push_reserved(frame);
        Ok(())
    }

    /// Puts a frame in front. Where there is no memory for it, it comes back and all is as before.
    pub fn push(&mut self, frame: Frame) -> Result<(), AllocFailed<Frame>>
        ensures ok { OnOk result (self.new ≡ frame ∷ self.old) }
        ensures err { OnErr result (self.new ≡ self.old) }
        ensures back { IfErr result (λ failed. failed.value ≡ frame) }
    {
        self.items.push(frame)
    }

    /// Takes the innermost frame away. `None` exactly where there is none.
    pub fn pop(&mut self) -> Option<Frame>
        ensures cases { MatchOption result ((self.old ≡ []) × (self.new ≡ [])) (λ frame. self.old ≡ frame ∷ self.new) }
        ensures rest { self.new ≡ drop 1 self.old }
    {
        self.items.pop()
    }
}

/// Moves the values of registers out of the last frame, into a vector with room for them.
#[tactic(auto, using(crate::proofs::FrontLemmas::front), unfolding(ink_code::specs::Process::taken_out))]
fn take_from_last(
    items: &mut Vec<Frame>,
    room: Vec<Value>,
    numbers: &[u32],
) -> Result<Vec<Value>, Wrong>
    requires empty { room.items ≡ [] }
    requires room { length numbers.now ≤ vec_capacity room }
    ensures moved { MatchResult result
        (λ values. taken_out numbers.now (reverse items.old.items) ≡ Result.Ok (values.items, reverse items.new.items))
        (λ why. taken_out numbers.now (reverse items.old.items) ≡ Result.Err why) }
    ensures values { IfOk result (λ values. vec_len values ≡ length numbers.now) }
    ensures room { IfOk result (λ values. vec_capacity room ≤ vec_capacity values) }
    ensures count { vec_len items.new ≡ vec_len items.old }
    ensures capacity { vec_capacity items.new ≡ vec_capacity items.old }
{
    let count = items.len();
    if count == 0 {
        return Err(Wrong::Absent);
    }
    let frame = &mut items[count - 1];
    move_out(&mut frame.registers, room, numbers)
}
