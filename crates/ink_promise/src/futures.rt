//! The futures of a run.
ghost use Rattle.std.specs.Prelude.{◌≡◌, ◌≤◌, ◌<◌, ◌^◌, ◌↔◌, [], IfErr, IsOk, IsTrue, OnErr, OnOk, length, true, Some};
ghost use Rattle.std.specs.Option.{option_copied};
ghost use Rattle.ink_base.specs.Futures.{after_break, after_get, after_set, after_value_back, changed_future};
ghost use Rattle.ink_base.specs.Numbered.{numbered};
ghost use Rattle.ink_base.specs.declared.future.FutureState.TheVariants.{Taken};
ghost use Rattle.ink_promise.specs.Answers.{IsGetAnswer, IsMakeAnswer, is_open_at};

use crate::answer::{FuturesFault, Got, NotYet};
use ink_base::FutureState;
use ink_numbered::Numbered;
use ink_parcel::Parcel;
use std::alloc::{AllocError, Global};
use std::marker::Model;

/// Futures by number. A contract sees their states in order, and for how many more there is room.
#[derive(Drop)]
pub struct Futures {
    states: Numbered<FutureState<Parcel>>,
}

impl Model for Futures {
    ghost use Rattle.std.specs.Prelude.{ℕ, Bool, List, Option, refl};
    ghost use Rattle.std.specs.Coded.{code_by, coded×, coded_bool, coded_list, coded_option, coded_ℕ};
    ghost use Rattle.ink_base.specs.declared.future.FutureState.{FutureState};
    ghost use Rattle.ink_code.specs.Trees.{Parcel as OneParcel};
    ghost use Rattle.ink_numbered.specs.Roomy.{Roomy};
    ghost use Rattle.ink_parcel.specs.contracts.parcel.Parcel as parcel;
    ghost use Rattle.ink_promise.specs.Codes.{as_parts, of_parts, parts_back};

    ghost Value = { Roomy (FutureState OneParcel) };

    ghost coded = { code_by (List (FutureState OneParcel) × ℕ) (coded× (coded_list (code_by (Option (Option OneParcel) × Bool) (coded× (coded_option (coded_option parcel.the_row.coded)) coded_bool) as_parts of_parts parts_back)) coded_ℕ) (λ r. (r.items, r.spare)) (λ p. record { items = p.0; spare = p.1 }) (λ _. refl) };

    ghost view = { λ futures. futures.states };
}

impl Futures {
    /// No futures.
    pub fn new(alloc: Global) -> Futures
        ensures { result.items ≡ [] }
    {
        Futures {
            states: Numbered::new(alloc),
        }
    }

    /// How many were made.
    pub fn len(&self) -> u64
        ensures { result ≡ length self.now.items }
    {
        self.states.len()
    }

    /// Whether none was made.
    pub fn is_empty(&self) -> bool
        ensures { IsTrue result ↔ (self.now.items ≡ []) }
    {
        self.states.is_empty()
    }

    /// How a future stands. `None` exactly where there is none of that number.
    pub fn state(&self, future: u32) -> Option<&FutureState<Parcel>>
        ensures { option_copied result ≡ numbered self.now.items future }
    {
        self.states.get(future)
    }

    /// Makes room for one more. No memory is wanted where there is room.
    pub fn reserve(&mut self) -> Result<(), AllocError>
        ensures room { OnOk result (1 ≤ self.new.spare) }
        ensures items { self.new.items ≡ self.old.items }
        ensures err { OnErr result (self.new ≡ self.old) }
        ensures succeeds { 1 ≤ self.old.spare → IsOk result }
    {
        self.states.reserve(1)
    }

    /// Makes an open future and gives its number, the next one. `Full` exactly where `most` or more were made. Memory is
    /// wanted only where there is no room.
    pub fn make(&mut self, most: u32) -> Result<u32, FuturesFault>
        ensures { IsMakeAnswer result self.old self.new most }
    {
        if self.states.len() >= most as u64 {
            return Err(FuturesFault::Full);
        }
        if self.states.reserve(1).is_err() {
            return Err(FuturesFault::OutOfMemory);
        }
        self.states.add(FutureState::Open);
        Ok(self.states.len() as u32)
    }

    fn is_open(&self, future: u32) -> bool
        ensures { result ≡ is_open_at self.now.items future }
    {
        matches!(self.states.get(future), Some(FutureState::Open))
    }

    /// Sets an open future. The value comes back exactly where there is no such future or it isn't open.
    #[tactic(auto, using(crate::proofs::Unchanged::set_stays, crate::proofs::Unchanged::set_open))]
    pub fn set(&mut self, future: u32, value: Parcel) -> Result<(), Parcel>
        ensures open { IsOk result ↔ (is_open_at self.old.items future ≡ true) }
        ensures after { self.new.items ≡ changed_future self.old.items future (λ state. after_set state value) }
        ensures spare { self.new.spare ≡ self.old.spare }
        ensures back { IfErr result (λ back. back ≡ value) }
    {
        if !self.is_open(future) {
            return Err(value);
        }
        self.states.set(future, FutureState::Set(value));
        Ok(())
    }

    /// Breaks an open future. `false` exactly where there is no such future or it isn't open.
    #[tactic(auto, using(crate::proofs::Unchanged::break_stays, crate::proofs::Unchanged::break_open))]
    pub fn break_off(&mut self, future: u32) -> bool
        ensures open { result ≡ is_open_at self.old.items future }
        ensures after { self.new.items ≡ changed_future self.old.items future after_break }
        ensures spare { self.new.spare ≡ self.old.spare }
    {
        if !self.is_open(future) {
            return false;
        }
        self.states.set(future, FutureState::Broken);
        true
    }

    /// Takes the value of a future that was set, or tells that it is broken.
    #[tactic(auto, using(crate::proofs::Unchanged::get_stays, crate::proofs::Unchanged::get_set, crate::proofs::Unchanged::get_broken))]
    pub fn get(&mut self, future: u32) -> Result<Got, NotYet>
        ensures answer { IsGetAnswer result self.old.items future }
        ensures after { self.new.items ≡ changed_future self.old.items future after_get }
        ensures spare { self.new.spare ≡ self.old.spare }
    {
        match self.states.get(future) {
            Some(FutureState::Set(_)) => {}
            Some(FutureState::Broken) => return Ok(Got::Broken),
            _ => return Err(NotYet),
        }
        match self.states.set(future, FutureState::Taken) {
            Some(FutureState::Set(value)) => Ok(Got::Held(value)),
            _ => unreachable!(),
        }
    }

    /// Puts a value back that was taken from a future.
    #[tactic(auto, using(crate::proofs::Unchanged::back_taken))]
    pub fn put_back(&mut self, future: u32, value: Parcel)
        requires { numbered self.old.items future ≡ Some Taken }
        ensures after { self.new.items ≡ changed_future self.old.items future (λ state. after_value_back state value) }
        ensures spare { self.new.spare ≡ self.old.spare }
    {
        self.states.set(future, FutureState::Set(value));
    }
}
