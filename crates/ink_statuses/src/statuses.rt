//! How each process stands, by its number.
ghost use Rattle.std.specs.Prelude.{◌≡◌, ℕ, ◌+◌, ◌*◌, ◌≤◌, ◌<◌, ◌^◌, [], ◌∷◌, ◌++◌, IfSome, IsOk, OnErr, OnOk, cond, eqb, true, length, map};
ghost use Rattle.std.specs.List.{list_any, position};
ghost use Rattle.std.specs.Option.{option_map};
ghost use Rattle.ink_base.specs.Numbered.{numbered, set_numbered};
ghost use Rattle.ink_marks.specs.Marks.{is_marked};
ghost use Rattle.ink_statuses.specs.Waiting.{may_wait};
ghost use Rattle.ink_statuses.specs.Readings.{is_held, is_out, is_ready, is_stopped, woken_for};
ghost use Rattle.ink_worlds.specs.State.{woken_at, woken_from_get, woken_from_take};
ghost use Rattle.ink_worlds.specs.declared.status.Status.TheVariants.{Held, Ready};

use crate::waiters::{Waiter, Waiters};
use ink_marks::Marks;
use ink_numbered::Numbered;
use ink_worlds::Status;
use std::alloc::{AllocError, Global};
use std::marker::Model;

/// A status for each process. A contract sees them in order, and for how many more there is room.
///
/// Those that are ready are marked, by their places from 0: so the first of them is found in a few steps, however many
/// there are. Who waits for a future is noted by the future, so that one who waits alone is woken in a step.
#[derive(Drop)]
pub struct Statuses {
    list: Numbered<Status>,
    ready: Marks,
    waiters: Waiters,
}

impl Model for Statuses {
    ghost use Rattle.std.specs.Prelude.{◌<◌, ◌≤◌, ◌*◌, ◌-◌, ◌^◌, min, length};
    ghost use Rattle.ink_numbered.specs.Roomy.{Roomy};
    ghost use Rattle.ink_marks.specs.Marks.{is_marked};
    ghost use Rattle.ink_statuses.specs.Readings.{Shows, is_ready};
    ghost use Rattle.ink_statuses.specs.Waiting.{AreNoted};
    ghost use Rattle.ink_worlds.specs.declared.status.Status.{Status};

    ghost Value = { Roomy Status };

    ghost view = { λ statuses. record { items = statuses.list.items; spare = min statuses.list.spare (64 * length statuses.ready - length statuses.list.items) } };

    ghost invariant = { λ statuses. (length statuses.list.items < 2 ^ 32) × (length statuses.list.items ≤ 64 * length statuses.ready) × Shows is_ready statuses.ready statuses.list.items × AreNoted statuses.waiters.table.items statuses.waiters.beyond statuses.list.items };
}

fn is_ready(status: &Status) -> bool
    ensures { result ≡ is_ready status.now }
{
    match status {
        Status::Ready => true,
        Status::Out(_, _) => false,
        Status::Idle => false,
        Status::Held(_) => false,
        Status::Stopped => false,
    }
}

fn is_out(status: &Status) -> bool
    ensures { result ≡ is_out status.now }
{
    match status {
        Status::Ready => false,
        Status::Out(_, _) => true,
        Status::Idle => false,
        Status::Held(_) => false,
        Status::Stopped => false,
    }
}

fn is_held(status: &Status) -> bool
    ensures { result ≡ is_held status.now }
{
    match status {
        Status::Ready => false,
        Status::Out(_, _) => false,
        Status::Idle => false,
        Status::Held(_) => true,
        Status::Stopped => false,
    }
}

fn is_stopped(status: &Status) -> bool
    ensures { result ≡ is_stopped status.now }
{
    match status {
        Status::Ready => false,
        Status::Out(_, _) => false,
        Status::Idle => false,
        Status::Held(_) => false,
        Status::Stopped => true,
    }
}

/// A status after a message came.
fn woken_by_message(status: Status) -> Status
    ensures { result ≡ woken_from_take status }
{
    match status {
        Status::Idle => Status::Ready,
        other => other,
    }
}

/// A status after a future was set or broken.
fn woken_by_future(future: u32, status: Status) -> Status
    ensures { result ≡ woken_from_get future status }
{
    match status {
        Status::Held(held) => {
            if held == future {
                Status::Ready
            } else {
                Status::Held(held)
            }
        }
        other => other,
    }
}

/// Puts whether the one at this index is ready, where that changed.
fn mark(ready: &mut Marks, index: u32, before: bool, after: bool)
    requires { index < 64 * length ready.old }
    ensures length { length ready.new ≡ length ready.old }
    ensures marks { is_marked ready.old index ≡ before → (n : ℕ) → is_marked ready.new n ≡ cond (eqb n index) after (is_marked ready.old n) }
{
    if before != after {
        ready.put(index, after);
    }
}

/// Notes for what a process waits, if it waits for a future.
fn note(waiters: &mut Waiters, process: u32, status: &Status)
    ensures own { (future : ℕ) → status.now ≡ Held future → may_wait waiters.new.table.items waiters.new.beyond future process ≡ true }
    ensures keeps { (future other : ℕ) → may_wait waiters.old.table.items waiters.old.beyond future other ≡ true → may_wait waiters.new.table.items waiters.new.beyond future other ≡ true }
{
    match status {
        Status::Ready => {}
        Status::Out(_, _) => {}
        Status::Idle => {}
        Status::Held(future) => waiters.note(*future, process),
        Status::Stopped => {}
    }
}

/// The index of the first one that waits for a future.
fn first_held_index(statuses: &[Status]) -> Option<usize>
    ensures found { result ≡ position is_held statuses.now }
    ensures bound { IfSome result (λ index. index < length statuses.now) }
{
    statuses.iter().position(|status| is_held(status))
}

impl Statuses {
    /// No statuses.
    pub fn new(alloc: Global) -> Statuses
        ensures { result.items ≡ [] }
    {
        Statuses {
            list: Numbered::new(alloc),
            ready: Marks::new(alloc),
            waiters: Waiters::new(alloc),
        }
    }

    /// How many there are.
    pub fn len(&self) -> u64
        ensures { result ≡ length self.now.items }
    {
        self.list.len()
    }

    /// Makes room for one more. No memory is wanted where there is room.
    pub fn reserve(&mut self) -> Result<(), AllocError>
        ensures room { OnOk result (1 ≤ self.new.spare) }
        ensures items { self.new.items ≡ self.old.items }
        ensures err { OnErr result (self.new ≡ self.old) }
        ensures succeeds { 1 ≤ self.old.spare → IsOk result }
    {
        if self.ready.room() == self.list.len() {
            self.ready.grow()?;
        }
        self.list.reserve(1)
    }

    /// Adds a process that is ready, which has the next number. It takes no memory.
    pub fn add(&mut self)
        requires room { 1 ≤ self.old.spare }
        requires number { length self.old.items + 1 < 2 ^ 32 }
        ensures items { self.new.items ≡ self.old.items ++ Ready ∷ [] }
        ensures spare { self.new.spare + 1 ≡ self.old.spare }
    {
        self.ready.put(self.list.len() as u32, true);
        self.list.add(Status::Ready);
    }

    /// How a process stands. `None` exactly where there is none of that number.
    pub fn get(&self, process: u32) -> Option<Status>
        ensures { result ≡ numbered self.now.items process }
    {
        match self.list.get(process) {
            None => None,
            Some(status) => Some(*status),
        }
    }

    /// Makes room for who waits for the next future. Without it they are found all the same, by a look at each process.
    pub fn add_future(&mut self) -> Result<(), AllocError>
        ensures { self.new ≡ self.old }
    {
        self.waiters.add()
    }

    /// A process stands so from now on, where there is one of that number.
    pub fn set(&mut self, process: u32, status: Status)
        ensures items { self.new.items ≡ set_numbered self.old.items process status }
        ensures spare { self.new.spare ≡ self.old.spare }
    {
        note(&mut self.waiters, process, &status);
        match self.list.set(process, status) {
            None => {}
            Some(old) => mark(
                &mut self.ready,
                process - 1,
                is_ready(&old),
                is_ready(&status),
            ),
        }
    }

    /// A process got a message: where it waited for one, it is ready.
    pub fn wake(&mut self, process: u32)
        ensures items { self.new.items ≡ woken_at (numbered self.old.items process) self.old.items process }
        ensures spare { self.new.spare ≡ self.old.spare }
    {
        match self.get(process) {
            None => {}
            Some(status) => self.set(process, woken_by_message(status)),
        }
    }

    /// A future was set or broken: where a process waited for it, it is ready.
    fn wake_one(&mut self, process: u32, future: u32)
        ensures items { self.new.items ≡ woken_for future (numbered self.old.items process) self.old.items process }
        ensures spare { self.new.spare ≡ self.old.spare }
    {
        match self.get(process) {
            None => {}
            Some(status) => self.set(process, woken_by_future(future, status)),
        }
    }

    /// A future was set or broken: those that waited for it are ready.
    pub fn wake_held(&mut self, future: u32)
        ensures items { self.new.items ≡ map (woken_from_get future) self.old.items }
        ensures spare { self.new.spare ≡ self.old.spare }
    {
        self.wake_noted(future);
        self.waiters.clear(future);
    }

    /// Those who may wait for a future that was set or broken are ready.
    fn wake_noted(&mut self, future: u32)
        ensures items { self.new.items ≡ map (woken_from_get future) self.old.items }
        ensures spare { self.new.spare ≡ self.old.spare }
    {
        match self.waiters.who(future) {
            Waiter::Nobody => {}
            Waiter::One(process) => self.wake_one(process, future),
            Waiter::Several => self.wake_all(future),
        }
    }

    /// Each process that waited for a future that was set or broken is ready.
    fn wake_all(&mut self, future: u32)
        ensures items { self.new.items ≡ map (woken_from_get future) self.old.items }
        ensures spare { self.new.spare ≡ self.old.spare }
    {
        for index in 0..self.list.len() {
            self.wake_one(index as u32 + 1, future);
        }
    }

    /// The least process that is ready. `None` exactly where there is none.
    pub fn first_ready(&self) -> Option<u32>
        ensures { result ≡ option_map (λ index. index + 1) (position is_ready self.now.items) }
    {
        match self.ready.first() {
            None => None,
            Some(index) => Some(index + 1),
        }
    }

    /// The least process that waits for a future. `None` exactly where there is none.
    pub fn first_held(&self) -> Option<u32>
        ensures { result ≡ option_map (λ index. index + 1) (position is_held self.now.items) }
    {
        let index = first_held_index(self.list.as_slice())?;
        Some(index as u32 + 1)
    }

    /// Whether a process is lent.
    pub fn any_out(&self) -> bool
        ensures { result ≡ list_any is_out self.now.items }
    {
        self.list.as_slice().iter().any(|status| is_out(status))
    }

    /// Whether a process makes no further step.
    pub fn any_stopped(&self) -> bool
        ensures { result ≡ list_any is_stopped self.now.items }
    {
        self.list.as_slice().iter().any(|status| is_stopped(status))
    }
}
