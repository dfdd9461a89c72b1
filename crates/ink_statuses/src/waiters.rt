//! Who may wait for which future.
ghost use Rattle.std.specs.Prelude.{◌≡◌, ◌≢◌, ℕ, true, false, Some};
ghost use Rattle.ink_statuses.specs.Waiting.{may_wait, waits};

use std::alloc::{AllocError, Global};

/// Who may wait for a future.
#[derive(Clone, Copy, Drop)]
pub(crate) enum Waiter {
    Nobody,
    /// This process, and no other.
    One(u32),
    /// Any process.
    Several,
}

/// Who may wait for each future, by its number from 1, and whether anybody may wait for one behind the last.
///
/// It is asked where a future is set or broken: one waiter is woken in a step. Only where several waited for one future are
/// all processes looked at.
#[derive(Drop)]
pub(crate) struct Waiters {
    pub table: Vec<Waiter>,
    pub beyond: bool,
}

/// Who may wait for a future that others may wait for, once this process does.
fn with(waiter: Waiter, process: u32) -> Waiter
    ensures own { waits (Some result) false process ≡ true }
    ensures others { (other : ℕ) → waits (Some waiter) false other ≡ true → waits (Some result) false other ≡ true }
{
    match waiter {
        Waiter::Nobody => Waiter::One(process),
        Waiter::One(other) => {
            if other == process {
                Waiter::One(process)
            } else {
                Waiter::Several
            }
        }
        Waiter::Several => Waiter::Several,
    }
}

impl Waiters {
    /// No futures, and nobody who waits.
    pub fn new(alloc: Global) -> Waiters {
        Waiters {
            table: Vec::new(alloc),
            beyond: false,
        }
    }

    /// Adds the next future. Those who waited may wait still.
    pub fn add(&mut self) -> Result<(), AllocError>
        ensures keeps { (future process : ℕ) → may_wait self.old.table.items self.old.beyond future process ≡ true → may_wait self.new.table.items self.new.beyond future process ≡ true }
    {
        let waiter = if self.beyond {
            Waiter::Several
        } else {
            Waiter::Nobody
        };
        self.table.push(waiter)?;
        Ok(())
    }

    /// A process waits for a future from now on.
    pub fn note(&mut self, future: u32, process: u32)
        ensures own { may_wait self.new.table.items self.new.beyond future process ≡ true }
        ensures keeps { (other process : ℕ) → may_wait self.old.table.items self.old.beyond other process ≡ true → may_wait self.new.table.items self.new.beyond other process ≡ true }
    {
        if future == 0 || future as usize > self.table.len() {
            self.beyond = true;
        } else {
            let index = future as usize - 1;
            self.table[index] = with(self.table[index], process);
        }
    }

    /// Nobody waits for a future any more.
    pub fn clear(&mut self, future: u32)
        ensures { (other process : ℕ) → other ≢ future → may_wait self.new.table.items self.new.beyond other process ≡ may_wait self.old.table.items self.old.beyond other process }
    {
        if future != 0 && future as usize <= self.table.len() {
            self.table[future as usize - 1] = Waiter::Nobody;
        }
    }

    /// Who may wait for a future.
    pub fn who(&self, future: u32) -> Waiter
        ensures { (process : ℕ) → may_wait self.now.table.items self.now.beyond future process ≡ true → waits (Some result) false process ≡ true }
    {
        if future != 0 && future as usize <= self.table.len() {
            self.table[future as usize - 1]
        } else if self.beyond {
            Waiter::Several
        } else {
            Waiter::Nobody
        }
    }
}
