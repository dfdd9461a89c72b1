//! The shared state, its turn and its passes.
ghost use Rattle.std.specs.Prelude.{◌≡◌, ℕ, ◌+◌, ◌<◌, ◌≤◌, [], ◌∷◌, IfOk, IfErr, MatchResult, None, Some};
ghost use Rattle.ink_lease.specs.Rule.{view, IsIdle, Holds, IsSameSeat, holding, lost, Took, Owes, given, first_one, others, both, first_view};

use crate::rule::{Cut, Give, Glue, Leases, Opening, Win};
use crate::view::View;
use atomic_table::{Refused, Seat, Table, TableRule};
use ink_leasing::Leasable;
use std::alloc::Global;
use std::snapshot::Snapshot;
use std::sync::Wait;
use std::thread;

/// A table of one word, the turn, and one slot, the state. The rule is a parameter of its own, since a type's ghost field
/// reads no bound.
pub struct Turned<S, V, K, Q: TableRule<S, V, K>> {
    pub table: Table<S, V, K, Q, Global>,
    ghost small: { (table.shared.table_id.words ≡ 1) × (table.shared.table_id.slots ≡ 1) },
}

/// A state that threads share by turns.
pub type Shared<S> = Turned<Option<S>, View<S, <S as Leasable>::Fixed>, Opening<S>, Leases>;

/// A seat at the table, with its range of numbers.
#[derive(Drop)]
pub struct Numbered<S, F> {
    from: u32,
    to: u32,
    pub seat: Seat<Option<S>, View<S, F>>,
    ghost first_is: { seat.me.0.from ≡ from },
    ghost last_is: { seat.me.0.to ≡ to },
    ghost some_number: { from ≤ to },
}

/// What a thread acts with: some seat numbers, and what it knows.
pub type Pass<S> = Numbered<S, <S as Leasable>::Fixed>;

impl<S: Leasable> Shared<S> {
    /// Shares the state, under one pass that has all numbers. Without memory the state comes back.
    pub fn start(alloc: Global, state: S, seats: u32) -> Result<(Shared<S>, Pass<S>), S>
        requires seats { 1 ≤ seats }
        requires no_lease { (k : ℕ) → S.lease state k ≡ [] }
        requires stands { S.stands_for state (S.fixed state) }
        ensures own { IfOk result (λ r. r.1.seat.table_id ≡ r.0.table.shared.table_id) }
        ensures view { IfOk result (λ r. view r.1.seat ≡ first_view seats (S.fixed state) (S.journal state)) }
        ensures idle { IfOk result (λ r. IsIdle r.1.seat) }
        ensures refused { IfErr result (λ s. s ≡ state) }
    {
        let about = Opening {
            seats,
            state: Snapshot::of(&state),
        };
        let Ok(mut slots) = Vec::with_capacity(alloc, 1) else {
            return Err(state);
        };
        slots.push_reserved(Some(state));
        match Table::new(alloc, &[0], slots, &about) {
            Ok((table, seat)) => Ok((
                Turned { table },
                Numbered {
                    from: 1,
                    to: seats,
                    seat,
                },
            )),
            Err(Refused { slots }) => Err(only_one(slots)),
        }
    }

    /// Takes the turn and the state, if the turn is free.
    pub fn try_turn(&self, pass: Pass<S>) -> Result<(S, Pass<S>), Pass<S>>
        requires own { pass.seat.table_id ≡ self.now.table.shared.table_id }
        requires idle { IsIdle pass.seat }
        ensures won { IfOk result (λ r. IsSameSeat pass.seat r.1.seat × Holds r.1.seat r.0 × (view r.1.seat ≡ holding r.0 (view pass.seat))) }
        ensures took { IfOk result (λ r. Took S.lease S.journal S.stands_for (view pass.seat) r.0) }
        ensures busy { IfErr result (λ p. IsSameSeat pass.seat p.seat × IsIdle p.seat × (view p.seat ≡ lost (view pass.seat))) }
    {
        let Numbered { from, to, mut seat } = pass;
        let shared = &self.table.shared;
        let found = shared.compare_exchange::<Win>(&mut seat, 0, 0, u64::from(from));
        if found != 0 {
            return Err(Numbered { from, to, seat });
        }
        match shared.exchange(&mut seat, 0, None) {
            Some(state) => Ok((state, Numbered { from, to, seat })),
            None => unreachable!(),
        }
    }

    /// Takes the turn and the state. It may wait.
    pub fn turn<R: Wait>(&self, rt: &R, pass: Pass<S>) -> (S, Pass<S>)
        requires own { pass.seat.table_id ≡ self.now.table.shared.table_id }
        requires idle { IsIdle pass.seat }
        ensures won { IsSameSeat pass.seat result.1.seat × Holds result.1.seat result.0 }
        ensures took { Took S.lease S.journal S.stands_for (view pass.seat) result.0 }
        ensures view { view result.1.seat ≡ holding result.0 record (view pass.seat) { lost = (view result.1.seat).lost } }
    {
        let mut pass = pass;
        for _ in rt.forever() {
            match self.try_turn(pass) {
                Ok(won) => return won,
                Err(same) => {
                    pass = same;
                    thread::yield_now();
                }
            }
        }
        unreachable!()
    }

    /// Gives a state and the turn back.
    pub fn give(&self, pass: Pass<S>, state: S) -> Pass<S>
        requires own { pass.seat.table_id ≡ self.now.table.shared.table_id }
        requires owes { (x : S) × Holds pass.seat x × Owes S.lease S.journal S.stands_for (view pass.seat) x state }
        ensures same { IsSameSeat pass.seat result.seat × IsIdle result.seat }
        ensures view { view result.seat ≡ given S.lease S.journal S.stands_for S.at_rest state (view pass.seat) }
    {
        let Numbered { from, to, mut seat } = pass;
        let shared = &self.table.shared;
        match shared.exchange(&mut seat, 0, Some(state)) {
            None => {}
            Some(_) => unreachable!(),
        }
        shared.store::<Give>(&mut seat, 0, 0);
        Numbered { from, to, seat }
    }

    /// Cuts the numbers behind the first one off, for a pass of their own. A pass with one number comes back.
    pub fn split(&self, pass: Pass<S>) -> Result<(Pass<S>, Pass<S>), Pass<S>>
        requires own { pass.seat.table_id ≡ self.now.table.shared.table_id }
        requires idle { IsIdle pass.seat }
        ensures first { IfOk result (λ r. IsSameSeat pass.seat r.0.seat × IsIdle r.0.seat × (view r.0.seat ≡ first_one (view pass.seat))) }
        ensures others { IfOk result (λ r. (r.1.seat.table_id ≡ pass.seat.table_id) × IsIdle r.1.seat × (view r.1.seat ≡ others (view pass.seat))) }
        ensures one { IfErr result (λ p. (p ≡ pass) × ((view pass.seat).from ≡ (view pass.seat).to)) }
    {
        if pass.from == pass.to {
            return Err(pass);
        }
        let Numbered { from, to, mut seat } = pass;
        let other = self.table.shared.split_seat::<Cut>(&mut seat);
        let first = Numbered {
            from,
            to: from,
            seat,
        };
        let rest = Numbered {
            from: from + 1,
            to,
            seat: other,
        };
        Ok((first, rest))
    }

    /// Joins two passes whose numbers follow one another.
    pub fn join(&self, one: Pass<S>, other: Pass<S>) -> Pass<S>
        requires own { (one.seat.table_id ≡ self.now.table.shared.table_id) × (other.seat.table_id ≡ self.now.table.shared.table_id) }
        requires idle { IsIdle one.seat × IsIdle other.seat }
        requires no_lease { ((view one.seat).lease ≡ []) × ((view other.seat).lease ≡ []) }
        requires next { (view one.seat).to + 1 ≡ (view other.seat).from }
        ensures same { IsSameSeat one.seat result.seat × IsIdle result.seat }
        ensures view { view result.seat ≡ both (view one.seat) (view other.seat) }
    {
        let Numbered {
            from,
            to: _,
            mut seat,
        } = one;
        let Numbered {
            from: _,
            to,
            seat: spent,
        } = other;
        self.table.shared.join_seat::<Glue>(&mut seat, spent);
        Numbered { from, to, seat }
    }

    /// Ends the sharing, and gives the state home.
    pub fn close(self, pass: Pass<S>) -> S
        requires own { pass.seat.table_id ≡ self.table.shared.table_id }
        requires idle { IsIdle pass.seat × ((view pass.seat).lease ≡ []) }
        requires all { ((view pass.seat).from ≡ 1) × ((view pass.seat).to ≡ (view pass.seat).seats) }
        ensures took { Took S.lease S.journal S.stands_for (view pass.seat) result }
        ensures no_lease { (k : ℕ) → S.lease result k ≡ [] }
    {
        let Turned { table } = self;
        let Numbered {
            from: _,
            to: _,
            seat,
        } = pass;
        let mut closed = table.close_with(seat);
        let slot = closed.take(0);
        closed.free();
        match slot {
            Some(state) => state,
            None => unreachable!(),
        }
    }
}

impl<S, F> Numbered<S, F> {
    /// Its first number.
    pub fn first(&self) -> u32
        ensures { result ≡ (view self.now.seat).from }
    {
        self.from
    }
}

// The state that the one slot has.
fn only_one<S>(mut slots: Vec<Option<S>>) -> S
    requires { (x : S) × (slots.items ≡ Some x ∷ []) }
    ensures { slots.items ≡ Some result ∷ [] }
{
    let Some(slot) = slots.pop() else {
        unreachable!()
    };
    slots.destroy_empty();
    match slot {
        Some(state) => state,
        None => unreachable!(),
    }
}
