//! The rule under which the state is shared, and what each step tells.
use crate::view::View;
use atomic_table::{Join, Play, Split, TableRule};
use ink_leasing::Leasable;
use std::snapshot::Snapshot;

/// What the rule is told at the start: how many numbers there are, and the first state.
#[derive(Drop)]
pub struct Opening<S> {
    pub seats: u32,
    pub state: Snapshot<S>,
}

/// The rule.
pub struct Leases;

impl<S: Leasable> TableRule<Option<S>, View<S, S::Fixed>, Opening<S>> for Leases {
    ghost use Rattle.ink_lease.specs.Rule.{Kept, first_view};

    ghost holds = { λ _. Kept S.lease S.journal S.stands_for };

    ghost first = { λ o. first_view o.seats (S.fixed o.state.value) (S.journal o.state.value) };
}

/// A try to take the turn.
pub struct Win;

impl<S: Leasable> Play<Option<S>, View<S, S::Fixed>> for Win {
    ghost use Rattle.ink_lease.specs.Rule.{won_or_lost};

    ghost then = { won_or_lost S.lease S.journal S.stands_for };
}

/// The turn is given back.
pub struct Give;

impl<S: Leasable> Play<Option<S>, View<S, S::Fixed>> for Give {
    ghost use Rattle.ink_lease.specs.Rule.{gave};

    ghost then = { gave S.lease S.journal S.stands_for S.at_rest };
}

/// A pass is cut behind its first number.
pub struct Cut;

impl<S, F> Split<View<S, F>> for Cut {
    ghost use Rattle.ink_lease.specs.Rule.{first_one, others};

    ghost left = { first_one };

    ghost right = { others };
}

/// Two passes whose numbers follow one another become one.
pub struct Glue;

impl<S, F> Join<View<S, F>> for Glue {
    ghost use Rattle.ink_lease.specs.Rule.{both, spent};

    ghost both = { both };

    ghost spent = { spent };
}
