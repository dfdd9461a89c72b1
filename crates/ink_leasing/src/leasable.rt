//! A state that seats lease processes of.
ghost use Rattle.std.specs.Prelude.{◌≡◌, ℕ, List, Bool};
ghost use Rattle.ink_leasing.specs.Leases.{AreApart};

/// A state that threads share, one at a time. It has no call: contracts alone see it.
pub trait Leasable {
    /// What never changes of it.
    type Fixed;

    // The processes that each seat leases, with how many steps each had made when it went out.
    ghost lease: { Self → ℕ → List (ℕ × ℕ) };

    // The processes that made its events, in order.
    ghost journal: { Self → List ℕ };

    // Nothing is left to do.
    ghost at_rest: { Self → Bool };

    // The fixed part of this state.
    ghost fixed: { Self → Self.Fixed };

    // The state is what the fixed part and its own journal make of it.
    ghost stands_for: { Self → Self.Fixed → Type 0 };

    // In a state that stands for something no process is leased twice.
    ghost apart: { (state : Self) (f : Self.Fixed) → stands_for state f → AreApart (lease state) };
}
