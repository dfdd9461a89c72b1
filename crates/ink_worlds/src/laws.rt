//! The laws. None does anything when it runs.
ghost use Rattle.std.specs.Prelude.{◌≡◌, ◌≤◌, ℕ, List, Option};
ghost use Rattle.ink_base.specs.Limits.{limit_of};
ghost use Rattle.ink_base.specs.Numbered.{numbered};
ghost use Rattle.ink_base.specs.declared.limits.Limit.TheVariants as limit;
ghost use Rattle.ink_law_turns.specs.Ahead.{StandsAt};
ghost use Rattle.ink_law_turns.specs.Machines.{IsCounted, Machine};
ghost use Rattle.ink_law_turns.specs.Turns.{Run};
ghost use Rattle.ink_worlds.specs.Standing.{ComesFrom, StandsFor};
ghost use Rattle.ink_worlds.specs.State.{Answer, Came, ChecksIn, State, checked_out, first_state, halted};
ghost use Rattle.ink_worlds.specs.declared.halt.Halt.TheVariants.{SinkFailed};
ghost use Rattle.ink_worlds.specs.declared.status.Status.TheVariants.{Out, Ready};

/// A world of processes that made no step is ahead of the empty journal.
pub fn worlds_begin<P, V>()
    ensures { (m : Machine P V) (limits : List ℕ) (first : Run P V) → first.panic ≡ Option.None → ((process : ℕ) (q : P) → numbered first.processes process ≡ Option.Some q → m.ran q ≡ 0) → StandsFor m limits first (first_state first) }
{}

/// A world that lends a ready process stays ahead of its journal, and the process stands as the journal leaves it, and so
/// many steps further as it counts, which are no more than are allowed.
pub fn worlds_lend<P, V>()
    ensures world { (m : Machine P V) (limits : List ℕ) (first : Run P V) (state : State P V) (process seat : ℕ) (p : P) → StandsFor m limits first state → numbered state.statuses process ≡ Option.Some Ready → numbered state.homes process ≡ Option.Some (Option.Some p) → StandsFor m limits first (checked_out process seat (m.ran p) state) }
    ensures lent { (m : Machine P V) (limits : List ℕ) (first : Run P V) (state : State P V) (process seat : ℕ) (p : P) → StandsFor m limits first state → numbered state.statuses process ≡ Option.Some Ready → numbered state.homes process ≡ Option.Some (Option.Some p) → StandsAt m limits first state.journal process p }
    ensures within { (m : Machine P V) (limits : List ℕ) (first : Run P V) (state : State P V) (process : ℕ) (p : P) → StandsFor m limits first state → numbered state.statuses process ≡ Option.Some Ready → numbered state.homes process ≡ Option.Some (Option.Some p) → m.ran p ≤ limit_of limit.Local limits }
{}

/// A world to which a lent process comes home stays ahead of its journal, whatever the process came to: one entry more
/// where its action was made, and else none.
pub fn worlds_keep_standing<P, V>()
    ensures { (m : Machine P V) (limits : List ℕ) (first : Run P V) → IsCounted m → (state : State P V) → StandsFor m limits first state → (process seat ran : ℕ) → numbered state.statuses process ≡ Option.Some (Out seat ran) → (before p : P) → StandsAt m limits first state.journal process before → m.ran before ≤ limit_of limit.Local limits → (came : Came V) (answer : Answer) (new : State P V) → ComesFrom m limits before came p → ChecksIn m limits process came p state answer new → StandsFor m limits first new }
{}

/// A world whose sink failed in the print that is its last entry is ahead of its journal still.
pub fn worlds_end<P, V>()
    ensures { (m : Machine P V) (limits : List ℕ) (first : Run P V) (state : State P V) → StandsFor m limits first state → state.halt ≡ Option.None → StandsFor m limits first (halted SinkFailed state) }
{}
