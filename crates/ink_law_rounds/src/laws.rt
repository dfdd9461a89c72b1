//! The laws. None does anything when it runs.
ghost use Rattle.std.specs.Prelude.{◌≡◌, ◌≢◌, ℕ, List, Option};
ghost use Rattle.ink_base.specs.Numbered.{numbered};
ghost use Rattle.ink_law_turns.specs.Ahead.{StandsAt};
ghost use Rattle.ink_law_turns.specs.Machines.{Machine};
ghost use Rattle.ink_law_turns.specs.Turns.{Run};
ghost use Rattle.ink_worlds.specs.Standing.{StandsFor};
ghost use Rattle.ink_worlds.specs.State.{Answer, Came, ChecksIn, State};
ghost use Rattle.ink_worlds.specs.declared.status.Status.TheVariants.{Out};

/// A process that comes home leaves the others lent, and where the journal leaves them.
pub fn others_stay_lent<P, V>()
    ensures lent { (m : Machine P V) (limits : List ℕ) (process : ℕ) (came : Came V) (p : P) (old : State P V) (answer : Answer) (new : State P V) → ChecksIn m limits process came p old answer new → (other seat ran : ℕ) → other ≢ process → numbered old.statuses other ≡ Option.Some (Out seat ran) → numbered new.statuses other ≡ Option.Some (Out seat ran) }
    ensures stands { (m : Machine P V) (limits : List ℕ) (first : Run P V) (process : ℕ) (came : Came V) (p : P) (old : State P V) (answer : Answer) (new : State P V) → ChecksIn m limits process came p old answer new → StandsFor m limits first new → (other : ℕ) (q : P) → other ≢ process → StandsAt m limits first old.journal other q → StandsAt m limits first new.journal other q }
{}
