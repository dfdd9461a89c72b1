//! The laws. None does anything when it runs.
ghost use Rattle.std.specs.Prelude.{◌≡◌, ◌≤◌, ℕ, true, false, List, Option, length};
ghost use Rattle.ink_base.specs.Actions.{Action, as_made, is_enabled};
ghost use Rattle.ink_base.specs.Limits.{limit_of};
ghost use Rattle.ink_base.specs.Numbered.{numbered};
ghost use Rattle.ink_base.specs.declared.limits.Limit.TheVariants as limit;
ghost use Rattle.ink_law_replays.specs.Next.{GoesWrong, HasNoTurn, IsAtGet, IsAtTake, IsReady, IsSpent, PanickedLast, Waits};
ghost use Rattle.ink_law_turns.specs.Ahead.{StandsAt};
ghost use Rattle.ink_law_turns.specs.Machines.{Comes, Fails, Machine};
ghost use Rattle.ink_law_turns.specs.Turns.{Run, Turns};
ghost use Rattle.ink_worlds.specs.Standing.{StandsFor};
ghost use Rattle.ink_worlds.specs.State.{State};
ghost use Rattle.ink_worlds.specs.declared.halt.Halt.TheVariants.{Events, Local, Panicked};
ghost use Rattle.ink_worlds.specs.declared.status.Status.TheVariants.{Held, Idle};

/// A process that waits makes no turn, nor does one that isn't there, nor any process behind a panic.
pub fn waiting_makes_no_turn<P, V>()
    ensures waits { (m : Machine P V) (limits : List ℕ) (run : Run P V) (process : ℕ) → Waits m run process → HasNoTurn m limits run process }
    ensures absent { (m : Machine P V) (limits : List ℕ) (run : Run P V) (process : ℕ) → numbered run.processes process ≡ Option.None → HasNoTurn m limits run process }
    ensures panicked { (m : Machine P V) (limits : List ℕ) (run : Run P V) (process : ℕ) (panic : ℕ × List ℕ) → run.panic ≡ Option.Some panic → HasNoTurn m limits run process }
{}

/// A process that comes to an action from where it stands after a journal has that action next, in the run after the
/// journal's turns.
pub fn next_stands<P, V>()
    ensures waits { (m : Machine P V) (limits : List ℕ) (first : Run P V) (journal : List ℕ) (run : Run P V) (process : ℕ) (before waiting : P) (wish : Action V) → Turns m limits first journal run → StandsAt m limits first journal process before → m.step before ≡ Comes wish waiting → is_enabled wish process run.shared ≡ false → Waits m run process }
    ensures ready { (m : Machine P V) (limits : List ℕ) (first : Run P V) (journal : List ℕ) (run : Run P V) (process : ℕ) (before waiting : P) (wish : Action V) → Turns m limits first journal run → StandsAt m limits first journal process before → m.step before ≡ Comes wish waiting → is_enabled wish process run.shared ≡ true → IsReady m run process }
{}

/// In a world that is ahead of its journal a process that waits in the world waits after the journal's turns, and one that
/// isn't there isn't there.
pub fn statuses_tell_next<P, V>()
    ensures take { (m : Machine P V) (limits : List ℕ) (first : Run P V) (state : State P V) (stands : StandsFor m limits first state) (process : ℕ) → numbered state.statuses process ≡ Option.Some Idle → IsAtTake m stands.ahead.turned process }
    ensures get { (m : Machine P V) (limits : List ℕ) (first : Run P V) (state : State P V) (stands : StandsFor m limits first state) (process future : ℕ) → numbered state.statuses process ≡ Option.Some (Held future) → IsAtGet m stands.ahead.turned process }
    ensures absent { (m : Machine P V) (limits : List ℕ) (first : Run P V) (state : State P V) (stands : StandsFor m limits first state) (process : ℕ) → numbered state.statuses process ≡ Option.None → numbered stands.ahead.turned.processes process ≡ Option.None }
{}

/// What ended a world that is ahead of its journal is told by the run after the journal's turns.
pub fn ends_tell_next<P, V>()
    ensures panicked { (m : Machine P V) (limits : List ℕ) (first : Run P V) (state : State P V) (stands : StandsFor m limits first state) (process : ℕ) → first.panic ≡ Option.None → state.halt ≡ Option.Some (Panicked process) → PanickedLast state.journal stands.ahead.turned process }
    ensures full { (m : Machine P V) (limits : List ℕ) (first : Run P V) (state : State P V) (stands : StandsFor m limits first state) (process : ℕ) → state.halt ≡ Option.Some (Events process) → (limit_of limit.Events limits ≤ length state.journal) × IsReady m stands.ahead.turned process }
    ensures spent { (m : Machine P V) (limits : List ℕ) (first : Run P V) (state : State P V) (stands : StandsFor m limits first state) (process steps : ℕ) → state.halt ≡ Option.Some (Local process steps) → (steps ≡ limit_of limit.Local limits) × IsSpent m stands.ahead.turned process steps }
{}

/// A process whose next step can't be made after a journal, or whose reply can't be put, goes wrong in the run after the
/// journal's turns.
pub fn wrong_stands<P, V>()
    ensures step { (m : Machine P V) (limits : List ℕ) (first : Run P V) (journal : List ℕ) (run : Run P V) (process : ℕ) (before : P) → Turns m limits first journal run → StandsAt m limits first journal process before → m.step before ≡ Fails → GoesWrong m limits run process }
    ensures reply { (m : Machine P V) (limits : List ℕ) (first : Run P V) (journal : List ℕ) (run : Run P V) (process : ℕ) (before waiting : P) (wish : Action V) → Turns m limits first journal run → StandsAt m limits first journal process before → m.step before ≡ Comes wish waiting → is_enabled wish process run.shared ≡ true → m.left (as_made wish run.shared limits) process run.shared waiting ≡ Option.None → GoesWrong m limits run process }
{}
