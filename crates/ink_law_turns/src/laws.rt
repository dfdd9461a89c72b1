//! The laws. None does anything when it runs.
ghost use Rattle.std.specs.Prelude.{◌≡◌, ◌≢◌, ℕ, true, List, ◌∷◌, [], ◌++◌, Option};
ghost use Rattle.ink_base.specs.Actions.{Action, SharedState, is_enabled, as_made};
ghost use Rattle.ink_base.specs.Messages.{unread_of};
ghost use Rattle.ink_base.specs.Numbered.{numbered};
ghost use Rattle.ink_law_turns.specs.Ahead.{Ahead, IsNotNamed, Led, StandsAt, panicked, with_process};
ghost use Rattle.ink_law_turns.specs.Machines.{Comes, ComesTo, Goes, IsCounted, Machine};
ghost use Rattle.ink_law_turns.specs.Order.{Begins, Event, Follow, Rise, all_sent, all_taken, from_sender, sent_to};
ghost use Rattle.ink_law_turns.specs.Turns.{Run, Turn, Turns, after_made};

/// A process comes to one action, so that a journal leads to one run.
pub fn turns_are_determined<P, V>()
    ensures action { (m : Machine P V) (p waiting other : P) (wish wanted : Action V) → ComesTo m p wish waiting → ComesTo m p wanted other → (wish ≡ wanted) × (waiting ≡ other) }
    ensures turn { (m : Machine P V) (limits : List ℕ) (process : ℕ) (old new other : Run P V) → Turn m limits process old new → Turn m limits process old other → new ≡ other }
    ensures journal { (m : Machine P V) (limits journal : List ℕ) (old new other : Run P V) → Turns m limits old journal new → Turns m limits old journal other → new ≡ other }
{}

/// A run that is ahead of a journal is so still when one of its processes goes on by itself, whatever steps the others
/// made.
///
/// No process needs to be asked that panicked.
pub fn steps_keep_ahead<P, V>()
    ensures step { (m : Machine P V) → IsCounted m → (processes : List P) (process : ℕ) (p q : P) → Led m processes process p → m.step p ≡ Goes q → Led m processes process q }
    ensures run { (m : Machine P V) (limits : List ℕ) (first : Run P V) (journal : List ℕ) (run : Run P V) (process : ℕ) (q : P) → (ahead : Ahead m limits first journal run) → panicked run.panic ≢ Option.Some process → Led m ahead.turned.processes process q → Ahead m limits first journal (with_process process q run) }
{}

/// A run that is ahead of a journal is so of one entry more when a process comes to an action that can be made, and makes
/// it: the steps that the others made before may as well come behind it.
pub fn actions_keep_ahead<P, V>()
    ensures { (m : Machine P V) (limits : List ℕ) (first : Run P V) → IsCounted m → (journal : List ℕ) (run : Run P V) (process : ℕ) (before waiting left : P) (wish : Action V) → (stood : P) → (ahead : Ahead m limits first journal run) → run.panic ≡ Option.None → numbered run.processes process ≡ Option.Some stood → Led m ahead.turned.processes process before → m.step before ≡ Comes wish waiting → is_enabled wish process run.shared ≡ true → m.left (as_made wish run.shared limits) process run.shared waiting ≡ Option.Some left → Ahead m limits first (journal ++ process ∷ []) (after_made m (as_made wish run.shared limits) process left run) }
{}

/// Entries of a journal that don't name a process leave it where it stands.
pub fn entries_of_others_leave<P, V>()
    ensures { (m : Machine P V) (limits : List ℕ) (first : Run P V) (journal more : List ℕ) (process : ℕ) (q : P) (new : Run P V) → StandsAt m limits first journal process q → Turns m limits first (journal ++ more) new → IsNotNamed process more → StandsAt m limits first (journal ++ more) process q }
{}

/// What a process took of the messages of another begins what it had unread of them and what that one sent to it, in
/// order. The numbers of what is sent to a process rise, so that each message is taken once.
///
/// This holds of any actions one after another, whatever processes make them.
pub fn messages_come_in_order<V>()
    ensures order { (sender receiver : ℕ) (events : List (Event V)) (old new : SharedState V) → Follow old events new → Begins (all_taken sender receiver events) (from_sender sender (unread_of old.mail receiver) ++ all_sent sender receiver events) }
    ensures numbers { (sender receiver : ℕ) (events : List (Event V)) (old new : SharedState V) → Follow old events new → Rise (sent_to (numbered old.mail receiver)) (all_sent sender receiver events) (sent_to (numbered new.mail receiver)) }
{}
