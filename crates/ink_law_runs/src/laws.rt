//! The laws. None does anything when it runs.
ghost use Rattle.std.specs.Prelude.{◌≡◌, ℕ, List, ◌↔◌};
ghost use Rattle.ink_base.specs.Numbered.{numbered};
ghost use Rattle.ink_code.specs.declared.code.Code.{Code};
ghost use Rattle.ink_code.specs.Readings.{Event, Events, messages_handled, messages_sent};
ghost use Rattle.ink_code.specs.Runs.{World, CodeAhead, CodeReplay};
ghost use Rattle.ink_law_runs.specs.CodeMachine.{code_machine, opening_run, run_of};
ghost use Rattle.ink_law_turns.specs.Ahead.{Ahead};
ghost use Rattle.ink_law_turns.specs.Machines.{IsCounted};
ghost use Rattle.ink_law_turns.specs.Order.{Begins, Rise, sent_to};
ghost use Rattle.ink_law_turns.specs.Turns.{Turns};

/// The machine that runs a code counts the steps of a process, lets it count anew at each action, and leaves it as it was
/// at a take, a get and a new future that it waits for.
pub fn machine_is_counted()
    ensures { (code : Code) (limits : List ℕ) → IsCounted (code_machine code limits) }
{}

/// A journal has one replay.
pub fn replays_are_determined()
    ensures turns { (code : Code) (limits journal : List ℕ) (world : World) → CodeReplay code limits journal world ↔ Turns (code_machine code limits) limits (opening_run code) journal (run_of world) }
    ensures once { (code : Code) (limits journal : List ℕ) (world other : World) → CodeReplay code limits journal world → CodeReplay code limits journal other → world ≡ other }
{}

/// A run is ahead of a journal exactly where each of its processes, looked at by itself, is so many steps from where the
/// turns left it as it counts.
pub fn ahead_by_process()
    ensures { (code : Code) (limits journal : List ℕ) (world : World) → CodeAhead code limits journal world ↔ Ahead (code_machine code limits) limits (opening_run code) journal (run_of world) }
{}

/// The order of messages: what one process handled of another begins what that one sent to it, in the order in which it
/// sent them.
///
/// The numbers of what is sent to a process rise, so that no message is handled twice. The opening message is sent by no
/// process, whose number is 0.
pub fn messages_are_handled_in_order()
    ensures order { (code : Code) (limits journal : List ℕ) (world : World) (events : List Event) → Events code limits journal world events → (sender receiver : ℕ) → Begins (messages_handled sender receiver events) (messages_sent code sender receiver events) }
    ensures numbers { (code : Code) (limits journal : List ℕ) (world : World) (events : List Event) → Events code limits journal world events → (sender receiver : ℕ) → Rise 0 (messages_sent code sender receiver events) (sent_to (numbered world.shared.mail receiver)) }
{}
