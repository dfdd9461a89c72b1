//! The laws. None does anything when it runs.
ghost use Rattle.std.specs.Prelude.{◌≡◌, ◌≢◌, ℕ, ◌+◌, List, length, Option, Result, IsSome};
ghost use Rattle.std.specs.FinMap.{get};
ghost use Rattle.ink_base.specs.declared.ident.ObjectId.{ObjectId};
ghost use Rattle.ink_base.specs.declared.value.Value.{Value};
ghost use Rattle.ink_base.specs.Actions as action;
ghost use Rattle.ink_base.specs.Messages.{Message, front_of};
ghost use Rattle.ink_base.specs.Numbered.{numbered};
ghost use Rattle.ink_base.specs.Objects.{Objects};
ghost use Rattle.ink_code.specs.declared.code.Code.{Code};
ghost use Rattle.ink_code.specs.Machine.{Stepped};
ghost use Rattle.ink_code.specs.Process.{Process, next_id, state_name};
ghost use Rattle.ink_code.specs.Replies.{Reply, answered};
ghost use Rattle.ink_code.specs.Runs.{World, CodeAhead, CodeReplay, CodeTurn, held_by, with_state};
ghost use Rattle.ink_code.specs.Slice.{ComesTo, steps_on};
ghost use Rattle.ink_code.specs.Step.{free_step};
ghost use Rattle.ink_code.specs.Trees.{Parcel, Parted, parted_of};
ghost use Rattle.ink_law_ownership.specs.Leaves.{IsTree, ReplyLeaves, StepLeaves};
ghost use Rattle.ink_law_ownership.specs.Names.{StandApart, times_in_world};
ghost use Rattle.ink_parcel.specs.Parts.{AreApartFrom};
ghost use Rattle.ink_proc.specs.Starts.{CanStart};

/// What each step leaves of a process, whatever code runs.
///
/// It keeps its number and its type, and counts each step that is made. No object gets a name that another has: those
/// that stay and those that go out with an action are the old ones and perhaps a new one, each once. A parcel that goes
/// out is the tree of its values, in which each object is owned once. At an action with which nothing goes out the process stays as it
/// was.
pub fn step_leaves()
    ensures { (code : Code) (limits : List ℕ) (p q : Process) (stepped : Stepped) → free_step code limits p.pending p ≡ Result.Ok (stepped, q) → StepLeaves p stepped q }
{}

/// What each reply that can be put leaves of a process.
///
/// It keeps its number and its type, counts its steps anew, and makes no object. Each name stands among its objects no
/// more often than among those that it had and those that the reply brings.
pub fn reply_leaves()
    ensures { (code : Code) (reply : Reply) (p q : Process) → answered code reply p ≡ Result.Ok q → ReplyLeaves reply p q }
{}

/// In each run of a code names stand apart: after the turns of a journal, and ahead of them by whatever steps.
///
/// Each name stands in one heap, one unread message or one future alone. No process has made fewer objects than its names
/// tell, so that the next name which it gives stands nowhere.
pub fn names_stand_apart()
    ensures replay { (code : Code) (limits journal : List ℕ) (world : World) → CodeReplay code limits journal world → StandApart world }
    ensures ahead { (code : Code) (limits journal : List ℕ) (world : World) → CodeAhead code limits journal world → StandApart world }
{}

/// One turn keeps apart what stands apart.
pub fn turn_keeps_apart()
    ensures { (code : Code) (limits : List ℕ) (process : ℕ) (old new : World) → StandApart old → CodeTurn code limits process old new → StandApart new }
{}

/// The steps that a process made since its last action are those that it counts.
pub fn steps_are_counted()
    ensures { (code : Code) (limits journal : List ℕ) (world : World) → CodeReplay code limits journal world → (number : ℕ) (p q : Process) (steps : ℕ) → numbered world.processes number ≡ Option.Some p → steps_on steps code limits p ≡ Option.Some q → q.ran ≡ steps }
{}

/// Where names stand apart, what a reply brings to a process has other names than its objects, and the name of the object
/// that the process makes next stands nowhere.
pub fn replies_bring_other_names()
    ensures message { (world : World) → StandApart world → (number : ℕ) (p : Process) → numbered world.processes number ≡ Option.Some p → (message : Message Parcel) → front_of world.shared.mail number ≡ Option.Some message → AreApartFrom p.objects message.values.objects }
    ensures value { (world : World) → StandApart world → (number : ℕ) (p : Process) → numbered world.processes number ≡ Option.Some p → (future : ℕ) (parcel : Parcel) → held_by (numbered world.shared.futures future) ≡ Option.Some parcel → AreApartFrom p.objects parcel.objects }
    ensures next { (world : World) → StandApart world → (number : ℕ) (p : Process) → numbered world.processes number ≡ Option.Some p → times_in_world (next_id p) world ≡ 0 }
{}

/// What a cut takes out of objects is the tree of the values, in which each object is owned once.
pub fn cuts_are_trees()
    ensures { (values : List Value) (objects : Objects) (parts : Parted) → parted_of values objects ≡ Result.Ok parts → IsTree (record { values = values; objects = parts.taken }) }
{}

/// A process can start with a tree of which no object has its number: with the state that has the values as its fields.
pub fn trees_start()
    ensures { (number kind : ℕ) (parcel : Parcel) → IsTree parcel → ((id : ObjectId) → IsSome (get parcel.objects id) → id.process ≢ number) → CanStart number (state_name number) (with_state number kind parcel) }
{}

/// Where names stand apart, a process that another is to start can start, under the number that is next.
pub fn spawns_start()
    ensures { (code : Code) (limits : List ℕ) (world : World) → StandApart world → (number : ℕ) (p waiting : Process) (kind : ℕ) (parcel : Parcel) → numbered world.processes number ≡ Option.Some p → ComesTo code limits p (action.Spawn kind parcel) waiting → CanStart (length world.processes + 1) (state_name (length world.processes + 1)) (with_state (length world.processes + 1) kind parcel) }
{}

/// In each run there is a mailbox for each process, so that the number which a spawn answers is the new process's.
pub fn each_process_has_mail()
    ensures { (code : Code) (limits journal : List ℕ) (world : World) → CodeAhead code limits journal world → length world.shared.mail ≡ length world.processes }
{}
