//! The laws. None does anything when it runs.
ghost use Rattle.std.specs.Prelude.{ℕ, ◌+◌, List, length};
ghost use Rattle.ink_base.specs.Actions.{Action};
ghost use Rattle.ink_code.specs.declared.code.Code.{Code};
ghost use Rattle.ink_code.specs.Process.{Process};
ghost use Rattle.ink_code.specs.Runs.{CodeAhead};
ghost use Rattle.ink_code.specs.Trees.{Parcel};
ghost use Rattle.ink_law_worlds.specs.Coming.{ComesHome, IsApartFor, IsFresh, StandsForCode, world_of};
ghost use Rattle.ink_worlds.specs.State.{State, Wants};

/// A world that stands for a run of a code is ahead of its own journal, as the machine of the code says it.
pub fn worlds_are_ahead()
    ensures { (code : Code) (limits : List ℕ) (state : State Process Parcel) → (stands : StandsForCode code limits state) → CodeAhead code limits state.journal (world_of stands.run) }
{}

/// What a reply brings to a process that comes home with a take or a get has other names than its objects.
pub fn replies_come_apart()
    ensures { (code : Code) (limits : List ℕ) (state : State Process Parcel) (process seat : ℕ) (wish : Action Parcel) (p : Process) → StandsForCode code limits state → ComesHome code limits state process seat (Wants wish) p → IsApartFor wish process state.shared p.objects }
{}

/// A process that comes home with a spawn brings no object with the number of the process that it starts.
pub fn starts_are_fresh()
    ensures { (code : Code) (limits : List ℕ) (state : State Process Parcel) (process seat : ℕ) (wish : Action Parcel) (p : Process) → StandsForCode code limits state → ComesHome code limits state process seat (Wants wish) p → IsFresh wish (length state.homes + 1) }
{}
