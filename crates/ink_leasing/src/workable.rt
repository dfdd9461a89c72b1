//! What a worker asks of a state.
ghost use Rattle.std.specs.Prelude.{◌≡◌, ◌≢◌, ℕ, List, ◌++◌, MatchOption, IfSome};
ghost use Rattle.ink_leasing.specs.Leases.{Without, OneMore, Has, Gains, Loses};

use crate::leasable::Leasable;
use ink_base::Limits;
use std::alloc::Global;

/// What becomes of a process that came home.
pub enum Home {
    /// It can run on.
    Ready,
    /// It waits, or makes no further step.
    Away,
    /// There was no memory for its event, which is never made.
    NoMemory,
}

/// A state whose processes workers take out, run and bring home.
pub trait Workable: Leasable {
    /// A process that is away, with what it came to.
    type Work: Drop;

    /// What the processes run.
    type Code;

    // What comes home is where the process of this number stands after this journal, run on.
    ghost is_run: { Self.Fixed → List ℕ → ℕ → Self.Work → Type 0 };

    // The code and the limits are those of the fixed part.
    ghost fits: { Self.Fixed → Self.Code → List ℕ → Type 0 };

    fn is_at_rest(&self) -> bool
        ensures { result ≡ Self.at_rest self.now };

    /// A process that is ready, where the search finds one.
    fn first_ready(&self) -> Option<u32>;

    /// Leases the process to the seat, if it is ready.
    fn check_out(&mut self, process: u32, seat: u32) -> Option<Self::Work>
        ensures journal { Self.journal self.new ≡ Self.journal self.old }
        ensures stands { (f : Self.Fixed) → Self.stands_for self.old f → Self.stands_for self.new f }
        ensures others { (k : ℕ) → k ≢ seat → Self.lease self.new k ≡ Self.lease self.old k }
        ensures lends { MatchOption result (Self.lease self.new seat ≡ Self.lease self.old seat) (λ work. Gains process (Self.lease self.old seat) (Self.lease self.new seat)) }
        ensures run { (f : Self.Fixed) → Self.stands_for self.old f → IfSome result (is_run f (Self.journal self.new) process) };

    /// Runs a process that is away for a slice, or up to its next event.
    fn run(alloc: Global, code: &Self::Code, limits: &Limits, work: &mut Self::Work)
        ensures { (f : Self.Fixed) (js : List ℕ) (process : ℕ) → fits f code.now limits.now → is_run f js process work.old → is_run f js process work.new };

    /// Brings a leased process home, and makes the event that it came to.
    fn check_in(&mut self, code: &Self::Code, process: u32, seat: u32, work: Self::Work) -> Home
        requires leased { Has process (Self.lease self.old seat) }
        requires run { (f : Self.Fixed) × (limits : List ℕ) × Self.stands_for self.old f × fits f code.now limits × is_run f (Self.journal self.old) process work }
        ensures journal { OneMore process (Self.journal self.old) (Self.journal self.new) }
        ensures stands { (f : Self.Fixed) (limits : List ℕ) → Self.stands_for self.old f → fits f code.now limits → is_run f (Self.journal self.old) process work → Self.stands_for self.new f }
        ensures others { (k : ℕ) → k ≢ seat → Self.lease self.new k ≡ Self.lease self.old k }
        ensures lease { Loses process (Self.lease self.old seat) (Self.lease self.new seat) };

    // Events of others leave a process that is away as it is.
    ghost stays: { (f : Self.Fixed) (state : Self) (seen more : List ℕ) (process : ℕ) (work : Self.Work) → Self.stands_for state f → Self.journal state ≡ seen ++ more → Without process more → is_run f seen process work → is_run f (Self.journal state) process work };
}
