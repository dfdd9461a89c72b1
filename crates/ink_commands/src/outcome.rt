//! What a command came to.
ghost use Rattle.std.specs.Prelude.{◌≡◌, []};

use ink_base::{Journal, Text};
use ink_causes::Cause;
use std::alloc::Global;

/// What a command came to, before that is told.
#[derive(Drop)]
pub struct Outcome<K: Drop> {
    pub cause: Cause,
    /// The report of a panic; empty after another cause.
    pub report: Text,
    /// The journal of a run; empty where nothing was run.
    pub journal: Journal,
    /// The sink of the output.
    pub out: K,
}

/// What an order came to, before that is told.
#[derive(Drop)]
pub struct Found<'a, K: Drop> {
    pub outcome: Outcome<K>,
    /// The name of the file that was to be read last; empty where there was none.
    pub name: &'a [u8],
}

impl<K: Drop> Outcome<K> {
    /// A cause without a run.
    pub fn without_run(alloc: Global, cause: Cause, out: K) -> Outcome<K>
        ensures cause { result.cause ≡ cause }
        ensures journal { result.journal.entries ≡ [] }
        ensures out { result.out ≡ out }
    {
        Outcome {
            cause,
            report: Text::from_bytes(Vec::new(alloc)),
            journal: Journal::new(alloc),
            out,
        }
    }
}
