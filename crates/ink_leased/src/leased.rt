//! A world whose processes are leased.
use ink_code::Code;
use ink_run::World;
use std::snapshot::Snapshot;

/// The code of a run, and its world before processes were leased. Contracts alone see them.
#[derive(Drop)]
pub struct Began<K: Drop> {
    pub code: Snapshot<Code>,
    pub world: Snapshot<World<K>>,
}

/// A world whose processes are leased, until it ends.
#[derive(Drop)]
pub struct Leased<K: Drop> {
    pub(crate) world: World<K>,
    /// A check-in ended the run, or found the code of a process wrong. Who comes home later is dropped.
    pub(crate) is_over: bool,
    pub(crate) began: Began<K>,
}
