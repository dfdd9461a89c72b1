//! With what a process comes home, and what the calls answer.
use ink_base::Text;
use ink_interp::Request;
use ink_proc::Proc;

/// With what a process comes home.
#[derive(Drop)]
pub enum Came {
    /// It can go on.
    Went,
    /// Its next action is never made: what that was to carry is gone. It makes no further step.
    GivesUp,
    /// It wants this action.
    Wants(Request),
    /// It ends the run with a text.
    Panics(Text),
    /// So many steps were made since its last action, and no more are allowed.
    Spent(u64),
    /// Its instruction is wrong. What is left of the process isn't kept.
    Wrong,
}

/// What a check-in came to.
#[derive(Drop)]
pub enum Answer {
    /// The process is home, and nothing else was done.
    Kept,
    /// The action was made, and an entry added.
    Moved,
    /// The action was made, and an entry added. It prints this text.
    Printed(Text),
    /// The action can't be made now.
    Waits,
    /// The action that was made is a panic, and an entry was added.
    Panicked,
    /// The action can be made, and the journal is at its limit.
    JournalFull,
    /// So many steps were made since the last action, which is the limit.
    Spent(u64),
    /// The code is wrong: no such instruction, or the reply to the action fits nowhere.
    Wrong,
}

/// What the next action of a process is.
#[derive(Clone, Copy)]
pub enum Looked {
    /// It can be made.
    Enabled,
    /// It can't be made now.
    Waits,
    /// So many steps were made since the last action, which is the limit.
    Spent(u64),
    /// The code is wrong.
    Wrong,
}

/// There is no such process, or it isn't ready.
#[derive(Clone, Copy)]
pub struct NotReady;

/// There was no memory. The process comes back, and what it came with.
#[derive(Drop)]
pub struct CheckFault {
    pub proc: Proc,
    pub came: Came,
}

/// Why a process made no action.
#[derive(Clone, Copy)]
pub enum ActFault {
    /// There is no such process, or it isn't ready.
    NotReady,
    /// No entry was added. The process may have made steps of its own.
    OutOfMemory,
}

/// How a run ended.
#[derive(Clone, Copy)]
pub enum End {
    /// Each process waits for a message.
    Quiet,
    /// All wait, and this is the least process that waits for a future.
    Waiting(u32),
    /// The last entry is a panic of this process.
    Panicked(u32),
    /// The sink failed in the print that is the last entry.
    SinkFailed,
    /// The journal is at its limit, and the next action of this process can be made.
    Events(u32),
    /// This process made so many steps since its last action, which is the limit.
    Local(u32, u64),
    /// The code of this process is wrong.
    Wrong(u32),
}
