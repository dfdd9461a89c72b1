//! What is kept of a run.
ghost use Rattle.std.specs.Prelude.{◌≡◌, ◌<◌, ◌^◌, length};

use ink_base::{Journal, Limits, Text};
use ink_mail::Mailboxes;
use ink_numbered::Numbered;
use ink_proc::Proc;
use ink_promise::Futures;
use ink_statuses::Statuses;
use ink_worlds::Halt;
use std::alloc::Global;

/// The processes of a run by number, each at home or lent; how each stands; what they share; and the journal.
#[derive(Drop)]
pub struct Post {
    pub(crate) homes: Numbered<Option<Proc>>,
    pub(crate) statuses: Statuses,
    pub(crate) mail: Mailboxes,
    pub(crate) futures: Futures,
    pub(crate) journal: Journal,
    /// The text of the panic that was made.
    pub(crate) text: Option<Text>,
    /// What ended the run at a check-in.
    pub(crate) halt: Option<Halt>,
    /// The last process whose code was found wrong.
    pub(crate) wrong: Option<u32>,
    pub(crate) limits: Limits,
    pub(crate) alloc: Global,
    ghost few: { length statuses.items < 2 ^ 32 },
    ghost homes_level: { length homes.items ≡ length statuses.items },
    ghost mail_level: { length mail.items ≡ length statuses.items },
}
