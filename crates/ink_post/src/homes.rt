//! Who is at home: how a run begins, and how a process goes out and comes home.
ghost use Rattle.std.specs.Prelude.{◌≡◌, ◌+◌, ◌<◌, ◌≤◌, ◌^◌, [], ◌∷◌, ◌++◌, ℕ, List, None, Some, IfOk, OnOk, length, map};
ghost use Rattle.ink_base.specs.Actions.{reached};
ghost use Rattle.ink_base.specs.Messages.{after_send, empty_mailbox};
ghost use Rattle.ink_base.specs.declared.limits.Limit.TheVariants as limit;
ghost use Rattle.ink_law_runs.specs.CodeMachine.{opening_run};
ghost use Rattle.ink_mail.specs.Boxes.{mail_of};
ghost use Rattle.ink_post.specs.Answers.{entered};
ghost use Rattle.ink_post.specs.Worlds.{Keeps, OnlyMakesRoom, OnlyShares, Same, home_of, world_of};
ghost use Rattle.ink_proc.specs.State.{state_of};
ghost use Rattle.ink_worlds.specs.State.{back_in, first_state, put_in};
ghost use Rattle.ink_worlds.specs.declared.status.Status.TheVariants.{Ready, Stopped};

use crate::post::Post;
use crate::started::{no_parcel, started};
use ink_base::{Journal, Limit, Limits};
use ink_code::Code;
use ink_mail::Mailboxes;
use ink_numbered::Numbered;
use ink_parcel::Parcel;
use ink_proc::Proc;
use ink_promise::Futures;
use ink_statuses::Statuses;
use ink_worlds::Status;
use std::alloc::{AllocError, Global};

impl Post {
    /// No processes yet.
    fn empty(alloc: Global, limits: Limits) -> Post
        ensures homes { result.homes.items ≡ [] }
        ensures statuses { result.statuses.items ≡ [] }
        ensures mail { result.mail.items ≡ [] }
        ensures futures { result.futures.items ≡ [] }
        ensures journal { result.journal.entries ≡ [] }
        ensures text { result.text ≡ None }
        ensures halt { result.halt ≡ None }
        ensures limits { result.limits ≡ limits }
        ensures wrong { result.wrong ≡ None }
    {
        Post {
            homes: Numbered::new(alloc),
            statuses: Statuses::new(alloc),
            mail: Mailboxes::new(alloc),
            futures: Futures::new(alloc),
            journal: Journal::new(alloc),
            text: None,
            halt: None,
            wrong: None,
            limits,
            alloc,
        }
    }

    /// Makes room for one process more.
    pub(crate) fn reserve_process(&mut self) -> Result<(), AllocError>
        ensures same { Same self.old self.new }
        ensures homes { OnOk result (1 ≤ self.new.homes.spare) }
        ensures statuses { OnOk result (1 ≤ self.new.statuses.spare) }
        ensures mail { OnOk result (1 ≤ self.new.mail.spare) }
        ensures rest { OnlyMakesRoom self.old self.new }
    {
        self.homes.reserve(1)?;
        self.statuses.reserve()?;
        self.mail.reserve()?;
        Ok(())
    }

    /// The number of the next process.
    pub(crate) fn next_number(&self) -> u32
        requires { reached limit.Processes (length self.now.homes.items) self.now.limits ≡ None }
        ensures { result ≡ length self.now.homes.items + 1 }
    {
        let count = self.homes.len();
        if self.limits.get(Limit::Processes) <= count {
            unreachable!();
        }
        count as u32 + 1
    }

    /// Adds a process that is at home and ready.
    pub(crate) fn add_process(&mut self, proc: Proc)
        requires homes { 1 ≤ self.old.homes.spare }
        requires statuses { 1 ≤ self.old.statuses.spare }
        requires mail { 1 ≤ self.old.mail.spare }
        requires number { length self.old.homes.items + 1 < 2 ^ 32 }
        ensures homes { map home_of self.new.homes.items ≡ map home_of self.old.homes.items ++ Some (state_of proc) ∷ [] }
        ensures statuses { self.new.statuses.items ≡ self.old.statuses.items ++ Ready ∷ [] }
        ensures mail { mail_of self.new.mail ≡ mail_of self.old.mail ++ empty_mailbox ∷ [] }
        ensures futures { self.new.futures ≡ self.old.futures }
        ensures journal { self.new.journal ≡ self.old.journal }
        ensures text { self.new.text ≡ self.old.text }
        ensures halt { self.new.halt ≡ self.old.halt }
        ensures limits { self.new.limits ≡ self.old.limits }
        ensures wrong { self.new.wrong ≡ self.old.wrong }
    {
        self.homes.add(Some(proc));
        self.statuses.add();
        self.mail.add();
    }

    /// Sends the first process its first message, which no process sent.
    fn send_first(&mut self, method: u32, values: Parcel) -> Result<(), AllocError>
        requires { mail_of self.old.mail ≡ empty_mailbox ∷ [] }
        ensures sent { OnOk result (mail_of self.new.mail ≡ after_send (empty_mailbox ∷ []) 1 0 method values) }
        ensures futures { self.new.futures ≡ self.old.futures }
        ensures rest { OnlyShares self.old self.new }
    {
        match self.mail.send(1, 0, method, values, 1) {
            Ok(()) => Ok(()),
            Err(_) => Err(AllocError),
        }
    }

    /// The run of a code as it begins: one process, with the first message, which no process sent.
    pub fn begin(alloc: Global, code: &Code, limits: Limits) -> Result<Post, AllocError>
        ensures begins { IfOk result (λ post. world_of post [] ≡ first_state (opening_run code.now)) }
        ensures limits { IfOk result (λ post. post.limits ≡ limits) }
        ensures wrong { IfOk result (λ post. post.wrong ≡ None) }
    {
        let mut post = Post::empty(alloc, limits);
        post.reserve_process()?;
        let fields = no_parcel(alloc)?;
        let Ok(first) = started(alloc, 1, code.main_kind, fields) else {
            return Err(AllocError);
        };
        post.add_process(first);
        let values = no_parcel(alloc)?;
        post.send_first(code.main, values)?;
        Ok(post)
    }

    /// The limits of the run.
    pub fn limits(&self) -> &Limits
        ensures { result.now ≡ self.now.limits }
    {
        &self.limits
    }

    /// Makes room for one entry more.
    pub fn reserve(&mut self) -> Result<(), AllocError>
        ensures same { Same self.old self.new }
        ensures keeps { Keeps self.old self.new }
        ensures room { OnOk result (1 ≤ self.new.journal.spare) }
    {
        self.journal.reserve(1)
    }

    /// A process goes home, and stands so.
    pub(crate) fn come_home(&mut self, process: u32, proc: Proc, status: Status)
        ensures after { (output : List ℕ) → world_of self.new output ≡ back_in process (state_of proc) status (world_of self.old output) }
        ensures keeps { Keeps self.old self.new }
        ensures journal { self.new.journal ≡ self.old.journal }
    {
        self.homes.set(process, Some(proc));
        self.statuses.set(process, status);
    }

    /// A process is gone, lent or not, and makes no further step. Nothing is asked of it, and all else stays.
    pub fn abandon(&mut self, process: u32)
        ensures after { (output : List ℕ) → world_of self.new output ≡ put_in process None Stopped (world_of self.old output) }
        ensures keeps { Keeps self.old self.new }
    {
        self.homes.set(process, None);
        self.statuses.set(process, Status::Stopped);
    }

    /// The process goes home ready, and its entry is added.
    pub(crate) fn enter(&mut self, process: u32, proc: Proc)
        requires { 1 ≤ self.old.journal.spare }
        ensures after { (output : List ℕ) → world_of self.new output ≡ entered process (state_of proc) (world_of self.old output) }
        ensures keeps { Keeps self.old self.new }
    {
        self.come_home(process, proc, Status::Ready);
        self.journal.add(process);
    }
}
