//! Making an action: first what may fail, then what can't.
ghost use Rattle.std.specs.Prelude.{◌≡◌, ◌≤◌, ℕ, List, Ok};
ghost use Rattle.ink_base.specs.Actions as action;
ghost use Rattle.ink_interp.specs.Answers.{HasParcel, IsApart, told as told_reply};
ghost use Rattle.ink_post.specs.Answers.{Finishes, Makes};
ghost use Rattle.ink_post.specs.Asks.{CanMake, GoesOn};
ghost use Rattle.ink_post.specs.Worlds.{Keeps, world_of};
ghost use Rattle.ink_post.specs.declared.answer.Came.TheVariants as came;
ghost use Rattle.ink_proc.specs.State.{state_of};
ghost use Rattle.ink_steps.specs.Answers.{action_of};
ghost use Rattle.ink_steps.specs.declared.stepped.Request.TheVariants as request;

use crate::answer::{Answer, Came, CheckFault};
use crate::post::Post;
use crate::started::started;
use ink_base::Text;
use ink_code::Code;
use ink_interp::{AnswerFault, Reply, Request, answer};
use ink_mail::Message;
use ink_parcel::Parcel;
use ink_proc::Proc;

/// There was no memory for a wanted action.
pub(crate) fn back(proc: Proc, wish: Request) -> CheckFault
    ensures { result ≡ record { proc = proc; came = came.Wants wish } }
{
    CheckFault {
        proc,
        came: Came::Wants(wish),
    }
}

impl Post {
    /// An action was made whose reply carries no objects: the process goes home with it, and its entry is added. `false`
    /// where the reply fits nowhere. Then the process is gone.
    #[tactic(auto, using(crate::proofs::MakingLemmas::left_none, crate::proofs::MakingLemmas::no_memory))]
    fn finish(&mut self, code: &Code, process: u32, mut proc: Proc, reply: Reply) -> bool
        requires room { 1 ≤ self.old.journal.spare }
        requires apart { IsApart reply proc.heap.objects }
        requires empty { ¬ HasParcel reply }
        ensures finishes { Finishes code.now process (told_reply reply) (state_of proc) self.old self.new result }
        ensures keeps { Keeps self.old self.new }
    {
        match answer(self.alloc, &mut proc, code, reply) {
            Ok(()) => {
                self.enter(process, proc);
                true
            }
            Err(AnswerFault::Wrong(_)) => {
                self.abandon(process);
                false
            }
            Err(AnswerFault::OutOfMemory(_)) => unreachable!(),
        }
    }

    /// A take: the front message of the process begins.
    fn make_take(&mut self, code: &Code, process: u32, mut proc: Proc) -> Result<Answer, CheckFault>
        requires { CanMake action.Take process (state_of proc) self.old }
        ensures makes { Makes code.now action.Take process (state_of proc) (came.Wants request.Take) self.old self.new result }
        ensures limits { self.new.limits ≡ self.old.limits }
        ensures wrong { self.new.wrong ≡ self.old.wrong }
    {
        let message = self.take_message(process);
        let (number, sender, method, parcel) = message.into_parts();
        match answer(
            self.alloc,
            &mut proc,
            code,
            Reply::Message { method, parcel },
        ) {
            Ok(()) => {
                self.enter(process, proc);
                Ok(Answer::Moved)
            }
            Err(AnswerFault::OutOfMemory(Reply::Message { method, parcel })) => {
                let message = Message::new(number, sender, method, parcel);
                self.return_message(process, message);
                Err(back(proc, Request::Take))
            }
            Err(AnswerFault::OutOfMemory(_)) => unreachable!(),
            Err(AnswerFault::Wrong(_)) => {
                self.abandon(process);
                Ok(Answer::Wrong)
            }
        }
    }

    /// A get: the value of the future goes to the process.
    fn make_get(
        &mut self,
        code: &Code,
        process: u32,
        mut proc: Proc,
        future: u32,
    ) -> Result<Answer, CheckFault>
        requires { CanMake (action.GetFuture future) process (state_of proc) self.old }
        ensures makes { Makes code.now (action.GetFuture future) process (state_of proc) (came.Wants (request.GetFuture future)) self.old self.new result }
        ensures limits { self.new.limits ≡ self.old.limits }
        ensures wrong { self.new.wrong ≡ self.old.wrong }
    {
        let value = self.take_value(future);
        match answer(self.alloc, &mut proc, code, Reply::Got(value)) {
            Ok(()) => {
                self.enter(process, proc);
                Ok(Answer::Moved)
            }
            Err(AnswerFault::OutOfMemory(Reply::Got(value))) => {
                self.return_value(future, value);
                Err(back(proc, Request::GetFuture { future }))
            }
            Err(AnswerFault::OutOfMemory(_)) => unreachable!(),
            Err(AnswerFault::Wrong(_)) => {
                self.abandon(process);
                Ok(Answer::Wrong)
            }
        }
    }

    /// A print: the text is handed out.
    fn make_print(&mut self, code: &Code, process: u32, proc: Proc, text: Text) -> Answer
        requires { CanMake (action.Print text) process (state_of proc) self.old }
        ensures makes { Makes code.now (action.Print text) process (state_of proc) (came.Wants (request.Print text)) self.old self.new (Ok result) }
        ensures limits { self.new.limits ≡ self.old.limits }
        ensures wrong { self.new.wrong ≡ self.old.wrong }
    {
        if !self.finish(code, process, proc, Reply::Done) {
            return Answer::Wrong;
        }
        Answer::Printed(text)
    }

    /// A spawn: a process more, with these fields of its state.
    fn make_spawn(
        &mut self,
        code: &Code,
        process: u32,
        proc: Proc,
        kind: u32,
        fields: Parcel,
    ) -> Result<Answer, CheckFault>
        requires { CanMake (action.Spawn kind fields) process (state_of proc) self.old }
        ensures makes { Makes code.now (action.Spawn kind fields) process (state_of proc) (came.Wants (request.Spawn kind fields)) self.old self.new result }
        ensures limits { self.new.limits ≡ self.old.limits }
        ensures wrong { self.new.wrong ≡ self.old.wrong }
    {
        let number = self.next_number();
        if self.reserve_process().is_err() {
            return Err(back(proc, Request::Spawn { kind, fields }));
        }
        let new = match started(self.alloc, number, kind, fields) {
            Ok(new) => new,
            Err(fields) => return Err(back(proc, Request::Spawn { kind, fields })),
        };
        if !self.finish(code, process, proc, Reply::Process(number)) {
            return Ok(Answer::Wrong);
        }
        self.add_process(new);
        Ok(Answer::Moved)
    }

    /// A send: the message stands behind the others of its receiver, which is ready where it waited for one. One to a
    /// process that isn't there is gone.
    fn make_send(
        &mut self,
        code: &Code,
        process: u32,
        proc: Proc,
        to: u32,
        method: u32,
        values: Parcel,
    ) -> Result<Answer, CheckFault>
        requires { CanMake (action.Send to method values) process (state_of proc) self.old }
        ensures makes { Makes code.now (action.Send to method values) process (state_of proc) (came.Wants (request.Send to method values)) self.old self.new result }
        ensures limits { self.new.limits ≡ self.old.limits }
        ensures wrong { self.new.wrong ≡ self.old.wrong }
    {
        if let Err(values) = self.deliver(process, to, method, values) {
            return Err(back(proc, Request::Send { to, method, values }));
        }
        if !self.finish(code, process, proc, Reply::Done) {
            return Ok(Answer::Wrong);
        }
        self.statuses.wake(to);
        Ok(Answer::Moved)
    }

    /// A new future.
    fn make_future(&mut self, code: &Code, process: u32, proc: Proc) -> Result<Answer, CheckFault>
        requires { CanMake action.NewFuture process (state_of proc) self.old }
        ensures makes { Makes code.now action.NewFuture process (state_of proc) (came.Wants request.NewFuture) self.old self.new result }
        ensures limits { self.new.limits ≡ self.old.limits }
        ensures wrong { self.new.wrong ≡ self.old.wrong }
    {
        let Ok(number) = self.new_future() else {
            return Err(back(proc, Request::NewFuture));
        };
        if !self.finish(code, process, proc, Reply::NewPair(number)) {
            return Ok(Answer::Wrong);
        }
        Ok(Answer::Moved)
    }

    /// A set: the value goes to the future, where that is open, and those that wait for it are ready.
    fn make_set(
        &mut self,
        code: &Code,
        process: u32,
        proc: Proc,
        future: u32,
        value: Parcel,
    ) -> Answer
        requires { CanMake (action.SetFuture future value) process (state_of proc) self.old }
        ensures makes { Makes code.now (action.SetFuture future value) process (state_of proc) (came.Wants (request.SetFuture future value)) self.old self.new (Ok result) }
        ensures limits { self.new.limits ≡ self.old.limits }
        ensures wrong { self.new.wrong ≡ self.old.wrong }
    {
        let _ = self.futures.set(future, value);
        if !self.finish(code, process, proc, Reply::Done) {
            return Answer::Wrong;
        }
        self.statuses.wake_held(future);
        Answer::Moved
    }

    /// A break: no value comes any more, and those that wait for one are ready.
    fn make_break(&mut self, code: &Code, process: u32, proc: Proc, future: u32) -> Answer
        requires { CanMake (action.BreakFuture future) process (state_of proc) self.old }
        ensures makes { Makes code.now (action.BreakFuture future) process (state_of proc) (came.Wants (request.BreakFuture future)) self.old self.new (Ok result) }
        ensures limits { self.new.limits ≡ self.old.limits }
        ensures wrong { self.new.wrong ≡ self.old.wrong }
    {
        self.futures.break_off(future);
        if !self.finish(code, process, proc, Reply::Done) {
            return Answer::Wrong;
        }
        self.statuses.wake_held(future);
        Answer::Moved
    }

    /// Makes an action that can be made and is no panic, where the journal has room.
    pub(crate) fn make(
        &mut self,
        code: &Code,
        process: u32,
        proc: Proc,
        wish: Request,
    ) -> Result<Answer, CheckFault>
        requires { CanMake (action_of wish) process (state_of proc) self.old }
        ensures makes { Makes code.now (action_of wish) process (state_of proc) (came.Wants wish) self.old self.new result }
        ensures limits { self.new.limits ≡ self.old.limits }
        ensures wrong { self.new.wrong ≡ self.old.wrong }
    {
        match wish {
            Request::Take => self.make_take(code, process, proc),
            Request::Print(text) => Ok(self.make_print(code, process, proc, text)),
            Request::Spawn { kind, fields } => self.make_spawn(code, process, proc, kind, fields),
            Request::Send { to, method, values } => {
                self.make_send(code, process, proc, to, method, values)
            }
            Request::NewFuture => self.make_future(code, process, proc),
            Request::SetFuture { future, value } => {
                Ok(self.make_set(code, process, proc, future, value))
            }
            Request::BreakFuture { future } => Ok(self.make_break(code, process, proc, future)),
            Request::GetFuture { future } => self.make_get(code, process, proc, future),
        }
    }
}
