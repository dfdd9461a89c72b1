//! What is taken from what the processes share, and what is put there.
ghost use Rattle.std.specs.Prelude.{◌≡◌, ◌+◌, ◌≤◌, None, Some, IfErr, IfOk, OnErr, OnOk, false, length, true};
ghost use Rattle.std.specs.Option.{option_map_or};
ghost use Rattle.ink_base.specs.Actions.{has_some, reached};
ghost use Rattle.ink_base.specs.Futures.{after_get, after_make, after_value_back, changed_future, is_broken, is_ready};
ghost use Rattle.ink_base.specs.Messages.{after_put_back, after_send, after_take, front_of, unread_of};
ghost use Rattle.ink_base.specs.Numbered.{numbered};
ghost use Rattle.ink_base.specs.declared.future.FutureState.TheVariants.{Set, Taken};
ghost use Rattle.ink_base.specs.declared.limits.Limit.TheVariants as limit;
ghost use Rattle.ink_mail.specs.Boxes.{mail_of, spare_of};
ghost use Rattle.ink_post.specs.Worlds.{OnlyShares, Same};

use crate::post::Post;
use ink_base::Limit;
use ink_mail::{Message, SendFault};
use ink_parcel::Parcel;
use ink_promise::{FuturesFault, Got};
use std::alloc::AllocError;

impl Post {
    /// Takes the front message of a process that has one.
    pub(crate) fn take_message(&mut self, process: u32) -> Message
        requires { has_some (unread_of (mail_of self.old.mail) process) ≡ true }
        ensures message { front_of (mail_of self.old.mail) process ≡ Some result }
        ensures after { mail_of self.new.mail ≡ after_take (mail_of self.old.mail) process }
        ensures room { 1 ≤ spare_of self.new.mail process }
        ensures futures { self.new.futures ≡ self.old.futures }
        ensures rest { OnlyShares self.old self.new }
    {
        match self.mail.take(process) {
            Some(message) => message,
            None => unreachable!(),
        }
    }

    /// Takes the value of a future that has one.
    pub(crate) fn take_value(&mut self, future: u32) -> Parcel
        requires ready { option_map_or is_ready (numbered self.old.futures.items future) false ≡ true }
        requires whole { option_map_or is_broken (numbered self.old.futures.items future) false ≡ false }
        ensures value { numbered self.old.futures.items future ≡ Some (Set result) }
        ensures after { self.new.futures.items ≡ changed_future self.old.futures.items future after_get }
        ensures mail { self.new.mail ≡ self.old.mail }
        ensures rest { OnlyShares self.old self.new }
    {
        match self.futures.get(future) {
            Ok(Got::Held(value)) => value,
            Ok(Got::Broken) => unreachable!(),
            Err(_) => unreachable!(),
        }
    }

    /// Puts a message behind those of its receiver, where that is there. Without memory what it was to carry comes back.
    pub(crate) fn deliver(
        &mut self,
        process: u32,
        to: u32,
        method: u32,
        values: Parcel,
    ) -> Result<(), Parcel>
        requires { reached limit.Mailbox (length (unread_of (mail_of self.old.mail) to)) self.old.limits ≡ None }
        ensures sent { OnOk result (mail_of self.new.mail ≡ after_send (mail_of self.old.mail) to process method values) }
        ensures same { OnErr result (Same self.old self.new) }
        ensures back { IfErr result (λ back. back ≡ values) }
        ensures futures { self.new.futures ≡ self.old.futures }
        ensures rest { OnlyShares self.old self.new }
    {
        let most = self.limits.get(Limit::Mailbox);
        match self.mail.send(to, process, method, values, most) {
            Ok(()) => Ok(()),
            Err(SendFault::NoBox(_)) => Ok(()),
            Err(SendFault::Full(_)) => unreachable!(),
            Err(SendFault::OutOfMemory(values)) => Err(values),
        }
    }

    /// Makes a future, and gives its number.
    pub(crate) fn new_future(&mut self) -> Result<u32, AllocError>
        requires { reached limit.Futures (length self.old.futures.items) self.old.limits ≡ None }
        ensures number { IfOk result (λ number. number ≡ length self.old.futures.items + 1) }
        ensures made { OnOk result (self.new.futures.items ≡ after_make self.old.futures.items) }
        ensures same { OnErr result (Same self.old self.new) }
        ensures mail { self.new.mail ≡ self.old.mail }
        ensures rest { OnlyShares self.old self.new }
    {
        let most = self.limits.get(Limit::Futures) as u32;
        if self.statuses.add_future().is_err() {
            return Err(AllocError);
        }
        match self.futures.make(most) {
            Ok(number) => Ok(number),
            Err(FuturesFault::Full) => unreachable!(),
            Err(FuturesFault::OutOfMemory) => Err(AllocError),
        }
    }

    /// Puts a message back that a process took: it stands in front of the others again.
    pub(crate) fn return_message(&mut self, process: u32, message: Message)
        requires { 1 ≤ spare_of self.old.mail process }
        ensures after { mail_of self.new.mail ≡ after_put_back (mail_of self.old.mail) process message }
        ensures futures { self.new.futures ≡ self.old.futures }
        ensures rest { OnlyShares self.old self.new }
    {
        self.mail.put_back(process, message);
    }

    /// Puts a value back that was taken from a future.
    pub(crate) fn return_value(&mut self, future: u32, value: Parcel)
        requires { numbered self.old.futures.items future ≡ Some Taken }
        ensures after { self.new.futures.items ≡ changed_future self.old.futures.items future (λ state. after_value_back state value) }
        ensures mail { self.new.mail ≡ self.old.mail }
        ensures rest { OnlyShares self.old self.new }
    {
        self.futures.put_back(future, value);
    }
}
