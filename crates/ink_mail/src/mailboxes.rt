//! The mailboxes of all processes.
ghost use Rattle.std.specs.Prelude.{◌≡◌, ◌+◌, ◌<◌, ◌≤◌, ◌^◌, ◌∷◌, ◌++◌, [], IsOk, OnErr, OnOk, OnSome, length};
ghost use Rattle.std.specs.Option.{option_copied};
ghost use Rattle.ink_base.specs.Messages.{after_put_back, after_take, empty_mailbox, front_of, unread_of};
ghost use Rattle.ink_mail.specs.Answers.{IsSendAnswer};
ghost use Rattle.ink_mail.specs.Boxes.{mail_of, spare_of};

use crate::fault::SendFault;
use crate::mailbox::Mailbox;
use crate::message::Message;
use ink_numbered::Numbered;
use ink_parcel::Parcel;
use std::alloc::{AllocError, Global};
use std::marker::Model;

/// A mailbox for each process, by its number. A contract sees them in order, each with its room, and for how many more
/// there is room.
#[derive(Drop)]
pub struct Mailboxes {
    boxes: Numbered<Mailbox>,
    alloc: Global,
}

impl Model for Mailboxes {
    ghost use Rattle.std.specs.Prelude.{ℕ, List, refl};
    ghost use Rattle.std.specs.Coded.{code_by, coded×, coded_list, coded_ℕ};
    ghost use Rattle.ink_mail.specs.Boxes.{RoomyBox};
    ghost use Rattle.ink_mail.specs.contracts.mailbox.Mailbox as mailbox;
    ghost use Rattle.ink_numbered.specs.Roomy.{Roomy};

    ghost Value = { Roomy RoomyBox };

    ghost coded = { code_by (List RoomyBox × ℕ) (coded× (coded_list mailbox.the_row.coded) coded_ℕ) (λ r. (r.items, r.spare)) (λ p. record { items = p.0; spare = p.1 }) (λ _. refl) };

    ghost view = { λ m. m.boxes };
}

impl Mailboxes {
    /// No mailboxes.
    pub fn new(alloc: Global) -> Mailboxes
        ensures { result.items ≡ [] }
    {
        Mailboxes {
            boxes: Numbered::new(alloc),
            alloc,
        }
    }

    /// How many there are.
    #[tactic(auto, using(crate::proofs::Seen::boxes_length))]
    pub fn len(&self) -> u64
        ensures { result ≡ length (mail_of self.now) }
    {
        self.boxes.len()
    }

    /// Makes room for one mailbox more. No memory is wanted where there is room.
    pub fn reserve(&mut self) -> Result<(), AllocError>
        ensures room { OnOk result (1 ≤ self.new.spare) }
        ensures mail { self.new.items ≡ self.old.items }
        ensures err { OnErr result (self.new ≡ self.old) }
        ensures succeeds { 1 ≤ self.old.spare → IsOk result }
    {
        self.boxes.reserve(1)
    }

    /// Makes an empty mailbox, which has the next number. It takes no memory.
    #[tactic(auto, using(crate::proofs::Seen::boxes_added))]
    pub fn add(&mut self)
        requires { 1 ≤ self.old.spare }
        ensures mail { mail_of self.new ≡ mail_of self.old ++ empty_mailbox ∷ [] }
        ensures spare { self.new.spare + 1 ≡ self.old.spare }
    {
        self.boxes.add(Mailbox::new(self.alloc));
    }

    /// How many messages of a process are unread: 0 also where it has no mailbox.
    #[tactic(auto, using(crate::proofs::Seen::unread_none, crate::proofs::Seen::unread_some))]
    pub fn unread(&self, of: u32) -> u64
        ensures { result ≡ length (unread_of (mail_of self.now) of) }
    {
        match self.boxes.get(of) {
            None => 0,
            Some(mailbox) => mailbox.len(),
        }
    }

    /// The message that a process would take. `None` exactly where there is none.
    #[tactic(auto, using(crate::proofs::Seen::front_none, crate::proofs::Seen::front_some))]
    pub fn front(&self, of: u32) -> Option<&Message>
        ensures { option_copied result ≡ front_of (mail_of self.now) of }
    {
        self.boxes.get(of)?.front()
    }

    /// Sends a message, which has the next number of its mailbox. `NoBox` exactly where no process has that number, else
    /// `Full` exactly where `most` messages or more are unread there.
    #[tactic(auto, using(crate::proofs::Seen::none_seen, crate::proofs::Seen::unset, crate::proofs::Seen::set_same, crate::proofs::Seen::box_sent, crate::proofs::Seen::unread_none, crate::proofs::Seen::unread_some))]
    pub fn send(
        &mut self,
        to: u32,
        sender: u32,
        method: u32,
        values: Parcel,
        most: u64,
    ) -> Result<(), SendFault>
        ensures answer { IsSendAnswer result self.old self.new to sender method values most }
        ensures spare { self.new.spare ≡ self.old.spare }
    {
        if self.unread(to) >= most {
            return match self.boxes.get(to) {
                None => Err(SendFault::NoBox(values)),
                Some(_) => Err(SendFault::Full(values)),
            };
        }
        let Some(mut mailbox) = self.boxes.set(to, Mailbox::new(self.alloc)) else {
            return Err(SendFault::NoBox(values));
        };
        let sent = mailbox.push(sender, method, values);
        self.boxes.set(to, mailbox);
        match sent {
            Ok(()) => Ok(()),
            Err(values) => Err(SendFault::OutOfMemory(values)),
        }
    }

    /// Takes the front message of a process. `None` exactly where there is none. Its place stays free, so that it can be
    /// put back.
    #[tactic(auto, using(crate::proofs::Seen::front_none, crate::proofs::Seen::front_some, crate::proofs::Seen::box_taken, crate::proofs::Seen::none_taken, crate::proofs::Seen::room_back))]
    pub fn take(&mut self, of: u32) -> Option<Message>
        ensures message { result ≡ front_of (mail_of self.old) of }
        ensures after { mail_of self.new ≡ after_take (mail_of self.old) of }
        ensures room { OnSome result (1 ≤ spare_of self.new of) }
        ensures spare { self.new.spare ≡ self.old.spare }
    {
        let mut mailbox = self.boxes.set(of, Mailbox::new(self.alloc))?;
        let message = mailbox.pop();
        self.boxes.set(of, mailbox);
        message
    }

    /// Puts a message in front of the others of a process. It takes no memory.
    #[tactic(auto, using(crate::proofs::Seen::box_put, crate::proofs::Seen::none_put))]
    pub fn put_back(&mut self, of: u32, message: Message)
        requires { 1 ≤ spare_of self.old of }
        ensures after { mail_of self.new ≡ after_put_back (mail_of self.old) of message }
        ensures spare { self.new.spare ≡ self.old.spare }
    {
        let Some(mut mailbox) = self.boxes.set(of, Mailbox::new(self.alloc)) else {
            return;
        };
        mailbox.put_back(message);
        self.boxes.set(of, mailbox);
    }
}
