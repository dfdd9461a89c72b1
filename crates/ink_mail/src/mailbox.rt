//! The mailbox of one process.
ghost use Rattle.std.specs.Prelude.{◌≡◌, ◌≤◌, ◌∷◌, IfErr, OnErr, OnOk, OnSome, length};
ghost use Rattle.std.specs.Option.{option_copied};
ghost use Rattle.ink_base.specs.Messages.{empty_mailbox, first_of, with_message, without_first};

use crate::message::Message;
use ink_parcel::Parcel;
use std::alloc::Global;
use std::collections::VecDeque;
use std::marker::Model;

/// The unread messages of a process, the oldest in front.
#[derive(Drop)]
pub(crate) struct Mailbox {
    sent: u64,
    unread: VecDeque<Message>,
}

impl Model for Mailbox {
    ghost use Rattle.std.specs.Prelude.{ℕ, List, ◌-◌, refl};
    ghost use Rattle.std.specs.Coded.{code_by, coded×, coded_list, coded_ℕ};
    ghost use Rattle.std.specs.VecDeque.{deque_capacity, deque_len};
    ghost use Rattle.ink_base.specs.Messages as messages;
    ghost use Rattle.ink_code.specs.Trees.{Parcel as OneParcel};
    ghost use Rattle.ink_mail.specs.Boxes.{RoomyBox};
    ghost use Rattle.ink_mail.specs.contracts.message.Message as message;

    ghost Value = { RoomyBox };

    ghost coded = { code_by (ℕ × (List (messages.Message OneParcel) × ℕ)) (coded× coded_ℕ (coded× (coded_list message.the_row.coded) coded_ℕ)) (λ b. (b.mailbox.sent, (b.mailbox.unread, b.spare))) (λ p. record { mailbox = record { sent = p.0; unread = p.1.0 }; spare = p.1.1 }) (λ _. refl) };

    ghost view = { λ b. record { mailbox = record { sent = b.sent; unread = b.unread.items }; spare = deque_capacity b.unread - deque_len b.unread } };
}

impl Mailbox {
    pub(crate) fn new(alloc: Global) -> Mailbox
        ensures { result.mailbox ≡ empty_mailbox }
    {
        Mailbox {
            sent: 0,
            unread: VecDeque::new(alloc),
        }
    }

    /// How many messages are unread.
    pub(crate) fn len(&self) -> u64
        ensures { result ≡ length self.now.mailbox.unread }
    {
        self.unread.len() as u64
    }

    /// The message that would be taken. `None` exactly where there is none.
    pub(crate) fn front(&self) -> Option<&Message>
        ensures { option_copied result ≡ first_of self.now.mailbox.unread }
    {
        self.unread.front()
    }

    /// Puts a message behind the others.
    pub(crate) fn push(&mut self, sender: u32, method: u32, values: Parcel) -> Result<(), Parcel>
        ensures ok { OnOk result (self.new.mailbox ≡ with_message self.old.mailbox sender method values) }
        ensures err { OnErr result (self.new.mailbox ≡ self.old.mailbox) }
        ensures back { IfErr result (λ back. back ≡ values) }
    {
        if self.sent == u64::MAX {
            return Err(values);
        }
        let message = Message::new(self.sent + 1, sender, method, values);
        match self.unread.push_back(message) {
            Ok(()) => {
                self.sent += 1;
                Ok(())
            }
            Err(failed) => {
                let (_, _, _, values) = failed.value.into_parts();
                Err(values)
            }
        }
    }

    /// Takes the front message away.
    pub(crate) fn pop(&mut self) -> Option<Message>
        ensures message { result ≡ first_of self.old.mailbox.unread }
        ensures after { self.new.mailbox ≡ record self.old.mailbox { unread = without_first self.old.mailbox.unread } }
        ensures room { OnSome result (1 ≤ self.new.spare) }
    {
        self.unread.pop_front()
    }

    /// Puts a message in front of the others. It takes no memory.
    pub(crate) fn put_back(&mut self, message: Message)
        requires { 1 ≤ self.old.spare }
        ensures { self.new.mailbox ≡ record self.old.mailbox { unread = message ∷ self.old.mailbox.unread } }
    {
        self.unread.push_front_reserved(message);
    }
}
