//! Messages.
ghost use Rattle.std.specs.Prelude.{◌≡◌};

use ink_parcel::Parcel;
use std::marker::Model;

/// A message. A contract sees its number, its sender, its method and what it carries.
#[derive(Drop)]
pub struct Message {
    number: u64,
    sender: u32,
    method: u32,
    values: Parcel,
}

impl Model for Message {
    ghost use Rattle.std.specs.Prelude.{ℕ, refl};
    ghost use Rattle.std.specs.Coded.{code_by, coded×, coded_ℕ};
    ghost use Rattle.ink_base.specs.Messages as messages;
    ghost use Rattle.ink_code.specs.Trees.{Parcel as OneParcel};
    ghost use Rattle.ink_parcel.specs.contracts.parcel.Parcel as parcel;

    ghost Value = { messages.Message OneParcel };

    ghost coded = { code_by (ℕ × (ℕ × (ℕ × OneParcel))) (coded× coded_ℕ (coded× coded_ℕ (coded× coded_ℕ parcel.the_row.coded))) (λ m. (m.number, (m.sender, (m.method, m.values)))) (λ p. record { number = p.0; sender = p.1.0; method = p.1.1.0; values = p.1.1.1 }) (λ _. refl) };

    ghost view = { λ m. record { number = m.number; sender = m.sender; method = m.method; values = m.values } };
}

impl Message {
    /// The message with this number among all that were ever sent to its process, counted from 1.
    pub fn new(number: u64, sender: u32, method: u32, values: Parcel) -> Message
        ensures { result ≡ record { number = number; sender = sender; method = method; values = values } }
    {
        Message {
            number,
            sender,
            method,
            values,
        }
    }

    /// The number of the method that it calls.
    pub fn method(&self) -> u32
        ensures { result ≡ self.now.method }
    {
        self.method
    }

    /// Its number, its sender, the method that it calls, and what it carries.
    pub fn into_parts(self) -> (u64, u32, u32, Parcel)
        ensures number { result.0 ≡ self.number }
        ensures sender { result.1 ≡ self.sender }
        ensures method { result.2 ≡ self.method }
        ensures values { result.3 ≡ self.values }
    {
        let Message {
            number,
            sender,
            method,
            values,
        } = self;
        (number, sender, method, values)
    }
}
