//! A text: bytes that are kept together and never changed.
ghost use Rattle.std.specs.Prelude.{◌≡◌, ◌+◌, ◌<◌, ◌≤◌, ◌++◌, ◌↔◌, length, IfErr, IfOk, IsTrue, OnOk};
ghost use Rattle.ink_base.specs.Text.{TellsLength};

use std::alloc::{AllocError, Global};
use std::marker::Model;

/// A text, seen as the list of its bytes. They need not be UTF-8.
#[derive(Debug, Drop)]
pub struct Text {
    bytes: Vec<u8>,
}

impl Model for Text {
    ghost use Rattle.std.specs.Prelude.{ℕ, List};

    ghost Value = { List ℕ };

    ghost view = { λ t. t.bytes.items };
}

impl Text {
    /// The text that holds these bytes.
    pub fn of(alloc: Global, bytes: &[u8]) -> Result<Text, AllocError>
        ensures { IfOk result (λ text. text ≡ bytes.now) }
    {
        Ok(Text {
            bytes: Vec::from_slice(alloc, bytes)?,
        })
    }

    /// The text that holds the bytes of a vector, which takes no memory.
    pub fn from_bytes(bytes: Vec<u8>) -> Text
        ensures { result ≡ bytes.items }
    {
        Text { bytes }
    }

    /// Its bytes.
    pub fn bytes(&self) -> &[u8]
        ensures { result.now ≡ self.now }
    {
        self.bytes.as_slice()
    }

    /// A text with the same bytes.
    pub fn copy(&self, alloc: Global) -> Result<Text, AllocError>
        ensures { IfOk result (λ text. text ≡ self.now) }
    {
        Text::of(alloc, self.bytes())
    }

    /// Whether these are its bytes.
    pub fn is(&self, bytes: &[u8]) -> bool
        ensures { IsTrue result ↔ (self.now ≡ bytes.now) }
    {
        self.bytes.as_slice() == bytes
    }

    /// The bytes of this text and then those of another.
    pub fn join(&self, alloc: Global, other: &Text, most: u64) -> Result<Text, TextFault>
        ensures ok { IfOk result (λ text. text ≡ self.now ++ other.now) }
        ensures fits { OnOk result (length self.now + length other.now ≤ most) }
        ensures fault { IfErr result (TellsLength (length self.now + length other.now) most) }
    {
        let length = self.bytes.len() as u64 + other.bytes.len() as u64;
        if length > most {
            return Err(TextFault::TooLong(length));
        }
        let mut bytes = Vec::with_capacity(alloc, length as usize)?;
        bytes.extend_from_slice(self.bytes())?;
        bytes.extend_from_slice(other.bytes())?;
        Ok(Text { bytes })
    }
}

/// Why two texts aren't joined.
#[derive(Clone, Copy)]
pub enum TextFault {
    /// The joined text would have so many bytes, which is more than were allowed.
    TooLong(u64),
    /// It wouldn't be too long, and there was no memory for it.
    OutOfMemory,
}

impl From<AllocError> for TextFault {
    ghost use Rattle.ink_base.specs.declared.text.TextFault.{TextFault};

    ghost from_gives = { λ _ fault. fault ≡ TextFault.OutOfMemory };

    fn from(_: AllocError) -> TextFault {
        TextFault::OutOfMemory
    }
}
