//! Whether bytes are UTF-8.
ghost use Rattle.std.specs.Prelude.{◌↔◌, IsOk, IfErr};
ghost use Rattle.ink_text.specs.Utf8.{Utf8, StopsAt};

use std::str;

/// The first byte at which bytes stop being UTF-8, counted from 0.
#[derive(Clone, Copy)]
pub struct NotUtf8(pub u64);

/// Whether the bytes are UTF-8, and where they stop being so.
///
/// It takes no memory.
pub fn decode(bytes: &[u8]) -> Result<(), NotUtf8>
    ensures ok { IsOk result ↔ Utf8 bytes.now }
    ensures stops { IfErr result (λ fault. StopsAt bytes.now fault.0) }
{
    match str::from_utf8(bytes) {
        Ok(_) => Ok(()),
        Err(fault) => Err(NotUtf8(fault.valid_up_to() as u64)),
    }
}
