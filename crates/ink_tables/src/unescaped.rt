//! What a part of a text stands for.
ghost use Rattle.std.specs.Prelude.{◌≡◌, IfOk};
ghost use Rattle.ink_tables.specs.Unescaped as spec;

use ink_base::Text;
use std::alloc::{AllocError, Global};

/// The byte that an escape stands for, by the byte behind its backslash.
fn escaped(byte: u8) -> u8
    ensures { result ≡ spec.escaped byte }
{
    match byte {
        b'n' => b'\n',
        b't' => b'\t',
        other => other,
    }
}

/// The bytes that the characters and escapes of a text's part stand for: each escape is one byte.
///
/// The part is what a part of a text has in its source. A backslash behind which nothing stands, which no source has
/// there, stands for nothing.
pub fn unescaped_part(alloc: Global, part: &[u8]) -> Result<Text, AllocError>
    ensures { IfOk result (λ text. text ≡ spec.unescaped part.now) }
{
    let mut bytes = Vec::new(alloc);
    let mut is_behind = false;
    for byte in part {
        if is_behind {
            bytes.push(escaped(*byte))?;
            is_behind = false;
        } else if *byte == b'\\' {
            is_behind = true;
        } else {
            bytes.push(*byte)?;
        }
    }
    Ok(Text::from_bytes(bytes))
}
