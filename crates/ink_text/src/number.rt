//! A number as decimal digits.
ghost use Rattle.std.specs.Prelude.{◌≡◌, IfOk};
ghost use Rattle.std.specs.Fmt.{signed_decimal};

use ink_base::Text;
use itoa::Buffer;
use std::alloc::{AllocError, Global};

/// The number as text: `-` if it's negative, and its digits with no zero in front.
pub fn decimal(alloc: Global, n: i64) -> Result<Text, AllocError>
    ensures { IfOk result (λ text. text ≡ signed_decimal n) }
{
    let mut buffer = Buffer::new();
    Text::of(alloc, buffer.format(n).as_bytes())
}
