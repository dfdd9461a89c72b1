//! The line and the column of a byte.
ghost use Rattle.std.specs.Prelude.{◌≡◌, ◌+◌, ◌<◌, ◌≤◌, length};
ghost use Rattle.ink_text.specs.Place.{place_at, place_bound};

use ink_base::Place;

const LINE_FEED: u8 = b'\n';

/// The place of a byte of a source, or of its end.
///
/// A line ends behind its line feed, and a carriage return is a byte of its line. It takes no memory.
pub fn place_of(bytes: &[u8], byte: u32) -> Place
    requires inside { byte ≤ length bytes.now }
    requires small { byte + 1 < place_bound }
    ensures { result ≡ place_at bytes.now byte }
{
    let before = &bytes[..byte as usize];
    let mut line = 1;
    let mut column = 1;
    for &passed in before {
        if passed == LINE_FEED {
            line += 1;
            column = 1;
        } else {
            column += 1;
        }
    }
    Place { line, column, byte }
}
