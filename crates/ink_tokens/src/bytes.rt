//! Classes of bytes, and how far bytes of one class run.
ghost use Rattle.std.specs.Prelude.{◌≡◌, ◌<◌, ◌≤◌, length, drop, slice_index};
ghost use Rattle.std.specs.List.{prefix_len};
ghost use Rattle.ink_tokens.specs.Bytes.{is_of, begins_name, is_quote, is_escaped};

/// Bytes that a word, a number or a comment runs over.
#[derive(Clone, Copy)]
pub enum Class {
    /// Letters, digits and `_`.
    Word,
    /// Digits and `_`.
    Decimal,
    /// Hexadecimal digits and `_`.
    Hexadecimal,
    /// All but a line feed.
    Comment,
}

impl Class {
    /// Whether the byte is of the class.
    fn has(self, byte: u8) -> bool
        ensures { result ≡ is_of self byte }
    {
        match self {
            Class::Word => byte.is_ascii_alphanumeric() || byte == b'_',
            Class::Decimal => byte.is_ascii_digit() || byte == b'_',
            Class::Hexadecimal => byte.is_ascii_hexdigit() || byte == b'_',
            Class::Comment => byte != b'\n',
        }
    }
}

/// The byte at a place, or 0 where there is none.
pub(crate) fn byte_at(bytes: &[u8], place: usize) -> u8
    ensures value { result ≡ slice_index bytes.now place }
    ensures inside { 0 < result → place < length bytes.now }
{
    if place < bytes.len() { bytes[place] } else { 0 }
}

/// The bytes from a place on.
pub(crate) fn bytes_from(bytes: &[u8], place: usize) -> &[u8]
    requires { place ≤ length bytes.now }
    ensures { result.now ≡ drop place bytes.now }
{
    bytes.split_at(place).1
}

/// How many bytes of the class stand at the front.
pub(crate) fn run(bytes: &[u8], class: Class) -> usize
    ensures longest { result ≡ prefix_len (is_of class) bytes.now }
    ensures inside { result ≤ length bytes.now }
{
    bytes.iter().take_while(|byte| class.has(**byte)).count()
}

/// Whether a name begins with the byte.
pub(crate) fn begins_name(byte: u8) -> bool
    ensures { result ≡ begins_name byte }
{
    byte.is_ascii_lowercase() || byte == b'_'
}

/// Whether the byte is a quote of either sort.
pub(crate) fn is_quote(byte: u8) -> bool
    ensures { result ≡ is_quote byte }
{
    byte == b'\'' || byte == b'"'
}

/// Whether the byte makes an escape behind a backslash.
pub(crate) fn is_escaped(byte: u8) -> bool
    ensures { result ≡ is_escaped byte }
{
    byte == b'n' || byte == b't' || byte == b'\\' || byte == b'$' || is_quote(byte)
}
