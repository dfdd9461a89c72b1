//! The types that have built-in methods, by the numbers of their kinds.
ghost use Rattle.std.specs.Prelude.{◌≡◌};
ghost use Rattle.ink_row_types.specs.Kinds as spec;

use ink_base::Kind;
use ink_types::{ARRAY, BOOL, FUTURE, INT, OPTION, PROMISE, STDOUT, STRING};

/// The number of the kind that has these built-in methods.
pub fn kind_of(kind: Kind) -> u32
    ensures { result ≡ spec.kind_of kind }
{
    match kind {
        Kind::Int => INT,
        Kind::Bool => BOOL,
        Kind::Str => STRING,
        Kind::Array => ARRAY,
        Kind::Option => OPTION,
        Kind::Future => FUTURE,
        Kind::Promise => PROMISE,
        Kind::Stdout => STDOUT,
    }
}

/// The built-in methods that types of a kind have, by the type that has them in the table. There are none for a type of
/// the module, nor for Nil, Never, Result and tuples.
pub fn row_kind_of(kind: u32) -> Option<Kind>
    ensures { result ≡ spec.row_kind_of kind }
{
    match kind {
        INT => Some(Kind::Int),
        BOOL => Some(Kind::Bool),
        STRING => Some(Kind::Str),
        ARRAY => Some(Kind::Array),
        OPTION => Some(Kind::Option),
        FUTURE => Some(Kind::Future),
        PROMISE => Some(Kind::Promise),
        STDOUT => Some(Kind::Stdout),
        _ => None,
    }
}
