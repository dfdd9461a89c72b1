//! The kinds that each module has, by their numbers. None of them is async.

/// The kind of Int.
pub const INT: u32 = 0;

/// The kind of Bool.
pub const BOOL: u32 = 1;

/// The kind of String.
pub const STRING: u32 = 2;

/// The kind of Nil, the last of the value types among these.
pub const NIL: u32 = 3;

/// The kind of Never, the type of what gives no value.
pub const NEVER: u32 = 4;

/// The kind of Option.
pub const OPTION: u32 = 5;

/// The kind of Result.
pub const RESULT: u32 = 6;

/// The kind of Array.
pub const ARRAY: u32 = 7;

/// The kind of tuples of two.
pub const TUPLE2: u32 = 8;

/// The kind of tuples of three.
pub const TUPLE3: u32 = 9;

/// The kind of Stdout.
pub const STDOUT: u32 = 10;

/// The kind of Future.
pub const FUTURE: u32 = 11;

/// The kind of Promise.
pub const PROMISE: u32 = 12;

/// The first kind that a module adds.
pub(crate) const FIRST_ADDED: u32 = 13;
