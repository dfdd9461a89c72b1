//! The types that the machine itself knows, by their numbers, which are the same in each code, and the tags of an Option.

/// The number of the type of Options.
pub const OPTION_KIND: u32 = 5;

/// The number of the type of arrays.
pub const ARRAY_KIND: u32 = 7;

/// The number of the type of a Stdout.
pub const STDOUT_KIND: u32 = 10;

/// The tag of an Option with a value.
pub const SOME_TAG: u32 = 0;

/// The tag of an Option without one.
pub const NONE_TAG: u32 = 1;
