//! The rows of the built-in methods, by their numbers in the table: those that are instructions of the machine.

pub const INT_ADD: u32 = 0;

pub const INT_SUBTRACT: u32 = 1;

pub const INT_MULTIPLY: u32 = 2;

pub const INT_DIVIDE: u32 = 3;

pub const INT_REST: u32 = 4;

pub const INT_EQUAL: u32 = 5;

pub const INT_UNEQUAL: u32 = 6;

pub const INT_LESS: u32 = 7;

pub const INT_AT_MOST: u32 = 8;

pub const INT_GREATER: u32 = 9;

pub const INT_AT_LEAST: u32 = 10;

pub const INT_BIT_AND: u32 = 11;

pub const INT_BIT_OR: u32 = 12;

pub const INT_BIT_XOR: u32 = 13;

pub const INT_SHIFT_UP: u32 = 14;

pub const INT_SHIFT_DOWN: u32 = 15;

pub const INT_TO_STRING: u32 = 16;

/// The rows from here on, and before those of the next type, are those of Bool.
pub const FIRST_OF_BOOL: u32 = 17;

pub const BOOL_EQUAL: u32 = 17;

pub const BOOL_UNEQUAL: u32 = 18;

pub const BOOL_IS_FALSE: u32 = 19;

pub const BOOL_TO_STRING: u32 = 20;

/// The rows from here on, and before those of the next type, are those of String.
pub const FIRST_OF_STRING: u32 = 21;

pub const STRING_JOIN: u32 = 21;

pub const STRING_EQUAL: u32 = 22;

pub const STRING_UNEQUAL: u32 = 23;

pub const STRING_SIZE: u32 = 24;

pub const STRING_IS_EMPTY: u32 = 25;

pub const STRING_BYTE: u32 = 26;

pub const STRING_STARTS_WITH: u32 = 27;

pub const STRING_TO_STRING: u32 = 28;

/// The rows from here on, and before those of the next type, are those of Array.
pub const FIRST_OF_ARRAY: u32 = 29;

pub const ARRAY_SIZE: u32 = 29;

pub const ARRAY_IS_EMPTY: u32 = 30;

pub const ARRAY_PUSH: u32 = 31;

pub const ARRAY_POP: u32 = 32;

pub const ARRAY_GET: u32 = 33;

pub const ARRAY_GET_MUT: u32 = 34;

pub const ARRAY_SET: u32 = 35;

pub const ARRAY_SWAP: u32 = 36;

pub const ARRAY_CLEAR: u32 = 37;

/// The rows from here on, and before those of the next type, are those of Option.
pub const FIRST_OF_OPTION: u32 = 38;

pub const OPTION_IS_SOME: u32 = 38;

pub const OPTION_IS_NONE: u32 = 39;

pub const OPTION_GET: u32 = 40;

pub const OPTION_AS_REF: u32 = 41;

pub const OPTION_AS_MUT: u32 = 42;

/// The row that makes a Stdout.
pub const STDOUT_NEW: u32 = 47;
