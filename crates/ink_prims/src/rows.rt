//! The rows of the built-in methods.

use crate::row::Row;
use ink_base::{Kind, Mode, Slot};

/// The operands of a row.
macro_rules! operands {
    () => {
        [None, None]
    };
    ($first:ident) => {
        [Some(Slot::$first), None]
    };
    ($first:ident $second:ident) => {
        [Some(Slot::$first), Some(Slot::$second)]
    };
}

/// A row: its receiver, mode, name, operands and result; `fresh` where the result is a new object, and `fresh borrows`
/// where it may hold a borrow of the receiver too.
macro_rules! row {
    ($receiver:ident $mode:ident $name:literal ($($slot:ident)*) $result:ident) => {
        row!(@ $receiver $mode $name ($($slot)*) $result false false)
    };
    ($receiver:ident $mode:ident $name:literal ($($slot:ident)*) $result:ident fresh) => {
        row!(@ $receiver $mode $name ($($slot)*) $result true false)
    };
    ($receiver:ident $mode:ident $name:literal ($($slot:ident)*) $result:ident fresh borrows) => {
        row!(@ $receiver $mode $name ($($slot)*) $result true true)
    };
    (@ $receiver:ident $mode:ident $name:literal ($($slot:ident)*) $result:ident $fresh:literal $borrows:literal) => {
        Row {
            name: $name,
            receiver: Kind::$receiver,
            mode: Mode::$mode,
            operands: operands!($($slot)*),
            result: Slot::$result,
            fresh: $fresh,
            borrows: $borrows,
        }
    };
}

/// Every row, by number.
pub static ROWS: [Row; 48] = [
    row!(Int Read "+" (Int) Int),
    row!(Int Read "-" (Int) Int),
    row!(Int Read "*" (Int) Int),
    row!(Int Read "/" (Int) Int),
    row!(Int Read "%" (Int) Int),
    row!(Int Read "==" (Int) Bool),
    row!(Int Read "!=" (Int) Bool),
    row!(Int Read "<" (Int) Bool),
    row!(Int Read "<=" (Int) Bool),
    row!(Int Read ">" (Int) Bool),
    row!(Int Read ">=" (Int) Bool),
    row!(Int Read "&" (Int) Int),
    row!(Int Read "|" (Int) Int),
    row!(Int Read "^" (Int) Int),
    row!(Int Read "<<" (Int) Int),
    row!(Int Read ">>" (Int) Int),
    row!(Int Read "to_string" () Str),
    row!(Bool Read "==" (Bool) Bool),
    row!(Bool Read "!=" (Bool) Bool),
    row!(Bool Read "false?" () Bool),
    row!(Bool Read "to_string" () Str),
    row!(Str Read "+" (Str) Str),
    row!(Str Read "==" (Str) Bool),
    row!(Str Read "!=" (Str) Bool),
    row!(Str Read "size" () Int),
    row!(Str Read "empty?" () Bool),
    row!(Str Read "byte" (Int) Int),
    row!(Str Read "starts_with?" (Str) Bool),
    row!(Str Read "to_string" () Str),
    row!(Array Read "size" () Int),
    row!(Array Read "empty?" () Bool),
    row!(Array Mutate "push" (Item) Nil),
    row!(Array Mutate "pop" () OptItem fresh),
    row!(Array Read "get" (Int) OptRef fresh borrows),
    row!(Array Mutate "get_mut" (Int) OptMut fresh borrows),
    row!(Array Mutate "set" (Int Item) Nil),
    row!(Array Mutate "swap" (Int Item) Item),
    row!(Array Mutate "clear" () Nil),
    row!(Option Read "some?" () Bool),
    row!(Option Read "none?" () Bool),
    row!(Option Move "get" () Item),
    row!(Option Read "as_ref" () OptRef fresh borrows),
    row!(Option Mutate "as_mut" () OptMut fresh borrows),
    row!(Future Move "get" () Item),
    row!(Promise Move "set" (Item) Nil),
    row!(Future Static "new" () Pair),
    row!(Stdout Read "print" (Str) Nil),
    row!(Stdout Static "new" () Stdout),
];
