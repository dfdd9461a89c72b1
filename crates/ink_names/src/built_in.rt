//! The types that every module has, by their kinds.
ghost use Rattle.std.specs.Prelude.{◌≡◌};
ghost use Rattle.ink_names.specs.BuiltIns as spec;

use crate::kind::KindId;

/// A built-in type. Its kind is its place in this order.
#[derive(Clone, Copy)]
pub enum BuiltIn {
    Int,
    Bool,
    String,
    Nil,
    Never,
    Option,
    Result,
    Array,
    Tuple2,
    Tuple3,
    Stdout,
    Future,
    Promise,
}

/// The built-in types, each at its kind.
pub static BUILT_INS: [BuiltIn; 13] = [
    BuiltIn::Int,
    BuiltIn::Bool,
    BuiltIn::String,
    BuiltIn::Nil,
    BuiltIn::Never,
    BuiltIn::Option,
    BuiltIn::Result,
    BuiltIn::Array,
    BuiltIn::Tuple2,
    BuiltIn::Tuple3,
    BuiltIn::Stdout,
    BuiltIn::Future,
    BuiltIn::Promise,
];

impl BuiltIn {
    /// Its kind.
    pub fn kind(self) -> KindId
        ensures { result ≡ spec.kind_of self }
    {
        match self {
            BuiltIn::Int => 0,
            BuiltIn::Bool => 1,
            BuiltIn::String => 2,
            BuiltIn::Nil => 3,
            BuiltIn::Never => 4,
            BuiltIn::Option => 5,
            BuiltIn::Result => 6,
            BuiltIn::Array => 7,
            BuiltIn::Tuple2 => 8,
            BuiltIn::Tuple3 => 9,
            BuiltIn::Stdout => 10,
            BuiltIn::Future => 11,
            BuiltIn::Promise => 12,
        }
    }

    /// Its name, which no module can declare.
    pub fn name(self) -> &'static [u8]
        ensures { result.now ≡ spec.name_of self }
    {
        match self {
            BuiltIn::Int => b"Int",
            BuiltIn::Bool => b"Bool",
            BuiltIn::String => b"String",
            BuiltIn::Nil => b"Nil",
            BuiltIn::Never => b"Never",
            BuiltIn::Option => b"Option",
            BuiltIn::Result => b"Result",
            BuiltIn::Array => b"Array",
            BuiltIn::Tuple2 => b"Tuple2",
            BuiltIn::Tuple3 => b"Tuple3",
            BuiltIn::Stdout => b"Stdout",
            BuiltIn::Future => b"Future",
            BuiltIn::Promise => b"Promise",
        }
    }

    /// How many type parameters it has.
    pub fn arity(self) -> u32
        ensures { result ≡ spec.arity_of self }
    {
        match self {
            BuiltIn::Option | BuiltIn::Array | BuiltIn::Future | BuiltIn::Promise => 1,
            BuiltIn::Result | BuiltIn::Tuple2 => 2,
            BuiltIn::Tuple3 => 3,
            _ => 0,
        }
    }
}
