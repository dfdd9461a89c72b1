//! A row of the table.
ghost use Rattle.std.specs.Prelude.{◌≡◌};
ghost use Rattle.ink_prims.specs.Row.{is_same_kind, is_row_of, view_of};

use ink_base::{Kind, Mode, Slot};

/// A built-in method.
#[derive(Clone, Copy)]
pub struct Row {
    pub name: &'static str,
    /// The type that has it.
    pub receiver: Kind,
    /// How it takes the receiver.
    pub mode: Mode,
    /// What goes in beside the receiver, the first operand first.
    pub operands: [Option<Slot>; 2],
    /// What comes out.
    pub result: Slot,
    /// Whether the result is a new object that nothing else names.
    pub fresh: bool,
    /// Whether the result may hold a borrow of the receiver.
    pub borrows: bool,
}

impl Row {
    /// Whether it is that type's method of that name.
    #[tactic(auto, unfolding(crate::specs::Row::is_row_of))]
    pub fn is_of(&self, name: &[u8], kind: Kind) -> bool
        ensures { result ≡ is_row_of name.now kind (view_of self.now) }
    {
        self.name.as_bytes() == name && is_same_kind(self.receiver, kind)
    }
}

/// Whether two types are one.
fn is_same_kind(one: Kind, other: Kind) -> bool
    ensures { result ≡ is_same_kind one other }
{
    matches!(
        (one, other),
        (Kind::Int, Kind::Int)
            | (Kind::Bool, Kind::Bool)
            | (Kind::Str, Kind::Str)
            | (Kind::Array, Kind::Array)
            | (Kind::Option, Kind::Option)
            | (Kind::Future, Kind::Future)
            | (Kind::Promise, Kind::Promise)
            | (Kind::Stdout, Kind::Stdout)
    )
}
