//! What a type term is made of, by the numbers of its parts.
ghost use Rattle.std.specs.Prelude.{◌≡◌};

use std::alloc::AllocError;

/// The number of a type term. A number that is no term's stands for Never.
pub type TypeId = u32;

/// The arguments of a type, as a list that `Types::first_of` takes apart.
///
/// A list is known by the number of its first cell. A number that is no cell's stands for the empty list.
#[derive(Clone, Copy, PartialEq, Eq, Hash)]
pub enum ArgumentList {
    Empty,
    Cell(u32),
}

/// A type term, whose parts are known by their numbers.
#[derive(Clone, Copy, PartialEq, Eq, Hash)]
pub enum Term {
    /// A type parameter, by its number.
    Parameter(u32),

    /// A kind with its arguments.
    Of { kind: u32, arguments: ArgumentList },

    /// `ref T`.
    Ref(TypeId),

    /// `mut T`.
    Mut(TypeId),

    /// `uni T`.
    Uni(TypeId),
}

/// What has a number: a type term, or a cell of a list of arguments.
#[derive(Clone, Copy, PartialEq, Eq, Hash)]
pub(crate) enum Key {
    Term(Term),
    Arguments(TypeId, ArgumentList),
}

/// Why a borrow of a type isn't given.
#[derive(Clone, Copy)]
pub enum BorrowFault {
    /// The type is `uni T`, Future or Promise.
    Unborrowable,

    /// There was no memory, or no number.
    OutOfMemory,
}

impl From<AllocError> for BorrowFault {
    ghost use Rattle.ink_types.specs.declared.term.BorrowFault.TheVariants.{OutOfMemory};

    ghost from_gives = { λ _ fault. fault ≡ OutOfMemory };

    fn from(_error: AllocError) -> Self {
        BorrowFault::OutOfMemory
    }
}
