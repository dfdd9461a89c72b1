//! How the form round an expression uses it.

/// What a path goes on with behind a base.
#[derive(Clone, Copy)]
pub(crate) struct Behind {
    /// The next field is read and has a value type, or is written.
    pub next_is_value: bool,
    /// The last field is read, and has a value type.
    pub last_is_value: bool,
}

/// How an expression is used.
#[derive(Clone, Copy)]
pub(crate) enum Usage {
    /// In any way but those below: it is given away, borrowed, matched or left.
    Given,
    /// As the receiver of a `fn` or a `fn mut`.
    Receiver,
    /// As the base of a field.
    Base(Behind),
    /// As what is written, by a write or a swap.
    Place,
}
