//! Where in a body an expression stands.

/// The innermost loop: the place at which it starts, and how many registers are held there.
#[derive(Clone, Copy)]
pub(crate) struct Turn {
    pub start: u32,
    pub mark: usize,
}

/// Where an expression stands.
#[derive(Clone, Copy)]
pub(crate) struct Around {
    /// The first byte of the innermost statement.
    pub statement: u32,
    pub turn: Option<Turn>,
}

impl Around {
    /// Within a statement that starts at this byte.
    pub fn stated(self, statement: u32) -> Around {
        Around {
            statement,
            turn: self.turn,
        }
    }

    /// Within a loop.
    pub fn looped(self, turn: Turn) -> Around {
        Around {
            statement: self.statement,
            turn: Some(turn),
        }
    }
}
