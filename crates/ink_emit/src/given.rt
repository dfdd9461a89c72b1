//! What an expression gives.

/// What an expression gives.
#[derive(Clone, Copy)]
pub enum Given {
    /// Nothing: no path goes on behind it.
    Ends,
    /// Nil, which stands in no register yet.
    Nil,
    /// The value in this register, which is above all held ones and isn't held itself.
    At(u32),
}
