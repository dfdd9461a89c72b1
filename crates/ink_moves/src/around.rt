//! What stands round an expression.

use ink_paths::PointId;

/// The arm in whose guard an expression stands.
#[derive(Clone, Copy)]
pub(crate) struct Guard {
    pub pattern: u32,
    pub condition: u32,
}

impl Guard {
    /// Whether a variable is declared within the guard. The nodes of a guard come after those of its arm's pattern.
    pub(crate) fn declares(&self, variable: u32) -> bool {
        self.pattern < variable && variable < self.condition
    }
}

/// Where an expression goes on: points of the graph.
#[derive(Clone, Copy)]
pub(crate) struct Around {
    /// Where its value goes.
    pub next: PointId,
    /// Behind the innermost loop.
    pub exit: PointId,
    /// At the head of the innermost loop.
    pub turn: PointId,
    /// At the end of all, behind which nothing is.
    pub end: PointId,
    /// The innermost guard.
    pub guard: Option<Guard>,
}

/// What is wanted of a child.
#[derive(Clone, Copy)]
pub(crate) enum Want {
    /// Its value, which is given away.
    Value,
    /// Its value, to look at: of a base, of a receiver that is borrowed, of what is borrowed.
    Look,
    /// Its place alone, which is written.
    Place,
}
