//! The search: with what of a variable paths arrive at each point.
//!
//! A state is a point with the variable moved or whole there. What is still to look at stands on a work list, and a state
//! goes there when it is first seen.
ghost use Rattle.std.specs.Prelude.{◌≡◌, ◌↔◌, ℕ, Bool, true, false, cond, ◌*◌, ◌^◌, ◌<◌, [], ◌∷◌, ◌++◌, length, slice_index_or, slice_set, OnOk, IfOk};
ghost use Rattle.ink_paths.specs.Paths as paths;
ghost use Rattle.ink_paths.specs.States as states;

use crate::flow::{Event, Flow, Point, PointId};
use std::alloc::{AllocError, Global};
use std::marker::Model;

/// Whether a variable is moved behind an event.
fn after(event: Event, variable: u32, moved: bool) -> bool
    ensures { result ≡ paths.after event variable moved }
{
    match event {
        Event::Moves(other) => moved || other == variable,
        Event::Writes(other) => moved && other != variable,
        Event::Uses(_) => moved,
        Event::Exit => moved,
    }
}

/// The number of a state.
fn state_of(point: PointId, moved: bool) -> usize
    ensures { result ≡ states.state point moved }
{
    if moved {
        2 * point as usize + 1
    } else {
        2 * point as usize
    }
}

/// The states that were seen, and those of them that are still to look at.
#[derive(Drop)]
struct Marks {
    seen: Vec<bool>,
    todo: Vec<usize>,
}

impl Marks {
    /// Marks a state as seen.
    fn mark(&mut self, state: usize) -> Result<(), AllocError>
        requires { state < length self.old.seen.items }
        ensures seen { OnOk result (self.new.seen.items ≡ slice_set self.old.seen.items state true) }
        ensures todo { OnOk result (self.new.todo.items ≡ cond (slice_index_or self.old.seen.items state false) self.old.todo.items (self.old.todo.items ++ state ∷ [])) }
    {
        if !self.seen[state] {
            self.todo.push(state)?;
            self.seen[state] = true;
        }
        Ok(())
    }

    /// Marks the states that may follow one at this point.
    fn visit(
        &mut self,
        point: Point,
        variable: u32,
        moved: bool,
        count: usize,
    ) -> Result<(), AllocError>
        requires size { length self.old.seen.items ≡ 2 * count }
        requires next { paths.IsWithin count point }
        ensures seen { OnOk result (self.new.seen.items ≡ states.seen_after (states.point_states point variable moved) self.old.seen.items) }
        ensures todo { OnOk result (self.new.todo.items ≡ states.todo_after (states.point_states point variable moved) self.old.seen.items self.old.todo.items) }
    {
        match point {
            Point::Then { event, next, .. } => {
                let moved_behind = after(event, variable, moved);
                self.mark(state_of(next, moved_behind))
            }
            Point::Fork { one, other } => {
                self.mark(state_of(one, moved))?;
                self.mark(state_of(other, moved))
            }
            Point::Stop => Ok(()),
        }
    }
}

/// The states of a variable that are reached from a start at which it is whole.
fn search(
    alloc: Global,
    points: &[Point],
    start: PointId,
    variable: u32,
) -> Result<Vec<bool>, AllocError>
    requires points { paths.AreWithin points.now }
    requires few { length points.now < 2 ^ 62 }
    requires start { start < length points.now }
    ensures { IfOk result (λ seen. (n : ℕ) (moved : Bool) → (slice_index_or seen.items (states.state n moved) false ≡ true) ↔ paths.Arrives points.now start variable n moved) }
{
    let count = points.len();
    let mut marks = Marks {
        seen: vec![in alloc; false; 2 * count]?,
        todo: Vec::new(alloc),
    };
    marks.mark(state_of(start, false))?;
    while let Some(state) = marks.todo.pop() {
        let point = points[state / 2];
        marks.visit(point, variable, state % 2 == 1, count)?;
    }
    let Marks { seen, todo: _ } = marks;
    Ok(seen)
}

/// With what of a variable some path arrives at each point, seen as a list of marks: two for each point.
#[derive(Drop)]
pub struct Arrivals {
    seen: Vec<bool>,
}

impl Model for Arrivals {
    ghost use Rattle.std.specs.Prelude.{List, Bool};

    ghost Value = { List Bool };

    ghost view = { λ s. s.seen.items };
}

impl Arrivals {
    /// Whether some path arrives at the point with the variable moved.
    pub fn moved_at(&self, point: PointId) -> bool
        ensures { result ≡ states.is_marked self.now point true }
    {
        match self.seen.get(2 * point as usize + 1) {
            Some(mark) => *mark,
            None => false,
        }
    }

    /// Whether some path arrives at the point with the variable whole.
    pub fn whole_at(&self, point: PointId) -> bool
        ensures { result ≡ states.is_marked self.now point false }
    {
        match self.seen.get(2 * point as usize) {
            Some(mark) => *mark,
            None => false,
        }
    }
}

impl Flow {
    /// With what of a variable paths from the start arrive at each point, where it is whole at the start.
    ///
    /// A point is marked exactly where such a path is there: one whose last move or write of the variable is a move for the
    /// one mark, and any other for the other.
    pub fn arrivals(
        &self,
        alloc: Global,
        start: PointId,
        variable: u32,
    ) -> Result<Arrivals, AllocError>
        requires { start < length self.now }
        ensures { IfOk result (λ marks. (point : ℕ) (moved : Bool) → (states.is_marked marks point moved ≡ true) ↔ paths.Arrives self.now start variable point moved) }
    {
        let seen = search(alloc, self.points(), start, variable)?;
        Ok(Arrivals { seen })
    }
}
