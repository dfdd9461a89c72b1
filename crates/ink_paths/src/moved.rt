//! The variables that are moved anywhere.
ghost use Rattle.std.specs.Prelude.{◌≡◌, ◌++◌, ℕ, true, OnOk, IfOk};
ghost use Rattle.std.specs.List.{Contains};
ghost use Rattle.ink_paths.specs.Paths as paths;

use crate::flow::{Event, Flow, Point};
use std::alloc::{AllocError, Global};

/// Adds the variable that a point moves.
fn add_moved(point: Point, moved: &mut Vec<u32>) -> Result<(), AllocError>
    ensures { OnOk result (moved.new.items ≡ moved.old.items ++ paths.moved_at point) }
{
    match point {
        Point::Then {
            event: Event::Moves(variable),
            ..
        } => {
            moved.push(variable)?;
            Ok(())
        }
        _ => Ok(()),
    }
}

/// The variables that some point moves, once for each such point.
fn moved_of(alloc: Global, points: &[Point]) -> Result<Vec<u32>, AllocError>
    ensures { IfOk result (λ moved. moved.items ≡ paths.moved_in points.now) }
{
    let mut moved = Vec::new(alloc);
    for point in points {
        add_moved(*point, &mut moved)?;
    }
    Ok(moved)
}

impl Flow {
    /// The variables that some point moves, once for each such point. No other variable arrives moved anywhere.
    pub fn moved_variables(&self, alloc: Global) -> Result<Vec<u32>, AllocError>
        ensures moved { IfOk result (λ moved. moved.items ≡ paths.moved_in self.now) }
        ensures others { IfOk result (λ moved. (start variable point : ℕ) → paths.Arrives self.now start variable point true → Contains moved.items variable) }
    {
        let moved = moved_of(alloc, self.points())?;
        Ok(moved)
    }
}
