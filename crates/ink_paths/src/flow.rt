//! Flow graphs.
ghost use Rattle.std.specs.Prelude.{◌≡◌, ◌<◌, ◌≤◌, ◌++◌, ◌∷◌, [], length, slice_set, OnOk, OnErr, IfOk};
ghost use Rattle.ink_paths.specs.Paths as paths;

use std::alloc::{AllocError, Global};
use std::marker::Model;

/// The number of a point of a flow graph.
pub type PointId = u32;

/// The greatest number of points.
const MOST_POINTS: usize = 0x4000_0000;

/// What happens at a point. A variable is a number.
#[derive(Clone, Copy)]
pub enum Event {
    /// A variable is used, and given away by that.
    Moves(u32),
    /// A variable gets a value.
    Writes(u32),
    /// A variable is used, and keeps its value.
    Uses(u32),
    /// Variables are left, which changes none.
    Exit,
}

/// A point, with the points that may follow it.
#[derive(Clone, Copy)]
pub enum Point {
    /// An event at a site, which is a number of who builds the graph.
    Then {
        event: Event,
        site: u32,
        next: PointId,
    },
    Fork {
        one: PointId,
        other: PointId,
    },
    Stop,
}

/// The points of a flow graph, seen as a list. The points that may follow one are points of the graph.
#[derive(Drop)]
pub struct Flow {
    points: Vec<Point>,
}

impl Model for Flow {
    ghost use Rattle.std.specs.Prelude.{List, length, ◌≤◌};
    ghost use Rattle.ink_paths.specs.declared.flow.Point.{Point};
    ghost use Rattle.ink_paths.specs.Paths as paths;

    ghost Value = { List Point };

    ghost view = { λ s. s.points.items };

    ghost invariant = { λ s. paths.AreWithin s.points.items × (length s.points.items ≤ paths.most_points) };
}

impl Flow {
    /// A graph without points.
    pub fn new(alloc: Global) -> Self
        ensures { result ≡ [] }
    {
        Flow {
            points: Vec::new(alloc),
        }
    }

    /// How many points there are.
    pub fn len(&self) -> usize
        ensures count { result ≡ length self.now }
        ensures few { result ≤ paths.most_points }
    {
        self.points.len()
    }

    /// The points, in the order of their numbers.
    pub fn points(&self) -> &[Point]
        ensures points { result.now ≡ self.now }
        ensures within { paths.AreWithin result.now }
        ensures few { length result.now ≤ paths.most_points }
    {
        &self.points
    }

    /// Adds a point, and gives its number. The greatest number of points is want of memory too.
    pub fn add(&mut self, point: Point) -> Result<PointId, AllocError>
        requires { paths.IsWithin (length self.old) point }
        ensures number { IfOk result (λ n. n ≡ length self.old) }
        ensures added { OnOk result (self.new ≡ self.old ++ point ∷ []) }
        ensures unchanged { OnErr result (self.new ≡ self.old) }
    {
        let number = self.points.len();
        if number >= MOST_POINTS {
            return Err(AllocError);
        }
        self.points.push(point)?;
        Ok(number as u32)
    }

    /// Puts a point in the place of another.
    pub fn replace(&mut self, number: PointId, point: Point)
        requires number { number < length self.old }
        requires point { paths.IsWithin (length self.old) point }
        ensures { self.new ≡ slice_set self.old number point }
    {
        self.points[number as usize] = point;
    }
}
