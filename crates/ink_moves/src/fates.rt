//! What becomes of a variable, and where it is used though it was moved.
ghost use Rattle.std.specs.Prelude.{◌≡◌, ◌<◌, length};
ghost use Rattle.ink_moves.specs.Fates as spec;

use crate::body::Bodies;
use crate::watched::Watched;
use ink_base::Rule;
use ink_findings::{Fate, Moves};
use ink_forms::Expr;
use ink_names::Least;
use ink_paths::{Arrivals, Event, Flow, Point, PointId};
use std::alloc::AllocError;

/// What the phase finds.
#[derive(Drop)]
pub(crate) struct Found {
    pub least: Least,
    pub moves: Moves,
}

/// The fate of a variable, by whether some path arrives with it moved, and whether some path arrives with it whole.
fn fate_of(moved: bool, whole: bool) -> Fate
    ensures { result ≡ spec.fate moved whole }
{
    match (moved, whole) {
        (false, _) => Fate::Live,
        (true, false) => Fate::Gone,
        (true, true) => Fate::Maybe,
    }
}

/// Puts the fate of a variable at an exit, unless it is live there.
fn put_fate(
    moves: &mut Moves,
    exit: u32,
    variable: u32,
    arrivals: &Arrivals,
    point: PointId,
) -> Result<(), AllocError> {
    match fate_of(arrivals.moved_at(point), arrivals.whole_at(point)) {
        Fate::Live => Ok(()),
        fate => moves.put(exit, variable, fate),
    }
}

/// Judges a variable at a point at which it is looked at: a use, an exit, or a write, which is an exit where it takes the
/// place of a value.
fn judge_point(
    bodies: &Bodies,
    found: &mut Found,
    variable: u32,
    arrivals: &Arrivals,
    number: PointId,
    point: Point,
) -> Result<(), AllocError> {
    let Point::Then { event, site, .. } = point else {
        return Ok(());
    };
    let node = bodies.arena.expr(site);
    match event {
        Event::Moves(_) | Event::Uses(_) => {
            if arrivals.moved_at(number) {
                found.least.break_at(Rule::MovedUse, node.place);
            }
            Ok(())
        }
        Event::Exit => put_fate(&mut found.moves, site, variable, arrivals, number),
        Event::Writes(_) => match node.expr {
            Expr::Set { .. } => put_fate(&mut found.moves, site, variable, arrivals, number),
            _ => Ok(()),
        },
    }
}

/// Judges a variable in the graph of its body.
pub(crate) fn judge_variable(
    bodies: &Bodies,
    found: &mut Found,
    flow: &Flow,
    start: PointId,
    watched: &Watched,
) -> Result<(), AllocError>
    requires { start < length flow.now }
{
    let arrivals = flow.arrivals(bodies.alloc, start, watched.variable)?;
    for number in &watched.points {
        if let Some(point) = flow.points().get(*number as usize) {
            judge_point(bodies, found, watched.variable, &arrivals, *number, *point)?;
        }
    }
    Ok(())
}
