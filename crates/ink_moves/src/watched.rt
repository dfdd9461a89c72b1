//! The points at which the variables that are moved have to be looked at.

use indexmap::IndexMap;
use ink_exits::Exits;
use ink_paths::{Event, Flow, Point, PointId};
use std::alloc::{AllocError, Global};

/// A variable that some point moves, and the points at which it is used, written or left.
#[derive(Drop)]
pub(crate) struct Watched {
    pub variable: u32,
    pub points: Vec<PointId>,
}

/// The variables of a graph that are moved, with their places in the list.
#[derive(Drop)]
struct Watch {
    list: Vec<Watched>,
    places: IndexMap<u32, usize>,
}

/// Adds a variable, unless it is there.
fn add(alloc: Global, watch: &mut Watch, variable: u32) -> Result<(), AllocError> {
    if watch.places.get(&variable).is_some() {
        return Ok(());
    }
    watch.places.insert(variable, watch.list.len())?;
    watch.list.push(Watched {
        variable,
        points: Vec::new(alloc),
    })?;
    Ok(())
}

/// Notes that a variable is looked at there, if it is one of those that are moved.
fn note(watch: &mut Watch, variable: u32, point: PointId) -> Result<(), AllocError> {
    let Some(place) = watch.places.get(&variable).copied() else {
        return Ok(());
    };
    if let Some(watched) = watch.list.get_mut(place) {
        watched.points.push(point)?;
    }
    Ok(())
}

/// Notes what is looked at a point.
fn note_point(
    watch: &mut Watch,
    exits: &Exits,
    point: Point,
    number: PointId,
) -> Result<(), AllocError> {
    let Point::Then { event, site, .. } = point else {
        return Ok(());
    };
    match event {
        Event::Moves(variable) | Event::Writes(variable) | Event::Uses(variable) => {
            note(watch, variable, number)
        }
        Event::Exit => {
            for variable in exits.leaves(site) {
                note(watch, *variable, number)?;
            }
            Ok(())
        }
    }
}

/// The variables of a graph that are moved, each with the points at which it is looked at.
pub(crate) fn watch_moved(
    alloc: Global,
    flow: &Flow,
    exits: &Exits,
) -> Result<Vec<Watched>, AllocError> {
    let mut watch = Watch {
        list: Vec::new(alloc),
        places: IndexMap::new(alloc),
    };
    for variable in &flow.moved_variables(alloc)? {
        add(alloc, &mut watch, *variable)?;
    }
    if watch.list.is_empty() {
        return Ok(watch.list);
    }
    let points = flow.points();
    for number in 0..points.len() {
        note_point(&mut watch, exits, points[number], number as PointId)?;
    }
    Ok(watch.list)
}
