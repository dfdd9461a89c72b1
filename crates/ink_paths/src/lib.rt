//! Paths of a body as a flow graph, and what becomes of a variable on them.
//!
//! A graph has points. A point is an event of a variable with the point behind it, a fork, or the end. One search tells of
//! one variable at which points some path from the start arrives with it moved, and at which with it whole. Variables
//! and sites are numbers: what they name, and how a graph is built of a body, is not known here.
//!
//! A search takes two marks for each point, and looks at each point at most twice. A variable that no point moves arrives
//! moved nowhere (`moved_variables`), and needs no search. So a graph with m points of which v variables are moved costs
//! about m times v, and m where none is.
#![tactic(auto)]

mod arrivals;
mod flow;
mod moved;

pub use arrivals::Arrivals;
pub use flow::{Event, Flow, Point, PointId};
