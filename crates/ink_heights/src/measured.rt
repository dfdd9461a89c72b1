//! What is known of a node among those before it.
ghost use Rattle.std.specs.Prelude.{◌≡◌, IfOk};
ghost use Rattle.ink_heights.specs.Known as spec;

use crate::measure::{Measure, NOTHING, five, four, leaf, three, two};
use ink_grammar::Node;
use std::alloc::AllocError;

/// What is known of the node of this number.
pub(crate) fn at(known: &[Measure], number: u32) -> Measure
    ensures { result ≡ spec.at known.now number }
{
    match known.get(number as usize) {
        Some(measure) => *measure,
        None => NOTHING,
    }
}

/// What is known of a node whose children are among those that are known.
#[tactic(auto, unfolding(crate::specs::Known::measured))]
pub(crate) fn measured(most: u64, known: &[Measure], node: Node) -> Result<Measure, AllocError>
    ensures { IfOk result (λ measure. measure ≡ spec.measured most known.now node) }
{
    match node {
        Node::Leaf(token) => Ok(leaf(token.shape)),
        Node::Empty => Ok(NOTHING),
        Node::One(_, _, a) => Ok(at(known, a)),
        Node::Two(form, start, a, b) => two(most, form, start, at(known, a), at(known, b)),
        Node::Three(form, start, a, b, c) => {
            three(most, form, start, at(known, a), at(known, b), at(known, c))
        }
        Node::Four(form, start, _, b, c, d) => {
            four(most, form, start, at(known, b), at(known, c), at(known, d))
        }
        Node::Five(form, _, _, _, _, d, e) => Ok(five(form, at(known, d), at(known, e))),
    }
}
