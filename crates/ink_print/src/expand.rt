//! A node is put into work for its signs, its token and its children.

ghost use Rattle.std.specs.Prelude.{◌≡◌, ◌++◌, map, OnOk};
ghost use Rattle.ink_print.specs.Printed.{chosen, token_piece};
ghost use Rattle.ink_print.specs.Work as spec;

use crate::context::{Context, Rank};
use crate::forms;
use crate::step::{Piece, Sign, Slot, Step};
use crate::surround::{closing, inner, opening, rank_of_shape, rank_of_three, rank_of_two};
use crate::work::{Stack, Work};
use ink_grammar::{Node, Terminal};
use std::alloc::AllocError;

/// The number that belongs to a slot.
fn number_in(
    slot: Slot,
    first: Option<u32>,
    second: Option<u32>,
    third: Option<u32>,
    fourth: Option<u32>,
    fifth: Option<u32>,
) -> Option<u32>
    ensures { result ≡ chosen first second third fourth fifth slot }
{
    match slot {
        Slot::First => first,
        Slot::Second => second,
        Slot::Third => third,
        Slot::Fourth => fourth,
        Slot::Fifth => fifth,
    }
}

/// The number of a child, if the node has that child.
fn child(node: Node, slot: Slot) -> Option<u32>
    ensures { result ≡ spec.child node slot }
{
    match node {
        Node::Leaf(_) => None,
        Node::Empty => None,
        Node::One(_, _, a) => number_in(slot, Some(a), None, None, None, None),
        Node::Two(_, _, a, b) => number_in(slot, Some(a), Some(b), None, None, None),
        Node::Three(_, _, a, b, c) => number_in(slot, Some(a), Some(b), Some(c), None, None),
        Node::Four(_, _, a, b, c, d) => number_in(slot, Some(a), Some(b), Some(c), Some(d), None),
        Node::Five(_, _, a, b, c, d, e) => {
            number_in(slot, Some(a), Some(b), Some(c), Some(d), Some(e))
        }
    }
}

/// The rank of a node.
fn rank_of(node: Node) -> Rank
    ensures { result ≡ spec.rank_of node }
{
    match node {
        Node::Leaf(token) => rank_of_shape(token.shape),
        Node::Empty => Rank::NoItems,
        Node::One(_, _, _) => Rank::Base,
        Node::Two(form, _, _, _) => rank_of_two(form),
        Node::Three(form, _, _, _, _) => rank_of_three(form),
        Node::Four(_, _, _, _, _, _) => Rank::Base,
        Node::Five(_, _, _, _, _, _, _) => Rank::Base,
    }
}

/// The steps of a node at a context.
fn steps_of(node: Node, context: Context) -> &'static [Step]
    ensures { result.now ≡ spec.steps_of node context }
{
    match node {
        Node::Leaf(_) => &[],
        Node::Empty => &[],
        Node::One(form, _, _) => forms::one(form, context),
        Node::Two(form, _, _, _) => forms::two(form, context),
        Node::Three(form, _, _, _, _) => forms::three(form),
        Node::Four(form, _, _, _, _, _) => forms::four(form),
        Node::Five(form, _, _, _, _, _, _) => forms::five(form),
    }
}

/// The work of a child of the node of this number. Only a node before it is its child.
fn child_work(number: u32, child: Option<u32>, context: Context) -> Work
    ensures { result ≡ spec.child_work number child context }
{
    match child {
        Some(child) => {
            if child < number {
                Work::Node(child, context)
            } else {
                Work::Nothing
            }
        }
        None => Work::Nothing,
    }
}

/// The work of a step of the node of this number.
fn work_of(node: Node, number: u32, step: Step) -> Work
    ensures { result ≡ spec.work_of node number step }
{
    match step {
        Step::Sign(sign) => Work::Piece(Piece::Sign(sign)),
        Step::Child(slot, context) => child_work(number, child(node, slot), context),
    }
}

/// A token at its context: behind a dot it is a name.
fn token_piece_of(context: Context, token: Terminal) -> Piece
    ensures { result ≡ token_piece context token }
{
    match context {
        Context::Name => Piece::Name(token),
        _ => Piece::Token(token),
    }
}

/// Puts a sign before the work, if there is one.
fn push_sign(stack: &mut Stack, sign: Option<Sign>) -> Result<(), AllocError>
    ensures { OnOk result (stack.new ≡ spec.sign_work sign ++ stack.old) }
{
    match sign {
        Some(sign) => stack.push(Work::Piece(Piece::Sign(sign))),
        None => Ok(()),
    }
}

/// Puts the token of a node before the work, if the node is one.
fn push_token(stack: &mut Stack, node: Node, context: Context) -> Result<(), AllocError>
    ensures { OnOk result (stack.new ≡ spec.token_work node context ++ stack.old) }
{
    match node {
        Node::Leaf(token) => stack.push(Work::Piece(token_piece_of(context, token))),
        _ => Ok(()),
    }
}

/// Puts the steps of the node of this number before the work.
fn push_steps(stack: &mut Stack, node: Node, number: u32, steps: &[Step]) -> Result<(), AllocError>
    ensures { OnOk result (stack.new ≡ map (spec.work_of node number) steps.now ++ stack.old) }
{
    for i in (0..steps.len()).rev() {
        stack.push(work_of(node, number, steps[i]))?;
    }
    Ok(())
}

/// Puts the work of the node of this number, at its context, before the work.
fn expand(stack: &mut Stack, node: Node, number: u32, context: Context) -> Result<(), AllocError>
    ensures { OnOk result (stack.new ≡ spec.expansion node number context ++ stack.old) }
{
    let rank = rank_of(node);
    push_sign(stack, closing(context, rank))?;
    push_steps(stack, node, number, steps_of(node, inner(context)))?;
    push_token(stack, node, context)?;
    push_sign(stack, opening(context, rank))
}

/// Puts the work of this number, at its context, before the work. Where no node has the number, there is none.
pub fn open(
    stack: &mut Stack,
    nodes: &[Node],
    number: u32,
    context: Context,
) -> Result<(), AllocError>
    ensures { OnOk result (stack.new ≡ spec.opened nodes.now number context ++ stack.old) }
{
    match nodes.get(number as usize) {
        Some(node) => expand(stack, *node, number, context),
        None => Ok(()),
    }
}
