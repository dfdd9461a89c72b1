//! The pieces of a module. What is still to print is kept on a stack, so that a module nests as deep as memory allows.

ghost use Rattle.std.specs.Prelude.{◌≡◌, IfOk};
ghost use Rattle.ink_grammar.specs.Views as view;
ghost use Rattle.ink_print.specs.Printed as spec;

use crate::context::Context;
use crate::expand::open;
use crate::step::Piece;
use crate::work::{Stack, Work};
use ink_grammar::Module;
use std::alloc::{AllocError, Global};

/// The pieces that a module is printed as, in time that grows as their count and that of the nodes.
pub fn pieces(alloc: Global, tree: &Module) -> Result<Vec<Piece>, AllocError>
    ensures { IfOk result (λ printed. printed.items ≡ spec.pieces (view.tree tree.now)) }
{
    let nodes = tree.nodes();
    let mut printed = Vec::new(alloc);
    let mut stack = Stack::new(alloc);
    stack.push(Work::Node(tree.root(), Context::Expression))?;
    while let Some(work) = stack.pop() {
        match work {
            Work::Nothing => {}
            Work::Piece(piece) => printed.push(piece)?,
            Work::Node(number, context) => open(&mut stack, nodes, number, context)?,
        }
    }
    Ok(printed)
}
