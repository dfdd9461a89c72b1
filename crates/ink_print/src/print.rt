//! The canonical print of a module.

ghost use Rattle.std.specs.Prelude.{◌≡◌, IfOk};
ghost use Rattle.ink_grammar.specs.Views as view;
ghost use Rattle.ink_print.specs.Layout as spec;

use crate::layout::lay_out;
use crate::printer::pieces;
use ink_base::Text;
use ink_grammar::Module;
use std::alloc::{AllocError, Global};

/// The canonical print of a module that was read from this source. The only error is want of memory.
///
/// A token that isn't inside the source has no bytes, and a child that isn't a node before its parent stands for
/// nothing: what `parse` gives has neither. Each node is taken up once for each parent that it has, which is one in what
/// `parse` gives, so the time grows as the module and its print do.
pub fn print_module(alloc: Global, source: &[u8], tree: &Module) -> Result<Text, AllocError>
    ensures { IfOk result (λ text. text ≡ spec.print source.now (view.tree tree.now)) }
{
    let pieces = pieces(alloc, tree)?;
    let text = lay_out(alloc, source, &pieces)?;
    Ok(Text::from_bytes(text))
}
