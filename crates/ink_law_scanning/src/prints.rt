//! The tokens of a module's print.
ghost use Rattle.std.specs.Prelude.{ℕ, Bool, false, List, map};
ghost use Rattle.ink_base.specs.declared.token.Token.{Token};
ghost use Rattle.ink_tokens.specs.Lexes.{AreTokens};
ghost use Rattle.ink_grammar.specs.Tree.{Tree};
ghost use Rattle.ink_shapes.specs.Terminals.{terminal_of};
ghost use Rattle.ink_print.specs.Layout.{print};
ghost use Rattle.ink_print.specs.Printed.{pieces};
ghost use Rattle.ink_law_categories.specs.Categories.{Module, IsA};
ghost use Rattle.ink_law_categories.specs.Spells.{Spells};

use crate::lexes::pieces_lex;
use ink_law_neighbours::print_follows;

/// A law on the print of a module, for any source: it has tokens, and these are the pieces that the module is printed
/// as. It does nothing when it runs.
pub fn print_lexes()
    ensures { (source : List ℕ) (tree : Tree) → IsA source Module tree →
        (tokens : List Token) × AreTokens (print source tree) tokens × (end : Bool)
        × Spells source (print source tree) false (pieces tree) (map (terminal_of (print source tree)) tokens) end }
{
    pieces_lex();
    print_follows();
}
