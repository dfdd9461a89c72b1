//! That the print of a module is read as the same tree.
//!
//! The scanner is no part of this: what is said here of the tokens of a print holds of any tokens that are its pieces.
#![tactic(auto)]

ghost use Rattle.std.specs.Prelude.{ℕ, Bool, false, List};
ghost use Rattle.ink_grammar.specs.declared.token.Terminal.{Terminal};
ghost use Rattle.ink_grammar.specs.Language.{Parses};
ghost use Rattle.ink_grammar.specs.Tree.{Tree};
ghost use Rattle.ink_print.specs.Printed.{pieces};
ghost use Rattle.ink_law_categories.specs.Alike.{Alike};
ghost use Rattle.ink_law_categories.specs.Categories.{Module, IsA};
ghost use Rattle.ink_law_categories.specs.Spells.{Spells};

/// A law on the tables of the grammar and of the print, for any source: tokens that are the pieces of a module's tree
/// are a module, and of a tree that is the same but for the places of its tokens. It does nothing when it runs.
pub fn print_parses()
    ensures parses { (source print : List ℕ) (tree : Tree) (ts : List Terminal) (end : Bool) → IsA source Module tree →
        Spells source print false (pieces tree) ts end → (other : Tree) × Parses ts other × Alike source print tree other }
{}
