//! The pieces of a print, one behind the other.
ghost use Rattle.std.specs.Prelude.{◌≡◌, ℕ, true, List, [], ◌∷◌};
ghost use Rattle.ink_grammar.specs.Tree.{Tree};
ghost use Rattle.ink_print.specs.Printed.{pieces};
ghost use Rattle.ink_law_categories.specs.Nested.{Outside};
ghost use Rattle.ink_law_categories.specs.Categories.{Module, IsA};
ghost use Rattle.ink_law_neighbours.specs.Follow.{Follow, is_begun};

/// A law on the pieces of a module's print: they may follow one another, so that no two run together and each word, text
/// and brace is read as it is meant, and no line ends before the first of them. It does nothing when it runs.
pub fn print_follows()
    ensures follows { (source : List ℕ) (tree : Tree) → IsA source Module tree → Follow source (Outside ∷ []) true (pieces tree) }
    ensures begun { (source : List ℕ) (tree : Tree) → IsA source Module tree → is_begun (pieces tree) ≡ true }
{}
