//! That the trees of the grammar are of their categories.
ghost use Rattle.std.specs.Prelude.{ℕ, List, [], ◌∷◌};
ghost use Rattle.ink_grammar.specs.declared.token.Terminal.{Terminal};
ghost use Rattle.ink_grammar.specs.Language.{Parses};
ghost use Rattle.ink_grammar.specs.Tree.{Tree};
ghost use Rattle.ink_law_categories.specs.Nested.{Nested, Outside};
ghost use Rattle.ink_law_categories.specs.Categories.{Module, IsA};

/// A law on the grammar, for any source: tokens that close what they open, and that are written in the source as their
/// shapes say, are a module of a tree only if that tree is of the category of modules. It does nothing when it runs.
pub fn well_formed_trees()
    ensures well_formed { (source : List ℕ) (ts : List Terminal) (tree : Tree) →
        Nested source (Outside ∷ []) ts (Outside ∷ []) → Parses ts tree → IsA source Module tree }
{}
