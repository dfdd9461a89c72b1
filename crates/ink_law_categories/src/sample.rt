//! That a small module is read, nests and is of its category.
ghost use Rattle.std.specs.Prelude.{List, [], ◌∷◌};
ghost use Rattle.ink_grammar.specs.Language.{Parses};
ghost use Rattle.ink_law_categories.specs.Nested.{Nested, Outside};
ghost use Rattle.ink_law_categories.specs.Sample.{source, tokens, tree};
ghost use Rattle.ink_law_categories.specs.Categories.{Module, IsA};

/// A law on the sample, a method whose body is a text of a part and a value: what `well_formed_trees` asks of tokens and
/// their tree can be met. It does nothing when it runs.
pub fn sample_module()
    ensures nested { Nested source (Outside ∷ []) tokens (Outside ∷ []) }
    ensures parsed { Parses tokens tree }
    ensures well_formed { IsA source Module tree }
{}
