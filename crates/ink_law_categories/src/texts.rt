//! What the categories of texts rule out.
ghost use Rattle.std.specs.Prelude.{◌≡◌, ℕ, Bool, List};
ghost use Rattle.ink_grammar.specs.declared.token.Shape.TheVariants.{TextPart};
ghost use Rattle.ink_grammar.specs.declared.token.Terminal.{Terminal};
ghost use Rattle.ink_grammar.specs.declared.tree.TwoChildren.TheVariants.{More};
ghost use Rattle.ink_grammar.specs.Tree.{Tree, Leaf, Two};
ghost use Rattle.ink_law_categories.specs.Categories.{Expression, TextItems, IsA};

/// A law on the categories, for any source: a part of a text is no expression, and among the items of a text no part is
/// followed by a part. It does nothing when it runs.
pub fn parts_apart()
    ensures part { (source : List ℕ) (t : Terminal) → t.shape ≡ TextPart → IsA source Expression (Leaf t) → ⊥ }
    ensures apart { (source : List ℕ) (quote t u : Terminal) (ends : Bool) (s z : ℕ) (items : Tree) →
        t.shape ≡ TextPart → u.shape ≡ TextPart →
        IsA source (TextItems quote ends) (Two More s (Two More z items (Leaf t)) (Leaf u)) → ⊥ }
{}
