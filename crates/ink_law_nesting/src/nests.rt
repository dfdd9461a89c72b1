//! The tokens of a source, and what they open and close.
ghost use Rattle.std.specs.Prelude.{ℕ, List, [], ◌∷◌, map};
ghost use Rattle.ink_base.specs.declared.token.Token.{Token};
ghost use Rattle.ink_tokens.specs.Lexes.{AreTokens};
ghost use Rattle.ink_shapes.specs.Terminals.{terminal_of};
ghost use Rattle.ink_law_categories.specs.Nested.{Nested, Outside};

/// A law on the tokens of a source: texts, their `${` and the braces in those are closed as they were opened, each part
/// of a text is one of the quote that is open, none stands behind another, and each other token is spelled as its shape.
/// It does nothing when it runs.
pub fn tokens_nest()
    ensures { (source : List ℕ) (tokens : List Token) → AreTokens source tokens → Nested source (Outside ∷ []) (map (terminal_of source) tokens) (Outside ∷ []) }
{}
