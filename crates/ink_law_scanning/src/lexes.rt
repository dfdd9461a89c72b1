//! The tokens of pieces that are laid out.
ghost use Rattle.std.specs.Prelude.{◌≡◌, ℕ, Bool, true, false, List, [], ◌∷◌, map};
ghost use Rattle.ink_base.specs.declared.token.Token.{Token};
ghost use Rattle.ink_tokens.specs.Lexes.{AreTokens};
ghost use Rattle.ink_shapes.specs.Terminals.{terminal_of};
ghost use Rattle.ink_print.specs.declared.class.Class.TheVariants.{Line};
ghost use Rattle.ink_print.specs.declared.step.Piece.{Piece};
ghost use Rattle.ink_print.specs.Layout.{laid};
ghost use Rattle.ink_law_categories.specs.Nested.{Outside};
ghost use Rattle.ink_law_categories.specs.Spells.{Spells};
ghost use Rattle.ink_law_neighbours.specs.Follow.{Follow, is_begun};

/// A law on the layout of pieces, for any source: where they may follow one another, and none ends a line before the
/// first token, the bytes that they are laid out as have tokens, and these are the pieces, each with the shape and the
/// text that it has in its source, and on a line of its own where the print has it so. It does nothing when it runs.
pub fn pieces_lex()
    ensures { (source : List ℕ) (ps : List Piece) → is_begun ps ≡ true → Follow source (Outside ∷ []) true ps →
        let print = laid source ps 0 Line in
        (tokens : List Token) × AreTokens print tokens × (end : Bool) × Spells source print false ps (map (terminal_of print) tokens) end }
{}
