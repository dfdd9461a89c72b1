//! The print of a module, read again.
ghost use Rattle.std.specs.Prelude.{ℕ, List};
ghost use Rattle.ink_base.specs.declared.token.Token.{Token};
ghost use Rattle.ink_tokens.specs.Lexes.{AreTokens};
ghost use Rattle.ink_grammar.specs.Tree.{Tree};
ghost use Rattle.ink_grammar.specs.Language.{Parses};
ghost use Rattle.ink_reading.specs.Phases.{seen_by_grammar};
ghost use Rattle.ink_print.specs.Layout.{print};
ghost use Rattle.ink_round.specs.ReadsBack.{ReadsBack};

use ink_law_categories::well_formed_trees;
use ink_law_nesting::tokens_nest;
use ink_law_parsing::print_parses;
use ink_law_scanning::print_lexes;

/// A law on sources and their prints: where a source has tokens and a tree, the canonical print of that tree has tokens,
/// these are a module, and its tree is the same but for the places of its tokens. It does nothing when it runs.
pub fn print_reads_back()
    ensures { (source : List ℕ) (tokens : List Token) (tree : Tree) →
        AreTokens source tokens → Parses (seen_by_grammar source tokens) tree → ReadsBack source (print source tree) tree }
{
    tokens_nest();
    well_formed_trees();
    print_lexes();
    print_parses();
}
