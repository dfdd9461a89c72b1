//! That what is found at a place is the longest match.
ghost use Rattle.std.specs.Prelude.{◌<◌, ◌≤◌, ℕ, Bool, List, length, take};
ghost use Rattle.ink_base.specs.declared.token.TokenKind.{TokenKind};
ghost use Rattle.ink_tokens.specs.Found.{match_at};
ghost use Rattle.ink_tokens.specs.Spelling.{IsSpelled};

/// A law on the definition by which sources have tokens, for any bytes: what the match at the front takes is spelled as
/// a token of its kind, no longer text at the front is spelled as a token, and it takes no more than there is. It does
/// nothing when it runs.
pub fn longest_match()
    ensures spelled { (may_be_signed : Bool) (bytes : List ℕ) →
        let found = match_at may_be_signed bytes in
        0 < found.length → IsSpelled may_be_signed (take found.length bytes) found.kind }
    ensures longest { (may_be_signed : Bool) (n : ℕ) (bytes : List ℕ) (kind : TokenKind) → n ≤ length bytes →
        IsSpelled may_be_signed (take n bytes) kind → n ≤ (match_at may_be_signed bytes).length }
    ensures within { (may_be_signed : Bool) (bytes : List ℕ) → (match_at may_be_signed bytes).length ≤ length bytes }
{}
