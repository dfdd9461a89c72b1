//! The least refusal of a phase: of all the rules that are broken in it, the one at the least byte, and there the one
//! with the least code.
ghost use Rattle.std.specs.Prelude.{◌≡◌, ◌≤◌, ◌++◌, ◌∷◌, [], List, None, Some, IfErr, IfOk, is_some};
ghost use Rattle.ink_base.specs.Refusal.{rule_code};
ghost use Rattle.ink_names.specs.Least as spec;

use ink_base::{Place, Refusal, Rule};
use ink_tables::Lines;
use std::marker::Model;

/// A rule that is broken, and the byte at which it is told.
#[derive(Clone, Copy)]
pub struct Broken {
    pub byte: u32,
    pub rule: Rule,
}

/// Whether the first of two is told rather than the second.
fn is_before(first: Broken, second: Broken) -> bool
    ensures { result ≡ spec.is_before first second }
{
    first.byte < second.byte
        || (first.byte == second.byte && first.rule.code() < second.rule.code())
}

/// Which of two is told: one that was kept as the least of all before, and another.
#[tactic(auto, using(crate::proofs::LeastLemmas::lesser, crate::proofs::LeastLemmas::greater))]
fn lesser(kept: Broken, broken: Broken) -> Broken
    ensures least { (told : List spec.Told) → spec.IsLeastOf told (Some kept) → spec.IsLeastOf (told ++ broken ∷ []) (Some result) }
    ensures late { 10 ≤ rule_code kept.rule → 10 ≤ rule_code broken.rule → 10 ≤ rule_code result.rule }
{
    if is_before(broken, kept) {
        broken
    } else {
        kept
    }
}

/// The least of the broken rules that were told so far, seen as that rule, if there is one. Its code is 10 or greater.
#[derive(Drop)]
pub struct Least {
    broken: Option<Broken>,
}

impl Model for Least {
    ghost use Rattle.std.specs.Prelude.{Option};
    ghost use Rattle.ink_names.specs.declared.least.Broken.{Broken};
    ghost use Rattle.ink_names.specs.Least.{IsLate};

    ghost Value = { Option Broken };

    ghost view = { λ s. s.broken };

    ghost invariant = { λ s. IsLate s.broken };
}

impl Least {
    /// No rule is broken so far.
    pub fn new() -> Self
        ensures none { result ≡ None }
        ensures least { spec.IsLeastOf [] result }
    {
        Least { broken: None }
    }

    /// Whether a rule was broken.
    pub fn is_broken(&self) -> bool
        ensures { result ≡ is_some self.now }
    {
        self.broken.is_some()
    }

    /// Tells that a rule is broken at a byte. What is kept is the least of all that was told.
    pub fn break_at(&mut self, rule: Rule, byte: u32)
        requires { 10 ≤ rule_code rule }
        ensures { (told : List spec.Told) → spec.IsLeastOf told self.old → spec.IsLeastOf (told ++ spec.told rule byte ∷ []) self.new }
    {
        let broken = Broken { byte, rule };
        if let Some(kept) = self.broken {
            self.broken = Some(lesser(kept, broken));
            return;
        }
        self.broken = Some(broken);
    }

    /// The refusal of the least broken rule, at the line and column of its byte, or nothing where none was told. Its code
    /// is 10 or greater.
    pub fn finish(&self, lines: &Lines) -> Result<(), Refusal>
        ensures refused { IfErr result (spec.IsRefusalOf self.now lines.now) }
        ensures accepted { IfOk result (λ _. self.now ≡ None) }
        ensures late { IfErr result (λ refusal. 10 ≤ rule_code refusal.rule) }
    {
        match self.broken {
            None => Ok(()),
            Some(Broken { byte, rule }) => {
                let Place { line, column, .. } = lines.place_of(byte);
                Err(Refusal {
                    rule,
                    place: Place { line, column, byte },
                    detail: None,
                })
            }
        }
    }
}
