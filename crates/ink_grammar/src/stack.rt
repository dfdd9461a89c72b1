//! A stack of symbols, the next one first.

ghost use Rattle.std.specs.Prelude.{◌≡◌, ◌++◌, ◌∷◌, ◌≤◌, [], List, length, MatchOption, OnOk, drop, reverse};
ghost use Rattle.ink_grammar.specs.declared.symbol.Symbol.{Symbol};

use crate::symbol::Symbol;
use std::alloc::{AllocError, Global};
use std::marker::Model;

/// The symbols that are still to come.
#[derive(Drop)]
pub struct Stack {
    items: Vec<Symbol>,
}

impl Model for Stack {
    ghost Value = { List Symbol };

    ghost view = { λ s. reverse s.items.items };
}

impl Stack {
    /// A stack without symbols.
    pub fn new(alloc: Global) -> Self
        ensures { result ≡ [] }
    {
        Stack {
            items: Vec::new(alloc),
        }
    }

    /// Takes the next symbol, if there is one.
    pub fn pop(&mut self) -> Option<Symbol>
        ensures { MatchOption result ((self.old ≡ []) × (self.new ≡ [])) (λ s. self.old ≡ s ∷ self.new) }
    {
        self.items.pop()
    }

    /// Puts a symbol on it.
    pub fn push(&mut self, symbol: Symbol) -> Result<(), AllocError>
        ensures { OnOk result (self.new ≡ symbol ∷ self.old) }
    {
        self.items.push(symbol)?;
        Ok(())
    }

    /// Puts a whole production on it, so that its first symbol comes next.
    pub fn push_all(&mut self, symbols: &[Symbol]) -> Result<(), AllocError>
        ensures { OnOk result (self.new ≡ symbols.now ++ self.old) }
    {
        for i in (0..symbols.len()).rev() {
            self.push(symbols[i])?;
        }
        Ok(())
    }
}
