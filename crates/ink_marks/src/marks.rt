//! The set, as three levels of words.
ghost use Rattle.std.specs.Prelude.{◌≡◌, ℕ, ◌<◌, ◌≤◌, ◌*◌, ◌^◌, eqb, cond, length, OnOk, OnErr, IfSome, [], ◌++◌, ◌∷◌};
ghost use Rattle.ink_marks.specs.Marks as spec;

use crate::words::{MOST_WORDS, first_word, lowest, put, reserve};
use std::alloc::{AllocError, Global};
use std::marker::Model;

/// A set of numbers below 2 ^ 32, seen as the words of its bits. It has room for the numbers of its words.
///
/// A level above has a bit for each word of the one below, and a third one a bit for each word of that: so what is least is
/// found by a look at one word of each level, behind a search among the words of the highest, of which there is one for
/// each 262,144 numbers.
#[derive(Drop)]
pub struct Marks {
    bits: Vec<u64>,
    blocks: Vec<u64>,
    groups: Vec<u64>,
}

impl Model for Marks {
    ghost use Rattle.std.specs.Prelude.{ℕ, List};
    ghost use Rattle.ink_marks.specs.Marks.{AreLevels};

    ghost Value = { List ℕ };

    ghost view = { λ s. s.bits.items };

    ghost invariant = { λ s. AreLevels s.bits.items s.blocks.items s.groups.items };
}

impl Marks {
    /// No numbers, and room for none.
    pub fn new(alloc: Global) -> Marks
        ensures { result ≡ [] }
    {
        Marks {
            bits: Vec::new(alloc),
            blocks: Vec::new(alloc),
            groups: Vec::new(alloc),
        }
    }

    /// For how many numbers there is room: for those below it.
    pub fn room(&self) -> u64
        ensures room { result ≡ 64 * length self.now }
        ensures most { result ≤ 2 ^ 32 }
    {
        64 * self.bits.len() as u64
    }

    /// Makes room for 64 more, which aren't marked. The greatest number is want of memory too.
    pub fn grow(&mut self) -> Result<(), AllocError>
        ensures grown { OnOk result (self.new ≡ self.old ++ 0 ∷ []) }
        ensures marks { (n : ℕ) → spec.is_marked self.new n ≡ spec.is_marked self.old n }
        ensures unchanged { OnErr result (self.new ≡ self.old) }
    {
        if self.bits.len() >= MOST_WORDS {
            return Err(AllocError);
        }
        reserve(&mut self.groups, self.blocks.len())?;
        reserve(&mut self.blocks, self.bits.len())?;
        self.bits.push(0)?;
        Ok(())
    }

    /// Marks a number, or takes its mark away. It leaves the others.
    pub fn put(&mut self, number: u32, mark: bool)
        requires { number < 64 * length self.old }
        ensures length { length self.new ≡ length self.old }
        ensures marks { (n : ℕ) → spec.is_marked self.new n ≡ cond (eqb n number) mark (spec.is_marked self.old n) }
    {
        let number = number as usize;
        let in_word = put(&mut self.bits, number, mark);
        let in_block = put(&mut self.blocks, number / 64, in_word);
        put(&mut self.groups, number / 64 / 64, in_block);
    }

    /// The least number that is marked.
    pub fn first(&self) -> Option<u32>
        ensures { spec.IsLeast (spec.is_marked self.now) result }
    {
        let group = first_word(&self.groups)?;
        let block = lowest(&self.groups, group);
        let word = lowest(&self.blocks, block);
        Some(lowest(&self.bits, word) as u32)
    }
}
