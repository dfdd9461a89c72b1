//! Bits of a list of words: each number has the bit of its rest in the word of its 64th part.
ghost use Rattle.std.specs.Prelude.{◌≡◌, ℕ, ◌+◌, ◌<◌, ◌≤◌, ◌*◌, ◌/◌, ◌^◌, ◌≢◌, eqb, not, cond, length, OnOk, OnErr};
ghost use Rattle.std.specs.Int.{bit_at};
ghost use Rattle.ink_marks.specs.Marks as spec;

use std::alloc::AllocError;

/// A word in which a bit is set or cleared.
fn with_bit(word: u64, bit: u32, mark: bool) -> u64
    requires { bit < 64 }
    ensures same { bit_at result bit ≡ spec.bit_of mark }
    ensures others { (i : ℕ) → i < 64 → i ≢ bit → bit_at result i ≡ bit_at word i }
{
    if mark {
        word | (1 << bit)
    } else {
        word & !(1 << bit)
    }
}

/// Marks a number or takes its mark away, and tells whether its word has a mark then.
pub(crate) fn put(words: &mut Vec<u64>, number: usize, mark: bool) -> bool
    requires { number / 64 < length words.old.items }
    ensures length { length words.new.items ≡ length words.old.items }
    ensures marks { (n : ℕ) → spec.is_marked words.new.items n ≡ cond (eqb n number) mark (spec.is_marked words.old.items n) }
    ensures others { (k : ℕ) → k ≢ number / 64 → spec.word words.new.items k ≡ spec.word words.old.items k }
    ensures some { result ≡ spec.is_some words.new.items (number / 64) }
{
    let word = with_bit(words[number / 64], (number % 64) as u32, mark);
    words[number / 64] = word;
    word != 0
}

/// The first word with a mark.
pub(crate) fn first_word(words: &[u64]) -> Option<usize>
    ensures { spec.IsLeast (spec.is_some words.now) result }
{
    words.iter().position(|word| *word != 0)
}

/// The least number that is marked, where this is the first word with a mark.
pub(crate) fn lowest(words: &[u64], first: usize) -> usize
    requires first { spec.IsLeast (spec.is_some words.now) (Some first) }
    requires few { length words.now < 2 ^ 56 }
    ensures { spec.IsLeast (spec.is_marked words.now) (Some result) }
{
    64 * first + words[first].trailing_zeros() as usize
}

/// The most words of a level, so that a number is below 2 ^ 32.
pub(crate) const MOST_WORDS: usize = 0x400_0000;

/// Makes room for the bit of one more word of the level below, which has so many. The most words are want of memory too.
#[tactic(auto, using(crate::proofs::Levels::word_pushed))]
pub(crate) fn reserve(words: &mut Vec<u64>, below: usize) -> Result<(), AllocError>
    requires few { length words.old.items ≤ 2 ^ 26 }
    requires room { below ≤ 64 * length words.old.items }
    ensures same { (k : ℕ) → spec.word words.new.items k ≡ spec.word words.old.items k }
    ensures room { OnOk result (below + 1 ≤ 64 * length words.new.items) }
    ensures few { length words.new.items ≤ 2 ^ 26 }
    ensures longer { length words.old.items ≤ length words.new.items }
    ensures one { length words.new.items ≤ length words.old.items + 1 }
    ensures unchanged { OnErr result (words.new.items ≡ words.old.items) }
{
    if below < 64 * words.len() {
        return Ok(());
    }
    if words.len() >= MOST_WORDS {
        return Err(AllocError);
    }
    words.push(0)?;
    Ok(())
}
