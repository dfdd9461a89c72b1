//! Where the lines of a source begin, and the line and column of a byte by it.
ghost use Rattle.std.specs.Prelude.{◌≡◌, ◌+◌, ◌≤◌, ◌<◌, ℕ, List, length, slice_index, IfOk};
ghost use Rattle.ink_text.specs.Place.{place_at, place_bound};
ghost use Rattle.ink_tables.specs.Lines.{line_starts, IsSplitAt};

use ink_base::Place;
use std::alloc::{AllocError, Global};
use std::marker::Model;

const LINE_FEED: u8 = b'\n';

/// The number at this index, or 0.
fn number_at(numbers: &[u32], index: usize) -> u32
    ensures { result ≡ slice_index numbers.now index }
{
    match numbers.get(index) {
        Some(number) => *number,
        None => 0,
    }
}

/// How many of the numbers are at most this one, where none is followed by a smaller one.
fn count_up_to(numbers: &[u32], most: u32) -> usize
    ensures { (count : ℕ) → IsSplitAt most numbers.now count → result ≡ count }
{
    let mut low = 0;
    let mut high = numbers.len();
    while low < high {
        let middle = low + (high - low) / 2;
        if numbers[middle] <= most {
            low = middle + 1;
        } else {
            high = middle;
        }
    }
    low
}

/// The bytes at which the lines of a source begin, seen as their list.
#[derive(Drop)]
pub struct Lines {
    starts: Vec<u32>,
}

impl Model for Lines {
    ghost use Rattle.std.specs.Prelude.{ℕ, List};

    ghost Value = { List ℕ };

    ghost view = { λ lines. lines.starts.items };
}

impl Lines {
    /// The lines of a source.
    ///
    /// An `AllocError` is want of memory, or a source with more bytes than places can name.
    pub fn of(alloc: Global, source: &[u8]) -> Result<Lines, AllocError>
        ensures { IfOk result (λ lines. lines ≡ line_starts source.now) }
    {
        if source.len() >= u32::MAX as usize {
            return Err(AllocError);
        }
        let mut starts = Vec::new(alloc);
        starts.push(0)?;
        let mut passed = 0;
        for byte in source {
            passed += 1;
            if *byte == LINE_FEED {
                starts.push(passed)?;
            }
        }
        Ok(Lines { starts })
    }

    /// The place of a byte of that source, or of its end.
    pub fn place_of(&self, byte: u32) -> Place
        ensures { (source : List ℕ) → self.now ≡ line_starts source → byte ≤ length source → byte + 1 < place_bound → result ≡ place_at source byte }
    {
        let line = count_up_to(&self.starts, byte);
        let start = number_at(&self.starts, line.saturating_sub(1));
        Place {
            line: line.min(u32::MAX as usize) as u32,
            column: byte.saturating_sub(start).saturating_add(1),
            byte,
        }
    }
}
