//! A source that is read up to a place, and what was read of it.
ghost use Rattle.std.specs.Prelude.{◌≡◌, ◌+◌, ◌<◌, ◌≤◌, ◌^◌, length, OnOk};
ghost use Rattle.ink_tokens.specs.Scan.{scan_of, start, token_at, begins_line, behind_line, gap_behind, behind_gap, behind_token};

use crate::bytes::bytes_from;
use crate::fault::wide_behind;
use crate::nesting::Nesting;
use crate::reading::{Before, Read};
use ink_base::Token;
use std::alloc::{AllocError, Global};

/// What was read of a source.
#[derive(Drop)]
pub(crate) struct Scanner {
    /// The place up to which it was read.
    pub(crate) at: u32,
    pub(crate) before: Before,
    pub(crate) nesting: Nesting,
    /// Where the first integer stands that doesn't fit.
    pub(crate) wide: Option<u32>,
    pub(crate) tokens: Vec<Token>,
}

/// Whether a token begins its line.
#[tactic(auto, unfolding(crate::specs::Scan::begins_line))]
fn begins_line(before: Before) -> bool
    ensures { result ≡ begins_line before }
{
    match before {
        Before::LineFeed => true,
        Before::Start | Before::Operand | Before::Other => false,
    }
}

/// What stands before the place behind a line feed.
#[tactic(auto, unfolding(crate::specs::Scan::behind_line))]
fn behind_line(before: Before) -> Before
    ensures { result ≡ behind_line before }
{
    match before {
        Before::Start => Before::Start,
        Before::LineFeed | Before::Operand | Before::Other => Before::LineFeed,
    }
}

/// What stands before the place behind a blank or a comment.
#[tactic(auto, unfolding(crate::specs::Scan::gap_behind))]
fn gap_behind(before: Before, line_feed: bool) -> Before
    ensures { result ≡ gap_behind before line_feed }
{
    if line_feed {
        behind_line(before)
    } else {
        before
    }
}

impl Scanner {
    /// At the first byte.
    pub(crate) fn new(alloc: Global) -> Scanner
        ensures { scan_of result ≡ start }
    {
        Scanner {
            at: 0,
            before: Before::Start,
            nesting: Nesting::new(alloc),
            wide: None,
            tokens: Vec::new(alloc),
        }
    }

    /// Goes behind a blank or a comment.
    pub(crate) fn skip(&mut self, length: usize, line_feed: bool)
        requires { self.old.at + length < 2 ^ 32 }
        ensures { scan_of self.new ≡ behind_gap (scan_of self.old) length line_feed }
    {
        self.at += length as u32;
        self.before = gap_behind(self.before, line_feed);
    }

    /// Goes behind a token, and keeps it.
    pub(crate) fn take(&mut self, source: &[u8], read: Read) -> Result<(), AllocError>
        requires inside { self.old.at + read.length ≤ length source.now }
        requires small { length source.now < 2 ^ 32 }
        ensures { OnOk result (scan_of self.new ≡ behind_token source.now (scan_of self.old) read) }
    {
        let start = self.at as usize;
        let end = start + read.length;
        let text = &source[start..end];
        self.tokens.push(Token {
            kind: read.kind,
            start: self.at,
            end: end as u32,
            new_line: begins_line(self.before),
        })?;
        self.wide = wide_behind(self.wide, self.at, read.kind, text);
        self.nesting.change(read.change, self.at)?;
        self.before = read.before;
        self.at = end as u32;
        Ok(())
    }
}
