//! The tokens of a source.
ghost use Rattle.std.specs.Prelude.{◌≡◌, ◌+◌, ◌<◌, ◌^◌, length, All, IfOk};
ghost use Rattle.ink_tokens.specs.Scan.{scan_of};
ghost use Rattle.ink_tokens.specs.Lexes.{Outcome, ComesTo, Answers, IsInside, HasPlaces};
ghost use Rattle.ink_tokens.specs.Ending.{Finishes, IsSound};

use crate::bytes::bytes_from;
use crate::fault::{end_fault, first_fault, told_fault};
use crate::found::found_at;
use crate::reading::Found;
use crate::scanner::Scanner;
use ink_base::{JudgeFault, Rule, Token};
use std::alloc::Global;

/// The tokens of a source, in order.
///
/// They are those of the definition and no others. It takes time in proportion to the bytes of the source. The bytes
/// of comments and of texts may be any.
///
/// Refused are, at a byte of the source: `BadToken` where no token begins, or at a backslash that begins no escape;
/// `IntTooWide` at the first integer outside the signed 64 bits; `UnendedText` at the outermost quote that is open
/// where the source ends. Nothing is read behind a `BadToken`. Where there are two faults, that at the lesser byte is
/// told. `OutOfMemory` says nothing of the source.
pub fn tokens(alloc: Global, source: &[u8]) -> Result<Vec<Token>, JudgeFault>
    requires { HasPlaces source.now }
    ensures answers { Answers source.now result }
    ensures inside { IfOk result (λ tokens. All (IsInside source.now) tokens.items) }
    // A source comes to one outcome alone.
    ensures only { (one other : Outcome) → ComesTo source.now one → ComesTo source.now other → one ≡ other }
{
    let mut scanner = Scanner::new(alloc);
    while (scanner.at as usize) < source.len() {
        let rest = bytes_from(source, scanner.at as usize);
        match found_at(scanner.nesting.level, scanner.before, rest) {
            Found::Gap(length, line_feed) => scanner.skip(length, line_feed),
            Found::Token(read) => scanner.take(source, read)?,
            Found::Nothing => {
                let fault = first_fault(scanner.wide, Rule::BadToken, scanner.at);
                return Err(told_fault(source, fault));
            }
        }
    }
    answer_at_end(source, scanner)
}

/// The tokens that were read up to the end, or what is wrong there.
fn answer_at_end(source: &[u8], scanner: Scanner) -> Result<Vec<Token>, JudgeFault>
    requires small { HasPlaces source.now }
    requires sound { IsSound source.now (scan_of scanner) }
    ensures { Finishes source.now (scan_of scanner) result }
{
    match end_fault(scanner.nesting.level, scanner.wide, scanner.nesting.opened) {
        None => Ok(scanner.tokens),
        Some(fault) => Err(told_fault(source, fault)),
    }
}
