//! The text of pieces, each behind the blanks that it and the piece before it ask for.

ghost use Rattle.std.specs.Prelude.{◌≡◌, ◌++◌, ◌≤◌, ◌*◌, IfOk, OnOk, replicate};
ghost use Rattle.ink_print.specs.Layout as spec;
ghost use Rattle.ink_print.specs.declared.class.Class.TheVariants as class;

use crate::class::{Class, class_of, depth_at, depth_behind, is_spaced};
use crate::step::{Piece, Sign};
use ink_grammar::Terminal;
use std::alloc::{AllocError, Global};

/// The bytes of a sign.
fn sign_text(sign: Sign) -> &'static [u8]
    ensures { result.now ≡ spec.sign_text sign }
{
    match sign {
        Sign::Line => b"\n",
        Sign::LeftParen => b"(",
        Sign::RightParen => b")",
        Sign::ImportParen => b"(",
        Sign::LeftBracket => b"[",
        Sign::RightBracket => b"]",
        Sign::BlockOpening => b"{",
        Sign::BlockClosing => b"}",
        Sign::PatternOpening => b"{",
        Sign::PatternClosing => b"}",
        Sign::TextOpening => b"${",
        Sign::TextClosing => b"}",
        Sign::Comma => b",",
        Sign::Dot => b".",
        Sign::Colon => b":",
        Sign::Equals => b"=",
        Sign::Arrow => b"->",
        Sign::Plus => b"+",
        Sign::Else => b"else",
        Sign::Enum => b"enum",
        Sign::For => b"for",
        Sign::If => b"if",
        Sign::Or => b"or",
    }
}

/// The bytes of a token. Where it isn't inside the source, there are none.
fn token_text(source: &[u8], token: Terminal) -> &[u8]
    ensures { result.now ≡ spec.token_text source.now token }
{
    let start = token.start as usize;
    let end = token.end as usize;
    if start <= end && end <= source.len() {
        &source[start..end]
    } else {
        &[]
    }
}

/// The bytes of a piece.
fn piece_text(source: &[u8], piece: Piece) -> &[u8]
    ensures { result.now ≡ spec.piece_text source.now piece }
{
    match piece {
        Piece::Token(token) => token_text(source, token),
        Piece::Name(token) => token_text(source, token),
        Piece::Sign(sign) => sign_text(sign),
    }
}

/// Writes two blanks for each open block.
fn write_indentation(text: &mut Vec<u8>, depth: usize) -> Result<(), AllocError>
    ensures { OnOk result (text.new.items ≡ text.old.items ++ replicate (2 * depth) 32) }
{
    for _block in 0..depth {
        text.extend_from_slice(b"  ")?;
    }
    Ok(())
}

/// Writes the blanks between two neighbours, among so many open blocks.
fn write_gap(text: &mut Vec<u8>, depth: usize, before: Class, here: Class) -> Result<(), AllocError>
    ensures { OnOk result (text.new.items ≡ text.old.items ++ spec.gap depth before here) }
{
    match here {
        Class::Line => Ok(()),
        _ => match before {
            Class::Line => write_indentation(text, depth),
            _ => write_blank(text, is_spaced(before, here)),
        },
    }
}

/// Writes a blank, if one is wanted.
fn write_blank(text: &mut Vec<u8>, is_wanted: bool) -> Result<(), AllocError>
    ensures { OnOk result (text.new.items ≡ text.old.items ++ spec.blank is_wanted) }
{
    if is_wanted {
        text.push(b' ')?;
    }
    Ok(())
}

/// The text of the pieces, which are those of a tree that was read from the source.
pub fn lay_out(alloc: Global, source: &[u8], pieces: &[Piece]) -> Result<Vec<u8>, AllocError>
    ensures { IfOk result (λ text. text.items ≡ spec.laid source.now pieces.now 0 class.Line) }
{
    let mut text = Vec::new(alloc);
    let mut depth: usize = 0;
    let mut before = Class::Line;
    for piece in pieces {
        let here = class_of(*piece);
        depth = depth_at(here, depth);
        write_gap(&mut text, depth, before, here)?;
        text.extend_from_slice(piece_text(source, *piece))?;
        depth = depth_behind(here, depth);
        before = here;
    }
    Ok(text)
}
