//! The prints of sources, and prints that are printed again.

use crate::phases::{fault_told, terminal_text, text_told};
use ink_base::Limits;
use ink_grammar::Module;
use ink_print::{Piece, pieces, print_module};
use ink_reading::read_module;
use ink_round::print_source;
use ink_sheet::Sheet;
use std::alloc::{AllocError, Global};

/// The print of the source.
pub fn print_told(alloc: Global, source: &[u8]) -> Result<String, AllocError> {
    let reading = match read_module(alloc, source, &Limits::defaults()) {
        Ok(reading) => reading,
        Err(fault) => return fault_told(alloc, fault),
    };
    let text = print_module(alloc, source, &reading.module)?;
    text_told(alloc, text.bytes())
}

fn piece_told(sheet: &mut Sheet, source: &[u8], piece: Piece) {
    match piece {
        Piece::Token(token) => sheet.text(terminal_text(source, token)),
        Piece::Name(token) => {
            sheet.text("name ");
            sheet.text(terminal_text(source, token));
        }
        Piece::Sign(sign) => sheet.shown(&sign),
    }
}

fn module_pieces(alloc: Global, source: &[u8], module: &Module) -> Result<String, AllocError> {
    let mut sheet = Sheet::new(alloc);
    let pieces = pieces(alloc, module)?;
    let mut between = "";
    for piece in &pieces {
        sheet.text(between);
        piece_told(&mut sheet, source, *piece);
        between = ", ";
    }
    sheet.whole()
}

/// The pieces of the print of the source: tokens by their texts, and signs by their names.
pub fn pieces_told(alloc: Global, source: &[u8]) -> Result<String, AllocError> {
    match read_module(alloc, source, &Limits::defaults()) {
        Ok(reading) => module_pieces(alloc, source, &reading.module),
        Err(fault) => fault_told(alloc, fault),
    }
}

/// Whether the print is printed as it is.
fn again_told(alloc: Global, print: &[u8]) -> &'static str {
    match print_source(alloc, print, &Limits::defaults()) {
        Ok(again) => {
            if again.is(print) {
                "and so is the print"
            } else {
                "and the print otherwise"
            }
        }
        Err(_) => "and the print is refused",
    }
}

/// The print of the source, and whether that is printed as it is.
pub fn round_told(alloc: Global, source: &[u8]) -> Result<String, AllocError> {
    match print_source(alloc, source, &Limits::defaults()) {
        Ok(text) => {
            let mut print = text_told(alloc, text.bytes())?;
            print.push_str(again_told(alloc, text.bytes()))?;
            Ok(print)
        }
        Err(fault) => fault_told(alloc, fault),
    }
}
