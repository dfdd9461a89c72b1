//! The words of a module, each with its number.
use crate::surface::Words;
use crate::words::{name_spelling, spelling};
use ink_grammar::{Module, Node, Shape, Terminal};
use ink_tables::{Integers, Names, Texts, integer_value, unescaped_part};
use std::alloc::{AllocError, Global};

/// Gives what a token says its number.
fn add_word(
    alloc: Global,
    source: &[u8],
    words: &mut Words,
    token: Terminal,
) -> Result<(), AllocError> {
    match token.shape {
        Shape::Name | Shape::Constant | Shape::Field | Shape::Keyword(_) => {
            words.names.intern(alloc, name_spelling(source, token))?;
        }
        Shape::Integer | Shape::Hexadecimal => {
            words
                .integers
                .intern(integer_value(spelling(source, token)))?;
        }
        Shape::TextPart => {
            let text = unescaped_part(alloc, spelling(source, token))?;
            words.texts.intern(alloc, text.bytes())?;
        }
        _ => {}
    }
    Ok(())
}

/// The words of a module, and those that the table adds: the name `try` of a variable that no source can name, the method
/// `to_string`, and the text without bytes.
///
/// An `AllocError` is want of memory, or of numbers for words.
pub fn words_of(alloc: Global, source: &[u8], parsed: &Module) -> Result<Words, AllocError> {
    let mut words = Words {
        names: Names::new(alloc),
        integers: Integers::new(alloc),
        texts: Texts::new(alloc),
    };
    words.names.intern(alloc, b"try")?;
    words.names.intern(alloc, b"to_string")?;
    words.texts.intern(alloc, &[])?;
    for node in parsed.nodes() {
        if let Node::Leaf(token) = node {
            add_word(alloc, source, &mut words, *token)?;
        }
    }
    Ok(words)
}
