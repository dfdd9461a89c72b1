//! The text of what is listed.
use crate::expressions::expr_line;
use crate::item::{Item, Line};
use crate::nodes::{parameter_line, pattern_line, written_line};
use ink_module::CoreModule;
use itoa::Buffer;
use std::alloc::{AllocError, Global};

/// Puts a word behind what is listed, with a blank between them where one belongs.
fn put(out: &mut Vec<u8>, word: &[u8]) -> Result<(), AllocError> {
    let follows = matches!(word.first(), Some(b')' | b']' | b':' | b'\n'));
    let opens = matches!(out.last(), None | Some(b'(' | b'[' | b'@' | b'\n'));
    if !follows && !opens {
        out.push(b' ')?;
    }
    out.extend_from_slice(word)?;
    Ok(())
}

/// Puts a text with a quote before it, and a sign for each line feed.
fn put_text(out: &mut Vec<u8>, text: &[u8]) -> Result<(), AllocError> {
    put(out, b"'")?;
    for byte in text {
        if *byte == b'\n' {
            out.extend_from_slice(b"\\n")?;
        } else {
            out.push(*byte)?;
        }
    }
    Ok(())
}

/// Puts one thing that is no node.
fn put_item(core: &CoreModule, item: Item, out: &mut Vec<u8>) -> Result<(), AllocError> {
    match item {
        Item::Word(word) => put(out, word),
        Item::Name(name) => put(out, core.names.text(name)),
        Item::Text(number) => put_text(out, core.texts.text(number)),
        Item::Integer(number) => {
            let mut buffer = Buffer::new();
            put(out, buffer.format(core.integers.value(number)).as_bytes())
        }
        Item::Byte(sign, byte) => {
            let mut buffer = Buffer::new();
            out.extend_from_slice(sign)?;
            out.extend_from_slice(buffer.format(byte).as_bytes())
        }
        _ => Ok(()),
    }
}

/// How a node is listed, or nothing of what is none.
fn line_of(alloc: Global, core: &CoreModule, item: Item) -> Line {
    match item {
        Item::Expr(number) => expr_line(alloc, &core.arena, number),
        Item::Pattern(number) => pattern_line(alloc, &core.arena, number),
        Item::Written(number) => written_line(alloc, &core.arena, number),
        Item::Parameter(number) => parameter_line(alloc, &core.arena, number),
        _ => Line::new(alloc),
    }
}

/// Lists things, and all that they hold, behind what `out` has.
pub(crate) fn list(
    alloc: Global,
    core: &CoreModule,
    line: &Line,
    out: &mut Vec<u8>,
) -> Result<(), AllocError> {
    let mut work = Vec::new(alloc);
    line.lay(&mut work)?;
    for _ in 0..u64::MAX {
        match work.pop() {
            None => return Ok(()),
            Some(item) => {
                put_item(core, item, out)?;
                line_of(alloc, core, item).lay(&mut work)?;
            }
        }
    }
    Err(AllocError)
}

/// Lists the expression of a number behind what `out` has. An `AllocError` is want of memory; a part may stand in `out`
/// then.
pub fn list_expr(
    alloc: Global,
    core: &CoreModule,
    number: u32,
    out: &mut Vec<u8>,
) -> Result<(), AllocError> {
    let mut line = Line::new(alloc);
    line.put(Item::Expr(number));
    list(alloc, core, &line, out)
}
