//! Sources, as the files tell them and as they are made.

use std::alloc::{AllocError, Global};

/// The byte that a letter behind a backslash stands for.
fn escaped(byte: u8) -> u8 {
    match byte {
        b'n' => b'\n',
        b'r' => b'\r',
        b't' => b'\t',
        b'0' => b'\0',
        // No text of UTF-8 has it.
        b'F' => 0xFF,
        other => other,
    }
}

/// The source that a line stands for. A backslash stands before a letter that stands for a byte, or before a byte that
/// stands for itself.
pub fn source_of(alloc: Global, line: &str) -> Result<Vec<u8>, AllocError> {
    let mut source = Vec::new(alloc);
    let mut is_escaped = false;
    for byte in line.as_bytes() {
        if is_escaped {
            source.push(escaped(*byte))?;
            is_escaped = false;
        } else if *byte == b'\\' {
            is_escaped = true;
        } else {
            source.push(*byte)?;
        }
    }
    Ok(source)
}

fn push_many(source: &mut Vec<u8>, byte: u8, count: usize) -> Result<(), AllocError> {
    for _ in 0..count {
        source.push(byte)?;
    }
    Ok(())
}

/// A method in which brackets nest so deep.
pub fn nested_source(alloc: Global, depth: usize) -> Result<Vec<u8>, AllocError> {
    let mut source = Vec::from_slice(alloc, b"fn f { ")?;
    push_many(&mut source, b'[', depth)?;
    push_many(&mut source, b']', depth)?;
    source.extend_from_slice(b" }")?;
    Ok(source)
}
