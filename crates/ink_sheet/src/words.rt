//! The words of a line, by their index, which counts from 0.

use std::alloc::{AllocError, Global};

/// The first word of a line, and what stands behind it.
pub fn first_word(line: &str) -> (&str, &str) {
    let line = line.trim();
    line.split_once(' ').unwrap_or((line, ""))
}

/// The word at an index. Where the line has none there, the empty one.
pub fn word_at(line: &str, index: usize) -> &str {
    line.split_whitespace().nth(index).unwrap_or("")
}

/// What stands in a word behind a mark, if it begins with that.
pub fn behind<'a>(word: &'a str, mark: &str) -> Option<&'a str> {
    word.strip_prefix(mark)
}

/// The byte that a letter behind a backslash stands for.
fn escaped(byte: u8) -> u8 {
    match byte {
        b's' => b' ',
        // No text of UTF-8 has it.
        b'F' => 0xFF,
        other => other,
    }
}

/// The bytes of a text in quotes. In it `\s` stands for a space and `\F` for the byte 0xFF.
///
/// # Errors
///
/// `AllocError` where there is no memory for them.
pub fn quoted_in(alloc: Global, word: &str) -> Result<Vec<u8>, AllocError> {
    let mut bytes = Vec::new(alloc);
    let mut is_escaped = false;
    for byte in word.as_bytes() {
        if is_escaped {
            bytes.push(escaped(*byte))?;
            is_escaped = false;
        } else if *byte == b'\\' {
            is_escaped = true;
        } else if *byte != b'"' {
            bytes.push(*byte)?;
        }
    }
    Ok(bytes)
}

/// The number that the word at an index is, and 0 where it is none.
pub fn number_at(line: &str, index: usize) -> u64 {
    number_in(word_at(line, index)).unwrap_or(0)
}

/// The same, for numbers of 32 bits.
pub fn small_at(line: &str, index: usize) -> u32 {
    small_in(word_at(line, index)).unwrap_or(0)
}

/// The number that a word is, if it is one.
pub fn number_in(word: &str) -> Option<u64> {
    word.parse().ok()
}

/// The same, for numbers of 32 bits.
pub fn small_in(word: &str) -> Option<u32> {
    u32::try_from(number_in(word)?).ok()
}

/// The same, for numbers with a sign.
pub fn signed_in(word: &str) -> Option<i64> {
    word.parse().ok()
}

/// The words of a line from an index on.
///
/// # Errors
///
/// `AllocError` where there is no memory for their list.
pub fn words_from(alloc: Global, line: &str, index: usize) -> Result<Vec<&str>, AllocError> {
    line.split_whitespace().skip(index).collect(alloc)
}

/// The numbers that the words of a line from an index on are, each 0 where the word is none.
///
/// # Errors
///
/// `AllocError` where there is no memory for them.
pub fn numbers_from(alloc: Global, line: &str, index: usize) -> Result<Vec<u32>, AllocError> {
    let mut numbers = Vec::new(alloc);
    for word in line.split_whitespace().skip(index) {
        numbers.push(small_in(word).unwrap_or(0))?;
    }
    Ok(numbers)
}
