//! Modules of many functions, written as the canonical print writes them.
use ink_base::{BadLimit, Limits};
use std::alloc::{AllocError, Global};

/// The usual limits, but for the greatest length of a source.
pub fn limits() -> Result<Limits, BadLimit> {
    Limits::new([
        16_777_216,
        200,
        4096,
        1_048_576,
        1 << 40,
        1_048_576,
        1_048_576,
        65_536,
        1_048_576,
        1_048_576,
        16_777_216,
        1 << 62,
        1000,
        4,
    ])
}

/// A function of this number.
fn put_function(alloc: Global, out: &mut Vec<u8>, number: u32) -> Result<(), AllocError> {
    let name = format!(in alloc; "{number}")?;
    out.extend_from_slice(b"fn step_")?;
    out.extend_from_slice(name.as_bytes())?;
    out.extend_from_slice(b"(x: Int) -> Int {\n  if x > 3 and true {\n    x * 5 + ")?;
    out.extend_from_slice(name.as_bytes())?;
    out.extend_from_slice(b" % (x - 1)\n  } else {\n    [x, -1].size\n  }\n}\n")
}

/// A module of so many functions.
pub fn a_source(alloc: Global, functions: u32) -> Result<Vec<u8>, AllocError> {
    let mut out = Vec::new(alloc);
    for number in 0..functions {
        put_function(alloc, &mut out, number)?;
    }
    Ok(out)
}
