//! The texts with which rows and instructions panic, where these tell numbers or limits.
ghost use Rattle.std.specs.Prelude.{◌≡◌, ◌<◌, ◌++◌, ◌==◌, codes, if◌then◌else◌, IfNone, IfOk, IsSome, Some};
ghost use Rattle.std.specs.Fmt.{signed_decimal};
ghost use Rattle.ink_base.specs.Actions.{reached};
ghost use Rattle.ink_base.specs.Limits.{panic_text};
ghost use Rattle.ink_base.specs.Panics.{drop_text, index_text};
ghost use Rattle.ink_code.specs.Full.{full_text, most_made};
ghost use Rattle.ink_code.specs.Machine.{passed};

use ink_base::{Limit, Limits, Text};
use itoa::Buffer;
use std::alloc::{AllocError, Global};

/// How that text begins.
fn index_text_front(alloc: Global, index: i64) -> Result<Vec<u8>, AllocError>
    ensures { IfOk result (λ bytes. bytes.items ≡ codes "index " ++ signed_decimal index) }
{
    let mut buffer = Buffer::new();
    let mut bytes = Vec::from_slice(alloc, b"index ")?;
    bytes.extend_from_slice(buffer.format(index).as_bytes())?;
    Ok(bytes)
}

/// With which text a row panics whose index isn't from 0 to before the size.
pub fn index_text(alloc: Global, index: i64, size: usize) -> Result<Text, AllocError>
    ensures { IfOk result (λ text. text ≡ index_text index size) }
{
    let mut buffer = Buffer::new();
    let mut bytes = index_text_front(alloc, index)?;
    bytes.extend_from_slice(b" is out of bounds, size ")?;
    bytes.extend_from_slice(buffer.format(size).as_bytes())?;
    Ok(Text::from_bytes(bytes))
}

/// The word behind so many borrows.
fn borrow_word(borrows: u64) -> &'static [u8]
    ensures { result.now ≡ (if borrows == 1 then codes " borrow" else codes " borrows") }
{
    if borrows == 1 {
        b" borrow"
    } else {
        b" borrows"
    }
}

/// With which text a row panics that gives up an object of the named type while so many borrows of it live.
pub fn drop_text(alloc: Global, name: &Text, borrows: u64) -> Result<Text, AllocError>
    ensures { IfOk result (λ text. text ≡ drop_text name.now borrows) }
{
    let mut buffer = Buffer::new();
    let mut out = Vec::from_slice(alloc, b"cannot drop ")?;
    out.extend_from_slice(name.bytes())?;
    out.extend_from_slice(b": ")?;
    out.extend_from_slice(buffer.format(borrows).as_bytes())?;
    out.extend_from_slice(borrow_word(borrows))?;
    Ok(Text::from_bytes(out))
}

/// With which text there is a panic at that limit, at which there is one.
pub fn limit_text_of(alloc: Global, limit: Limit) -> Result<Text, AllocError>
    requires { IsSome (panic_text limit) }
    ensures { IfOk result (λ text. panic_text limit ≡ Some text) }
{
    match limit_text(alloc, limit)? {
        None => unreachable!(),
        Some(text) => Ok(text),
    }
}

/// With which text there is a panic at that limit, if there is one.
pub fn limit_text(alloc: Global, limit: Limit) -> Result<Option<Text>, AllocError>
    ensures { IfOk result (λ text. text ≡ panic_text limit) }
{
    match limit.panic_text() {
        None => Ok(None),
        Some(text) => Ok(Some(Text::of(alloc, text.as_bytes())?)),
    }
}

/// With which text there is a panic where so many reach a limit. `None` where they don't.
pub fn reached_text(
    alloc: Global,
    limits: &Limits,
    limit: Limit,
    count: u64,
) -> Result<Option<Text>, AllocError>
    ensures { IfOk result (λ text. text ≡ reached limit count limits.now) }
{
    if limits.get(limit) <= count {
        limit_text(alloc, limit)
    } else {
        Ok(None)
    }
}

/// With which text there is a panic where so many are more than a limit. `None` where they aren't.
pub fn passed_text(
    alloc: Global,
    limits: &Limits,
    limit: Limit,
    count: u64,
) -> Result<Option<Text>, AllocError>
    ensures { IfOk result (λ text. text ≡ passed limit count limits.now) }
{
    if limits.get(limit) < count {
        limit_text(alloc, limit)
    } else {
        Ok(None)
    }
}

/// The text of the panic of a process that makes an object where so many live, and it ever made so many: first the limit
/// of those that live. `None` where it can make one.
#[tactic(auto, unfolding(ink_code::specs::Full::full_text))]
pub fn full_text(
    alloc: Global,
    limits: &Limits,
    live: u64,
    made: u64,
) -> Result<Option<Text>, AllocError>
    ensures text { IfOk result (λ text. text ≡ full_text limits.now live made) }
    ensures room { IfOk result (λ text. IfNone text (made < most_made)) }
{
    let full = reached_text(alloc, limits, Limit::Objects, live)?;
    if full.is_some() {
        return Ok(full);
    }
    if limits.get(Limit::Serial) <= made {
        limit_text(alloc, Limit::Serial)
    } else {
        Ok(None)
    }
}
