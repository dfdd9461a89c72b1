//! The lines of a report.
ghost use Rattle.std.specs.Prelude.{◌≡◌, ◌++◌, decimal, OnOk};
ghost use Rattle.ink_report.specs.Report.{first_line, frame_line, more_line, place_line, who};

use ink_base::Text;
use ink_code::{Code, Frame};
use itoa::Buffer;
use std::alloc::AllocError;

/// Writes a text, and a number behind it.
fn put_numbered(out: &mut Vec<u8>, text: &[u8], number: u32) -> Result<(), AllocError>
    ensures { OnOk result (out.new.items ≡ out.old.items ++ text.now ++ decimal number) }
{
    out.extend_from_slice(text)?;
    out.extend_from_slice(Buffer::new().format(number).as_bytes())
}

/// Writes who panicked.
#[tactic(auto, unfolding(crate::specs::Report::who))]
fn put_who(out: &mut Vec<u8>, kind: &[u8], number: u32) -> Result<(), AllocError>
    ensures { OnOk result (out.new.items ≡ out.old.items ++ who kind.now number) }
{
    put_numbered(out, b"process ", number)?;
    out.extend_from_slice(b" (")?;
    out.extend_from_slice(kind)?;
    out.extend_from_slice(b")")?;
    Ok(())
}

/// Writes the line that tells who panicked, and with which text.
#[tactic(auto, unfolding(crate::specs::Report::first_line))]
pub(crate) fn put_first(
    out: &mut Vec<u8>,
    text: &Text,
    kind: &[u8],
    number: u32,
) -> Result<(), AllocError>
    ensures { OnOk result (out.new.items ≡ out.old.items ++ first_line text.now kind.now number) }
{
    out.extend_from_slice(b"panic in ")?;
    put_who(out, kind, number)?;
    out.extend_from_slice(b": ")?;
    out.extend_from_slice(text.bytes())?;
    out.extend_from_slice(b"\n")?;
    Ok(())
}

/// Writes the line of a method of that name, at a line of the source.
#[tactic(auto, unfolding(crate::specs::Report::place_line))]
fn put_place(out: &mut Vec<u8>, name: &[u8], line: u32) -> Result<(), AllocError>
    ensures { OnOk result (out.new.items ≡ out.old.items ++ place_line name.now line) }
{
    out.extend_from_slice(b"  at ")?;
    out.extend_from_slice(name)?;
    put_numbered(out, b" line ", line)?;
    out.extend_from_slice(b"\n")
}

/// Writes the line of a frame.
pub(crate) fn put_frame(out: &mut Vec<u8>, code: &Code, frame: &Frame) -> Result<(), AllocError>
    ensures { OnOk result (out.new.items ≡ out.old.items ++ frame_line code.now frame.now) }
{
    match code.methods.get(u64::from(frame.method)) {
        None => put_place(out, b"", 0),
        Some(method) => match method.lines.get(u64::from(frame.place)) {
            None => put_place(out, method.name.bytes(), 0),
            Some(line) => put_place(out, method.name.bytes(), *line),
        },
    }
}

/// Writes the line that stands for so many further frames, where there are any.
#[tactic(auto, unfolding(crate::specs::Report::more_line))]
pub(crate) fn put_more(out: &mut Vec<u8>, count: usize) -> Result<(), AllocError>
    ensures { OnOk result (out.new.items ≡ out.old.items ++ more_line count) }
{
    if count == 0 {
        return Ok(());
    }
    out.extend_from_slice(b"  and ")?;
    out.extend_from_slice(Buffer::new().format(count).as_bytes())?;
    out.extend_from_slice(b" more\n")
}
