//! The report.
ghost use Rattle.std.specs.Prelude.{◌≡◌, ◌≤◌, ◌++◌, length, reverse, take, IfOk, OnOk};
ghost use Rattle.std.specs.List.{flat_map};
ghost use Rattle.ink_proc.specs.State.{state_of};
ghost use Rattle.ink_report.specs.Report.{frame_line, frame_lines, kind_name, report_text};

use crate::lines::{put_first, put_frame, put_more};
use ink_base::Text;
use ink_code::{Code, Frame};
use ink_proc::Proc;
use std::alloc::{AllocError, Global};

/// How many frames have a line of their own.
const SHOWN: usize = 20;

/// The name of a type, which is empty where the code has no such type.
fn kind_name(code: &Code, kind: u32) -> &[u8]
    ensures { result.now ≡ kind_name code.now kind }
{
    match code.kinds.get(u64::from(kind)) {
        None => b"",
        Some(name) => name.bytes(),
    }
}

/// Writes the lines of so many of the innermost frames, which are the last ones.
fn put_shown(
    out: &mut Vec<u8>,
    code: &Code,
    frames: &[Frame],
    count: usize,
) -> Result<(), AllocError>
    requires { count ≤ length frames.now }
    ensures { OnOk result (out.new.items ≡ out.old.items ++ flat_map (frame_line code.now) (take count (reverse frames.now))) }
{
    for index in 0..count {
        put_frame(out, code, &frames[frames.len() - 1 - index])?;
    }
    Ok(())
}

/// Writes the lines of all frames.
fn put_frames(out: &mut Vec<u8>, code: &Code, frames: &[Frame]) -> Result<(), AllocError>
    ensures { OnOk result (out.new.items ≡ out.old.items ++ frame_lines code.now (reverse frames.now)) }
{
    put_shown(out, code, frames, frames.len().min(SHOWN))?;
    put_more(out, frames.len().saturating_sub(SHOWN))?;
    Ok(())
}

/// The report of a process that panicked with a text: a line that tells the process, its type and the text, and one for
/// each of its innermost frames, with the line of the source at which that frame is. Behind the twentieth frame a line
/// tells how many there are further out. Each line ends with a line feed.
///
/// A name that the code doesn't have is empty, and a line that it doesn't have is 0. An `AllocError` is want of memory.
pub fn report(alloc: Global, text: &Text, proc: &Proc, code: &Code) -> Result<Text, AllocError>
    ensures { IfOk result (λ report. report ≡ report_text text.now (state_of proc.now) code.now) }
{
    let mut out = Vec::new(alloc);
    put_first(&mut out, text, kind_name(code, proc.kind), proc.number)?;
    put_frames(&mut out, code, proc.frames.as_slice())?;
    Ok(Text::from_bytes(out))
}
