//! The causes, with the status and the text of each.
ghost use Rattle.std.specs.Prelude.{◌≡◌, [], ◌∷◌, ◌++◌, codes, IfOk};
ghost use Rattle.std.specs.Fmt.{decimal};
ghost use Rattle.ink_causes.specs.Causes.{status_of, early_text, cause_text};

use ink_base::Refusal;
use itoa::Buffer;
use std::alloc::{AllocError, Global};

/// Why a call ended.
#[derive(Drop)]
pub enum Cause {
    /// The run came to its end: each process waits for a message, and there is none.
    Quiet,
    /// The module holds all rules, and was to be checked. Nothing was done.
    Accepted,
    /// The whole listing, print or module was written.
    Written,
    /// The source breaks a rule. Nothing was done.
    Refused(Refusal),
    /// No command has this word at its place, counted from 1. Nothing was done.
    Usage(u64),
    /// A file could not be read. Nothing was done.
    ReadFault,
    /// The output could not be written: it got a part, cut within the last print or within the text. Or what is told of a
    /// cause could not be written, or the file of the journal.
    WriteFault,
    /// There was no memory. Of a text nothing was written; a run wrote all that its journal says.
    OutOfMemory,
    /// The run came to its end, and this is the least process that waits for a future.
    Waiting(u32),
    /// The journal is at its limit, and the next action of this process can be made.
    EventLimit(u32),
    /// This process made so many steps since its last action, which is the limit.
    LocalLimit(u32, u64),
    /// So many rounds were made, which is the limit, and the run didn't end.
    RoundLimit(u64),
    /// All entries of the journal that is replayed were made, and this is the least process whose next action can be made.
    JournalEnds(u32),
    /// The file is no journal's: so many bytes at its front begin one, and no more. Nothing was done.
    BadJournal(u64),
    /// This entry of the journal, counted from 1, can't be made.
    BadEntry(u64),
    /// The last entry of the journal is a panic of this process.
    Panicked(u32),
    /// The code that was made of the module is wrong, which shows in this process.
    Wrong(u32),
    /// No sound code was made of the module. Nothing was done.
    Unbuilt,
}

impl Cause {
    /// The exit status of the program.
    pub fn status(&self) -> u8
        ensures { result ≡ status_of self.now }
    {
        match self {
            Cause::Quiet => 0,
            Cause::Accepted => 0,
            Cause::Written => 0,
            Cause::Refused(_) => 1,
            Cause::Usage(_) => 2,
            Cause::ReadFault => 3,
            Cause::WriteFault => 4,
            Cause::OutOfMemory => 5,
            Cause::Waiting(_) => 6,
            Cause::EventLimit(_) => 7,
            Cause::LocalLimit(_, _) => 7,
            Cause::RoundLimit(_) => 7,
            Cause::JournalEnds(_) => 7,
            Cause::BadJournal(_) => 8,
            Cause::BadEntry(_) => 8,
            Cause::Wrong(_) => 9,
            Cause::Unbuilt => 10,
            Cause::Panicked(_) => 101,
        }
    }

    /// What is told of a cause that comes before a run: nothing, or one line. `name` is the name of the file that was to be
    /// read.
    fn early_text(&self, alloc: Global, name: &[u8]) -> Result<Vec<u8>, AllocError>
        ensures { IfOk result (λ text. text.items ≡ early_text self.now name.now) }
    {
        match self {
            Cause::Refused(refusal) => line(alloc, b"", refusal.text(alloc)?.bytes()),
            Cause::Usage(number) => numbered(alloc, b"usage error at word ", *number),
            Cause::ReadFault => line(alloc, b"cannot read ", name),
            Cause::WriteFault => line(alloc, b"write fault", b""),
            Cause::OutOfMemory => line(alloc, b"out of memory", b""),
            Cause::BadJournal(right) => numbered(alloc, b"bad journal at byte ", *right),
            Cause::Unbuilt => line(alloc, b"not built", b""),
            _ => Ok(Vec::new(alloc)),
        }
    }

    /// What is told of the cause: nothing, one line, or the report of a panic, as it is given. `name` is the name of the
    /// file that was to be read.
    ///
    /// It takes memory. Where a cause must not be lost for want of it, its line is written as a constant.
    pub fn text(&self, alloc: Global, name: &[u8], report: &[u8]) -> Result<Vec<u8>, AllocError>
        ensures { IfOk result (λ text. text.items ≡ cause_text self.now name.now report.now) }
    {
        match self {
            Cause::Waiting(process) => waiting_line(alloc, *process),
            Cause::EventLimit(_) => line(alloc, b"run limit: events", b""),
            Cause::LocalLimit(process, _) => numbered(
                alloc,
                b"run limit: local steps of process ",
                *process as u64,
            ),
            Cause::RoundLimit(_) => line(alloc, b"run limit: rounds", b""),
            Cause::JournalEnds(_) => line(alloc, b"journal ends", b""),
            Cause::BadEntry(entry) => numbered(alloc, b"bad journal entry ", *entry),
            Cause::Panicked(_) => Vec::from_slice(alloc, report),
            Cause::Wrong(process) => numbered(alloc, b"wrong operand in process ", *process as u64),
            _ => self.early_text(alloc, name),
        }
    }
}

/// One line of two parts.
fn line(alloc: Global, front: &[u8], back: &[u8]) -> Result<Vec<u8>, AllocError>
    ensures { IfOk result (λ text. text.items ≡ front.now ++ back.now ++ 10 ∷ []) }
{
    let mut text = Vec::from_slice(alloc, front)?;
    text.extend_from_slice(back)?;
    text.push(b'\n')?;
    Ok(text)
}

/// One line with a number at its end.
fn numbered(alloc: Global, front: &[u8], number: u64) -> Result<Vec<u8>, AllocError>
    ensures { IfOk result (λ text. text.items ≡ front.now ++ decimal number ++ 10 ∷ []) }
{
    line(alloc, front, Buffer::new().format(number).as_bytes())
}

/// The line of a run in which a process waits for a future.
fn waiting_line(alloc: Global, process: u32) -> Result<Vec<u8>, AllocError>
    ensures { IfOk result (λ text. text.items ≡ codes "waiting: process " ++ decimal process ++ codes " waits for a future\n") }
{
    let mut text = Vec::from_slice(alloc, b"waiting: process ")?;
    text.extend_from_slice(Buffer::new().format(process).as_bytes())?;
    text.extend_from_slice(b" waits for a future\n")?;
    Ok(text)
}
