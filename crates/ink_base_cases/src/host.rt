//! The adapters over the system: files of the folder that the program runs in, and streams.

use crate::memory::{read, send, write};
use ink_devices::{HostFiles, HostSink};
use ink_sheet::Sheet;
use std::alloc::AllocError;
use std::io;
use std::io::{ErrorKind, Write};

/// What real files answer, and a stream that fails.
pub fn tell(rt: &HostRuntime, sheet: &mut Sheet) -> Result<(), AllocError> {
    sheet.text("THE SYSTEM\n");
    files(rt, sheet)?;
    stream(sheet);
    sheet.text("\n");
    Ok(())
}

fn files(rt: &HostRuntime, sheet: &mut Sheet) -> Result<(), AllocError> {
    let alloc = rt.alloc();
    let mut files = HostFiles::new(rt);
    write(alloc, sheet, &mut files, b"written.txt", b"hello")?;
    read(alloc, sheet, &mut files, b"written.txt", 100)?;
    read(alloc, sheet, &mut files, b"written.txt", 4)?;
    read(alloc, sheet, &mut files, b"stored.txt", 9)?;
    read(alloc, sheet, &mut files, b"absent.txt", 9)?;
    read(alloc, sheet, &mut files, b"\xFF", 9)
}

/// A writer that a signal interrupts first, and that takes two bytes, then none, and then is closed.
#[derive(Drop)]
struct Fussy {
    calls: u8,
}

impl Write for Fussy {
    fn write(&mut self, piece: &[u8]) -> io::Result<usize> {
        self.calls = self.calls.saturating_add(1);
        match self.calls {
            1 => Err(io::Error::from(ErrorKind::Interrupted)),
            2 => Ok(piece.len().min(2)),
            3 => Ok(0),
            _ => Err(io::Error::from(ErrorKind::BrokenPipe)),
        }
    }

    fn flush(&mut self) -> io::Result<()> {
        Ok(())
    }
}

fn stream(sheet: &mut Sheet) {
    let mut sink = HostSink::new(Fussy { calls: 0 });
    send(sheet, &mut sink, "abc");
    send(sheet, &mut sink, "c");
    send(sheet, &mut sink, "c");
}
