//! One case: its code, and then what is done with a process.

use crate::assembler::assemble;
use crate::bench::Bench;
use crate::told::numbered;
use crate::words::first_word;
use ink_sheet::Sheet;
use std::alloc::{AllocError, Global};

/// A case, as far as it was read: the lines of its code, and behind these the process.
#[derive(Drop)]
pub struct Case {
    code: String,
    bench: Option<Bench>,
}

impl Case {
    /// A case of which no line was read.
    pub fn new(alloc: Global) -> Case {
        Case {
            code: String::new(alloc),
            bench: None,
        }
    }

    /// Reads a line: `case NAME` begins another case, `process NUMBER` ends the code, and a line behind that is done.
    pub fn read(&mut self, alloc: Global, sheet: &mut Sheet, line: &str) -> Result<(), AllocError> {
        match first_word(line) {
            ("", _) => Ok(()),
            ("case", name) => {
                *self = Case::new(alloc);
                sheet.text(name);
                sheet.text("\n");
                Ok(())
            }
            ("process", number) => self.start(alloc, sheet, number),
            _ => self.go_on(alloc, sheet, line),
        }
    }

    /// The code is read, and a process of that number waits.
    fn start(&mut self, alloc: Global, sheet: &mut Sheet, number: &str) -> Result<(), AllocError> {
        match assemble(alloc, self.code.as_str()) {
            Ok(code) => {
                let number = number.parse().unwrap_or(1);
                self.bench = Some(Bench::new(alloc, code, number)?);
            }
            Err(fault) => {
                numbered(sheet, "  line ", fault.line);
                sheet.text(" of the code: ");
                sheet.text(fault.why.text());
                sheet.text("\n");
            }
        }
        Ok(())
    }

    /// A line of the code, or one that is done.
    fn go_on(&mut self, alloc: Global, sheet: &mut Sheet, line: &str) -> Result<(), AllocError> {
        match &mut self.bench {
            None => {
                self.code.push_str(line)?;
                self.code.push_str("\n")
            }
            Some(bench) => {
                sheet.text("  ");
                sheet.text(line);
                sheet.text(": ");
                bench.act(alloc, sheet, line)?;
                sheet.text("\n");
                Ok(())
            }
        }
    }
}
