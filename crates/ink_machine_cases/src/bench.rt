//! A process on the bench, and what the lines of a case do with it.

use crate::answers::{NoReply, reply_in};
use crate::limits::{limit_of, limits_with};
use crate::looks::{all_of, frames, objects, waiting};
use crate::told::{came, numbered, text_of, wrong_word};
use crate::words::{first_word, two_numbers, value_of, values};
use ink_base::{Items, Limits, Object, ObjectId, Text, Value};
use ink_code::{Code, Frame, instr_line, listing};
use ink_heap::Heap;
use ink_interp::{AnswerFault, answer, slice, step};
use ink_proc::Proc;
use ink_sheet::Sheet;
use std::alloc::{AllocError, Global};

/// What is told of a line that says nothing.
const NOT_UNDERSTOOD: &str = "not understood";

/// A process that waits for its first message. Its state, of type 0 and without fields, is its only object.
fn started(alloc: Global, number: u32) -> Result<Proc, AllocError> {
    let mut heap = Heap::new(alloc);
    heap.reserve(1)?;
    let state = ObjectId {
        process: number,
        serial: 1,
    };
    let object = Object {
        kind: 0,
        tag: 0,
        fields: Items::new(alloc),
        count: 0,
    };
    match heap.put_in(state, object) {
        Err(_) => Err(AllocError),
        Ok(()) => match Proc::start(alloc, number, 0, heap, state) {
            Err(_) => Err(AllocError),
            Ok(process) => Ok(process),
        },
    }
}

/// A process, with what it runs and within which limits.
#[derive(Drop)]
pub struct Bench {
    code: Code,
    limits: Limits,
    process: Proc,
}

impl Bench {
    /// A process of that number that waits for its first message, within the usual limits.
    pub fn new(alloc: Global, code: Code, number: u32) -> Result<Bench, AllocError> {
        Ok(Bench {
            code,
            limits: Limits::defaults(),
            process: started(alloc, number)?,
        })
    }

    /// Does what a line says, and tells what came of it.
    pub fn act(&mut self, alloc: Global, sheet: &mut Sheet, line: &str) -> Result<(), AllocError> {
        let (word, rest) = first_word(line);
        match word {
            "step" => self.step(alloc, sheet),
            "cuts" => self.cuts(alloc, sheet, rest),
            "answer" => self.answer(alloc, sheet, rest),
            "limit" | "frame" | "register" | "object" => self.make(alloc, sheet, word, rest),
            _ => {
                self.look(alloc, sheet, word, rest);
                Ok(())
            }
        }
    }

    /// Runs, or tells what is to be seen.
    fn look(&mut self, alloc: Global, sheet: &mut Sheet, word: &str, rest: &str) {
        match word {
            "run" => self.run(alloc, sheet, rest),
            "frames" => frames(sheet, &self.process),
            "objects" => objects(sheet, &self.process),
            "waiting" => waiting(sheet, &self.process),
            "steps" => sheet.plain(&self.process.ran),
            "listing" => told_listing(alloc, sheet, &self.code),
            "fetch" => self.fetch(alloc, sheet, rest),
            _ => sheet.text(NOT_UNDERSTOOD),
        }
    }

    /// Makes the process ready, and tells whether the line is understood.
    fn make(
        &mut self,
        alloc: Global,
        sheet: &mut Sheet,
        word: &str,
        rest: &str,
    ) -> Result<(), AllocError> {
        let is_done = self.set_up(alloc, word, rest)?.is_some();
        sheet.text(if is_done { "done" } else { NOT_UNDERSTOOD });
        Ok(())
    }

    /// Makes the process ready. `None` where the line isn't understood.
    fn set_up(&mut self, alloc: Global, word: &str, rest: &str) -> Result<Option<()>, AllocError> {
        match word {
            "limit" => Ok(self.set_limit(rest)),
            "frame" => self.push_frame(alloc, rest),
            "register" => Ok(self.set_register(rest)),
            "object" => self.put_object(alloc, rest),
            _ => Ok(None),
        }
    }

    /// `OPTION NUMBER`: a limit that differs from the usual one.
    fn set_limit(&mut self, line: &str) -> Option<()> {
        let (option, number) = first_word(line);
        self.limits = limits_with(&self.limits, limit_of(option)?, number.parse().ok()?)?;
        Some(())
    }

    /// `METHOD`: a frame of a method is in front, with all its registers empty.
    fn push_frame(&mut self, alloc: Global, line: &str) -> Result<Option<()>, AllocError> {
        let Ok(method) = line.parse::<u32>() else {
            return Ok(None);
        };
        let Some(called) = self.code.methods.get(u64::from(method)) else {
            return Ok(None);
        };
        let mut registers = Vec::new(alloc);
        for _ in 0..called.registers {
            registers.push(Value::Empty)?;
        }
        self.process.frames.push(Frame {
            method,
            place: 0,
            registers: Items::of(registers),
        })?;
        Ok(Some(()))
    }

    /// `REGISTER VALUE`: a register of the innermost frame holds a value.
    fn set_register(&mut self, line: &str) -> Option<()> {
        let (register, value) = first_word(line);
        self.process
            .frames
            .set(register.parse().ok()?, value_of(value)?)?;
        Some(())
    }

    /// `TYPE TAG BORROWS VALUES`: one object more, with these values in its fields.
    fn put_object(&mut self, alloc: Global, line: &str) -> Result<Option<()>, AllocError> {
        let Some((kind, tag, rest)) = two_numbers(line) else {
            return Ok(None);
        };
        let (borrows, fields) = first_word(rest);
        let (Ok(count), Some(fields)) = (borrows.parse(), values(alloc, fields)?) else {
            return Ok(None);
        };
        self.process.made = self.process.made.saturating_add(1);
        let id = ObjectId {
            process: self.process.number,
            serial: self.process.made,
        };
        self.process.heap.reserve(1)?;
        let object = Object {
            kind,
            tag,
            fields,
            count,
        };
        Ok(self.process.heap.put_in(id, object).ok())
    }

    /// `STEPS`: a slice of so many.
    fn run(&mut self, alloc: Global, sheet: &mut Sheet, line: &str) {
        match line.parse() {
            Err(_) => sheet.text(NOT_UNDERSTOOD),
            Ok(turns) => {
                let ran = slice(alloc, &mut self.process, &self.code, &self.limits, turns);
                came(sheet, &ran);
            }
        }
    }

    /// One step. It is told where the process is as before.
    fn step(&mut self, alloc: Global, sheet: &mut Sheet) -> Result<(), AllocError> {
        let before = all_of(alloc, &self.process)?;
        let stepped = step(alloc, &mut self.process, &self.code, &self.limits);
        came(sheet, &stepped);
        if all_of(alloc, &self.process)?.as_str() == before.as_str() {
            sheet.text(", and the process is as before");
        }
        Ok(())
    }

    /// A process that has just begun method 0 makes so many steps in two slices.
    fn in_two(&mut self, alloc: Global, first: u64, other: u64) -> Result<String, AllocError> {
        self.process = started(alloc, self.process.number)?;
        self.push_frame(alloc, "0")?;
        let _ = slice(alloc, &mut self.process, &self.code, &self.limits, first);
        if self.process.ran != first {
            return String::from_str(alloc, "the first slice is shorter");
        }
        let _ = slice(alloc, &mut self.process, &self.code, &self.limits, other);
        all_of(alloc, &self.process)
    }

    /// The first place at which a cut of so many steps from the beginning of method 0 leaves another process than none.
    fn first_cut(&mut self, alloc: Global, turns: u64) -> Result<Option<u64>, AllocError> {
        let whole = self.in_two(alloc, 0, turns)?;
        for first in 0..turns.saturating_add(1) {
            let cut = self.in_two(alloc, first, turns.saturating_sub(first))?;
            if cut.as_str() != whole.as_str() {
                return Ok(Some(first));
            }
        }
        Ok(None)
    }

    /// `STEPS`: whether so many steps from the beginning of method 0 leave the process the same wherever they are cut.
    fn cuts(&mut self, alloc: Global, sheet: &mut Sheet, line: &str) -> Result<(), AllocError> {
        match line.parse() {
            Err(_) => sheet.text(NOT_UNDERSTOOD),
            Ok(turns) => match self.first_cut(alloc, turns)? {
                None => sheet.text("the same process at each cut"),
                Some(first) => numbered(sheet, "another process where it is cut at ", first),
            },
        }
        Ok(())
    }

    /// A reply comes for the action that is wanted.
    fn answer(&mut self, alloc: Global, sheet: &mut Sheet, line: &str) -> Result<(), AllocError> {
        let reply = match reply_in(alloc, line) {
            Ok(reply) => reply,
            Err(NoReply::NotUnderstood) => {
                sheet.text(NOT_UNDERSTOOD);
                return Ok(());
            }
            Err(NoReply::OutOfMemory) => return Err(AllocError),
        };
        match answer(alloc, &mut self.process, &self.code, reply) {
            Ok(()) => sheet.text("taken"),
            Err(AnswerFault::Wrong(why)) => sheet.text(wrong_word(why)),
            Err(AnswerFault::OutOfMemory(_)) => return Err(AllocError),
        }
        Ok(())
    }

    /// `METHOD PLACE`: the instruction there.
    fn fetch(&self, alloc: Global, sheet: &mut Sheet, line: &str) {
        match two_numbers(line) {
            None => sheet.text(NOT_UNDERSTOOD),
            Some((method, place, _)) => match self.code.fetch(method, place) {
                None => sheet.text("none"),
                Some(instr) => told_instr(sheet, instr_line(alloc, u64::from(place), instr)),
            },
        }
    }
}

/// An instruction, as a listing writes it.
fn told_instr(sheet: &mut Sheet, line: Result<Text, AllocError>) {
    match line {
        Err(AllocError) => sheet.text("no memory"),
        Ok(line) => sheet.text(text_of(&line).trim()),
    }
}

/// The listing of a code, with a line break before it.
fn told_listing(alloc: Global, sheet: &mut Sheet, code: &Code) {
    match listing(alloc, code) {
        Err(AllocError) => sheet.text("no memory"),
        Ok(lines) => {
            sheet.text("\n");
            sheet.text(text_of(&lines).trim_end());
        }
    }
}
