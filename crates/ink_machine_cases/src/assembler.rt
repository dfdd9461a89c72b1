//! A code from its text.
//!
//! A line is one of these, and blank lines say nothing:
//!
//! - `constant VALUE`, `constant text TEXT`: one constant more
//! - `type NAME`: one type more, behind the eleven that each code has
//! - `impl TYPE SLOT METHOD`: a type has a method in a slot
//! - `method NAME registers COUNT`: a method begins
//! - `NAME OPERANDS`: an instruction of the method, as a listing writes it, with its place before it or without

use crate::instructions::instruction;
use crate::words::{first_word, numbers, two_numbers, value_of};
use ink_base::{Items, Text, Value};
use ink_code::{Code, Impl, Instr, Method};
use std::alloc::{AllocError, AllocFailed, Global};

/// The names of the types that each code has, from type 0 on.
static TYPES: [&str; 11] = [
    "Int", "Bool", "Nil", "String", "Never", "Option", "Pair", "Array", "Future", "Promise",
    "Stdout",
];

/// The most instructions that a method has.
const MOST: usize = 4_294_967_295;

/// What is wrong with a line.
#[derive(Clone, Copy)]
pub enum BadLine {
    Constant,
    Impl,
    Method,
    Instruction,
    /// An instruction stands before the first method.
    NoMethod,
    OutOfMemory,
}

impl BadLine {
    /// What it is called.
    pub fn text(self) -> &'static str {
        match self {
            BadLine::Constant => "no such constant",
            BadLine::Impl => "no such impl",
            BadLine::Method => "no such method",
            BadLine::Instruction => "no such instruction",
            BadLine::NoMethod => "no method for this instruction",
            BadLine::OutOfMemory => "no memory",
        }
    }
}

impl From<AllocError> for BadLine {
    fn from(_: AllocError) -> BadLine {
        BadLine::OutOfMemory
    }
}

impl<T: Drop> From<AllocFailed<T>> for BadLine {
    fn from(_: AllocFailed<T>) -> BadLine {
        BadLine::OutOfMemory
    }
}

/// Which line of a code is wrong, counted from 1, and in which way.
#[derive(Clone, Copy)]
pub struct AssemblyFault {
    pub line: u64,
    pub why: BadLine,
}

/// A method to which instructions are added.
#[derive(Drop)]
struct Draft {
    name: Text,
    registers: u32,
    body: Vec<Instr>,
}

/// The parts of a code, as far as it was read.
#[derive(Drop)]
struct Parts {
    constants: Vec<Value>,
    types: Vec<Text>,
    impls: Vec<Impl>,
    methods: Vec<Method>,
    draft: Option<Draft>,
}

impl Parts {
    /// Those of a code of which no line was read.
    fn new(alloc: Global) -> Result<Parts, AllocError> {
        let mut types = Vec::new(alloc);
        for name in TYPES {
            types.push(Text::of(alloc, name.as_bytes())?)?;
        }
        Ok(Parts {
            constants: Vec::new(alloc),
            types,
            impls: Vec::new(alloc),
            methods: Vec::new(alloc),
            draft: None,
        })
    }

    /// The method in work is done.
    fn end_method(&mut self, alloc: Global) -> Result<(), AllocError> {
        if let Some(draft) = self.draft.take() {
            let Draft {
                name,
                registers,
                mut body,
            } = draft;
            body.truncate(MOST);
            self.methods.push(Method {
                name,
                registers,
                body: Items::of(body),
                lines: Items::new(alloc),
            })?;
        }
        Ok(())
    }

    /// `VALUE` or `text TEXT`.
    fn read_constant(&mut self, alloc: Global, line: &str) -> Result<(), BadLine> {
        let value = match first_word(line) {
            ("text", text) => Value::Txt(Text::of(alloc, text.as_bytes())?),
            (word, _) => value_of(word).ok_or(BadLine::Constant)?,
        };
        self.constants.push(value)?;
        Ok(())
    }

    /// `TYPE SLOT METHOD`.
    fn read_impl(&mut self, line: &str) -> Result<(), BadLine> {
        let (kind, slot, rest) = two_numbers(line).ok_or(BadLine::Impl)?;
        let Ok(method) = rest.parse() else {
            return Err(BadLine::Impl);
        };
        self.impls.push(Impl { kind, slot, method })?;
        Ok(())
    }

    /// `NAME registers COUNT`.
    fn read_method(&mut self, alloc: Global, line: &str) -> Result<(), BadLine> {
        let (name, count) = line.split_once(" registers ").ok_or(BadLine::Method)?;
        let Ok(registers) = count.parse() else {
            return Err(BadLine::Method);
        };
        self.end_method(alloc)?;
        self.draft = Some(Draft {
            name: Text::of(alloc, name.as_bytes())?,
            registers,
            body: Vec::new(alloc),
        });
        Ok(())
    }

    /// `NAME OPERANDS`, behind the place of the instruction where the line tells one.
    fn read_instruction(&mut self, alloc: Global, line: &str) -> Result<(), BadLine> {
        let (first, rest) = first_word(line);
        let (name, operands) = match first.parse::<u32>() {
            Ok(_) => first_word(rest),
            Err(_) => (first, rest),
        };
        let operands = numbers(alloc, operands)?.ok_or(BadLine::Instruction)?;
        let instr = instruction(alloc, name, operands.as_slice())?.ok_or(BadLine::Instruction)?;
        match &mut self.draft {
            None => Err(BadLine::NoMethod),
            Some(draft) => {
                draft.body.push(instr)?;
                Ok(())
            }
        }
    }

    /// One line.
    fn read(&mut self, alloc: Global, line: &str) -> Result<(), BadLine> {
        match first_word(line) {
            ("", _) => Ok(()),
            ("constant", rest) => self.read_constant(alloc, rest),
            ("type", name) => {
                self.types.push(Text::of(alloc, name.as_bytes())?)?;
                Ok(())
            }
            ("impl", rest) => self.read_impl(rest),
            ("method", rest) => self.read_method(alloc, rest),
            _ => self.read_instruction(alloc, line),
        }
    }

    /// The code that was read.
    fn code(mut self, alloc: Global) -> Result<Code, AllocError> {
        self.end_method(alloc)?;
        let Parts {
            constants,
            types,
            impls,
            methods,
            draft: _,
        } = self;
        Ok(Code {
            methods: Items::of(methods),
            constants: Items::of(constants),
            kinds: Items::of(types),
            impls: Items::of(impls),
            main_kind: 0,
            main: 0,
        })
    }
}

/// The code of a text, or the first line that is wrong.
pub fn assemble(alloc: Global, text: &str) -> Result<Code, AssemblyFault> {
    let without_memory = AssemblyFault {
        line: 0,
        why: BadLine::OutOfMemory,
    };
    let Ok(mut parts) = Parts::new(alloc) else {
        return Err(without_memory);
    };
    let mut number = 0u64;
    for line in text.lines() {
        number = number.saturating_add(1);
        if let Err(why) = parts.read(alloc, line) {
            return Err(AssemblyFault { line: number, why });
        }
    }
    match parts.code(alloc) {
        Ok(code) => Ok(code),
        Err(_) => Err(without_memory),
    }
}
