//! The counting loop, as a code made by hand.
ghost use Rattle.std.specs.Prelude.{◌≡◌, length, IfOk};

use ink_base::{Items, Text, Value};
use ink_code::row_numbers::{INT_ADD, INT_LESS};
use ink_code::{Code, Frame, Instr, Method};
use ink_heap::Heap;
use ink_proc::{Frames, Pending, Proc};
use std::alloc::{AllocError, Global};

/// The register that counts.
const COUNTER: u32 = 0;

/// The registers with 1 and with the end of the loop.
const ONE: u32 = 1;

const END: u32 = 2;

/// The registers of operands, and that of the test.
const LEFT: u32 = 3;

const RIGHT: u32 = 4;

const GOES_ON: u32 = 5;

/// The places where the loop begins, and where it counts.
const TEST: u32 = 3;

const COUNT: u32 = 8;

/// The end of the loop, which no run comes to.
const GREATEST: i64 = 9_000_000_000_000_000_000;

/// The row of a number on the operands.
fn row(alloc: Global, row: u32, to: u32) -> Result<Instr, AllocError> {
    Ok(Instr::Prim {
        row,
        to,
        operands: Items::of(vec![in alloc; LEFT, RIGHT]?),
    })
}

/// From 0 on: while the counter is less than the end, one is added to it.
fn body(alloc: Global) -> Result<Vec<Instr>, AllocError>
    ensures { IfOk result (λ body. length body.items ≡ 12) }
{
    let less = row(alloc, INT_LESS, GOES_ON)?;
    let plus = row(alloc, INT_ADD, COUNTER)?;
    Ok(vec![in alloc;
        Instr::Const {
            to: COUNTER,
            constant: 0
        },
        Instr::Const {
            to: ONE,
            constant: 1
        },
        Instr::Const {
            to: END,
            constant: 2
        },
        Instr::Copy {
            to: LEFT,
            from: COUNTER
        },
        Instr::Copy {
            to: RIGHT,
            from: END
        },
        less,
        Instr::JumpIf {
            on: GOES_ON,
            place: COUNT
        },
        Instr::Return { from: COUNTER },
        Instr::Copy {
            to: LEFT,
            from: COUNTER
        },
        Instr::Copy {
            to: RIGHT,
            from: ONE
        },
        plus,
        Instr::Jump { place: TEST },
    ]?)
}

/// The code of the loop: one method.
pub fn a_code(alloc: Global) -> Result<Code, AllocError> {
    let main = Method {
        name: Text::of(alloc, b"Main.main")?,
        registers: 6,
        body: Items::of(body(alloc)?),
        lines: Items::new(alloc),
    };
    let constants = vec![in alloc; Value::Int(0), Value::Int(1), Value::Int(GREATEST)]?;
    Ok(Code {
        methods: Items::of(vec![in alloc; main]?),
        constants: Items::of(constants),
        kinds: Items::of(vec![in alloc; Text::of(alloc, b"Main")?]?),
        impls: Items::new(alloc),
        main_kind: 0,
        main: 0,
    })
}

/// Process 1 before the first step of the loop.
pub fn a_process(alloc: Global) -> Result<Proc, AllocError> {
    let registers = vec![in alloc;
        Value::Empty,
        Value::Empty,
        Value::Empty,
        Value::Empty,
        Value::Empty,
        Value::Empty,
    ]?;
    let mut frames = Frames::new(alloc);
    let first = Frame {
        method: 0,
        place: 0,
        registers: Items::of(registers),
    };
    if frames.push(first).is_err() {
        return Err(AllocError);
    }
    Ok(Proc {
        number: 1,
        kind: 0,
        made: 1,
        frames,
        heap: Heap::new(alloc),
        pending: Pending::new(alloc),
        ran: 0,
        room: Vec::new(alloc),
    })
}

/// To how much the loop has counted.
pub fn count_in(process: &Proc) -> Option<i64> {
    match process.frames.register(COUNTER) {
        Some(Value::Int(number)) => Some(*number),
        _ => None,
    }
}
