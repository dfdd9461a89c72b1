//! The instructions.
//!
//! Registers are named by number, and so are constants, methods, types, rows and the places of instructions. All count
//! from 0.

use ink_base::Items;

/// One instruction.
#[derive(Drop)]
pub enum Instr {
    /// A constant.
    Const {
        to: u32,
        constant: u32,
    },
    /// The value of another register, which is empty then.
    Move {
        to: u32,
        from: u32,
    },
    /// A copy of a value or of a borrow.
    Copy {
        to: u32,
        from: u32,
    },
    /// A borrow of an owner's object, another of a borrow's, or a value itself.
    Borrow {
        to: u32,
        from: u32,
    },
    /// The contents of two registers change places.
    Exchange {
        one: u32,
        other: u32,
    },
    /// The reference to this process.
    MyProc {
        to: u32,
    },
    /// A new object of a type, with a tag, whose fields are moved in.
    Make {
        to: u32,
        kind: u32,
        tag: u32,
        fields: Items<u32>,
    },
    /// A new array, whose items are moved in.
    MakeArray {
        to: u32,
        items: Items<u32>,
    },
    /// A copy of the value or borrow in a field.
    Load {
        to: u32,
        object: u32,
        field: u32,
    },
    /// What `Borrow` gives of the value in a field.
    LoadBorrow {
        to: u32,
        object: u32,
        field: u32,
    },
    /// A value is moved into a field, and the field's old value comes out.
    Store {
        to: u32,
        object: u32,
        field: u32,
        from: u32,
    },
    /// The tag of an object.
    Tag {
        to: u32,
        object: u32,
    },
    /// An object is given up, and its fields go to registers.
    TakeApart {
        to: Items<u32>,
        object: u32,
    },
    /// A value is dropped.
    Drop {
        from: u32,
    },
    /// A value is dropped where there is one.
    DropMaybe {
        from: u32,
    },
    /// Goes on at a place.
    Jump {
        place: u32,
    },
    /// Goes on at a place where a register holds true.
    JumpIf {
        on: u32,
        place: u32,
    },
    /// Calls a method, to which the arguments are moved.
    Invoke {
        to: u32,
        method: u32,
        arguments: Items<u32>,
    },
    /// The same, with the method that the type of the first argument's object has in a slot.
    InvokeBound {
        to: u32,
        slot: u32,
        arguments: Items<u32>,
    },
    /// Ends the method with a value.
    Return {
        from: u32,
    },
    /// A row of the built-in methods that is no action.
    Prim {
        row: u32,
        to: u32,
        operands: Items<u32>,
    },
    /// Ends the run with a text.
    Panic {
        text: u32,
    },
    /// A new process of a type, to whose state the fields go.
    Spawn {
        to: u32,
        kind: u32,
        fields: Items<u32>,
    },
    /// A message to a process.
    Send {
        process: u32,
        method: u32,
        arguments: Items<u32>,
    },
    /// A line of the output.
    Print {
        text: u32,
    },
    /// A new future and its promise.
    FutureNew {
        future: u32,
        promise: u32,
    },
    /// The value of a future, for which the process waits.
    FutureGet {
        to: u32,
        future: u32,
    },
    /// Sets the value of a promise's future.
    PromiseSet {
        promise: u32,
        from: u32,
    },
}
