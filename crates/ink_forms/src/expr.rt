//! Expressions: the few forms into which each value and statement of the grammar is put.

use crate::list::Children;
use crate::pattern::PatternId;
use crate::word::{Identifier, IntegerId, Literal, Made, NameId};
use crate::written::WrittenTypeId;
use ink_base::BorrowKind;

/// The number of an expression. All nodes of a module share one space of numbers.
pub type ExprId = u32;

/// The operators that are methods.
#[derive(Clone, Copy)]
pub enum Operator {
    Add,
    Subtract,
    Multiply,
    Divide,
    Remainder,
    Equal,
    NotEqual,
    Less,
    LessOrEqual,
    Greater,
    GreaterOrEqual,
    And,
    Or,
    ExclusiveOr,
    ShiftLeft,
    ShiftRight,
}

/// What is selected of a base, without arguments.
#[derive(Clone, Copy)]
pub enum Selector {
    /// `@name`: always a field of `self`.
    Field(NameId),
    /// `.name` without arguments: a field, or a method where there is no such field.
    Named(NameId),
    /// The part of a tuple, by its place from 0.
    Part(IntegerId),
}

/// What a `let` declares.
#[derive(Clone, Copy)]
pub enum Binding {
    Fixed(NameId),
    Mutable(NameId),
    /// `_`, with or without `mut`.
    Wildcard,
}

/// What was written where a `Match` stands. The scrutinee of one that is made from `if`, `while`, `and` or `or` is a
/// condition.
#[derive(Clone, Copy)]
pub enum Choice {
    Match,
    If,
    While,
    And,
    Or,
    Try,
}

/// An expression. Its children come before it.
#[derive(Clone, Copy)]
pub enum Expr {
    Lit {
        literal: Literal,
    },
    /// A variable. The one that `try` adds has the name `try`, which no source can give to a variable.
    Var {
        name: NameId,
    },
    SelfValue,
    /// A read of a field, or a call of a method without arguments. Its own place is the name.
    Field {
        selector: Selector,
        base: ExprId,
    },
    Borrow {
        kind: BorrowKind,
        operand: ExprId,
    },
    /// A write, whose own place is the operator.
    Set {
        place: ExprId,
        value: ExprId,
    },
    /// A write that gives the old value, whose own place is the operator.
    Swap {
        place: ExprId,
        value: ExprId,
    },
    Let {
        binding: Binding,
        value: ExprId,
    },
    /// A `let` with a written type.
    TypedLet {
        binding: Binding,
        annotation: WrittenTypeId,
        value: ExprId,
    },
    /// Statements, and the byte of the closing brace. Each but the last is a `Let` or a `Statement`.
    Block {
        end: u32,
        statements: Children,
    },
    /// A new object. The items of the list are arguments.
    New {
        made: Made,
        arguments: Children,
    },
    /// A new object by the constructor `name` of the enum `owner`. The items of the list are arguments.
    NewOf {
        owner: NameId,
        name: NameId,
        arguments: Children,
    },
    Arr {
        items: Children,
    },
    /// A call of a method by its name, which is also its own place.
    Call {
        name: NameId,
        receiver: ExprId,
        arguments: Children,
    },
    /// A call of a method by its operator, which is also its own place.
    Operate {
        operator: Operator,
        receiver: ExprId,
        argument: ExprId,
    },
    /// A call of a method of the module.
    Fn {
        name: NameId,
        arguments: Children,
    },
    /// A call of a static method, whose own place is the name.
    Static {
        owner: NameId,
        name: NameId,
        arguments: Children,
    },
    /// The first arm that fits the scrutinee. Its own place is the word of an `and` or `or`.
    Match {
        choice: Choice,
        scrutinee: ExprId,
        arms: Children,
    },
    Loop {
        body: ExprId,
    },
    Break,
    Next,
    Return {
        value: ExprId,
    },
    Recover {
        operand: ExprId,
    },
    Panic {
        arguments: Children,
    },
    /// A value that is given up.
    Drop {
        value: ExprId,
    },
    /// A value at whose end its temporaries end. It starts where the statement does, parentheses included.
    Statement {
        value: ExprId,
    },
}

/// An argument of a new object, with the field's name where it is written. It is no node.
#[derive(Clone, Copy)]
pub struct Argument {
    pub label: Option<Identifier>,
    pub value: ExprId,
}

/// An arm of a `Match`. It is no node.
#[derive(Clone, Copy)]
pub struct Arm {
    pub pattern: PatternId,
    pub guard: Option<ExprId>,
    pub value: ExprId,
}
