//! How expressions are listed.
use crate::item::{Item, Line};
use crate::nodes::{add_literal, add_made, open};
use crate::words;
use ink_forms::{Arena, Argument, Arm, Binding, Expr, ExprNode, Selector};
use std::alloc::Global;

fn add_list(line: &mut Line, numbers: &[u32]) {
    line.word(b"[");
    for number in numbers {
        line.put(Item::Expr(*number));
    }
    line.word(b"]");
}

fn add_arguments(line: &mut Line, arguments: &[Argument]) {
    line.word(b"[");
    for argument in arguments {
        if let Some(label) = argument.label {
            line.name(label.name);
            line.put(Item::Byte(b"@", label.place));
            line.word(b":");
        }
        line.put(Item::Expr(argument.value));
    }
    line.word(b"]");
}

fn add_arms(line: &mut Line, arms: &[Arm]) {
    for arm in arms {
        line.word(b"(case");
        line.put(Item::Pattern(arm.pattern));
        if let Some(guard) = arm.guard {
            line.word(b"if");
            line.put(Item::Expr(guard));
        }
        line.put(Item::Expr(arm.value));
        line.word(b")");
    }
}

fn add_selector(line: &mut Line, selector: Selector) {
    match selector {
        Selector::Field(name) => {
            line.word(b"own");
            line.name(name);
        }
        Selector::Named(name) => line.name(name),
        Selector::Part(number) => line.put(Item::Integer(number)),
    }
}

fn add_binding(line: &mut Line, binding: Binding) {
    match binding {
        Binding::Fixed(name) => line.name(name),
        Binding::Mutable(name) => {
            line.word(b"mut");
            line.name(name);
        }
        Binding::Wildcard => line.word(b"_"),
    }
}

/// How an expression is listed.
pub(crate) fn expr_line(alloc: Global, arena: &Arena, number: u32) -> Line {
    let node = arena.expr(number);
    let mut line = Line::new(alloc);
    match node.expr {
        Expr::Lit { literal } => {
            add_literal(&mut line, literal);
            line.places(node.start, node.place);
        }
        Expr::Var { name } => {
            line.name(name);
            line.places(node.start, node.place);
        }
        Expr::SelfValue => {
            line.word(b"self");
            line.places(node.start, node.place);
        }
        Expr::Block { end, statements } => {
            open(&mut line, b"block", node.start, node.place);
            line.put(Item::Byte(b"-", end));
            add_list(&mut line, arena.list(statements));
            line.word(b")");
        }
        _ => {
            open(&mut line, head(node.expr), node.start, node.place);
            add_made_of(&mut line, arena, number);
            add_parts(&mut line, node);
            line.word(b")");
        }
    }
    line
}

/// The word of an expression.
fn head(expr: Expr) -> &'static [u8] {
    match expr {
        Expr::Field { .. } => b"field",
        Expr::Borrow { kind, .. } => words::borrow(kind),
        Expr::Set { .. } => b"set",
        Expr::Swap { .. } => b"swap",
        Expr::Let { .. } => b"let",
        Expr::TypedLet { .. } => b"let",
        Expr::New { .. } => b"new",
        Expr::NewOf { .. } => b"new",
        Expr::Arr { .. } => b"array",
        Expr::Call { .. } => b"call",
        Expr::Operate { .. } => b"call",
        Expr::Fn { .. } => b"fn",
        Expr::Static { .. } => b"static",
        Expr::Match { choice, .. } => words::choice(choice),
        Expr::Loop { .. } => b"loop",
        Expr::Break => b"break",
        Expr::Next => b"next",
        Expr::Return { .. } => b"return",
        Expr::Recover { .. } => b"recover",
        Expr::Panic { .. } => b"panic",
        Expr::Drop { .. } => b"drop",
        Expr::Statement { .. } => b"statement",
        _ => b"block",
    }
}

/// The names and lists of an expression that has a list.
fn add_made_of(line: &mut Line, arena: &Arena, number: u32) {
    match arena.expr(number).expr {
        Expr::New { made, arguments } => {
            add_made(line, made);
            add_arguments(line, arena.arguments(arguments));
        }
        Expr::NewOf {
            owner,
            name,
            arguments,
        } => {
            line.name(owner);
            line.name(name);
            add_arguments(line, arena.arguments(arguments));
        }
        Expr::Arr { items } => add_list(line, arena.list(items)),
        Expr::Call {
            name,
            receiver,
            arguments,
        } => {
            line.name(name);
            line.put(Item::Expr(receiver));
            add_list(line, arena.list(arguments));
        }
        Expr::Match {
            scrutinee,
            arms,
            ..
        } => {
            line.put(Item::Expr(scrutinee));
            add_arms(line, arena.arms(arms));
        }
        _ => add_called(line, arena, number),
    }
}

/// The names and lists of an expression that calls without a receiver.
fn add_called(line: &mut Line, arena: &Arena, number: u32) {
    match arena.expr(number).expr {
        Expr::Fn { name, arguments } => {
            line.name(name);
            add_list(line, arena.list(arguments));
        }
        Expr::Static {
            owner,
            name,
            arguments,
        } => {
            line.name(owner);
            line.name(name);
            add_list(line, arena.list(arguments));
        }
        Expr::Panic { arguments } => add_list(line, arena.list(arguments)),
        _ => {}
    }
}

/// The names and children of an expression that has no list.
fn add_parts(line: &mut Line, node: ExprNode) {
    match node.expr {
        Expr::Field { selector, base } => {
            add_selector(line, selector);
            line.put(Item::Expr(base));
        }
        Expr::Set { place, value } => {
            line.put(Item::Expr(place));
            line.put(Item::Expr(value));
        }
        Expr::Swap { place, value } => {
            line.put(Item::Expr(place));
            line.put(Item::Expr(value));
        }
        Expr::Operate {
            operator,
            receiver,
            argument,
        } => {
            line.word(words::operator(operator));
            line.put(Item::Expr(receiver));
            line.word(b"[");
            line.put(Item::Expr(argument));
            line.word(b"]");
        }
        _ => add_child(line, node.expr),
    }
}

/// The name and child of an expression that has one child.
fn add_child(line: &mut Line, expr: Expr) {
    match expr {
        Expr::Let { binding, value } => {
            add_binding(line, binding);
            line.put(Item::Expr(value));
        }
        Expr::TypedLet {
            binding,
            annotation,
            value,
        } => {
            add_binding(line, binding);
            line.word(b":");
            line.put(Item::Written(annotation));
            line.put(Item::Expr(value));
        }
        Expr::Borrow { operand, .. } => line.put(Item::Expr(operand)),
        Expr::Loop { body } => line.put(Item::Expr(body)),
        Expr::Return { value } => line.put(Item::Expr(value)),
        Expr::Recover { operand } => line.put(Item::Expr(operand)),
        Expr::Drop { value } => line.put(Item::Expr(value)),
        Expr::Statement { value } => line.put(Item::Expr(value)),
        _ => {}
    }
}
