//! How patterns, written types and parameters are listed, and the words that several kinds of nodes have.
use crate::item::{Item, Line};
use crate::words;
use ink_forms::{
    Arena, FieldPattern, Literal, Made, Pattern, PatternNode, WrittenNode, WrittenType,
};
use std::alloc::Global;

pub(crate) fn add_literal(line: &mut Line, literal: Literal) {
    match literal {
        Literal::Int(number) => line.put(Item::Integer(number)),
        Literal::Bool(true) => line.word(b"true"),
        Literal::Bool(false) => line.word(b"false"),
        Literal::Nil => line.word(b"nil"),
        Literal::Text(number) => line.put(Item::Text(number)),
    }
}

pub(crate) fn add_made(line: &mut Line, made: Made) {
    match made {
        Made::Named(name) => line.name(name),
        Made::Some => line.word(b"built-in Some"),
        Made::None => line.word(b"built-in None"),
        Made::Ok => line.word(b"built-in Ok"),
        Made::Error => line.word(b"built-in Error"),
        Made::Tuple2 => line.word(b"Tuple2"),
        Made::Tuple3 => line.word(b"Tuple3"),
    }
}

fn add_patterns(line: &mut Line, numbers: &[u32]) {
    for number in numbers {
        line.put(Item::Pattern(*number));
    }
    line.word(b")");
}

fn add_fields(line: &mut Line, fields: &[FieldPattern]) {
    for field in fields {
        line.word(b"(@");
        line.name(field.field.name);
        line.put(Item::Byte(b"@", field.field.place));
        line.put(Item::Pattern(field.pattern));
        line.word(b")");
    }
    line.word(b")");
}

/// A word that opens a node, with its places.
pub(crate) fn open(line: &mut Line, word: &'static [u8], start: u32, place: u32) {
    line.word(b"(");
    line.word(word);
    line.places(start, place);
}

/// How a pattern is listed.
pub(crate) fn pattern_line(alloc: Global, arena: &Arena, number: u32) -> Line {
    let node = arena.pattern(number);
    let mut line = Line::new(alloc);
    match node.pattern {
        Pattern::Constructor { made, parts } => {
            open(&mut line, b"con", node.start, node.place);
            add_made(&mut line, made);
            add_patterns(&mut line, arena.list(parts));
        }
        Pattern::Either { alternatives } => {
            open(&mut line, b"either", node.start, node.place);
            add_patterns(&mut line, arena.list(alternatives));
        }
        Pattern::Fields { fields } => {
            open(&mut line, b"fields", node.start, node.place);
            add_fields(&mut line, arena.fields(fields));
        }
        _ => add_leaf(&mut line, node),
    }
    line
}

/// A pattern without parts.
fn add_leaf(line: &mut Line, node: PatternNode) {
    match node.pattern {
        Pattern::Lit { literal } => add_literal(line, literal),
        Pattern::Name { is_mutable, name } => {
            if is_mutable {
                line.word(b"mut");
            }
            line.name(name);
        }
        _ => line.word(b"_"),
    }
    line.places(node.start, node.place);
}

/// How a written type is listed.
pub(crate) fn written_line(alloc: Global, arena: &Arena, number: u32) -> Line {
    let node: WrittenNode = arena.written(number);
    let mut line = Line::new(alloc);
    match node.written {
        WrittenType::Named { name, arguments } => {
            line.name(name);
            line.places(node.start, node.place);
            let arguments = arena.list(arguments);
            if !arguments.is_empty() {
                line.word(b"(");
                add_types(&mut line, arguments);
            }
        }
        WrittenType::Prefixed { prefix, bare } => {
            open(&mut line, words::prefix(prefix), node.start, node.place);
            line.put(Item::Written(bare));
            line.word(b")");
        }
        WrittenType::Tuple { parts } => {
            open(&mut line, b"tuple", node.start, node.place);
            add_types(&mut line, arena.list(parts));
        }
    }
    line
}

fn add_types(line: &mut Line, numbers: &[u32]) {
    for number in numbers {
        line.put(Item::Written(*number));
    }
    line.word(b")");
}

/// How a parameter is listed.
pub(crate) fn parameter_line(alloc: Global, arena: &Arena, number: u32) -> Line {
    let node = arena.parameter(number);
    let mut line = Line::new(alloc);
    line.word(b"(");
    line.name(node.parameter.name);
    line.places(node.start, node.place);
    line.put(Item::Written(node.parameter.annotation));
    line.word(b")");
    line
}
