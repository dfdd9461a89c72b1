//! The constants of a module.

use ink_base::{Items, Text, Value};
use ink_checked::Checked;
use ink_emit::Constants;
use ink_forms::{Arena, Expr, Literal, Pattern};
use ink_module::CoreModule;
use ink_names::KindEntry;
use std::alloc::{AllocError, Global};

/// How many integers, texts and tags a module has.
#[derive(Clone, Copy)]
struct Counts {
    integers: u32,
    texts: u32,
    tags: u32,
}

/// The literal of a node, if it has one.
fn literal_of(arena: &Arena, node: u32) -> Option<Literal> {
    if let Pattern::Lit { literal } = arena.pattern(node).pattern {
        return Some(literal);
    }
    match arena.expr(node).expr {
        Expr::Lit { literal } => Some(literal),
        _ => None,
    }
}

/// Counts up to a literal's number.
fn count_literal(counts: Counts, literal: Option<Literal>) -> Counts {
    let Counts {
        integers,
        texts,
        tags,
    } = counts;
    match literal {
        Some(Literal::Int(integer)) => Counts {
            integers: integer.saturating_add(1).max(integers),
            texts,
            tags,
        },
        Some(Literal::Text(text)) => Counts {
            integers,
            texts: text.saturating_add(1).max(texts),
            tags,
        },
        _ => counts,
    }
}

/// The greatest number of constructors that a type has.
fn count_tags(kinds: &[KindEntry]) -> u32 {
    let mut most = 0;
    for kind in kinds {
        most = kind.constructors.len().max(most);
    }
    most.min(u32::MAX as usize) as u32
}

/// The counts of a module.
fn counts_of(checked: &Checked) -> Counts {
    let arena = &checked.core().arena;
    let mut counts = Counts {
        integers: 0,
        texts: 0,
        tags: count_tags(checked.tables().kinds()),
    };
    for node in 0..arena.len() {
        counts = count_literal(counts, literal_of(arena, node as u32));
    }
    counts
}

/// Adds nil and the truth values.
fn add_words(values: &mut Vec<Value>) -> Result<(), AllocError> {
    values.push(Value::Nil)?;
    values.push(Value::Bool(false))?;
    values.push(Value::Bool(true))?;
    Ok(())
}

/// Adds integers.
fn add_integers(core: &CoreModule, count: u32, values: &mut Vec<Value>) -> Result<(), AllocError> {
    for integer in 0..count {
        values.push(Value::Int(core.integers.value(integer)))?;
    }
    Ok(())
}

/// Adds texts.
fn add_texts(
    alloc: Global,
    core: &CoreModule,
    count: u32,
    values: &mut Vec<Value>,
) -> Result<(), AllocError> {
    for text in 0..count {
        values.push(Value::Txt(Text::of(alloc, core.texts.text(text))?))?;
    }
    Ok(())
}

/// Adds the tags of constructors.
fn add_tags(count: u32, values: &mut Vec<Value>) -> Result<(), AllocError> {
    for tag in 0..count {
        values.push(Value::Int(tag as i64))?;
    }
    Ok(())
}

/// The constants of a module, and how they are numbered.
pub(crate) fn constants_of(
    alloc: Global,
    checked: &Checked,
) -> Result<(Constants, Items<Value>), AllocError> {
    let counts = counts_of(checked);
    let mut values = Vec::new(alloc);
    add_words(&mut values)?;
    add_integers(checked.core(), counts.integers, &mut values)?;
    add_texts(alloc, checked.core(), counts.texts, &mut values)?;
    add_tags(counts.tags, &mut values)?;
    let numbers = Constants {
        integers: counts.integers,
        texts: counts.texts,
    };
    Ok((numbers, Items::of(values)))
}
