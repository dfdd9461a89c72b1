//! The nodes of lists: arguments, arms and the pieces of texts.
use ink_forms::{Identifier, Literal};
use ink_grammar::{FourChildren, Node, Shape, TwoChildren};
use ink_lexicon::{Surface, identifier, items_of, text_literal, token_of};
use std::alloc::AllocError;

/// A node whose value is made, and whether that value is given up: that of a statement, or that of the last statement of a
/// block.
#[derive(Clone, Copy)]
pub(crate) struct Item {
    pub node: u32,
    pub is_given_up: bool,
}

/// Arguments: the fields that they are for, where they are written, and the nodes of their values.
#[derive(Drop)]
pub(crate) struct Arguments {
    pub labels: Vec<Option<Identifier>>,
    pub values: Vec<Item>,
}

/// The nodes of an arm. That of its guard may be nothing.
#[derive(Clone, Copy)]
pub(crate) struct ArmParts {
    pub pattern: u32,
    pub guard: u32,
    pub value: u32,
}

/// An item of a text.
#[derive(Clone, Copy)]
pub(crate) enum Piece {
    /// A part as it is.
    Part(Literal),
    /// The node of an embedded expression.
    Embedded(u32),
}

/// A node whose value is used.
pub(crate) fn plain(node: u32) -> Item {
    Item {
        node,
        is_given_up: false,
    }
}

/// A node whose value is given up.
pub(crate) fn given_up(node: u32) -> Item {
    Item {
        node,
        is_given_up: true,
    }
}

/// The items of a list of values.
pub(crate) fn plain_items(surface: &Surface, list: u32) -> Result<Vec<Item>, AllocError> {
    let items = items_of(surface.alloc, surface.module, list)?;
    let mut made = Vec::new(surface.alloc);
    for item in &items {
        made.push(plain(*item))?;
    }
    Ok(made)
}

/// The statements of a block. The value of each but the last is given up, and perhaps that of the last.
pub(crate) fn statements_of(
    surface: &Surface,
    is_given_up: bool,
    list: u32,
) -> Result<Vec<Item>, AllocError> {
    let items = items_of(surface.alloc, surface.module, list)?;
    let mut made = Vec::new(surface.alloc);
    let mut others = items.len();
    for item in &items {
        others = others.saturating_sub(1);
        made.push(Item {
            node: *item,
            is_given_up: is_given_up || others > 0,
        })?;
    }
    Ok(made)
}

/// No arguments.
pub(crate) fn no_arguments(surface: &Surface) -> Arguments {
    Arguments {
        labels: Vec::new(surface.alloc),
        values: Vec::new(surface.alloc),
    }
}

/// Arguments without fields.
pub(crate) fn unlabelled(surface: &Surface, nodes: &[u32]) -> Result<Arguments, AllocError> {
    let labels = Vec::new(surface.alloc);
    let mut values = Vec::new(surface.alloc);
    for node in nodes {
        values.push(plain(*node))?;
    }
    Ok(Arguments { labels, values })
}

/// The field that an argument is for, where it is written, and the node of its value.
fn argument_of(surface: &Surface, item: u32) -> (Option<Identifier>, u32) {
    match surface.module.node(item) {
        Some(Node::Two(TwoChildren::Named, _, named, value)) => {
            let label = identifier(surface, token_of(surface.module, named));
            (Some(label), value)
        }
        _ => (None, item),
    }
}

/// The arguments of a list.
pub(crate) fn arguments_of(surface: &Surface, list: u32) -> Result<Arguments, AllocError> {
    let items = items_of(surface.alloc, surface.module, list)?;
    let mut labels = Vec::new(surface.alloc);
    let mut values = Vec::new(surface.alloc);
    for item in &items {
        let (label, value) = argument_of(surface, *item);
        labels.push(label)?;
        values.push(plain(value))?;
    }
    Ok(Arguments { labels, values })
}

/// An arm. An item that is none is pattern, guard and value itself.
fn arm_of(surface: &Surface, item: u32) -> ArmParts {
    match surface.module.node(item) {
        Some(Node::Four(FourChildren::Arm, _, _, pattern, guard, value)) => ArmParts {
            pattern,
            guard,
            value,
        },
        _ => ArmParts {
            pattern: item,
            guard: item,
            value: item,
        },
    }
}

/// The arms of a list.
pub(crate) fn arms_of(surface: &Surface, list: u32) -> Result<Vec<ArmParts>, AllocError> {
    let items = items_of(surface.alloc, surface.module, list)?;
    let mut arms = Vec::new(surface.alloc);
    for item in &items {
        arms.push(arm_of(surface, *item))?;
    }
    Ok(arms)
}

/// An item of a text.
fn piece_of(surface: &Surface, item: u32) -> Result<Piece, AllocError> {
    let token = token_of(surface.module, item);
    match token.shape {
        Shape::TextPart => {
            let literal = text_literal(surface, token)?;
            Ok(Piece::Part(literal))
        }
        _ => Ok(Piece::Embedded(item)),
    }
}

/// The items of a text.
pub(crate) fn pieces_of(surface: &Surface, list: u32) -> Result<Vec<Piece>, AllocError> {
    let items = items_of(surface.alloc, surface.module, list)?;
    let mut pieces = Vec::new(surface.alloc);
    for item in &items {
        let piece = piece_of(surface, *item)?;
        pieces.push(piece)?;
    }
    Ok(pieces)
}
