//! What a parent sees of a node of the grammar.
ghost use Rattle.std.specs.Prelude.{◌≡◌, IfOk, map, reverse, OnOk};
ghost use Rattle.ink_grammar.specs.Views as from;
ghost use Rattle.ink_lexicon.specs.Trees as spec;

use ink_grammar::{Keyword, Module, Node, Shape, Terminal, TwoChildren};
use std::alloc::{AllocError, Global};

/// A token of no source.
const NO_TOKEN: Terminal = Terminal {
    shape: Shape::Name,
    start: 0,
    end: 0,
    new_line: false,
};

/// The token that a node is.
pub fn token_of(parsed: &Module, number: u32) -> Terminal
    ensures { result ≡ spec.token_of (from.tree_at parsed.now number) }
{
    match parsed.node(number) {
        Some(Node::Leaf(token)) => token,
        _ => NO_TOKEN,
    }
}

/// Where a node begins.
pub fn start_of(parsed: &Module, number: u32) -> u32
    ensures { result ≡ spec.start_of (from.tree_at parsed.now number) }
{
    match parsed.node(number) {
        None => 0,
        Some(Node::Leaf(token)) => token.start,
        Some(Node::Empty) => 0,
        Some(Node::One(_, start, _)) => start,
        Some(Node::Two(_, start, _, _)) => start,
        Some(Node::Three(_, start, _, _, _)) => start,
        Some(Node::Four(_, start, _, _, _, _)) => start,
        Some(Node::Five(_, start, _, _, _, _, _)) => start,
    }
}

/// The items of a list, the last first.
fn items_backwards(alloc: Global, parsed: &Module, list: u32) -> Result<Vec<u32>, AllocError>
    ensures { IfOk result (λ items. map (from.tree_at parsed.now) (reverse items.items) ≡ spec.items_of (from.tree_at parsed.now list)) }
{
    let mut items = Vec::new(alloc);
    let mut rest = list;
    for _ in 0..u32::MAX {
        match parsed.node(rest) {
            Some(Node::Two(TwoChildren::More, _, before, item)) => {
                items.push(item)?;
                rest = before;
            }
            _ => return Ok(items),
        }
    }
    Err(AllocError)
}

/// The items of a list, in order.
pub fn items_of(alloc: Global, parsed: &Module, list: u32) -> Result<Vec<u32>, AllocError>
    ensures { IfOk result (λ items. map (from.tree_at parsed.now) items.items ≡ spec.items_of (from.tree_at parsed.now list)) }
{
    let mut items = items_backwards(alloc, parsed, list)?;
    items.reverse();
    Ok(items)
}

/// The alternatives of a pattern, the last first.
fn alternatives_backwards(
    alloc: Global,
    parsed: &Module,
    pattern: u32,
) -> Result<Vec<u32>, AllocError>
    ensures { IfOk result (λ items. map (from.tree_at parsed.now) (reverse items.items) ≡ spec.alternatives_of (from.tree_at parsed.now pattern)) }
{
    let mut items = Vec::new(alloc);
    let mut rest = pattern;
    for _ in 0..u32::MAX {
        match parsed.node(rest) {
            Some(Node::Two(TwoChildren::Either, _, before, item)) => {
                items.push(item)?;
                rest = before;
            }
            _ => {
                items.push(rest)?;
                return Ok(items);
            }
        }
    }
    Err(AllocError)
}

/// The alternatives of a pattern, in order.
pub fn alternatives_of(alloc: Global, parsed: &Module, pattern: u32) -> Result<Vec<u32>, AllocError>
    ensures { IfOk result (λ items. map (from.tree_at parsed.now) items.items ≡ spec.alternatives_of (from.tree_at parsed.now pattern)) }
{
    let mut items = alternatives_backwards(alloc, parsed, pattern)?;
    items.reverse();
    Ok(items)
}

/// The words of a list behind a declaration's own.
pub fn has_word(
    alloc: Global,
    parsed: &Module,
    list: u32,
    word: Keyword,
) -> Result<bool, AllocError> {
    let items = items_of(alloc, parsed, list)?;
    Ok(items.iter().any(|item| token_of(parsed, *item).shape == Shape::Keyword(word)))
}

/// Whether anything is written at a node.
pub fn is_written(parsed: &Module, number: u32) -> bool
    ensures { result ≡ spec.is_written (from.tree_at parsed.now number) }
{
    match parsed.node(number) {
        Some(_) => true,
        None => false,
    }
}
