//! The trees of sources, and the heights of what stands in them.

use crate::phases::{fault_told, terminal_told};
use ink_base::Limits;
use ink_grammar::{Module, Node, TwoChildren};
use ink_heights::first_too_high;
use ink_reading::read_module;
use ink_sheet::Sheet;
use std::alloc::{AllocError, Global};
use std::fmt::Debug;

/// What is told of the node of this number, if it was told before.
fn child(told: &[String], number: u32) -> &str {
    match told.get(number as usize) {
        Some(told) => told.as_str(),
        None => "-",
    }
}

/// Tells of a form with its children, by what was told of the nodes before.
fn form<F: Debug>(
    alloc: Global,
    form: &F,
    told: &[String],
    children: &[u32],
) -> Result<String, AllocError> {
    let mut sheet = Sheet::new(alloc);
    sheet.shown(form);
    let mut sign = "(";
    for number in children {
        sheet.text(sign);
        sheet.text(child(told, *number));
        sign = ", ";
    }
    sheet.text(")");
    sheet.whole()
}

/// A list with one item more.
fn longer(alloc: Global, told: &[String], list: u32, item: u32) -> Result<String, AllocError> {
    let mut sheet = Sheet::new(alloc);
    sheet.text(child(told, list));
    sheet.text(" ");
    sheet.text(child(told, item));
    sheet.whole()
}

/// A node, by what was told of those before it. A list is its items, with a `.` in front.
fn node_told(
    alloc: Global,
    source: &[u8],
    told: &[String],
    node: Node,
) -> Result<String, AllocError> {
    match node {
        Node::Leaf(token) => terminal_told(alloc, source, token),
        Node::Empty => String::from_str(alloc, "."),
        Node::One(name, _, a) => form(alloc, &name, told, &[a]),
        Node::Two(TwoChildren::More, _, list, item) => longer(alloc, told, list, item),
        Node::Two(name, _, a, b) => form(alloc, &name, told, &[a, b]),
        Node::Three(name, _, a, b, c) => form(alloc, &name, told, &[a, b, c]),
        Node::Four(name, _, a, b, c, d) => form(alloc, &name, told, &[a, b, c, d]),
        Node::Five(name, _, a, b, c, d, e) => form(alloc, &name, told, &[a, b, c, d, e]),
    }
}

fn module_told(alloc: Global, source: &[u8], module: &Module) -> Result<String, AllocError> {
    let mut told = Vec::new(alloc);
    for node in module.nodes() {
        let one = node_told(alloc, source, &told, *node)?;
        told.push(one)?;
    }
    String::from_str(alloc, child(&told, module.root()))
}

/// The tree: each form with its children, each token as its text, and a `-` for nothing.
pub fn tree_told(alloc: Global, source: &[u8]) -> Result<String, AllocError> {
    match read_module(alloc, source, &Limits::defaults()) {
        Ok(reading) => module_told(alloc, source, &reading.module),
        Err(fault) => fault_told(alloc, fault),
    }
}

/// Tells the height of the module behind ", over .." for each lesser limit.
fn module_height(alloc: Global, module: &Module) -> Result<String, AllocError> {
    let mut over = Sheet::new(alloc);
    let mut height: u64 = 200;
    for most in 1..200 {
        match first_too_high(alloc, module, most)? {
            Some(byte) => {
                over.text(", over ");
                over.plain(&most);
                over.text(" at byte ");
                over.plain(&byte);
            }
            None => {
                height = most;
                break;
            }
        }
    }
    let told = over.whole()?;
    let mut sheet = Sheet::new(alloc);
    sheet.text("height ");
    sheet.plain(&height);
    sheet.text(told.as_str());
    sheet.whole()
}

/// The height of the module, and for each lesser limit the byte of the first node that is too high.
pub fn height_told(alloc: Global, source: &[u8]) -> Result<String, AllocError> {
    match read_module(alloc, source, &Limits::defaults()) {
        Ok(reading) => module_height(alloc, &reading.module),
        Err(fault) => fault_told(alloc, fault),
    }
}
