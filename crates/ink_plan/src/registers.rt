//! The registers of variables.

use ink_checked::Checked;
use ink_forms::{Arena, MethodId, Mode};
use ink_names::{Home, MethodEntry, MethodNumber, Resolution, Resolutions};
use std::alloc::{AllocError, Global};

/// The register of each variable in its method, and how many registers each method has for them.
///
/// `self` has register 0 in a method that has it. The parameters follow, in order, which is where a call puts the
/// arguments. Then come the other variables of the body, in the order of the nodes that declare them.
#[derive(Drop)]
pub struct Registers {
    of_nodes: Vec<u32>,
    counts: Vec<u32>,
}

/// So many zeros.
fn zeros(alloc: Global, count: usize) -> Result<Vec<u32>, AllocError> {
    let mut numbers = Vec::new(alloc);
    for _ in 0..count {
        numbers.push(0)?;
    }
    Ok(numbers)
}

/// Puts a number in the place of another, if there is one.
fn set_at(numbers: &mut Vec<u32>, node: u32, number: u32) {
    if let Some(old) = numbers.get_mut(node as usize) {
        *old = number;
    }
}

/// Whether a method has a `self`: one in the braces of a type or an impl that isn't static.
fn has_self(entry: &MethodEntry) -> bool {
    match (entry.home, entry.mode) {
        (Home::Module, _) => false,
        (_, Mode::Static) => false,
        _ => true,
    }
}

/// Gives `self` and the parameters of a method their registers, and tells how many they are.
fn add_parameters(arena: &Arena, entry: &MethodEntry, of_nodes: &mut Vec<u32>) -> u32 {
    let node = arena.method(entry.node).method;
    let mut next = if has_self(entry) { 1 } else { 0 };
    for parameter in arena.list(node.parameters) {
        set_at(of_nodes, *parameter, next);
        next = next.saturating_add(1);
    }
    next
}

/// The register of a node, and 0 of a number that is no node's.
fn register_at(of_nodes: &[u32], node: u32) -> u32 {
    match of_nodes.get(node as usize) {
        Some(register) => *register,
        None => 0,
    }
}

/// Gives the variables that nodes of a body declare their registers behind so many, and tells how many they are then. A
/// node that names a variable of another node has its register.
fn add_declared(
    resolutions: &Resolutions,
    from: u32,
    method: MethodId,
    first: u32,
    of_nodes: &mut Vec<u32>,
) -> u32 {
    let mut next = first;
    for node in from..method {
        if let Resolution::Variable(variable) = resolutions.get(node) {
            if variable == node {
                set_at(of_nodes, node, next);
                next = next.saturating_add(1);
            } else {
                let register = register_at(of_nodes, variable);
                set_at(of_nodes, node, register);
            }
        }
    }
    next
}

impl Registers {
    /// The registers of all methods of a module. An `AllocError` is want of memory.
    pub fn of_module(alloc: Global, checked: &Checked) -> Result<Registers, AllocError> {
        let arena = &checked.core().arena;
        let mut of_nodes = zeros(alloc, arena.len())?;
        let mut counts = Vec::new(alloc);
        let mut from = 0;
        for entry in checked.tables().methods() {
            let first = add_parameters(arena, entry, &mut of_nodes);
            let count = add_declared(
                checked.resolutions(),
                from,
                entry.node,
                first,
                &mut of_nodes,
            );
            counts.push(count)?;
            from = entry.node;
        }
        Ok(Registers { of_nodes, counts })
    }

    /// The register of a variable, by a node that declares or names it. `self` is named by its method, and has register 0.
    pub fn register(&self, variable: u32) -> u32 {
        register_at(&self.of_nodes, variable)
    }

    /// How many registers a method has for `self`, parameters and variables.
    pub fn count(&self, method: MethodNumber) -> u32 {
        match self.counts.get(method as usize) {
            Some(count) => *count,
            None => 0,
        }
    }
}
