//! What was read so far, while a module is parsed: its nodes, and a stack of values that no node holds yet.

ghost use Rattle.std.specs.Prelude.{◌≡◌, ◌≤◌, ◌∷◌, [], All, false, length, OnOk};
ghost use Rattle.ink_grammar.specs.Built.{IsPostorder};
ghost use Rattle.ink_grammar.specs.Tree.{no_node};

use crate::symbol::{Action, Wanted};
use crate::token::Terminal;
use crate::tree::{
    FiveChildren, FourChildren, Module, Node, OneChild, ThreeChildren, TwoChildren, is_place_form,
    is_place_word,
};
use std::alloc::{AllocError, Global};

/// A value that was read: its node, where it begins, and whether it is a place.
#[derive(Clone, Copy)]
pub struct Value {
    pub node: u32,
    pub start: u32,
    pub is_place: bool,
}

/// No node's number.
const NOTHING: u32 = 0xffff_ffff;

/// The nodes, and the values that no node holds yet, the last one on top.
#[derive(Drop)]
pub struct Builder {
    nodes: Vec<Node>,
    values: Vec<Value>,
    ghost known: { All (λ v. length nodes.items ≤ v.node → v.node ≡ no_node) values.items },
    ghost order: { IsPostorder nodes.items },
}

impl Builder {
    ghost use Rattle.ink_grammar.specs.Views as view;
    ghost use Rattle.ink_grammar.specs.Tree as spec;
    ghost use Rattle.ink_grammar.specs.Built as built;

    /// A builder that has read nothing.
    pub fn new(alloc: Global) -> Self
        ensures { view.found result ≡ [] }
    {
        Builder {
            nodes: Vec::new(alloc),
            values: Vec::new(alloc),
        }
    }

    /// Whether the last value is a place.
    pub fn is_place(&self) -> bool
        ensures { result ≡ spec.is_place (view.found self.now) }
    {
        match self.values.last() {
            Some(value) => value.is_place,
            None => false,
        }
    }

    /// The last value, or nothing where there is none.
    fn pop(&mut self) -> Value
        ensures tree { built.at (view.trees_in self.old) result.node ≡ spec.first (view.found self.old) }
        ensures start { result.start ≡ spec.start (view.found self.old) }
        ensures known { length self.new.nodes.items ≤ result.node → result.node ≡ no_node }
        ensures nodes { self.new.nodes.items ≡ self.old.nodes.items }
        ensures found { view.found self.new ≡ spec.rest (view.found self.old) }
    {
        match self.values.pop() {
            Some(value) => value,
            None => Value {
                node: NOTHING,
                start: 0,
                is_place: false,
            },
        }
    }

    /// Keeps a new node as the last value.
    fn push(&mut self, node: Node, start: u32, is_place: bool) -> Result<(), AllocError>
        requires { built.AreKnown (length self.now.nodes.items) node }
        ensures { OnOk result (view.found self.new ≡ record { tree = built.grow (view.trees_in self.old) node; start = start; is_place = is_place } ∷ view.found self.old) }
    {
        let number = self.nodes.len();
        if number >= NOTHING as usize {
            return Err(AllocError);
        }
        self.nodes.push(node)?;
        self.values.push(Value {
            node: number as u32,
            start,
            is_place,
        })?;
        Ok(())
    }

    /// Keeps a value that has its node, or none, and is no place.
    fn push_value(&mut self, node: u32, start: u32) -> Result<(), AllocError>
        requires { length self.now.nodes.items ≤ node → node ≡ no_node }
        ensures { OnOk result (view.found self.new ≡ record { tree = built.at (view.trees_in self.old) node; start = start; is_place = false } ∷ view.found self.old) }
    {
        self.values.push(Value {
            node,
            start,
            is_place: false,
        })?;
        Ok(())
    }

    /// Keeps that there is nothing, which makes no node.
    fn push_nothing(&mut self) -> Result<(), AllocError>
        ensures { OnOk result (view.found self.new ≡ spec.value spec.Missing 0 ∷ view.found self.old) }
    {
        self.push_value(NOTHING, 0)?;
        Ok(())
    }

    /// Drops the opening parenthesis below the last value.
    fn close(&mut self) -> Result<(), AllocError>
        ensures { OnOk result (view.found self.new ≡ spec.closed (view.found self.old)) }
    {
        let inner = self.pop();
        let opening = self.pop();
        self.push_value(inner.node, opening.start)
    }

    /// Keeps what a wanted token says.
    pub fn keep(&mut self, wanted: Wanted, token: Terminal) -> Result<(), AllocError>
        ensures { OnOk result (view.found self.new ≡ spec.keep wanted token (view.found self.old)) }
    {
        match wanted {
            Wanted::Mark(_) => Ok(()),
            _ => self.push(Node::Leaf(token), token.start, is_place_word(token.shape)),
        }
    }

    /// The module whose tree was found last.
    pub fn finish(mut self) -> Module
        ensures { view.tree result ≡ spec.first (view.found self) }
    {
        let root = self.pop();
        Module::new(self.nodes, root.node)
    }

    /// Makes what the action says of the values that were found last.
    pub fn act(&mut self, action: Action) -> Result<(), AllocError>
        ensures { OnOk result (view.found self.new ≡ spec.act action (view.found self.old)) }
    {
        match action {
            Action::Empty => self.push(Node::Empty, 0, false),
            Action::Nothing => self.push_nothing(),
            Action::Closed => self.close(),
            Action::One(form) => self.one(form),
            Action::Two(form) => self.two(form),
            Action::Three(form) => self.three(form),
            Action::Four(form) => self.four(form),
            Action::Five(form) => self.five(form),
        }
    }

    fn one(&mut self, form: OneChild) -> Result<(), AllocError>
        ensures { OnOk result (view.found self.new ≡ spec.one form (view.found self.old)) }
    {
        let first = self.pop();
        let node = Node::One(form, first.start, first.node);
        self.push(node, first.start, false)
    }

    fn two(&mut self, form: TwoChildren) -> Result<(), AllocError>
        ensures { OnOk result (view.found self.new ≡ spec.two form (view.found self.old)) }
    {
        let second = self.pop();
        let first = self.pop();
        let node = Node::Two(form, first.start, first.node, second.node);
        self.push(node, first.start, is_place_form(form))
    }

    fn three(&mut self, form: ThreeChildren) -> Result<(), AllocError>
        ensures { OnOk result (view.found self.new ≡ spec.three form (view.found self.old)) }
    {
        let third = self.pop();
        let second = self.pop();
        let first = self.pop();
        let node = Node::Three(form, first.start, first.node, second.node, third.node);
        self.push(node, first.start, false)
    }

    fn four(&mut self, form: FourChildren) -> Result<(), AllocError>
        ensures { OnOk result (view.found self.new ≡ spec.four form (view.found self.old)) }
    {
        let fourth = self.pop();
        let third = self.pop();
        let second = self.pop();
        let first = self.pop();
        let node = Node::Four(
            form,
            first.start,
            first.node,
            second.node,
            third.node,
            fourth.node,
        );
        self.push(node, first.start, false)
    }

    fn five(&mut self, form: FiveChildren) -> Result<(), AllocError>
        ensures { OnOk result (view.found self.new ≡ spec.five form (view.found self.old)) }
    {
        let fifth = self.pop();
        let fourth = self.pop();
        let third = self.pop();
        let second = self.pop();
        let first = self.pop();
        let node = Node::Five(
            form,
            first.start,
            first.node,
            second.node,
            third.node,
            fourth.node,
            fifth.node,
        );
        self.push(node, first.start, false)
    }
}
