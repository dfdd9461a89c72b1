//! What stays the same while a method is walked, and what is looked up in it.

use ink_arms::Context;
use ink_findings::Target;
use ink_forms::{Arena, Expr, ExprId, MethodId, Mode, PatternId};
use ink_members::{is_async_of, mode_of};
use ink_names::{Resolution, Tables};
use ink_plan::DropPlan;
use ink_types::{NIL, Term, TypeId, Types};

/// What `self` is in a method.
#[derive(Clone, Copy)]
pub enum Owner {
    /// There is none.
    Nobody,
    /// A borrow, of the object or of the state.
    Borrowed,
    /// The object itself, a variable like another.
    Moved,
}

/// What stays the same in a method.
#[derive(Clone, Copy)]
pub struct Room<'a> {
    pub arena: &'a Arena,
    pub context: Context<'a>,
    pub plan: &'a DropPlan<'a>,
    pub method: MethodId,
    pub owner: Owner,
}

/// Whether a type is that of nil.
fn is_nil_type(types: &Types, of: TypeId) -> bool {
    match types.term(of) {
        Term::Of { kind, .. } => kind == NIL,
        _ => false,
    }
}

impl Room<'_> {
    /// The types of the module.
    pub fn types(&self) -> &Types {
        self.context.checked.types()
    }

    /// What the module declares.
    pub fn tables(&self) -> &Tables {
        self.context.checked.tables()
    }

    /// The line of a byte.
    pub fn line(&self, byte: u32) -> u32 {
        self.context.checked.core().lines.place_of(byte).line
    }

    /// The line of an expression's own place.
    pub fn line_of(&self, number: ExprId) -> u32 {
        self.line(self.arena.expr(number).place)
    }

    /// The line of a pattern.
    pub fn pattern_line(&self, number: PatternId) -> u32 {
        self.line(self.arena.pattern(number).start)
    }

    /// The line of an expression's first token.
    pub fn first_line(&self, number: ExprId) -> u32 {
        self.line(self.arena.expr(number).start)
    }

    /// The type of a node, as it is seen there.
    pub fn type_of(&self, number: u32) -> Option<TypeId> {
        self.context.checked.typed().type_of(number)
    }

    /// Whether a node's type is a value type. A value of such a type needs no drop.
    pub fn is_value(&self, number: u32) -> bool {
        match self.type_of(number) {
            Some(of) => self.types().is_value(of),
            None => false,
        }
    }

    /// Whether a node's type is a borrow.
    pub fn is_borrow(&self, number: u32) -> bool {
        match self.type_of(number) {
            Some(of) => self.types().is_borrow(of),
            None => false,
        }
    }

    /// Whether a node's type is that of nil.
    pub fn is_nil(&self, number: u32) -> bool {
        match self.type_of(number) {
            Some(of) => is_nil_type(self.types(), of),
            None => false,
        }
    }

    /// What a name stands for.
    pub fn resolution(&self, number: u32) -> Resolution {
        self.context.checked.resolutions().get(number)
    }

    /// The variable that an expression is, if it is one. `self` is none.
    pub fn variable(&self, number: ExprId) -> Option<u32> {
        match self.resolution(number) {
            Resolution::Variable(variable) => Some(variable),
            _ => None,
        }
    }

    /// The register of a variable. A moved `self` is named by its method.
    pub fn register(&self, variable: u32) -> u32 {
        if variable == self.method {
            0
        } else {
            self.context.registers.register(variable)
        }
    }

    /// What an expression calls.
    pub fn target(&self, number: ExprId) -> Option<Target> {
        self.context.checked.typed().target(number)
    }

    /// Whether an expression calls a method.
    pub fn is_call(&self, number: ExprId) -> bool {
        self.target(number).is_some()
    }

    /// Whether an expression calls a method that takes its receiver away.
    pub fn moves_receiver(&self, number: ExprId) -> bool {
        match self.target(number) {
            Some(target) => matches!(mode_of(self.tables(), target), Mode::Move),
            None => false,
        }
    }

    /// Whether what is called is a message.
    pub fn is_message(&self, target: Target) -> bool {
        is_async_of(self.tables(), target)
    }

    /// Whether an expression is the word `self`.
    pub fn is_self(&self, number: ExprId) -> bool {
        matches!(self.arena.expr(number).expr, Expr::SelfValue)
    }
}
