//! One method.

use crate::around::Around;
use crate::exits::leave_method;
use crate::walk::walk;
use ink_arms::Context;
use ink_base::Text;
use ink_code::Method;
use ink_emit::{Given, LowerFault, Unsound};
use ink_forms::{Expr, ExprId, Mode};
use ink_names::{Home, KindId, KindName, MethodEntry, MethodNumber};
use ink_operations::{Owner, Room, Work};
use ink_plan::DropPlan;
use std::alloc::AllocError;

/// The name of a type.
fn kind_name<'a>(context: &Context<'a>, kind: KindId) -> &'a [u8] {
    match context.checked.tables().kind(kind) {
        Some(entry) => match entry.name {
            KindName::BuiltIn(built_in) => built_in.name(),
            KindName::Declared(name) => context.checked.core().names.text(name),
        },
        None => b"",
    }
}

/// The type of whose values a method is, if it isn't one of the module.
fn home_kind(home: Home) -> Option<KindId> {
    match home {
        Home::Module => None,
        Home::Type(kind) => Some(kind),
        Home::Impl { kind, .. } => Some(kind),
    }
}

/// The name of a method, as a report of a panic writes it: `TYPE.METHOD`, or `METHOD` of one of the module.
fn method_name(context: &Context, entry: &MethodEntry) -> Result<Text, AllocError> {
    let mut name = Vec::new(context.alloc);
    if let Some(kind) = home_kind(entry.home) {
        name.extend_from_slice(kind_name(context, kind))?;
        name.push(b'.')?;
    }
    name.extend_from_slice(context.checked.core().names.text(entry.name))?;
    Ok(Text::from_bytes(name))
}

/// What `self` is in a method. One of the module has none.
fn owner_of(entry: &MethodEntry) -> Owner {
    if matches!(entry.home, Home::Module) {
        return Owner::Nobody;
    }
    match entry.mode {
        Mode::Plain | Mode::Mut => Owner::Borrowed,
        Mode::Move => Owner::Moved,
        Mode::Static => Owner::Nobody,
    }
}

/// The byte at which a body ends.
fn end_of(room: &Room, body: ExprId) -> u32 {
    let node = room.arena.expr(body);
    match node.expr {
        Expr::Block { end, .. } => end,
        _ => node.place,
    }
}

/// Ends a body that gave this.
fn end_body(room: &Room, work: &mut Work, body: ExprId, given: Given) -> Result<(), LowerFault> {
    let line = room.line(end_of(room, body));
    match work.settle(room, given, line)? {
        Some(from) => leave_method(room, work, room.method, from, line),
        None => Ok(()),
    }
}

/// The code of a method, which its module declares. A number that is no method's is `Unsound`.
pub fn lower_method<'a>(
    context: Context<'a>,
    plan: &'a DropPlan<'a>,
    number: MethodNumber,
) -> Result<Method, LowerFault> {
    let Some(entry) = context.checked.tables().method(number) else {
        return Err(LowerFault::Unsound(Unsound::Node(number)));
    };
    let arena = &context.checked.core().arena;
    let room = Room {
        arena,
        context,
        plan,
        method: entry.node,
        owner: owner_of(entry),
    };
    let body = arena.method(entry.node).method.body;
    let around = Around {
        statement: arena.expr(body).start,
        turn: None,
    };
    let name = method_name(&context, entry)?;
    let mut work = Work::new(context.alloc, context.registers.count(number));
    let given = walk(&room, around, &mut work, body)?;
    end_body(&room, &mut work, body, given)?;
    let Work { body, .. } = work;
    Ok(body.finish(name))
}
