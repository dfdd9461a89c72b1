//! The methods of a code.
ghost use Rattle.std.specs.Prelude.{◌≡◌, ◌+◌, ◌++◌, ◌∷◌, [], IfOk, OnOk};
ghost use Rattle.ink_assemble.specs.Certain.{AskOnlyWhereUncertain};
ghost use Rattle.ink_plan.specs.Plans.{IsCertainBetween};
ghost use Rattle.ink_ranges.specs.Ranges.{HasNoTests};

use ink_arms::Context;
use ink_base::Items;
use ink_code::Method;
use ink_emit::{LowerFault, Unsound};
use ink_lower::lower_method;
use ink_names::{MethodEntry, MethodNumber};
use ink_plan::DropPlan;
use ink_ranges::has_no_tests;
use std::alloc::AllocError;

/// The nodes of a method: from the first to before the end.
#[derive(Clone, Copy)]
struct Nodes {
    first: u32,
    end: u32,
}

/// The number behind another. The greatest is want of memory.
fn number_behind(number: u32) -> Result<u32, LowerFault>
    ensures { IfOk result (λ next. next ≡ number + 1) }
{
    match number.checked_add(1) {
        Some(next) => Ok(next),
        None => Err(LowerFault::OutOfMemory),
    }
}

/// The code of a method, which makes no test of a variable where the plan knows of each whether it is there.
fn method_of<'a>(
    context: Context<'a>,
    plan: &'a DropPlan<'a>,
    number: MethodNumber,
    nodes: Nodes,
) -> Result<Method, LowerFault>
    ensures { IfOk result (λ method. IsCertainBetween plan.now.exits plan.now.checked.now nodes.first nodes.end → HasNoTests method) }
{
    let method = lower_method(context, plan, number)?;
    if plan.is_certain(nodes.first, nodes.end) && !has_no_tests(&method) {
        return Err(LowerFault::Unsound(Unsound::Tests));
    }
    Ok(method)
}

/// Puts a method behind others.
fn add(methods: &mut Vec<Method>, method: Method) -> Result<(), AllocError>
    ensures { OnOk result (methods.new.items ≡ methods.old.items ++ method ∷ []) }
{
    methods.push(method)?;
    Ok(())
}

/// The code of some methods, each at its number.
pub(crate) fn methods_of<'a>(
    context: Context<'a>,
    plan: &'a DropPlan<'a>,
    entries: &[MethodEntry],
) -> Result<Items<Method>, LowerFault>
    ensures { IfOk result (λ methods. AskOnlyWhereUncertain plan.now.exits plan.now.checked.now 0 entries.now methods) }
{
    let mut methods = Vec::new(context.alloc);
    let mut number = 0;
    let mut first = 0;
    for entry in entries {
        let end = number_behind(entry.node)?;
        let method = method_of(context, plan, number, Nodes { first, end })?;
        add(&mut methods, method)?;
        number = number_behind(number)?;
        first = end;
    }
    Ok(Items::of(methods))
}
