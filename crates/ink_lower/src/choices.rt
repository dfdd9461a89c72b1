//! Choices: what is done between the parts of a `Match`.

use crate::exits::leave;
use ink_arms::{Fits, bind, test};
use ink_code::Instr;
use ink_emit::{Given, Holding, Hole, LowerFault};
use ink_forms::{Arm, ExprId};
use ink_operations::{Guard, Room, Work, add_hole};

/// What is matched, and where the arms put their values.
#[derive(Clone, Copy)]
pub(crate) struct Matched {
    pub number: ExprId,
    pub scrutinee: ExprId,
    /// The register of what is matched.
    pub register: u32,
    /// How many registers are held besides.
    pub mark: usize,
    /// The register of the value.
    pub to: u32,
}

/// The jumps that are open between arms.
#[derive(Drop)]
pub(crate) struct Chain {
    /// Those behind an arm's value, which lead behind all arms.
    pub ends: Vec<Hole>,
    /// Those of the arm in work whose pattern doesn't fit or whose guard is false.
    pub failed: Vec<Hole>,
    /// Whether control goes on behind an arm.
    pub goes_on: bool,
}

/// Begins a choice behind its scrutinee, whose value is in a register. The arms put their values into the free one.
pub(crate) fn begin(work: &Work, number: ExprId, scrutinee: ExprId, register: u32) -> Matched {
    Matched {
        number,
        scrutinee,
        register,
        mark: work.body.mark(),
        to: work.body.free(),
    }
}

/// No arms yet.
pub(crate) fn no_arms(room: &Room) -> Chain {
    Chain {
        ends: Vec::new(room.context.alloc),
        failed: Vec::new(room.context.alloc),
        goes_on: false,
    }
}

/// Adds the jump of a test that failed.
fn jump_on_failure(
    work: &mut Work,
    on: u32,
    line: u32,
    chain: &mut Chain,
) -> Result<(), LowerFault> {
    let yes = work.body.jump_if(line, on)?;
    let no = work.body.jump(line)?;
    add_hole(&mut chain.failed, no)?;
    work.body.land(yes);
    Ok(())
}

/// Begins an arm, to which the failures of the one before lead: tests its pattern, unless nothing is left to try.
pub(crate) fn try_arm(
    room: &Room,
    work: &mut Work,
    matched: Matched,
    arm: Arm,
    is_last: bool,
    chain: &mut Chain,
) -> Result<(), LowerFault> {
    work.body.land_all(&chain.failed);
    chain.failed.clear();
    work.body.release(matched.mark);
    work.body.hold(matched.register, Holding::Operand)?;
    if is_last && arm.guard.is_none() {
        return Ok(());
    }
    let line = room.pattern_line(arm.pattern);
    let fits = test(
        &room.context,
        &mut work.body,
        arm.pattern,
        matched.register,
        line,
    )?;
    match fits {
        Fits::Always => Ok(()),
        Fits::In(on) => jump_on_failure(work, on, line, chain),
    }
}

/// Puts the guard of an arm in force.
pub(crate) fn begin_guard(work: &mut Work, matched: Matched, arm: Arm) -> Result<(), LowerFault> {
    work.add_guard(Guard {
        pattern: arm.pattern,
        scrutinee: matched.scrutinee,
        register: matched.register,
    })?;
    Ok(())
}

/// Ends the guard of an arm, which gave this: whether control goes on behind it.
pub(crate) fn end_guard(
    room: &Room,
    work: &mut Work,
    condition: ExprId,
    given: Given,
    chain: &mut Chain,
) -> Result<bool, LowerFault> {
    work.guards.pop();
    let line = room.line_of(condition);
    match work.settle(room, given, line)? {
        Some(on) => {
            jump_on_failure(work, on, line, chain)?;
            Ok(true)
        }
        None => Ok(false),
    }
}

/// Binds the variables of an arm that was chosen. What is matched is held no longer.
pub(crate) fn bind_arm(
    room: &Room,
    work: &mut Work,
    matched: Matched,
    arm: Arm,
) -> Result<(), LowerFault> {
    let line = room.pattern_line(arm.pattern);
    bind(
        &room.context,
        &mut work.body,
        arm.pattern,
        matched.register,
        line,
    )?;
    work.body.release(matched.mark);
    Ok(())
}

/// Puts the value of an arm where that of the choice is wanted. Nil needs no register.
fn put_value(
    room: &Room,
    work: &mut Work,
    matched: Matched,
    given: Given,
    line: u32,
) -> Result<(), LowerFault> {
    if room.is_nil(matched.number) {
        return Ok(());
    }
    let to = matched.to;
    match work.settle(room, given, line)? {
        Some(from) if from != to => work.body.emit(line, Instr::Move { to, from }),
        _ => Ok(()),
    }
}

/// Ends an arm whose value gave this: its variables go. Whether control goes on behind it.
pub(crate) fn end_arm(
    room: &Room,
    work: &mut Work,
    matched: Matched,
    arm: Arm,
    given: Given,
) -> Result<bool, LowerFault> {
    if let Given::Ends = given {
        return Ok(false);
    }
    let line = room.pattern_line(arm.pattern);
    leave(room, work, arm.pattern, line)?;
    put_value(room, work, matched, given, line)?;
    Ok(true)
}

/// Joins an arm behind whose value control goes on to the others. The last one needs no jump.
pub(crate) fn join_arm(
    room: &Room,
    work: &mut Work,
    arm: Arm,
    is_last: bool,
    chain: &mut Chain,
) -> Result<(), LowerFault> {
    chain.goes_on = true;
    if is_last && chain.failed.is_empty() {
        return Ok(());
    }
    let hole = work.body.jump(room.pattern_line(arm.pattern))?;
    add_hole(&mut chain.ends, hole)?;
    Ok(())
}

/// Ends the false side of a choice by a condition: where control goes on behind it, it jumps over the true side.
pub(crate) fn end_false_side(
    work: &mut Work,
    goes_on: bool,
    line: u32,
    chain: &mut Chain,
) -> Result<(), LowerFault> {
    if goes_on {
        let hole = work.body.jump(line)?;
        add_hole(&mut chain.ends, hole)?;
    }
    Ok(())
}

/// What a choice gives.
pub(crate) fn joined(room: &Room, matched: Matched, goes_on: bool) -> Given {
    if !goes_on {
        Given::Ends
    } else if room.is_nil(matched.number) {
        Given::Nil
    } else {
        Given::At(matched.to)
    }
}

/// Ends a choice behind its arms. That none of them fits is never met: what stands for it jumps to itself.
pub(crate) fn end_choice(
    room: &Room,
    work: &mut Work,
    matched: Matched,
    chain: &Chain,
) -> Result<Given, LowerFault> {
    work.body.release(matched.mark);
    if !chain.failed.is_empty() || !chain.goes_on && chain.ends.is_empty() {
        work.body.land_all(&chain.failed);
        let place = work.body.place();
        let line = room.line_of(matched.number);
        work.body.emit(line, Instr::Jump { place })?;
    }
    work.body.land_all(&chain.ends);
    Ok(joined(room, matched, chain.goes_on))
}
