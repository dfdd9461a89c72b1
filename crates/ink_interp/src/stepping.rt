//! One step of a process.
ghost use Rattle.ink_code.specs.Step.{code_step, free_step, top_step};
ghost use Rattle.ink_steps.specs.Answers.{IsStep, MayStep};

use crate::instr::instr_step;
use ink_base::{Limit, Limits};
use ink_code::{Code, Wrong};
use ink_proc::Proc;
use ink_steps::{Request, StepFault, Stepped, drop_next};
use std::alloc::Global;

/// The step of a process without drops that wait. It wants to take a message where it has no frame.
#[tactic(auto, unfolding(ink_code::specs::Step::top_step, ink_code::specs::Machine::given))]
fn top_step(
    alloc: Global,
    proc: &mut Proc,
    code: &Code,
    limits: &Limits,
) -> Result<Stepped, StepFault>
    requires { MayStep proc.old }
    ensures { IsStep (λ p. top_step code.now limits.now p.frames p) result proc.old proc.new }
{
    let (method, place) = match proc.frames.top() {
        None => return Ok(Stepped::Wants(Request::Take)),
        Some(frame) => (frame.method, frame.place),
    };
    match code.fetch(method, place) {
        None => Err(StepFault::Wrong(Wrong::Absent)),
        Some(instr) => instr_step(alloc, proc, code, limits, place + 1, instr),
    }
}

/// The step of a process that may make one: a drop that waits comes first.
#[tactic(auto, unfolding(ink_code::specs::Step::free_step))]
fn free_step(
    alloc: Global,
    proc: &mut Proc,
    code: &Code,
    limits: &Limits,
) -> Result<Stepped, StepFault>
    requires { MayStep proc.old }
    ensures { IsStep (λ p. free_step code.now limits.now p.pending p) result proc.old proc.new }
{
    if proc.pending.first().is_some() {
        drop_next(alloc, proc, code)
    } else {
        top_step(alloc, proc, code, limits)
    }
}

/// One step of a process.
///
/// `Spent` where it made as many steps since its last action as the limit of local steps allows. A step that went on
/// raises the number of steps by one, and no other step does.
#[tactic(auto, unfolding(ink_code::specs::Step::code_step, ink_code::specs::Machine::when))]
pub fn step(
    alloc: Global,
    proc: &mut Proc,
    code: &Code,
    limits: &Limits,
) -> Result<Stepped, StepFault>
    ensures { IsStep (code_step code.now limits.now) result proc.old proc.new }
{
    if limits.get(Limit::Local) <= proc.ran {
        return Ok(Stepped::Spent(proc.ran));
    }
    free_step(alloc, proc, code, limits)
}
