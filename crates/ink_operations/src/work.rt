//! What grows while a method is walked.

use crate::room::Room;
use ink_emit::{Body, Given, Hole, LowerFault};
use ink_forms::{ExprId, PatternId};
use std::alloc::{AllocError, Global};

/// A guard in force: the pattern of its arm, the expression that is matched, and the register that holds it.
#[derive(Clone, Copy)]
pub struct Guard {
    pub pattern: PatternId,
    pub scrutinee: ExprId,
    pub register: u32,
}

impl Guard {
    /// Whether its pattern binds a variable that is in scope. The nodes of an arm's pattern come after the scrutinee.
    fn binds(&self, variable: u32) -> bool {
        self.scrutinee < variable && variable <= self.pattern
    }
}

/// The code so far, the guards in force, and the jumps that leave the loops round here.
#[derive(Drop)]
pub struct Work {
    pub body: Body,
    pub guards: Vec<Guard>,
    pub breaks: Vec<Hole>,
}

/// Adds a jump whose place isn't known yet.
pub fn add_hole(holes: &mut Vec<Hole>, hole: Hole) -> Result<(), AllocError> {
    holes.push(hole)?;
    Ok(())
}

impl Work {
    /// No code yet, of a method with so many registers for variables.
    pub fn new(alloc: Global, variables: u32) -> Work {
        Work {
            body: Body::new(alloc, variables),
            guards: Vec::new(alloc),
            breaks: Vec::new(alloc),
        }
    }

    /// Puts a guard in force.
    pub fn add_guard(&mut self, guard: Guard) -> Result<(), AllocError> {
        self.guards.push(guard)?;
        Ok(())
    }

    /// The guard in force whose pattern binds a variable.
    pub(crate) fn guard_of(&self, variable: u32) -> Option<Guard> {
        for guard in &self.guards {
            if guard.binds(variable) {
                return Some(*guard);
            }
        }
        None
    }

    /// The register of what an expression gives. `None` where it ends.
    pub fn settle(
        &mut self,
        room: &Room,
        given: Given,
        line: u32,
    ) -> Result<Option<u32>, LowerFault> {
        self.body.settle(given, line, room.context.constants)
    }
}
