//! The whole phase.
ghost use Rattle.std.specs.Prelude.{IfErr};
ghost use Rattle.ink_names.specs.Later.{IsLaterFault};

use crate::room::{Room, Within};
use crate::usage::Usage;
use crate::walk::walk;
use crate::written::judge_written;
use ink_base::JudgeFault;
use ink_crossing::Sight;
use ink_findings::Typed;
use ink_module::CoreModule;
use ink_names::{Least, MethodEntry, Resolutions, Tables};
use ink_types::Types;

/// The rules on the bodies of methods.
fn judge_bodies(room: Room, least: &mut Least, methods: &[MethodEntry]) {
    for entry in methods {
        let body = room.sight.arena.method(entry.node).method.body;
        walk(room, Within::body(), least, body, Usage::Given);
    }
}

/// The phase Unique for a module whose bodies are typed without a refusal.
///
/// The rules are E50 to E55: of all that are broken, the one at the least byte, and there the one with the least code. It
/// takes no memory.
pub fn unique(
    core: &CoreModule,
    tables: &Tables,
    resolutions: &Resolutions,
    typed: &Typed,
    types: &Types,
) -> Result<(), JudgeFault>
    ensures late { IfErr result IsLaterFault }
{
    let arena = &core.arena;
    let sight = Sight {
        arena,
        resolutions,
        typed,
        types,
    };
    let room = Room { sight, tables };
    let mut least = Least::new();
    judge_written(room, &mut least);
    judge_bodies(room, &mut least, tables.methods());
    match least.finish(&core.lines) {
        Ok(()) => Ok(()),
        Err(refusal) => Err(JudgeFault::Refused(refusal)),
    }
}
