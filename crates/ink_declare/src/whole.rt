//! The whole phase.
ghost use Rattle.std.specs.Prelude.{IfErr};
ghost use Rattle.ink_names.specs.Later.{IsLaterFault};

use crate::builder::Builder;
use crate::declarations::{add_entries, name_declarations};
use crate::duplicates::NameList;
use crate::imports::imports;
use crate::known::Known;
use crate::methods::resolve_declarations;
use crate::program::judge_program;
use crate::scope::Scope;
use crate::state::{Room, State};
use ink_base::JudgeFault;
use ink_module::CoreModule;
use ink_names::{BUILT_INS, Least, Resolutions, Tables};
use std::alloc::{AllocError, Global};

/// What a module declares, and what each name in it stands for.
#[derive(Drop)]
pub struct Declared {
    pub tables: Tables,
    pub resolutions: Resolutions,
}

/// The entries of a module, made with what its imports and its declarations name.
fn entries(alloc: Global, core: &CoreModule) -> Result<Builder<'_>, AllocError> {
    let mut least = Least::new();
    let mut known = Known::of(alloc, &core.names)?;
    let declared = &core.declarations;
    imports(
        alloc,
        &core.names,
        &mut known,
        &mut least,
        &declared.imports,
    )?;
    name_declarations(
        alloc,
        &core.names,
        &mut known,
        &mut least,
        &declared.declarations,
    )?;
    judge_program(&core.arena, known.words, &mut least, &declared.declarations);
    let mut builder = Builder {
        alloc,
        names: &core.names,
        arena: &core.arena,
        known,
        tables: Tables::new(alloc),
        least,
        functions: NameList::new(alloc),
        next_slot: 0,
    };
    add_entries(&mut builder, &declared.declarations)?;
    Ok(builder)
}

/// What the names of a module stand for, and the least refusal of the phase.
fn resolved(
    room: &Room,
    core: &CoreModule,
    least: Least,
) -> Result<(Resolutions, Least), AllocError> {
    let mut state = State {
        least,
        resolutions: Resolutions::empty(room.alloc, core.arena.len())?,
        variables: Scope::new(room.alloc),
        parameters: Scope::new(room.alloc),
    };
    resolve_declarations(
        room,
        BUILT_INS.len() as u32,
        &mut state,
        &core.declarations.declarations,
    )?;
    let State {
        least,
        resolutions,
        ..
    } = state;
    Ok((resolutions, least))
}

/// The tables of a module, and what its names stand for.
///
/// It is refused with the least of the rules that are broken in this phase: a name that nothing in scope has, a name
/// that is declared or given twice in one list or is a built-in one, an import of what can't be imported, and a module
/// with which no run can begin. Of these the one at the least byte is told, and there the one with the least code.
pub fn declare(alloc: Global, core: &CoreModule) -> Result<Declared, JudgeFault>
    ensures late { IfErr result IsLaterFault }
{
    let Builder {
        known,
        tables,
        least,
        ..
    } = entries(alloc, core)?;
    let room = Room {
        alloc,
        arena: &core.arena,
        known: &known,
        tables: &tables,
    };
    let (resolutions, least) = match resolved(&room, core, least) {
        Ok(found) => found,
        Err(AllocError) => return Err(JudgeFault::OutOfMemory),
    };
    match least.finish(&core.lines) {
        Ok(()) => Ok(Declared {
            tables,
            resolutions,
        }),
        Err(refusal) => Err(JudgeFault::Refused(refusal)),
    }
}
