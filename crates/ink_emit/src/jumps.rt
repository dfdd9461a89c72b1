//! Jumps whose places aren't known when they are made.
ghost use Rattle.std.specs.Prelude.{◌≡◌};
ghost use Rattle.ink_emit.specs.Bodies as spec;

use ink_code::Instr;

/// A jump whose place isn't known yet, by its own place.
#[derive(Drop)]
pub struct Hole {
    pub(crate) place: u32,
}

/// Lets a jump lead to a place. Any other instruction stays as it is.
fn lead(instr: &mut Instr, to: u32)
    ensures { instr.new ≡ spec.led instr.old to }
{
    match instr {
        Instr::Jump { place } => *place = to,
        Instr::JumpIf { place, .. } => *place = to,
        _ => {}
    }
}

/// Lets the jump at a place lead to another place. Where no jump stands, nothing is done.
pub(crate) fn lead_at(code: &mut Vec<Instr>, place: u32, to: u32)
    ensures { code.new.items ≡ spec.led_at code.old.items place to }
{
    if let Some(instr) = code.get_mut(place as usize) {
        lead(instr, to);
    }
}
