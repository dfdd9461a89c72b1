//! Tests at run time of whether a variable is there.
ghost use Rattle.std.specs.Prelude.{◌↔◌, IsTrue};
ghost use Rattle.ink_ranges.specs.Ranges as spec;

use ink_code::{Instr, Method};

/// Whether an instruction makes no such test.
fn is_no_test(instr: &Instr) -> bool
    ensures { IsTrue result ↔ spec.IsNoTest instr.now }
{
    match instr {
        Instr::DropMaybe { .. } => false,
        _ => true,
    }
}

/// Whether a method never tests whether a variable is there.
pub fn has_no_tests(method: &Method) -> bool
    ensures { IsTrue result ↔ spec.HasNoTests method.now }
{
    method.body.as_slice().iter().all(|instr| is_no_test(instr))
}
